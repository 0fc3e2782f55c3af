//! The clients of a play, and what they are served over.
ghost use Rattle.std.specs.Prelude.{◌≡◌, ◌<◌, IfOk, length, slice_index_or};
ghost use Rattle.play.specs.Players.{AreAllowed, ArePlayers, IsAllowedTo, IsPlayer};

use crate::played::Given;
use crate::player::Player;
use act_client::{Act, Script};
use memory_pool::MemoryPool;
use std::alloc::{AllocError, Global};
use std::marker::Model;

/// The turns that are taken after an act at most.
const MAX_TURNS: u32 = 100_000;

/// The clients of a play, in the order of their scripts, and what they are served over.
pub(crate) struct Table<'a> {
    alloc: Global,
    pool: MemoryPool,
    scripts: &'a [Script],
    players: Vec<Player<'a>>,
}

impl<'a> Drop for Table<'a> {
    fn drop(self) {
        let Table {
            alloc: _,
            pool: _,
            scripts: _,
            players: _,
        } = self;
    }
}

impl<'a> Model for Table<'a> {
    ghost use Rattle.play.specs.Players.{ArePlayers, TableOf};

    ghost Value = { TableOf };

    ghost view = { λ t. record { pool = t.pool; senders = t.scripts.now } };

    ghost invariant = { λ t. ArePlayers t.pool t.scripts.now t.players.items };
}

/// The clients of these scripts, none of which has come. The only error is that an allocation failed.
fn players<'a>(
    alloc: Global,
    pool: &MemoryPool,
    scripts: &'a [Script],
) -> Result<Vec<Player<'a>>, AllocError>
    ensures { IfOk result (λ v. ArePlayers pool.now scripts.now v.items) }
{
    let mut players = Vec::new(alloc);
    for script in scripts {
        players.push(Player::new(alloc, pool, script)?)?;
    }
    Ok(players)
}

impl<'a> Table<'a> {
    /// The clients of these scripts, none of which has come. The only error is that an allocation failed.
    pub(crate) fn new(
        alloc: Global,
        pool: MemoryPool,
        scripts: &'a [Script],
    ) -> Result<Table<'a>, AllocError>
        ensures { IfOk result (λ t. t ≡ record { pool = pool; senders = scripts.now }) }
    {
        let players = players(alloc, &pool, scripts)?;
        Ok(Table {
            alloc,
            pool,
            scripts,
            players,
        })
    }

    /// An act. It changes nothing where its client hasn't come or has hung up.
    pub(crate) fn perform(&mut self, act: &Act<'_>)
        ensures { self.new ≡ self.old }
    {
        match act {
            Act::Come => self.come(),
            Act::Send(client, bytes) => {
                if let Some(script) = self.script(*client) {
                    script.send(bytes.len());
                }
            }
            Act::Go(client) => {
                if let Some(script) = self.script(*client) {
                    script.go();
                }
            }
            Act::Tick(second) => self.pool.tick(*second),
            Act::ServersDieAfter(count) => self.pool.let_servers_die(*count),
        }
    }

    /// The next client comes.
    fn come(&self) {
        for script in self.scripts {
            if !script.has_come() {
                script.come();
                return;
            }
        }
    }

    /// The script of the client of this number.
    fn script(&self, client: u32) -> Option<&'a Script> {
        let at = (client as usize).checked_sub(1)?;
        self.scripts.get(at)
    }

    /// Serves each client until nothing moves. The only error is that an allocation failed.
    pub(crate) fn serve(&mut self) -> Result<(), AllocError>
        ensures { self.new ≡ self.old }
    {
        for _ in 0..MAX_TURNS {
            if !self.turn()? {
                return Ok(());
            }
        }
        Ok(())
    }

    /// Each client that has come takes one turn. Whether anything moved.
    fn turn(&mut self) -> Result<bool, AllocError>
        ensures { self.new ≡ self.old }
    {
        let mut moved = false;
        for at in 0..self.players.len() {
            if self.turn_of(at)? {
                moved = true;
            }
        }
        Ok(moved)
    }

    /// One client's turn, where it has come. Whether anything moved.
    fn turn_of(&mut self, at: usize) -> Result<bool, AllocError>
        ensures { self.new ≡ self.old }
    {
        let Table {
            alloc,
            pool,
            scripts,
            players,
        } = self;
        if at >= scripts.len() || at >= players.len() {
            return Ok(false);
        }
        let script = &scripts[at];
        if !script.has_come() {
            return Ok(false);
        }
        players[at].turn(*alloc, pool, script)
    }

    /// What the client at this place was given.
    fn given_to(&mut self, at: usize, script: &Script) -> Result<Given, AllocError>
        requires there { at < length self.old.senders }
        requires script { script.now ≡ slice_index_or self.old.senders at script.now }
        ensures same { self.new ≡ self.old }
        ensures allowed { IfOk result (IsAllowedTo self.old.pool script.now) }
    {
        let Table {
            alloc,
            pool,
            scripts: _,
            players,
        } = self;
        players[at].finish(*alloc, pool, script)
    }

    /// What each client was given; their turns are over. The only error is that an allocation failed.
    pub(crate) fn finish(&mut self) -> Result<Vec<Given>, AllocError>
        ensures { IfOk result (λ v. AreAllowed self.old.pool self.old.senders v.items) }
    {
        let mut all = Vec::new(self.alloc);
        let scripts = self.scripts;
        for at in 0..scripts.len() {
            all.push(self.given_to(at, &scripts[at])?)?;
        }
        Ok(all)
    }
}
