//! A client of a play.
ghost use Rattle.std.specs.Prelude.{◌≡◌, IfOk};
ghost use Rattle.play.specs.Players.{IsAllowedTo, IsPlayer};

use crate::lease::{last, serve};
use crate::login::log_in;
use crate::played::Given;
use crate::stage::Stage;
use crate::waiting::wait;
use act_client::{ActClient, Script};
use memory_pool::MemoryPool;
use message_view::KeyWord;
use std::alloc::{AllocError, Global};
use std::mem;

/// A client: the words of its BackendKeyData, the numbers of the links that it had, and how far it is.
pub(crate) struct Player<'a> {
    word: KeyWord,
    links: Vec<u64>,
    stage: Stage<'a>,
}

impl<'a> Drop for Player<'a> {
    fn drop(self) {
        let Player {
            word: _,
            links: _,
            stage: _,
        } = self;
    }
}

impl<'a> Player<'a> {
    /// The client of this script, of which nothing was taken.
    pub(crate) fn new(
        alloc: Global,
        pool: &MemoryPool,
        script: &'a Script,
    ) -> Result<Player<'a>, AllocError>
        ensures { IfOk result (IsPlayer pool.now script.now) }
    {
        let number = script.number();
        let word = KeyWord {
            pid: number,
            secret: number,
            salt: [0; 4],
        };
        Ok(Player {
            word,
            links: Vec::new(alloc),
            stage: Stage::LoggingIn {
                client: ActClient::new(alloc, script, pool.cut()),
                login: pool.login(word)?,
                number: None,
            },
        })
    }

    /// One turn, and whether anything moved. The only error is that an allocation failed.
    pub(crate) fn turn(
        &mut self,
        alloc: Global,
        pool: &mut MemoryPool,
        script: &Script,
    ) -> Result<bool, AllocError>
        requires { IsPlayer pool.old script.now self.old }
        ensures same { pool.new ≡ pool.old }
        ensures player { IsPlayer pool.old script.now self.new }
    {
        let word = self.word;
        let (stage, moved) = match mem::replace(&mut self.stage, Stage::Absent) {
            Stage::LoggingIn {
                client,
                login,
                number,
            } => log_in(alloc, pool, word, client, login, number)?,
            Stage::Waiting {
                client,
                key,
                number,
            } => wait(alloc, pool, word, &mut self.links, client, key, number)?,
            Stage::Served { relay, number } => serve(pool, word, script, relay, number)?,
            Stage::Closed(client) => (Stage::Closed(client), false),
            Stage::Absent => return Err(AllocError),
        };
        self.stage = stage;
        Ok(moved)
    }

    /// What it was given, and the numbers of the links that it had; its turns are over. The only error is that an allocation failed.
    pub(crate) fn finish(
        &mut self,
        alloc: Global,
        pool: &mut MemoryPool,
        script: &Script,
    ) -> Result<Given, AllocError>
        requires { IsPlayer pool.old script.now self.old }
        ensures same { pool.new ≡ pool.old }
        ensures player { IsPlayer pool.old script.now self.new }
        ensures allowed { IfOk result (IsAllowedTo pool.old script.now) }
    {
        let stage = mem::replace(&mut self.stage, Stage::Absent);
        let links = mem::replace(&mut self.links, Vec::new(alloc));
        let client = last(pool, self.word, script, stage)?;
        Ok(Given {
            bytes: client.into_given(),
            links,
        })
    }
}
