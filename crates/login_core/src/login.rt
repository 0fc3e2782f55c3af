//! A client's login, fed with its bytes in any cuts.
ghost use Rattle.std.specs.Prelude.{◌≡◌, ◌<◌, ◌≤◌, ◌+◌, ◌++◌, [], length, take, min, IfOk, false, vec_capacity};
ghost use Rattle.std.specs.Arc.{arc_value};
ghost use Rattle.login_core.specs.Dialogue.{AtFirst};
ghost use Rattle.login_core.specs.Logins.{ArrivesOnce, StepMeans, AwaitsPacket, Over, Reveals, arrives_at_console, awaiting_of, login_view, missing, rows_of};
ghost use Rattle.login_core.specs.declared.steps.LoginStep.TheVariants.{Left};

use crate::dialogue::{FIRST_HEAD, MAX_MESSAGE, Place, Rules, note_unsupported};
use crate::laws::packets_grow;
use crate::steps::LoginStep;
use ini_config::Settings;
use message_view::KeyWord;
use start_keys::text::Text;
use std::alloc::{AllocError, Global};
use std::marker::Model;
use std::mem;
use std::sync::Arc;
use user_file::Users;

/// The bytes of the longest packet: a type byte and the greatest length.
const MAX_PACKET: usize = MAX_MESSAGE as usize + 1;

/// A client's login. It takes the client's bytes in any cuts, never past the packet that it waits for.
///
/// Contracts see the settings and users that it was made with, what it waits for, and the bytes that it holds of that packet.
pub struct Login {
    rules: Rules,
    place: Place,
    /// Room for its longest packet, of which no byte is touched before it comes: few packets have more than some hundred.
    held: Vec<u8>,
    /// The bytes that are known to be missing from the packet that it waits for.
    lacking: usize,
    unsupported: Option<Text>,
}

impl Drop for Login {
    fn drop(self) {
        let Login {
            rules: _,
            place: _,
            held: _,
            lacking: _,
            unsupported: _,
        } = self;
    }
}

impl Model for Login {
    ghost use Rattle.std.specs.Prelude.{◌≡◌, ◌≤◌, vec_capacity};
    ghost use Rattle.std.specs.Arc.{arc_value};
    ghost use Rattle.login_core.specs.Logins.{LoginView, revealing_view, awaiting_of, missing, revealed_of, Fits};

    ghost Value = { LoginView };

    ghost view = { λ l. revealing_view (arc_value l.rules.settings) (arc_value l.rules.users) l.rules.word (awaiting_of l.place) l.held.items (revealed_of l.place) };

    ghost invariant = { λ l. Fits (awaiting_of l.place) l.held.items × (10001 ≤ vec_capacity l.held) × (l.lacking ≡ missing (awaiting_of l.place) l.held.items) };
}

/// Puts bytes behind those that are held, for which there is room.
fn hold(held: &mut Vec<u8>, bytes: &[u8])
    requires room { length held.old.items + length bytes.now ≤ vec_capacity held.old }
    ensures items { held.new.items ≡ held.old.items ++ bytes.now }
    ensures capacity { vec_capacity held.old ≤ vec_capacity held.new }
{
    // it fails only where room is missing
    let _ = held.extend_from_slice(bytes);
}

impl Login {
    /// A login that has taken no byte. Its buffer, of 10,001 bytes, is reserved here; the only error is that an allocation failed.
    pub fn new(
        alloc: Global,
        settings: Arc<Settings>,
        users: Arc<Users>,
        word: KeyWord,
    ) -> Result<Login, AllocError>
        ensures { IfOk result (λ l. l ≡ login_view (arc_value settings) (arc_value users) word (AwaitsPacket (AtFirst false false)) []) }
    {
        Ok(Login {
            rules: Rules {
                settings,
                users,
                word,
            },
            place: Place::First {
                tls: false,
                gss: false,
            },
            held: Vec::with_capacity(alloc, MAX_PACKET)?,
            lacking: FIRST_HEAD,
            unsupported: None,
        })
    }

    /// The settings that it was made with.
    pub fn settings(&self) -> &Arc<Settings>
        ensures { arc_value result.now ≡ self.now.settings }
    {
        &self.rules.settings
    }

    /// The users that it was made with.
    pub fn users(&self) -> &Arc<Users>
        ensures { arc_value result.now ≡ self.now.users }
    {
        &self.rules.users
    }

    /// The client key that the client revealed of its user's verifier, once it was let in by a password or a proof: by it the client is let in
    /// at each server that has the same verifier (RFC 5802, section 3). None of a secret that is no verifier.
    pub fn revealed(&self) -> Option<[u8; 32]>
        ensures { result ≡ self.now.revealed }
    {
        match &self.place {
            Place::Over(revealed) => *revealed,
            Place::First { .. } | Place::Arriving(_) | Place::Asked(_, _) => None,
        }
    }

    /// The name of the parameter for which the client was refused as [`message_view::Refusal::UnsupportedParameter`], as it was
    /// sent. None where it wasn't refused so, or where there was no memory for the name.
    pub fn unsupported_parameter(&self) -> Option<&[u8]> {
        match &self.unsupported {
            Some(name) => Some(name.as_slice()),
            None => None,
        }
    }

    /// Whether the client that has arrived, and goes on at the next call, names the console and a user of it: one of `admin_users` or
    /// of `stats_users`. It hasn't proved yet to be that one. False where none is to go on.
    pub fn arrives_at_console(&self) -> bool
        ensures { result ≡ arrives_at_console (rows_of self.now) self.now.awaiting }
    {
        match &self.place {
            Place::Arriving(key) => self.rules.is_for_console(key),
            Place::First { .. } | Place::Asked(_, _) | Place::Over(_) => false,
        }
    }

    /// The bytes that are known to be missing from the packet that it waits for: at least one after `new`,
    /// [`LoginStep::More`] and [`LoginStep::Ask`], and never past the packet; 0 else.
    pub fn wants(&self) -> usize
        ensures { result ≡ missing self.now.awaiting self.now.held }
    {
        self.lacking
    }

    /// Takes bytes of the client, never past the packet that it waits for, and tells how many, and what follows.
    ///
    /// After [`LoginStep::Arrived`] it is called with no bytes. After [`LoginStep::Passed`], [`LoginStep::Console`],
    /// [`LoginStep::Refused`], [`LoginStep::Failed`], [`LoginStep::Cancel`] and [`LoginStep::Left`] it takes none and answers
    /// [`LoginStep::Left`].
    /// Want of memory is refused as [`message_view::Refusal::OutOfMemory`], and comes only where a start key is made, a message of SCRAM is
    /// judged, or a password by a verifier.
    pub fn on_bytes(&mut self, alloc: Global, piece: &[u8]) -> (usize, LoginStep)
        ensures used { result.0 ≡ min (missing self.old.awaiting self.old.held) (length piece.now) }
        ensures means { StepMeans self.old (take result.0 piece.now) result.1 self.new }
        ensures once { ArrivesOnce self.old.awaiting result.1 }
        ensures reveals { Reveals (rows_of self.old) result.1 self.new.revealed }
        ensures over { self.old.awaiting ≡ Over → (result.0 ≡ 0) × (result.1 ≡ Left) }
    {
        packets_grow();
        let used = self.lacking.min(piece.len());
        hold(&mut self.held, &piece[..used]);
        let place = mem::replace(&mut self.place, Place::Over(None));
        let (step, next, lacking) = self.rules.turn(alloc, self.held.as_slice(), place);
        self.place = next;
        self.lacking = lacking;
        if step.is_more() {
            return (used, step);
        }
        note_unsupported(
            alloc,
            &self.rules.settings,
            self.held.as_slice(),
            &step,
            &mut self.unsupported,
        );
        self.held.clear();
        (used, step)
    }
}
