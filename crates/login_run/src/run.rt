//! The turns of a login over a client's end.
ghost use Rattle.std.specs.Prelude.{◌≡◌, ◌<◌, ◌≤◌, [], length, false, true};
ghost use Rattle.std.specs.Arc.{arc_value};
ghost use Rattle.server_end.specs.Moves.{ClientReads, IsWithin, moved};
ghost use Rattle.login_core.specs.Dialogue.{AtFirst};
ghost use Rattle.login_core.specs.Logins.{AwaitsPacket, arrives_at_console, rows_of};
ghost use Rattle.login_run.specs.Runs as spec;
ghost use Rattle.login_run.specs.Runs.{IsRun, IsSameLogin, IsAllGiven, HasTurned, HasRead, HasWritten, said_bytes};

use crate::login_reply::LoginReply;
use login_core::laws::{new_tells, steps_say, steps_tell};
use login_core::{Login, LoginStep};
use message_view::KeyView;
use server_end::{ClientEnd, Moved, rest_of};
use start_keys::StartKey;
use std::alloc::Global;
use std::marker::Model;
use std::sync::Arc;

/// The bytes that a turn reads at most.
const CHUNK: usize = 256;

/// What a login comes to, once the client was given what was said.
#[derive(Drop)]
pub enum Phase {
    /// It reads on.
    Talking,
    /// The client has arrived, and it is for the caller to let it go on or to refuse it.
    Arrived,
    /// The client is let in with this start key.
    Passed(Arc<StartKey>),
    /// The client is let in to the console.
    Console,
    /// The client asks to cancel what the client of this key is at. Nothing is said to it.
    Cancelling(KeyView),
    /// The login said its last word.
    Stopped,
    /// The client's end ended or faulted.
    Gone,
}

/// What a turn came to.
#[derive(Clone, Copy, Drop)]
pub enum LoginTurn {
    /// A byte was read or written: turn again.
    Again,
    /// None was: wait until the client's end is ready.
    Wait,
    /// The client has arrived: it is for the caller to let it go on, by [`LoginRun::go_on`], or to refuse it.
    Arrived,
    /// The client is let in, and was given AuthenticationOk.
    Passed,
    /// The client is let in to the console; it wasn't given AuthenticationOk yet.
    Console,
    /// The client asks to cancel what the client of this key is at, and is to be closed without a byte.
    Cancel(KeyView),
    /// The login is over: the client was given its last word, or its end ended or faulted.
    Over,
}

/// A login over a client's end.
///
/// Contracts see the end's facts, the login, what it comes to next, and how much of what was said the client was given. That this
/// is of the login's definition (`IsRun`) is the type's invariant.
pub struct LoginRun<C: ClientEnd> {
    client: C,
    login: Login,
    phase: Phase,
    said: LoginReply,
    sent: usize,
    key: Option<Arc<StartKey>>,
}

impl<C: ClientEnd> Drop for LoginRun<C> {
    fn drop(self) {
        let LoginRun {
            client: _,
            login: _,
            phase: _,
            said: _,
            sent: _,
            key: _,
        } = self;
    }
}

impl<C: ClientEnd> Model for LoginRun<C> {
    ghost use Rattle.login_run.specs.Runs.{RunView, run_view, phase_of, IsRun};

    ghost Value = { RunView };

    ghost view = { λ r. run_view (C.facts r.client) r.login (phase_of r.phase) r.said r.sent };

    ghost invariant = { λ r. IsRun (run_view (C.facts r.client) r.login (phase_of r.phase) r.said r.sent) };
}

/// What a step of the login leads to, and what is said at it.
fn after(step: LoginStep) -> (Phase, LoginReply)
    ensures phase { spec.phase_of result.0 ≡ spec.phase_after step }
    ensures said { result.1 ≡ spec.said_after step }
{
    match step {
        LoginStep::More => (Phase::Talking, LoginReply::Nothing),
        LoginStep::Ask(question) => (Phase::Talking, LoginReply::Question(question)),
        LoginStep::Arrived(_) => (Phase::Arrived, LoginReply::Nothing),
        LoginStep::Passed(key, told) => (Phase::Passed(key), LoginReply::LetIn(told)),
        LoginStep::Console(told) => (Phase::Console, LoginReply::Proof(told)),
        LoginStep::Refused(refusal) => (Phase::Stopped, LoginReply::Refusal(refusal)),
        LoginStep::Failed(failure) => (Phase::Stopped, LoginReply::Failure(failure)),
        LoginStep::Cancel { pid, secret } => (
            Phase::Cancelling(KeyView { pid, secret }),
            LoginReply::Nothing,
        ),
        LoginStep::Left => (Phase::Stopped, LoginReply::Nothing),
    }
}

/// Keeps the key with which a client arrives; without one where its count is at its end.
fn keep_arrival(step: &LoginStep, key: &mut Option<Arc<StartKey>>) {
    if let LoginStep::Arrived(arrived) = step {
        *key = Arc::try_clone(arrived).ok();
    }
}

/// Reads at most so many bytes of a client into the front of a slice.
fn read_at_most<C: ClientEnd>(client: &mut C, into: &mut [u8], wanted: usize) -> Moved
    requires some { 0 < wanted }
    requires room { wanted ≤ length into.old }
    ensures within { IsWithin result wanted }
    ensures reads { ClientReads (C.facts client.old) (C.facts client.new) (moved result into.new) result }
{
    client.read_some(&mut into[..wanted])
}

impl<C: ClientEnd> LoginRun<C> {
    /// A login over this end. Where the client tells, no byte was taken from it or given to it; the login has taken none.
    pub fn new(client: C, login: Login) -> LoginRun<C>
        requires awaiting { login.awaiting ≡ AwaitsPacket (AtFirst false false) }
        requires held { login.held ≡ [] }
        requires taken { (C.facts client).tells ≡ true → (C.facts client).taken ≡ [] }
        requires given { (C.facts client).tells ≡ true → (C.facts client).given ≡ [] }
        ensures client { result.client ≡ C.facts client }
        ensures login { result.login ≡ login }
        ensures phase { result.phase ≡ spec.Talking }
    {
        new_tells();
        LoginRun {
            client,
            login,
            phase: Phase::Talking,
            said: LoginReply::Nothing,
            sent: 0,
            key: None,
        }
    }

    /// One read or one write of the client's end, and what it came to. It waits for nobody.
    pub fn turn(&mut self, alloc: Global) -> LoginTurn
        ensures login { IsSameLogin self.old self.new }
        ensures turned { HasTurned self.old self.new result }
    {
        if self.has_gone() {
            return LoginTurn::Over;
        }
        if self.sent < self.said.as_bytes().len() {
            return self.write();
        }
        match &self.phase {
            Phase::Talking => self.read(alloc),
            Phase::Arrived => LoginTurn::Arrived,
            Phase::Passed(_) => LoginTurn::Passed,
            Phase::Console => LoginTurn::Console,
            Phase::Cancelling(key) => LoginTurn::Cancel(*key),
            Phase::Stopped | Phase::Gone => LoginTurn::Over,
        }
    }

    fn has_gone(&self) -> bool
        ensures { result ≡ spec.has_gone self.now.phase }
    {
        matches!(self.phase, Phase::Gone)
    }

    /// Writes once what wasn't written yet.
    fn write(&mut self) -> LoginTurn
        requires { self.old.sent < length (said_bytes self.old.said) }
        ensures login { IsSameLogin self.old self.new }
        ensures turned { HasWritten self.old self.new result }
    {
        let unsent = rest_of(self.said.as_bytes(), self.sent);
        match self.client.write_some(unsent) {
            Moved::Count(count) => {
                self.sent += count;
                LoginTurn::Again
            }
            Moved::NotNow => LoginTurn::Wait,
            Moved::Ended | Moved::Fault => {
                self.phase = Phase::Gone;
                LoginTurn::Over
            }
        }
    }

    /// Reads once what the login waits for.
    fn read(&mut self, alloc: Global) -> LoginTurn
        requires talking { self.old.phase ≡ spec.Talking }
        requires given { IsAllGiven self.old }
        ensures login { IsSameLogin self.old self.new }
        ensures turned { HasRead self.old self.new result }
    {
        steps_tell();
        steps_say();
        let mut chunk = [0u8; CHUNK];
        let wanted = self.login.wants().min(CHUNK);
        let moved = read_at_most(&mut self.client, &mut chunk, wanted);
        self.said = LoginReply::Nothing;
        self.sent = 0;
        match moved {
            Moved::Count(count) => {
                let (_, step) = self.login.on_bytes(alloc, &chunk[..count]);
                keep_arrival(&step, &mut self.key);
                (self.phase, self.said) = after(step);
                LoginTurn::Again
            }
            Moved::NotNow => LoginTurn::Wait,
            Moved::Ended | Moved::Fault => {
                self.phase = Phase::Gone;
                LoginTurn::Over
            }
        }
    }

    /// The client that has arrived goes on.
    pub fn go_on(&mut self, alloc: Global)
        requires arrived { self.old.phase ≡ spec.Arrived }
        requires given { IsAllGiven self.old }
        ensures client { self.new.client ≡ self.old.client }
        ensures login { IsSameLogin self.old self.new }
        ensures sent { self.new.sent ≡ 0 }
    {
        steps_tell();
        steps_say();
        let (_, step) = self.login.on_bytes(alloc, b"");
        (self.phase, self.said) = after(step);
        self.sent = 0;
    }

    /// The login.
    pub fn login(&self) -> &Login
        ensures { result.now ≡ self.now.login }
    {
        &self.login
    }

    /// What the client was given last, or is to be given.
    pub fn said(&self) -> &LoginReply
        ensures { result.now ≡ self.now.said }
    {
        &self.said
    }

    /// The start key with which the client arrived, once it has.
    pub fn key(&self) -> Option<&Arc<StartKey>> {
        self.key.as_ref()
    }

    /// Whether the client that has arrived, and hasn't gone on yet, names the console and a user of it, so that it may use the places
    /// of the console. It hasn't proved yet to be that one. False where none is to go on.
    pub fn arrives_at_console(&self) -> bool
        ensures { result ≡ arrives_at_console (rows_of self.now.login) self.now.login.awaiting }
    {
        self.login.arrives_at_console()
    }

    /// Takes it apart: the client's end, the login, and the key of a client that was let in.
    pub fn finish(self) -> (C, Login, Option<Arc<StartKey>>)
        ensures client { C.facts result.0 ≡ self.client }
        ensures login { result.1 ≡ self.login }
        ensures key { spec.IsKeyOf self.phase result.2 }
        ensures run { IsRun self }
    {
        let LoginRun {
            client,
            login,
            phase,
            said: _,
            sent: _,
            key: _,
        } = self;
        match phase {
            Phase::Passed(key) => (client, login, Some(key)),
            _ => (client, login, None),
        }
    }
}
