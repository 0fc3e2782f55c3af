//! The turns of a console's client: one read, one write, or one message.
ghost use Rattle.std.specs.Prelude.{◌≡◌, ◌<◌, [], length, IfErr, IfOk};
ghost use Rattle.std.specs.List.{flat_map};
ghost use Rattle.frame_view.specs.Frames.{spelling};
ghost use Rattle.console_run.specs.Exchanges.{asker, greeting};
ghost use Rattle.console_run.specs.Passing.{pass_of};
ghost use Rattle.console_run.specs.Talks as talks;
ghost use Rattle.console_run.specs.Turns.{HasRead, HasTurned, HasWritten, greeted};

use crate::answering::{Answered, Console};
use bytes::{Buf, BytesMut};
use frame_view::laws::{are_bytes, front_is_spelled};
use frame_view::{FrameError, Side, Step, next_frame};
use ini_config::ConsoleStyle;
use link_desk::desk::LinkDesk;
use message_view::{KeyWord, Refusal, put_authentication_ok};
use monitor_core::writing::put_style_welcome;
use server_end::{ClientEnd, Moved};
use std::alloc::{AllocError, Global};
use std::marker::Model;

/// The bytes that a turn reads at most.
const CHUNK: usize = 256;

/// What a turn came to.
#[derive(Clone, Copy, Drop)]
pub(crate) enum Turn {
    /// Something was read, written or answered: turn again.
    Again,
    /// Nothing was: wait until the client's end is ready.
    Wait,
    /// The client's message is answered later: rest, and turn again.
    Rest,
    /// It is over, and the client is to be refused or not.
    Over(Option<Refusal>),
}

/// A talk with a client of the console: the client's end, what is held of its messages, what it is told and not given yet, and whether
/// its messages are dropped up to the next Sync.
pub(crate) struct Talk<C: ClientEnd> {
    client: C,
    held: BytesMut,
    unwritten: BytesMut,
    drops: bool,
}

impl<C: ClientEnd> Drop for Talk<C> {
    fn drop(self) {
        let Talk {
            client: _,
            held: _,
            unwritten: _,
            drops: _,
        } = self;
    }
}

impl<C: ClientEnd> Model for Talk<C> {
    ghost use Rattle.console_run.specs.Turns.{TalkView, talk_view};

    ghost Value = { TalkView };

    ghost view = { λ t. talk_view (C.facts t.client) t.held.items t.unwritten.items t.drops };
}

/// AuthenticationOk and the welcome.
fn greeting(alloc: Global, style: ConsoleStyle, word: KeyWord) -> Result<BytesMut, AllocError>
    ensures { IfOk result (λ out. out.items ≡ flat_map spelling (greeting style word)) }
{
    let mut out = BytesMut::new(alloc);
    put_authentication_ok(&mut out)?;
    put_style_welcome(alloc, style, word, &mut out)?;
    Ok(out)
}

/// By what a client is refused whose message has this fault.
fn refused_by(fault: FrameError) -> Refusal
    ensures { result ≡ talks.refused_by fault }
{
    match fault {
        FrameError::TooLong => Refusal::ClientMessageTooLong,
        FrameError::UnknownCode | FrameError::UnknownType | FrameError::TooShort =>
            Refusal::MalformedClientMessage,
    }
}

impl<C: ClientEnd> Talk<C> {
    /// A talk with a client that is let in, and is to be greeted. The only error is that memory was refused, which hands the end back.
    pub(crate) fn new(
        alloc: Global,
        style: ConsoleStyle,
        client: C,
        word: KeyWord,
    ) -> Result<Talk<C>, C>
        ensures ok { IfOk result (λ talk. talk ≡ greeted (C.facts client) style word) }
        ensures err { IfErr result (λ end. C.facts end ≡ C.facts client) }
    {
        match greeting(alloc, style, word) {
            Ok(unwritten) => Ok(Talk {
                client,
                held: BytesMut::new(alloc),
                unwritten,
                drops: false,
            }),
            Err(_) => Err(client),
        }
    }

    /// Writes once what isn't written yet.
    fn write(&mut self) -> Turn
        requires { 0 < length self.old.unwritten }
        ensures { HasWritten self.old self.new result }
    {
        match self.client.write_some(self.unwritten.as_slice()) {
            Moved::Count(count) => {
                self.unwritten.advance(count);
                Turn::Again
            }
            Moved::NotNow => Turn::Wait,
            Moved::Ended | Moved::Fault => Turn::Over(None),
        }
    }

    /// Reads once.
    fn read(&mut self) -> Turn
        requires { self.old.unwritten ≡ [] }
        ensures { HasRead self.old self.new result }
    {
        // before anything is read, so that it isn't lost
        if self.held.reserve(CHUNK).is_err() {
            return Turn::Over(Some(Refusal::OutOfMemory));
        }
        let mut chunk = [0u8; CHUNK];
        match self.client.read_some(&mut chunk) {
            Moved::Count(count) => {
                self.held.extend_reserved(&chunk[..count]);
                Turn::Again
            }
            Moved::NotNow => Turn::Wait,
            Moved::Ended | Moved::Fault => Turn::Over(None),
        }
    }

    /// Reads once, while the next message waits for its answer. However much comes meanwhile, no more is taken before a rest.
    fn read_early(&mut self) -> Turn
        requires { self.old.unwritten ≡ [] }
        ensures { HasRead self.old self.new result }
    {
        match self.read() {
            Turn::Over(last) => Turn::Over(last),
            Turn::Again | Turn::Wait | Turn::Rest => Turn::Rest,
        }
    }

    /// Answers the next message, or reads on.
    fn hear<D: LinkDesk>(&mut self, console: &Console<'_, D>, pass: &mut D::Pass) -> Turn
        requires { self.old.unwritten ≡ [] }
        ensures { HasTurned (asker console.now.settings.now console.now.who.now.user.now) self.old self.new (pass_of (D.counted pass.old) (D.holder pass.old)) (pass_of (D.counted pass.new) (D.holder pass.new)) result }
    {
        front_is_spelled();
        are_bytes(self.held.as_slice());
        let limit = console.settings.max_packet_size();
        let (used, answered) = match next_frame(self.held.as_slice(), 0, limit, Side::Client) {
            Step::Whole(frame) => (frame.whole.len(), console.answer(pass, frame, self.drops)),
            Step::Need(_) => return self.read(),
            Step::Bad(fault) => return Turn::Over(Some(refused_by(fault))),
        };
        match answered {
            Answered::Told(reply, drops) => {
                self.held.advance(used);
                self.unwritten = reply;
                self.drops = drops;
                Turn::Again
            }
            Answered::NotYet => self.read_early(),
            Answered::Left => Turn::Over(None),
            Answered::Refused(refusal) => Turn::Over(Some(refusal)),
        }
    }

    /// One write, one read, or one message, for whose answer it may be too early. It waits for nobody.
    pub(crate) fn turn<D: LinkDesk>(&mut self, console: &Console<'_, D>, pass: &mut D::Pass) -> Turn
        ensures { HasTurned (asker console.now.settings.now console.now.who.now.user.now) self.old self.new (pass_of (D.counted pass.old) (D.holder pass.old)) (pass_of (D.counted pass.new) (D.holder pass.new)) result }
    {
        if !self.unwritten.is_empty() {
            return self.write();
        }
        self.hear(console, pass)
    }

    /// The client's end.
    pub(crate) fn finish(self) -> C
        ensures { C.facts result ≡ self.client }
    {
        let Talk {
            client,
            held: _,
            unwritten: _,
            drops: _,
        } = self;
        client
    }
}
