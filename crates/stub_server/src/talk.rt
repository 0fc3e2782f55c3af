//! What the stand-in server says to one client, packet by packet.
ghost use Rattle.std.specs.Prelude.{◌≡◌, ◌<◌, ◌≤◌, false, length, IfOk, OnOk};
ghost use Rattle.std.specs.Arc.{arc_value};
ghost use Rattle.link_model.specs.Stages.{opens};
ghost use Rattle.session_values.specs.Extended.{is_there};
ghost use Rattle.stub_server.specs.Talks.{Gives, Hears, LeavesNothing, IsSilent, IsTurn, Takes, TakesOne, ending_asked, ending_of, new_talk, server_of, talk_of};
ghost use Rattle.stub_server.specs.Talks as spec;
ghost use Rattle.stub_server.specs.declared.talk.Stage.TheVariants.{Serves, Waits};

use bytes::{BufMut, BytesMut};
use frame_view::client::TERMINATE;
use frame_view::laws::{
    are_bytes, first_grows, first_read_is_spelled, front_grows, front_is_spelled,
};
use frame_view::{FirstStep, MAX_FRAME, Side, Step, first_packet, next_frame};
use link_model::futures_stay;
use memory_ends::dialogue::started;
use memory_ends::striker::strikes;
use message_view::{KeyView, KeyWord, put_authentication_ok};
use session_catalogue::Catalogue;
use session_machine::Session;
use session_values::error_responses::put_fatal;
use session_values::stop::Stop;
use std::alloc::{AllocError, Global};
use std::marker::Model;
use std::sync::Arc;
use std::sync::atomic::AtomicBool;

/// Requests for TLS and for GSS encryption, and a StartupMessage.
const MAX_FIRST_PACKETS: u8 = 3;

/// The bytes of a first packet's length and code, which are all of a request for encryption.
const FIRST_HEAD: usize = 8;

/// The answer to a request for encryption: there is none.
const NOT_ENCRYPTED: u8 = b'N';

/// How far a client has come.
#[derive(Drop)]
pub enum Stage {
    /// So many first packets are still answered. After the last nothing is answered any more.
    Waits(u8),
    Serves(Session),
    /// Nothing is answered any more. If the client asked to cancel what that of a key is at, with that key.
    Over(Option<KeyView>),
}

/// Why a connection is closed.
#[derive(Clone, Copy, Drop)]
pub enum Ending {
    /// The server has answered all, and would answer nothing more.
    Closed,
    /// The same, and the client has asked to cancel what the client of this key is at.
    Asked(KeyView),
    /// The client's end has ended, or came to a fault.
    Left,
    /// An allocation failed.
    OutOfMemory,
}

/// What was taken.
#[derive(Clone, Copy, Drop)]
pub enum Took {
    /// A whole packet.
    Packet,
    /// Nothing: what is there isn't a whole packet yet.
    Nothing,
    /// What ends the talk: nothing that comes is answered any more. If it is a CancelRequest, its key.
    End(Option<KeyView>),
}

/// What a server keeps from the beginning of a talk to its end.
pub struct Host {
    alloc: Global,
    catalogue: Arc<Catalogue>,
    own: KeyWord,
    /// Raised by a cancel, and taken down by the statement that it strikes; none where no cancel reaches it.
    flag: Option<Arc<AtomicBool>>,
}

impl Drop for Host {
    fn drop(self) {
        let Host {
            alloc: _,
            catalogue: _,
            own: _,
            flag: _,
        } = self;
    }
}

/// A server in its talk with one client: what it has still to take and to give. After an error it is of no use.
pub struct Talk {
    host: Host,
    stage: Stage,
    inbox: BytesMut,
    outbox: BytesMut,
}

impl Drop for Talk {
    fn drop(self) {
        let Talk {
            host: _,
            stage: _,
            inbox: _,
            outbox: _,
        } = self;
    }
}

impl Model for Talk {
    ghost use Rattle.stub_server.specs.Talks.{TalkOf, server_of};

    ghost Value = { TalkOf };

    ghost view = { λ t. record { server = server_of t.host; stage = t.stage; inbox = t.inbox.items; outbox = t.outbox.items } };
}

impl Host {
    /// AuthenticationOk, and then the welcome of the session or the error of its start.
    fn open(&self, start: &[u8], out: &mut BytesMut) -> Result<Stage, AllocError>
        ensures { IfOk result (λ next. IsTurn next out.old.items out.new.items (opens (server_of self.now) start.now)) }
    {
        put_authentication_ok(out)?;
        match started(self.alloc, &self.catalogue, start) {
            Ok(session) => {
                session.put_welcome(self.alloc, self.own, out)?;
                Ok(Stage::Serves(session))
            }
            Err(Stop::Refused(cause)) => {
                put_fatal(out, cause)?;
                Ok(Stage::Waits(0))
            }
            Err(Stop::OutOfMemory) => Err(AllocError),
        }
    }

    /// Takes the first packet, if a whole one stands first.
    fn take_first(
        &self,
        left: u8,
        stage: &mut Stage,
        inbox: &mut BytesMut,
        outbox: &mut BytesMut,
    ) -> Result<Took, AllocError>
        requires stage { stage.old ≡ Waits left }
        requires some { 0 < left }
        ensures { IfOk result (λ took. Takes took (talk_of self.now stage.old inbox.old.items outbox.old.items) (talk_of self.now stage.new inbox.new.items outbox.new.items)) }
    {
        first_read_is_spelled();
        first_grows();
        let held = inbox.as_slice();
        are_bytes(held);
        match first_packet(held) {
            FirstStep::Startup(start) => {
                let used = FIRST_HEAD + start.len();
                *stage = self.open(start, outbox)?;
                inbox.advance(used);
                Ok(Took::Packet)
            }
            FirstStep::Tls | FirstStep::Gss => {
                outbox.put_u8(NOT_ENCRYPTED)?;
                *stage = Stage::Waits(left - 1);
                inbox.advance(FIRST_HEAD);
                Ok(Took::Packet)
            }
            FirstStep::Need(_) => Ok(Took::Nothing),
            FirstStep::Cancel { pid, secret } => Ok(Took::End(Some(KeyView { pid, secret }))),
            FirstStep::Bad(_) => Ok(Took::End(None)),
        }
    }

    /// Answers the frame that stands first, if a whole one does.
    fn take_frame(
        &self,
        session: &mut Session,
        inbox: &mut BytesMut,
        outbox: &mut BytesMut,
    ) -> Result<Took, AllocError>
        ensures { IfOk result (λ took. Takes took (talk_of self.now (Serves session.old) inbox.old.items outbox.old.items) (talk_of self.now (Serves session.new) inbox.new.items outbox.new.items)) }
    {
        front_is_spelled();
        futures_stay();
        front_grows();
        let held = inbox.as_slice();
        are_bytes(held);
        match next_frame(held, 0, MAX_FRAME, Side::Client) {
            Step::Whole(frame) => {
                let used = frame.whole.len();
                let took = after_frame(frame.kind);
                let struck = strikes(&self.flag, session, frame);
                session.answer(self.alloc, &self.catalogue, struck, frame, outbox)?;
                inbox.advance(used);
                Ok(took)
            }
            Step::Need(_) => Ok(Took::Nothing),
            Step::Bad(_) => Ok(Took::End(None)),
        }
    }
}

/// How a talk ends in which nothing is answered any more.
fn ending_asked(asked: Option<KeyView>) -> Ending
    ensures { result ≡ ending_asked asked }
{
    match asked {
        Some(key) => Ending::Asked(key),
        None => Ending::Closed,
    }
}

/// A Terminate ends the talk.
fn after_frame(kind: u8) -> Took
    ensures { result ≡ spec.after_frame kind }
{
    match kind {
        TERMINATE => Took::End(None),
        _ => Took::Packet,
    }
}

impl Talk {
    pub(crate) fn new(
        alloc: Global,
        catalogue: Arc<Catalogue>,
        own: KeyWord,
        flag: Option<Arc<AtomicBool>>,
    ) -> Talk
        ensures { result ≡ new_talk (record { catalogue = arc_value catalogue; pid = own.pid; secret = own.secret; strikable = is_there flag }) }
    {
        Talk {
            host: Host {
                alloc,
                catalogue,
                own,
                flag,
            },
            stage: Stage::Waits(MAX_FIRST_PACKETS),
            inbox: BytesMut::new(alloc),
            outbox: BytesMut::new(alloc),
        }
    }

    /// How it ends, once nothing is answered any more.
    pub(crate) fn ending(&self) -> Option<Ending>
        ensures { result ≡ ending_of self.now.stage }
    {
        match &self.stage {
            Stage::Waits(0) => Some(Ending::Closed),
            Stage::Waits(_) | Stage::Serves(_) => None,
            Stage::Over(asked) => Some(ending_asked(*asked)),
        }
    }

    /// What is to be given to the client.
    pub(crate) fn outbox(&self) -> &[u8]
        ensures { result.now ≡ self.now.outbox }
    {
        self.outbox.as_slice()
    }

    /// The first bytes of the outbox, so many, were given.
    pub(crate) fn gave(&mut self, count: usize)
        requires { count ≤ length self.old.outbox }
        ensures { Gives self.old self.new count }
    {
        self.outbox.advance(count);
    }

    /// Takes the packet that stands first, if a whole one does.
    fn take_packet(&mut self) -> Result<Took, AllocError>
        ensures { IfOk result (λ took. Takes took self.old self.new) }
    {
        let Talk {
            host,
            stage,
            inbox,
            outbox,
        } = self;
        match stage {
            Stage::Waits(0) | Stage::Over(_) => Ok(Took::Nothing),
            Stage::Waits(left) => {
                let left = *left;
                host.take_first(left, stage, inbox, outbox)
            }
            Stage::Serves(session) => host.take_frame(session, inbox, outbox),
        }
    }

    /// Takes the packet that stands first, and ends the talk where that ends it: whether there may be another.
    fn take_one(&mut self) -> Result<bool, AllocError>
        ensures { IfOk result (λ taken. TakesOne taken self.old self.new) }
    {
        match self.take_packet()? {
            Took::Packet => Ok(true),
            Took::Nothing => Ok(false),
            Took::End(asked) => {
                self.end(asked);
                Ok(false)
            }
        }
    }

    /// Nothing that comes is answered any more.
    fn end(&mut self, asked: Option<KeyView>)
        requires { IsSilent self.old asked }
        ensures { TakesOne false self.old self.new }
    {
        self.stage = Stage::Over(asked);
        self.inbox.clear();
    }

    /// Answers every whole packet.
    fn answer_all(&mut self) -> Result<(), AllocError>
        ensures { OnOk result (TakesOne false self.old self.new) }
    {
        'packets: while self.take_one()? {}
        Ok(())
    }

    /// These bytes of the client came: every whole packet is answered. After an error the talk is of no use.
    pub(crate) fn hear(&mut self, bytes: &[u8]) -> Result<(), AllocError>
        ensures hears { OnOk result (Hears self.old self.new bytes.now) }
        ensures answered { OnOk result (LeavesNothing self.new) }
    {
        self.inbox.extend_from_slice(bytes)?;
        self.answer_all()
    }
}
