//! What went over a link since it was last clean, and whether the link can be reset for the next client.
//!
//! A pooler tells a [`Traffic`] where each frame begins and ends, both ways (PostgreSQL manual, "Message
//! Flow"). Query, FunctionCall and Sync are CLOSING messages: each is answered up to one ReadyForQuery. So
//! a link is settled where as many ReadyForQuery came as closing messages were sent, and nothing is under
//! way. That the last status was `I` doesn't settle it: of two Queries sent one after the other the second
//! may still run.
//!
//! Nothing here takes memory.
//!
//! Public: `Traffic`, of which each relay of `relay_core` has one, and `Verdict`, by which `relay_core` says what a link is worth and
//! `pool_serve` why it is closed. Contracts see a `Tally` and the two lists that it tells of (`Traffics`), which `relay_model` cites.
//! `laws` does nothing: `relay_core` calls `calls_tell` and `settled_exactly`, `relay_model` the second; its other two are called by
//! nobody. Free to change: how the parts of a tally are kept.
#![tactic(auto)]

pub mod laws;

ghost use Rattle.std.specs.Prelude.{◌≡◌, [], None, false, true};
ghost use Rattle.disposal.specs.Tallies.{Tells, counted, got_begun, got_broken, got_ended, is_out_of_count, may_end, send_begun, send_ended, verdict_of};
ghost use Rattle.disposal.specs.Traffics as spec;

use frame_view::client::is_closing;
use frame_view::server::READY_FOR_QUERY;
use message_view::kinds::{FAILED, IDLE, IN_TRANSACTION};
use std::marker::Model;

/// The count at which counting stops. A link that came so far is [`Verdict::Broken`].
pub const FULL: u64 = u64::MAX;

/// What is to become of a link: the first that holds, in this order.
#[derive(Clone, Copy, PartialEq, Eq, Drop)]
pub enum Verdict {
    /// Something came that no session sends ([`Traffic::broken`] was called, or a status is none of the
    /// three), more ReadyForQuery came than closing messages were sent, or a count is at [`FULL`].
    Broken,
    /// A frame was sent in part, or came in part.
    MidFrame,
    /// Fewer ReadyForQuery came than closing messages were sent, or the last frame sent is no closing
    /// message.
    Unanswered,
    /// The last status is that of a block, or of a failed block.
    InBlock,
    /// Nothing was sent, or all that was sent is answered, outside a block.
    Settled,
}

/// What went over a link since it was last clean.
///
/// It keeps counts, and contracts see these; they tell of two lists (`Tells`), of what was sent and of
/// what came. A frame counts as soon as it begins.
#[derive(Drop)]
pub struct Traffic {
    asked: u64,
    answered: u64,
    ended: u64,
    is_sending: bool,
    last_sent: Option<u8>,
    getting: Option<u8>,
    status: Option<u8>,
    has_broken: bool,
}

impl Model for Traffic {
    ghost use Rattle.disposal.specs.Tallies.{Tally};

    ghost Value = { Tally };

    ghost view = { λ t. record {
      asked = t.asked;
      answered = t.answered;
      ended = t.ended;
      is_sending = t.is_sending;
      last_sent = t.last_sent;
      getting = t.getting;
      status = t.status;
      has_broken = t.has_broken;
    } };
}

/// One more, where it counts; the greatest count stays.
fn counted(count: u64, is_one: bool) -> u64
    ensures { result ≡ counted count is_one }
{
    count.saturating_add(u64::from(is_one))
}

/// Whether it is the status of no block.
fn is_idle(status: Option<u8>) -> bool
    ensures { result ≡ spec.is_idle status }
{
    status == Some(IDLE)
}

/// Whether it is a status, and none of the three.
fn is_foreign(status: Option<u8>) -> bool
    ensures { result ≡ spec.is_foreign status }
{
    !matches!(status, None | Some(IDLE | IN_TRANSACTION | FAILED))
}

/// Whether it is the type of a frame, and none of a closing message.
fn goes_on(kind: Option<u8>) -> bool
    ensures { result ≡ spec.goes_on kind }
{
    match kind {
        Some(kind) => !is_closing(kind),
        None => false,
    }
}

/// Whether it is the status of a block or of a failed block.
fn is_block(status: Option<u8>) -> bool
    ensures { result ≡ spec.is_block status }
{
    matches!(status, Some(IN_TRANSACTION | FAILED))
}

impl Traffic {
    /// Nothing was sent, and nothing came.
    pub fn new() -> Traffic
        ensures { Tells result [] [] }
    {
        Traffic {
            asked: 0,
            answered: 0,
            ended: 0,
            is_sending: false,
            last_sent: None,
            getting: None,
            status: None,
            has_broken: false,
        }
    }

    /// A frame of this type begins to be sent: its first byte goes over the link. The frame before it has
    /// ended.
    pub fn send_begin(&mut self, kind: u8)
        requires { self.old.is_sending ≡ false }
        ensures { self.new ≡ send_begun kind self.old }
    {
        self.asked = counted(self.asked, is_closing(kind));
        self.is_sending = true;
        self.last_sent = Some(kind);
    }

    /// The last byte of the frame that is being sent went over the link.
    pub fn send_end(&mut self)
        requires { self.old.is_sending ≡ true }
        ensures { self.new ≡ send_ended self.old }
    {
        self.is_sending = false;
    }

    /// A frame of this type begins to come. The frame before it has ended.
    pub fn got_begin(&mut self, kind: u8)
        requires { self.old.getting ≡ None }
        ensures { self.new ≡ got_begun kind self.old }
    {
        self.answered = counted(self.answered, kind == READY_FOR_QUERY);
        self.getting = Some(kind);
    }

    /// The last byte came of the frame that is coming. At the end of a ReadyForQuery its status is told,
    /// as the byte of its body, unless [`Traffic::broken`] was called; of any other frame none is.
    pub fn got_end(&mut self, status: Option<u8>)
        requires { may_end status self.old ≡ true }
        ensures { self.new ≡ got_ended status self.old }
    {
        self.getting = None;
        self.ended = counted(self.ended, is_idle(status));
        self.status = status.or(self.status);
        self.has_broken = self.has_broken | is_foreign(status);
    }

    /// Something came that no session sends, or that can't be read.
    pub fn broken(&mut self)
        ensures { self.new ≡ got_broken self.old }
    {
        self.has_broken = true;
    }

    /// How many closing messages were sent.
    pub fn asked(&self) -> u64
        ensures { result ≡ self.now.asked }
    {
        self.asked
    }

    /// How many ReadyForQuery came.
    pub fn answered(&self) -> u64
        ensures { result ≡ self.now.answered }
    {
        self.answered
    }

    /// How many of them told of no block: so many transactions ended.
    pub fn ended(&self) -> u64
        ensures { result ≡ self.now.ended }
    {
        self.ended
    }

    /// The last status that was told.
    pub fn status(&self) -> Option<u8>
        ensures { result ≡ self.now.status }
    {
        self.status
    }

    /// Whether more was answered than asked for, or a count is full.
    fn is_out_of_count(&self) -> bool
        ensures { result ≡ is_out_of_count self.now }
    {
        self.asked < self.answered || self.asked == FULL || self.answered == FULL
    }

    /// The verdict on what went over the link: the first that holds.
    pub fn verdict(&self) -> Verdict
        ensures { result ≡ verdict_of self.now }
    {
        if self.has_broken || self.is_out_of_count() {
            return Verdict::Broken;
        }
        if self.is_sending || self.getting.is_some() {
            return Verdict::MidFrame;
        }
        if self.answered < self.asked || goes_on(self.last_sent) {
            return Verdict::Unanswered;
        }
        if is_block(self.status) {
            return Verdict::InBlock;
        }
        Verdict::Settled
    }
}
