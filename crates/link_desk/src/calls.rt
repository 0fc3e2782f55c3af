//! The calls that are made through a pass, and who holds it.

use crate::answers::{Release, Target};
use book_model::events::Beyond;
use message_view::{KeyView, Refusal};

/// A call of a desk's: what it told the lease book.
#[derive(Clone, Copy, Drop)]
pub enum Call {
    /// A client has come, which may use so many places beyond the limit.
    Arrive(Beyond),
    /// This client asked for a link.
    Ask(u64),
    /// This client took its link.
    Take(u64),
    /// The link of this number came back.
    GiveBack(u64),
    /// The link of this number was lost.
    Lost(u64),
    /// The link of this number could not be started.
    StartFailed(u64),
    /// This client has gone.
    Leave(u64),
    /// The lease of the link of this number is of a client of this key word, over a server that told that one.
    Keyed {
        link: u64,
        client: KeyView,
        server: KeyView,
    },
    /// What the client of this key word is at was to be cancelled.
    Cancel(KeyView),
    /// The lease of the link of this number has ended.
    EndLease(u64),
    /// It was this second.
    Tick(u64),
    /// The server of the idle link of this number had hung up.
    HungUp(u64),
    Limits,
    Pause,
    Resume,
    Shutdown,
    Reconnect,
}

/// How far a lease is.
#[derive(Clone, Copy, Drop)]
pub enum Stage {
    /// No cancel finds it yet.
    Granted,
    /// A cancel finds it by its client's key word.
    Keyed,
    /// It has ended, and no cancel is for its link.
    Ended,
}

/// A link that was lent, or is to be started: its number, its second of birth, and how far its lease is.
#[derive(Clone, Copy, Drop)]
pub struct Lease {
    pub number: u64,
    pub started_at: u64,
    pub stage: Stage,
}

/// Who holds a pass.
#[derive(Clone, Copy, Drop)]
pub struct Holder {
    /// The client that has come through the pass, and has not gone.
    pub client: Option<u64>,
    /// The link that it has.
    pub lease: Option<Lease>,
    /// What the desk answered to the end of the lease that ended last.
    pub release: Option<Release>,
    /// What the client that came last was refused by.
    pub refused: Option<Refusal>,
    /// What the cancel that was found last is for, until the desk is told to send it.
    pub found: Option<Target>,
    /// The same, once the desk was told to.
    pub struck: Option<Target>,
    /// The last call that was made through the pass, but for a client's that waits on.
    pub last: Option<Call>,
}
