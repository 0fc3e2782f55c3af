//! How many decisions there were of each kind.
ghost use Rattle.std.specs.Prelude.{◌≡◌};

/// The kinds of decisions: of events that changed the book.
#[derive(Clone, Copy, Drop)]
pub enum Kind {
    Arrival,
    ArrivalRefused,
    Asking,
    AskRefused,
    Grant,
    TicketLost,
    Return,
    Loss,
    FailedStart,
    Leaving,
    Ticking,
    Limiting,
    Pausing,
    Resuming,
    Closing,
    Keying,
    Cancelling,
    LeaseEnding,
    HangUp,
    Reconnecting,
}

/// How many decisions there were of each kind.
#[derive(Clone, Copy, Drop)]
pub struct Counts {
    pub arrived: u64,
    pub arrivals_refused: u64,
    pub asked: u64,
    pub asks_refused: u64,
    pub granted: u64,
    pub tickets_lost: u64,
    pub given_back: u64,
    pub lost: u64,
    pub starts_failed: u64,
    pub left: u64,
    pub ticked: u64,
    pub limited: u64,
    pub paused: u64,
    pub resumed: u64,
    pub shut_down: u64,
    pub keyed: u64,
    pub cancelled: u64,
    pub leases_ended: u64,
    pub hung_up: u64,
    pub reconnected: u64,
}
