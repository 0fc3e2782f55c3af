//! The kinds by which events are shown.
ghost use Rattle.std.specs.Prelude.{◌≡◌};
ghost use Rattle.book_model.specs.Events.{change_of, event_of};
ghost use Rattle.lease_book.specs.Shown.{change_name, event_name, kind_name};

use book_model::events::{Change, Event};

/// What kind of event it was.
#[derive(Clone, Copy, Drop)]
pub enum EventKind {
    Arrive,
    Ask,
    Take,
    GiveBack,
    Lost,
    StartFailed,
    Leave,
    Tick,
    Limits,
    Pause,
    Resume,
    Shutdown,
    Reconnect,
    Keyed,
    Cancel,
    EndLease,
    HungUp,
}

/// The kind of a change.
fn change_kind(change: &Change) -> EventKind
    ensures { kind_name result ≡ change_name (change_of change.now) }
{
    match change {
        Change::Limits(_) => EventKind::Limits,
        Change::Pause => EventKind::Pause,
        Change::Resume => EventKind::Resume,
        Change::Shutdown => EventKind::Shutdown,
        Change::Reconnect => EventKind::Reconnect,
    }
}

/// The kind of an event.
pub(crate) fn event_kind(event: &Event) -> EventKind
    ensures { kind_name result ≡ event_name (event_of event.now) }
{
    match event {
        Event::Arrive { .. } => EventKind::Arrive,
        Event::Ask { .. } => EventKind::Ask,
        Event::Take { .. } => EventKind::Take,
        Event::Lost { .. } => EventKind::Lost,
        Event::StartFailed { .. } => EventKind::StartFailed,
        Event::Leave { .. } => EventKind::Leave,
        Event::Tick { .. } => EventKind::Tick,
        Event::Change(change) => change_kind(change),
        Event::Keyed { .. } => EventKind::Keyed,
        Event::Cancel { .. } => EventKind::Cancel,
        Event::EndLease { .. } => EventKind::EndLease,
        Event::HungUp { .. } => EventKind::HungUp,
    }
}

/// What events of this kind are called.
pub(crate) fn kind_name(kind: EventKind) -> &'static str
    ensures { result.now ≡ kind_name kind }
{
    match kind {
        EventKind::Arrive => "arrive",
        EventKind::Ask => "ask",
        EventKind::Take => "take",
        EventKind::GiveBack => "give_back",
        EventKind::Lost => "lost",
        EventKind::StartFailed => "start_failed",
        EventKind::Leave => "leave",
        EventKind::Tick => "tick",
        EventKind::Limits => "limits",
        EventKind::Pause => "pause",
        EventKind::Resume => "resume",
        EventKind::Shutdown => "shutdown",
        EventKind::Reconnect => "reconnect",
        EventKind::Keyed => "keyed",
        EventKind::Cancel => "cancel",
        EventKind::EndLease => "end_lease",
        EventKind::HungUp => "hung_up",
    }
}
