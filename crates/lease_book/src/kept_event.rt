//! An event that is kept: what is shown of it, and for clauses all of it. So neither a key nor limits are kept with it.
ghost use Rattle.std.specs.Prelude.{◌≡◌};
ghost use Rattle.book_model.specs.Events.{event_of};
ghost use Rattle.book_model.specs.Outcomes.Event.{GiveBack};
ghost use Rattle.lease_book.specs.Shown.{event_name, event_number};

use crate::event_kinds::{EventKind, event_kind, kind_name};
use crate::ghost_event::GhostEvent;
use book_model::events::Event;
use std::marker::Model;

/// The number that it names: places, a client's, a link's, a second, or a process id; 0 for none.
fn event_number(event: &Event) -> u64
    ensures { result ≡ event_number (event_of event.now) }
{
    match event {
        Event::Arrive { beyond } => u64::from(beyond.places()),
        Event::Ask { client, .. } => *client,
        Event::Take { client } => *client,
        Event::Lost { link } => *link,
        Event::StartFailed { link } => *link,
        Event::Leave { client } => *client,
        Event::Tick { now } => *now,
        Event::Change(_) => 0,
        Event::Keyed { link, .. } => *link,
        Event::Cancel { client } => u64::from(client.pid),
        Event::EndLease { link } => *link,
        Event::HungUp { link } => *link,
    }
}

/// What is shown of an event. Contracts see the event.
#[derive(Drop)]
pub struct KeptEvent {
    kind: EventKind,
    number: u64,
    event: GhostEvent,
}

impl Model for KeptEvent {
    ghost use Rattle.std.specs.Prelude.{◌≡◌};
    ghost use Rattle.book_model.specs.Outcomes.{Event};
    ghost use Rattle.lease_book.specs.Shown.{event_name, event_number, kind_name};

    ghost Value = { Event };

    ghost view = { λ k. k.event.event };

    ghost invariant = { λ k. (kind_name k.kind ≡ event_name k.event.event) × (k.number ≡ event_number k.event.event) };
}

impl KeptEvent {
    /// An event with which no link came.
    pub(crate) fn of(event: &Event) -> KeptEvent
        ensures { result ≡ event_of event.now }
    {
        KeptEvent {
            kind: event_kind(event),
            number: event_number(event),
            event: GhostEvent::of(event),
        }
    }

    /// That the link of this number came back.
    pub(crate) fn returned(link: u64) -> KeptEvent
        ensures { result ≡ GiveBack link }
    {
        KeptEvent {
            kind: EventKind::GiveBack,
            number: link,
            event: GhostEvent::returned(&link),
        }
    }

    /// What it is called.
    pub(crate) fn name(&self) -> &'static str
        ensures { result.now ≡ event_name self.now }
    {
        kind_name(self.kind)
    }

    /// The number that it names; 0 for none.
    pub(crate) fn number(&self) -> u64
        ensures { result ≡ event_number self.now }
    {
        self.number
    }
}
