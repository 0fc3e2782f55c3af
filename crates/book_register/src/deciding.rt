//! What an event makes of the lists, its reply, and how it is counted.
ghost use Rattle.std.specs.Prelude.{◌≡◌, ◌<◌, ◌||◌, Some, None, cond, false};
ghost use Rattle.std.specs.List.{list_any};
ghost use Rattle.book_model.specs.Book as book;
ghost use Rattle.book_model.specs.Events.{change_of, event_of};
ghost use Rattle.book_model.specs.Outcomes.Event.{Makes};
ghost use Rattle.book_model.specs.Outcomes as outcome;
ghost use Rattle.book_register.specs.Choices.{Gives};
ghost use Rattle.book_model.specs.declared.counts.Kind.TheVariants.{Ticking};
ghost use Rattle.book_register.specs.Kinds.{kind_in, kinds_of};
ghost use Rattle.book_model.specs.Kept.{FitsLimits, Kept, total};

use crate::beginning::fits;
use crate::book_state::{BookState, kind_of_change};
use book_model::counts::{Counts, Kind};
use book_model::events::{Change, Event, Reply};
use message_view::Refusal;
use start_keys::StartKey;

/// The kinds that an event may be of, by its replies; none, where it changed nothing.
#[derive(Clone, Copy, Drop)]
struct Kinds {
    refused: Option<Kind>,
    queued: Option<Kind>,
    done: Option<Kind>,
    nobody: Option<Kind>,
    other: Option<Kind>,
}

impl Kinds {
    /// One kind, whatever the reply.
    fn all(kind: Kind) -> Kinds
        ensures { result ≡ record { refused = Some kind; queued = Some kind; done = Some kind; nobody = Some kind; other = Some kind } }
    {
        Kinds {
            refused: Some(kind),
            queued: Some(kind),
            done: Some(kind),
            nobody: Some(kind),
            other: Some(kind),
        }
    }

    /// The same, but none where nobody was found.
    fn of_found(kind: Kind) -> Kinds
        ensures { result ≡ record { refused = Some kind; queued = Some kind; done = Some kind; nobody = None; other = Some kind } }
    {
        Kinds {
            nobody: None,
            ..Kinds::all(kind)
        }
    }

    /// The kind with this reply.
    fn of(self, reply: Reply) -> Option<Kind>
        ensures { result ≡ kind_in self reply }
    {
        match reply {
            Reply::Refuse(_) => self.refused,
            Reply::Queued(_) => self.queued,
            Reply::Done => self.done,
            Reply::Nobody => self.nobody,
            _ => self.other,
        }
    }
}

/// One more of this kind.
fn raise(counts: &mut Counts, kind: Kind)
    requires { total counts.old < outcome.last_decision }
    ensures { counts.new ≡ outcome.raised kind counts.old }
{
    match kind {
        Kind::Arrival => counts.arrived += 1,
        Kind::ArrivalRefused => counts.arrivals_refused += 1,
        Kind::Asking => counts.asked += 1,
        Kind::AskRefused => counts.asks_refused += 1,
        Kind::Grant => counts.granted += 1,
        Kind::TicketLost => counts.tickets_lost += 1,
        Kind::Return => counts.given_back += 1,
        Kind::Loss => counts.lost += 1,
        Kind::FailedStart => counts.starts_failed += 1,
        Kind::Leaving => counts.left += 1,
        Kind::Ticking => counts.ticked += 1,
        Kind::Limiting => counts.limited += 1,
        Kind::Pausing => counts.paused += 1,
        Kind::Resuming => counts.resumed += 1,
        Kind::Closing => counts.shut_down += 1,
        Kind::Keying => counts.keyed += 1,
        Kind::Cancelling => counts.cancelled += 1,
        Kind::LeaseEnding => counts.leases_ended += 1,
        Kind::HangUp => counts.hung_up += 1,
        Kind::Reconnecting => counts.reconnected += 1,
    }
}

/// The kind of a Tick that closes no link.
fn ticking(is_later: bool) -> Option<Kind>
    ensures { result ≡ cond is_later (Some Ticking) None }
{
    if is_later { Some(Kind::Ticking) } else { None }
}

/// New settings fit.
fn change_fits(change: &Change)
    ensures { FitsLimits (Makes (change_of change.now)) }
{
    match change {
        Change::Limits(limits) => fits(limits),
        _ => {}
    }
}

/// The settings of an event fit.
fn event_fits(event: &Event)
    ensures { FitsLimits (event_of event.now) }
{
    match event {
        Event::Change(change) => change_fits(change),
        _ => {}
    }
}

impl BookState {
    /// What an event makes of the lists, and its reply. It needs no memory.
    pub fn apply(&mut self, event: Event) -> Reply
        requires kept { Kept self.old }
        ensures kept { Kept self.new }
        ensures book { self.new ≡ (outcome.apply self.old (event_of event)).book }
        ensures reply { result ≡ (outcome.apply self.old (event_of event)).reply }
    {
        event_fits(&event);
        if self.decisions == u64::MAX {
            return Reply::Refuse(Refusal::LastDecision);
        }
        if self.is_strange(&event) {
            return Reply::Stranger;
        }
        let kinds = self.kinds(&event);
        let reply = self.happens(event);
        if let Some(kind) = kinds.of(reply) {
            self.count(kind);
        }
        reply
    }

    /// What a link that is given back makes of the lists, by what it was started as, and the reply. It needs no memory.
    pub fn apply_return(&mut self, number: u64, key: &StartKey, started_at: u64) -> Reply
        requires kept { Kept self.old }
        ensures kept { Kept self.new }
        ensures book { self.new ≡ (outcome.apply_return self.old number key.now started_at).book }
        ensures reply { result ≡ (outcome.apply_return self.old number key.now started_at).reply }
    {
        if self.decisions == u64::MAX {
            return Reply::Refuse(Refusal::LastDecision);
        }
        if !self.is_lent_as(number, key, started_at) {
            return Reply::Stranger;
        }
        let reply = self.gives_back(number);
        self.count(Kind::Return);
        reply
    }

    /// Whether the event's client or link isn't there, it has a ticket already, or the lease was keyed or has ended.
    fn is_strange(&self, event: &Event) -> bool
        requires kept { Kept self.now }
        ensures { result ≡ outcome.is_strange self.now (event_of event.now) }
    {
        match event {
            Event::Ask { client, .. } => { !self.clients.has(*client) || self.tickets.has(*client) }
            Event::Take { client } => !self.tickets.has(*client),
            Event::Lost { link } => !self.lent.has(*link),
            Event::StartFailed { link } => !self.lent.has(*link),
            Event::Leave { client } => !self.clients.has(*client),
            Event::Keyed { link, .. } => !self.lent.has(*link) || self.has_lease(*link),
            Event::EndLease { link } => !self.lent.has(*link),
            _ => false,
        }
    }

    /// Whether the link's lease was keyed, or has ended.
    fn has_lease(&self, link: u64) -> bool
        ensures { result ≡ (list_any (book.is_of_link link) self.now.keyed || list_any (book.is_number link) self.now.ended) }
    {
        self.keyed.has(link) || self.ended.has(link)
    }

    /// The kinds that the event may be of.
    fn kinds(&self, event: &Event) -> Kinds
        ensures { result ≡ kinds_of self.now (event_of event.now) }
    {
        match event {
            Event::Arrive { .. } => Kinds {
                refused: Some(Kind::ArrivalRefused),
                ..Kinds::all(Kind::Arrival)
            },
            Event::Ask { .. } => Kinds {
                refused: Some(Kind::AskRefused),
                ..Kinds::all(Kind::Asking)
            },
            Event::Take { .. } => Kinds {
                refused: Some(Kind::TicketLost),
                queued: None,
                ..Kinds::all(Kind::Grant)
            },
            Event::Lost { .. } => Kinds::all(Kind::Loss),
            Event::StartFailed { .. } => Kinds::all(Kind::FailedStart),
            Event::Leave { .. } => Kinds::all(Kind::Leaving),
            Event::Tick { now } => Kinds {
                done: ticking(self.clock < *now),
                ..Kinds::all(Kind::Ticking)
            },
            Event::Change(change) => Kinds::all(kind_of_change(change)),
            Event::Keyed { .. } => Kinds::all(Kind::Keying),
            Event::Cancel { .. } => Kinds::of_found(Kind::Cancelling),
            Event::EndLease { .. } => Kinds::all(Kind::LeaseEnding),
            Event::HungUp { .. } => Kinds::of_found(Kind::HangUp),
        }
    }

    /// What the event makes of the lists, uncounted.
    fn happens(&mut self, event: Event) -> Reply
        requires kept { Kept self.old }
        requires more { self.old.decisions < outcome.last_decision }
        requires known { outcome.is_strange self.old (event_of event) ≡ false }
        ensures { Gives self.new result (outcome.outcome self.old (event_of event)) }
    {
        match event {
            Event::Arrive { beyond } => self.arrives(beyond),
            Event::Ask { client, key } => self.asks(client, key),
            Event::Take { client } => self.takes(client),
            Event::Lost { link } => self.loses(link),
            Event::StartFailed { link } => self.loses(link),
            Event::Leave { client } => self.leaves(client),
            Event::Tick { now } => self.ticks(now),
            Event::Change(change) => self.changes(change),
            Event::Keyed {
                link,
                client,
                server,
            } => self.keys(link, client, server),
            Event::Cancel { client } => self.cancels(client),
            Event::EndLease { link } => self.ends_lease(link),
            Event::HungUp { link } => self.hangs_up(link),
        }
    }

    /// A decision more, of this kind.
    fn count(&mut self, kind: Kind)
        requires all { total self.old.counts ≡ self.old.decisions }
        requires more { self.old.decisions < outcome.last_decision }
        ensures { self.new ≡ outcome.counted self.old (Some kind) }
    {
        raise(&mut self.counts, kind);
        self.decisions += 1;
    }
}
