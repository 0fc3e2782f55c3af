//! What happens to a book in a test, and what it answers, with links by their numbers.

use crate::book_parts::{Settings, Whose, elsewhere, key_of, limits, link};
use book_model::events::{Beyond, Change, ClientState, Event};
use book_rows::clients::Client;
use lease_book::book::Book;
use lease_book::events::BookEvent::{GiveBack, Plain};
use lease_book::events::{BookEvent, BookReply};
use link_run::links::CleanLink;
use memory_ends::gone_end::GoneEnd;
use message_view::{KeyView, Refusal};
use pool_figures::decisions::DecisionSeen;
use start_keys::Host;
use std::alloc::{AllocError, Global};
use std::sync::Arc;

/// An event.
#[derive(Clone, Copy, Drop)]
pub(crate) enum Act {
    Come,
    /// It may use these places beyond the limit.
    ComeBeyond(Beyond),
    Ask(u64, Whose),
    Take(u64),
    /// This link of this key comes back, which was begun in second 0.
    Back(u64, Whose),
    /// And this one, begun in another second.
    BackFrom(u64, Whose, u64),
    Lost(u64),
    StartFailed(u64),
    Leave(u64),
    Tick(u64),
    Limits(Settings),
    Pause,
    Resume,
    Shutdown,
    Reconnect,
    /// The key words of the client and of the server.
    Keyed(u64, KeyView, KeyView),
    Cancel(KeyView),
    EndLease(u64),
    /// The server of this link hangs up.
    HungUp(u64),
}

/// A reply.
#[derive(Clone, Copy, PartialEq, Eq, Drop)]
pub(crate) enum Told {
    Client(u64),
    Queued(u64),
    Lend(u64),
    /// The number, the second of birth, and the evicted link.
    Start(u64, u64, Option<u64>),
    Close(u64),
    Refuse(Refusal, Option<u64>),
    Done,
    Stranger(Option<u64>),
    /// The link, its server's key word, and its place.
    Strike(u64, KeyView, Site, u16),
    Nobody,
    Reset,
    Dispose,
}

/// Where the hosts of the tests are.
#[derive(Clone, Copy, PartialEq, Eq, Drop)]
pub(crate) enum Site {
    Here,
    Elsewhere,
    Unknown,
}

fn site_of(host: Host) -> Site {
    if host == Host::local() {
        return Site::Here;
    }
    if host == elsewhere() {
        return Site::Elsewhere;
    }
    Site::Unknown
}

/// The number of a link, which is closed.
fn number(link: CleanLink<GoneEnd>) -> u64 {
    link.number()
}

/// The number of a link that may be there.
fn number_of(link: Option<CleanLink<GoneEnd>>) -> Option<u64> {
    match link {
        Some(link) => Some(number(link)),
        None => None,
    }
}

/// The reply, without its links.
fn by_numbers(reply: BookReply<GoneEnd>) -> Told {
    match reply {
        BookReply::Client(client) => Told::Client(client),
        BookReply::Queued(before) => Told::Queued(before),
        BookReply::Lend(link) => Told::Lend(number(link)),
        BookReply::Start {
            number,
            started_at,
            evicted,
        } => Told::Start(number, started_at, number_of(evicted)),
        BookReply::Close(link) => Told::Close(number(link)),
        BookReply::Refuse(refusal, back) => Told::Refuse(refusal, number_of(back)),
        BookReply::Done => Told::Done,
        BookReply::Stranger(back) => Told::Stranger(number_of(back)),
        BookReply::Strike {
            number,
            server,
            host,
            port,
        } => Told::Strike(number, server, site_of(host), port),
        BookReply::Nobody => Told::Nobody,
        BookReply::Reset => Told::Reset,
        BookReply::Dispose => Told::Dispose,
    }
}

/// A book, of which a test knows nothing but what it answers.
#[derive(Drop)]
pub(crate) struct Story {
    alloc: Global,
    book: Book<GoneEnd>,
}

/// The state of the client of this number, if it is one of these.
fn state_in(clients: &[Client], number: u64) -> Option<ClientState> {
    for client in clients {
        if client.number == number {
            return Some(client.state);
        }
    }
    None
}

impl Story {
    /// An empty book.
    pub(crate) fn new(alloc: Global, settings: Settings) -> Result<Story, AllocError> {
        let book = Book::new(alloc, limits(alloc, settings)?)?;
        Ok(Story { alloc, book })
    }

    /// The same, after so many decisions.
    pub(crate) fn after(alloc: Global, decisions: u64) -> Result<Story, AllocError> {
        let limits = limits(alloc, Settings::Default)?;
        let book = Book::from_count(alloc, limits, decisions)?;
        Ok(Story { alloc, book })
    }

    /// What the book answers, of which a proof knows nothing: so none of a test carries the book's definition along.
    fn reply(&mut self, event: BookEvent<GoneEnd>) -> BookReply<GoneEnd> {
        self.book.apply(7, event)
    }

    /// The same, with links by their numbers.
    fn happens(&mut self, event: Event) -> Told {
        by_numbers(self.reply(Plain(event)))
    }

    /// The same, of what is changed for all.
    fn changes(&mut self, change: Change) -> Told {
        self.happens(Event::Change(change))
    }

    /// A client comes.
    fn comes(&mut self, beyond: Beyond) -> Told {
        self.happens(Event::Arrive { beyond })
    }

    /// A client asks.
    fn asks(&mut self, client: u64, whose: Whose) -> Result<Told, AllocError> {
        let key = key_of(self.alloc, whose)?;
        Ok(self.happens(Event::Ask { client, key }))
    }

    /// A link comes back.
    fn takes_back(
        &mut self,
        number: u64,
        whose: Whose,
        started_at: u64,
    ) -> Result<Told, AllocError> {
        let key = key_of(self.alloc, whose)?;
        let link = link(self.alloc, key, number, started_at)?;
        Ok(by_numbers(self.reply(GiveBack(link))))
    }

    /// Other settings hold.
    fn keeps_to(&mut self, settings: Settings) -> Result<Told, AllocError> {
        let limits = limits(self.alloc, settings)?;
        Ok(self.changes(Change::Limits(limits)))
    }

    /// What the book answers.
    pub(crate) fn play(&mut self, act: Act) -> Result<Told, AllocError> {
        match act {
            Act::Come => Ok(self.comes(Beyond::Nothing)),
            Act::ComeBeyond(beyond) => Ok(self.comes(beyond)),
            Act::Ask(client, whose) => self.asks(client, whose),
            Act::Take(client) => Ok(self.happens(Event::Take { client })),
            Act::Back(number, whose) => self.takes_back(number, whose, 0),
            Act::BackFrom(number, whose, started_at) => self.takes_back(number, whose, started_at),
            Act::Lost(number) => Ok(self.happens(Event::Lost { link: number })),
            Act::StartFailed(number) => Ok(self.happens(Event::StartFailed { link: number })),
            Act::Leave(client) => Ok(self.happens(Event::Leave { client })),
            Act::Tick(now) => Ok(self.happens(Event::Tick { now })),
            Act::Limits(settings) => self.keeps_to(settings),
            Act::Pause => Ok(self.changes(Change::Pause)),
            Act::Resume => Ok(self.changes(Change::Resume)),
            Act::Shutdown => Ok(self.changes(Change::Shutdown)),
            Act::Reconnect => Ok(self.changes(Change::Reconnect)),
            Act::Keyed(number, client, server) => Ok(self.happens(Event::Keyed {
                link: number,
                client,
                server,
            })),
            Act::Cancel(client) => Ok(self.happens(Event::Cancel { client })),
            Act::EndLease(number) => Ok(self.happens(Event::EndLease { link: number })),
            Act::HungUp(number) => Ok(self.happens(Event::HungUp { link: number })),
        }
    }

    /// How many clients, tickets, lent and idle links there are.
    pub(crate) fn sizes(&self) -> Result<[usize; 4], AllocError> {
        let view = self.book.view(self.alloc)?;
        Ok([
            view.clients.len(),
            view.tickets.len(),
            view.lent.len(),
            view.idle.len(),
        ])
    }

    /// The state that the view shows of a client.
    pub(crate) fn state_of(&self, client: u64) -> Result<Option<ClientState>, AllocError> {
        let view = self.book.view(self.alloc)?;
        Ok(state_in(&view.clients, client))
    }

    /// The client and the second of the view's first ticket.
    pub(crate) fn first_ticket(&self) -> Result<Option<(u64, u64)>, AllocError> {
        let view = self.book.view(self.alloc)?;
        match view.tickets.first() {
            Some(ticket) => Ok(Some((ticket.client, ticket.since))),
            None => Ok(None),
        }
    }

    /// The number and the second of birth of the view's first lent link.
    pub(crate) fn first_lent(&self) -> Result<Option<(u64, u64)>, AllocError> {
        let view = self.book.view(self.alloc)?;
        match view.lent.first() {
            Some(link) => Ok(Some((link.number, link.started_at))),
            None => Ok(None),
        }
    }

    /// Decisions, starts, reuses, evictions and losses, as the view shows them.
    pub(crate) fn totals(&self) -> Result<[u64; 5], AllocError> {
        let view = self.book.view(self.alloc)?;
        Ok([
            view.decisions,
            view.starts,
            view.reuses,
            view.evictions,
            view.losses,
        ])
    }

    /// The clock, the decisions and how many of them are Ticks, as the view shows them.
    pub(crate) fn ticks(&self) -> Result<[u64; 3], AllocError> {
        let view = self.book.view(self.alloc)?;
        Ok([view.clock, view.decisions, view.counts.ticked])
    }

    /// How many decisions stand in the base, and how many are kept.
    pub(crate) fn kept(&self) -> (u64, usize) {
        self.book.kept()
    }

    /// What is shown of the kept decisions.
    pub(crate) fn shown(&self) -> Result<Vec<DecisionSeen>, AllocError> {
        self.book.shown(self.alloc)
    }

    /// Whether a link is there that isn't lent again, to this database, where one is named.
    pub(crate) fn has_stale(&self, database: Option<&[u8]>) -> Result<bool, AllocError> {
        let view = self.book.view(self.alloc)?;
        Ok(view.has_stale(database))
    }

    /// All decisions, and those that were a Reconnect.
    pub(crate) fn reconnects(&self) -> [u64; 2] {
        let counts = self.book.lists().counts();
        [self.book.lists().decisions(), counts.reconnected]
    }

    /// Who may be woken where any pool may have a link, in no order.
    pub(crate) fn firsts(&self) -> Result<Vec<u64>, AllocError> {
        let mut firsts = Vec::new(self.alloc);
        for client in self.book.lists().firsts() {
            firsts.push(client)?;
        }
        Ok(firsts)
    }

    /// All decisions, and those that were a Keyed, a Cancel or an end of a lease.
    pub(crate) fn cancels(&self) -> [u64; 4] {
        let counts = self.book.lists().counts();
        [
            self.book.lists().decisions(),
            counts.keyed,
            counts.cancelled,
            counts.leases_ended,
        ]
    }

    /// All decisions, and those that closed a link whose server had hung up.
    pub(crate) fn hang_ups(&self) -> [u64; 2] {
        let counts = self.book.lists().counts();
        [self.book.lists().decisions(), counts.hung_up]
    }

    /// Arrivals, Asks, grants, returns, losses and Ticks.
    pub(crate) fn counts(&self) -> [u64; 6] {
        let counts = self.book.lists().counts();
        [
            counts.arrived,
            counts.asked,
            counts.granted,
            counts.given_back,
            counts.lost,
            counts.ticked,
        ]
    }
}

/// The first act that the book answers otherwise than told: its place, and the answer.
pub(crate) fn surprise(
    story: &mut Story,
    acts: &[(Act, Told)],
) -> Result<Option<(usize, Told)>, AllocError> {
    for (at, (act, told)) in acts.iter().enumerate() {
        let answer = story.play(*act)?;
        if answer != *told {
            return Ok(Some((at, answer)));
        }
    }
    Ok(None)
}
