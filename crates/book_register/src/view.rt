//! What a book shows of itself.
ghost use Rattle.std.specs.Prelude.{◌≡◌, IfOk, find, option_copied, option_map};
ghost use Rattle.std.specs.List.{list_any};
ghost use Rattle.message_view.specs.Parts.{shown_value};
ghost use Rattle.book_model.specs.Outcomes.{is_started_as};
ghost use Rattle.book_model.specs.Book as book;
ghost use Rattle.book_model.specs.Kept.{Kept};
ghost use Rattle.book_register.specs.Views.{has_stale, is_left_over, is_of_database, view_of};
ghost use Rattle.book_register.specs.Waking.{is_full, lent_in_pool, waiting_behind, waiting_for};
ghost use Rattle.book_rows.specs.Waiting.{TellsFirsts, TellsWaiting};

use crate::book_state::BookState;
use book_model::counts::Counts;
use book_model::limits::Limits;
use book_rows::clients::Client;
use book_rows::firsts::Firsts;
use book_rows::links::Link;
use book_rows::pools::PoolKey;
use book_rows::tickets::Ticket;
use start_keys::StartKey;
use std::alloc::{AllocError, Global};
use std::marker::Model;
use std::sync::Arc;

/// A book at one moment, in rows of the holder's own. Keys and limits are shared with the book.
pub struct BookView {
    /// Who is there, in the order in which they came.
    pub clients: Vec<Client>,
    /// Who waits, in the order of the Asks.
    pub tickets: Vec<Ticket>,
    /// The links that are lent, in the order in which they were.
    pub lent: Vec<Link>,
    /// The links that are idle, in the order in which they came back.
    pub idle: Vec<Link>,
    /// The greatest second of any Tick.
    pub clock: u64,
    pub limits: Arc<Limits>,
    /// Whether no link is lent until Resume.
    pub is_paused: bool,
    /// Whether no client is let in and no link lent any more.
    pub is_shut: bool,
    /// No link of a smaller number is lent again: it was there at the last Reconnect.
    pub fresh_from: u64,
    /// How many decisions there were, and how many of each kind.
    pub decisions: u64,
    pub counts: Counts,
    /// How many links were started.
    pub starts: u64,
    /// How many times an idle link was lent again.
    pub reuses: u64,
    /// How many idle links were closed for another's start.
    pub evictions: u64,
    /// How many links were lost, or failed to start.
    pub losses: u64,
}

impl Drop for BookView {
    fn drop(self) {
        let BookView {
            clients: _,
            tickets: _,
            lent: _,
            idle: _,
            clock: _,
            limits: _,
            is_paused: _,
            is_shut: _,
            fresh_from: _,
            decisions: _,
            counts: _,
            starts: _,
            reuses: _,
            evictions: _,
            losses: _,
        } = self;
    }
}

impl Model for BookView {
    ghost use Rattle.std.specs.Arc.{arc_value};
    ghost use Rattle.book_register.specs.Views.{View};

    ghost Value = { View };

    ghost view = { λ v. record {
      clients = v.clients.items;
      tickets = v.tickets.items;
      lent = v.lent.items;
      idle = v.idle.items;
      clock = v.clock;
      limits = arc_value v.limits;
      is_paused = v.is_paused;
      is_shut = v.is_shut;
      fresh_from = v.fresh_from;
      decisions = v.decisions;
      counts = v.counts;
      starts = v.starts;
      reuses = v.reuses;
      evictions = v.evictions;
      losses = v.losses;
    } };
}

/// Whether the link was started since the last Reconnect.
fn is_fresh(link: &Link, fresh_from: u64) -> bool
    ensures { result ≡ book.is_fresh fresh_from link.now }
{
    fresh_from <= link.number
}

/// Whether the link is to this database, where one is named.
fn is_of_database(link: &Link, database: Option<&[u8]>) -> bool
    ensures { result ≡ is_of_database (shown_value database.entry) link.now }
{
    match database {
        Some(name) => name == link.key.key().row.as_slice(),
        None => true,
    }
}

/// Whether the link isn't lent again, and is to this database.
fn is_left_over(link: &Link, fresh_from: u64, database: Option<&[u8]>) -> bool
    ensures { result ≡ is_left_over fresh_from (shown_value database.entry) link.now }
{
    !is_fresh(link, fresh_from) && is_of_database(link, database)
}

/// Whether one of the links isn't lent again, and is to this database.
fn any_left_over(links: &[Link], fresh_from: u64, database: Option<&[u8]>) -> bool
    ensures { result ≡ list_any (is_left_over fresh_from (shown_value database.entry)) links.now }
{
    links.iter().any(|l| is_left_over(l, fresh_from, database))
}

impl BookView {
    /// Whether a link is there, lent or idle, that isn't lent again: to the database of this name, where one is named.
    pub fn has_stale(&self, database: Option<&[u8]>) -> bool
        ensures { result ≡ has_stale self.now (shown_value database.entry) }
    {
        any_left_over(&self.lent, self.fresh_from, database)
            || any_left_over(&self.idle, self.fresh_from, database)
    }
}

impl BookState {
    /// How many decisions there were.
    pub fn decisions(&self) -> u64
        ensures { result ≡ self.now.decisions }
    {
        self.decisions
    }

    /// How many decisions there were of each kind.
    pub fn counts(&self) -> Counts
        ensures { result ≡ self.now.counts }
    {
        self.counts
    }

    /// Whether no client is let in any more.
    pub fn is_shut(&self) -> bool
        ensures { result ≡ self.now.is_shut }
    {
        self.is_shut
    }

    /// Whether no link more may be started.
    pub fn is_full(&self) -> bool
        ensures { result ≡ is_full self.now }
    {
        !self.has_room()
    }

    /// The lists as they are now.
    ///
    /// `AllocError` where memory is refused.
    pub fn view(&self, alloc: Global) -> Result<BookView, AllocError>
        ensures { IfOk result (λ v. v ≡ view_of self.now) }
    {
        Ok(BookView {
            clients: self.clients.copied(alloc)?,
            tickets: self.tickets.copied(alloc)?,
            lent: self.lent.copied(alloc)?,
            idle: self.idle.copied(alloc)?,
            clock: self.clock,
            limits: Arc::try_clone(&self.limits)?,
            is_paused: self.is_paused,
            is_shut: self.is_shut,
            fresh_from: self.fresh_from,
            decisions: self.decisions,
            counts: self.counts,
            starts: self.starts,
            reuses: self.reuses,
            evictions: self.evictions,
            losses: self.losses,
        })
    }

    /// Whether a link of this number is lent, and was started for an equal key at this second.
    pub fn is_lent_as(&self, number: u64, key: &StartKey, started_at: u64) -> bool
        requires kept { Kept self.now }
        ensures { result ≡ is_started_as key.now started_at (find (book.is_link number) self.now.lent) }
    {
        self.lent.has_as(number, key, started_at)
    }

    /// The start key of the lent link of this number; none where it isn't lent.
    pub fn lent_key(&self, number: u64) -> Option<&StartKey>
        requires kept { Kept self.now }
        ensures { option_copied result ≡ option_map (λ link. link.key) (find (book.is_link number) self.now.lent) }
    {
        let link = self.lent.get(number)?;
        Some(link.key.key())
    }

    /// Who may be woken where any pool may have a link: those who have waited longest in their pools, in no order, or all who wait, where
    /// no index tells them.
    pub fn firsts(&self) -> Firsts<'_>
        ensures all { TellsFirsts result self.now.tickets }
        ensures only { TellsWaiting result self.now.tickets }
    {
        self.tickets.firsts()
    }

    /// Who has waited longest in the pool for which this client waits, but for itself; nobody where it doesn't wait.
    pub fn waiting_behind(&self, client: u64) -> Option<u64>
        requires kept { Kept self.now }
        ensures { result ≡ waiting_behind self.now client }
    {
        match self.tickets.get(client) {
            Some(ticket) => self.tickets.longest_waiting_but(client, &ticket.key),
            None => None,
        }
    }

    /// Who has waited longest in the pool of this lent link; nobody where it isn't lent.
    pub fn waiting_for(&self, link: u64) -> Option<u64>
        requires kept { Kept self.now }
        ensures { result ≡ waiting_for self.now link }
    {
        match self.lent.get(link) {
            Some(link) => self.tickets.longest_waiting(&link.key),
            None => None,
        }
    }

    /// How many links of this pool are lent.
    pub fn lent_in_pool(&self, pool: &PoolKey) -> usize
        ensures { result ≡ lent_in_pool self.now pool.now }
    {
        self.lent.count_of_pool(pool)
    }
}
