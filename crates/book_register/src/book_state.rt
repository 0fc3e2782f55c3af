//! The lists of the lease book, and what an event makes of them, in the definition's order and words. Between the steps of an event they
//! needn't be in order: a list is changed before the counts rise. So no invariant of their type says that they are: each call of theirs does.
ghost use Rattle.std.specs.Prelude.{◌≡◌, ◌<◌, ◌≤◌, suc, ◌+◌, ◌++◌, ◌==◌, ◌&&◌, ◌||◌, [], ◌∷◌, Some, None, true, false, nat_lt, not, cond, count_by, ℕ, find, length, option_copied};
ghost use Rattle.std.specs.Arc.{arc_value};
ghost use Rattle.std.specs.List.{list_any};
ghost use Rattle.start_keys.specs.Keys.{same_key};
ghost use Rattle.book_model.specs.Book as book;
ghost use Rattle.book_model.specs.Book.{Ticket as TicketRow};
ghost use Rattle.book_model.specs.Events.{change_of};
ghost use Rattle.book_model.specs.Outcomes as outcome;
ghost use Rattle.book_model.specs.declared.events.Reply.TheVariants.{Done, Refuse};
ghost use Rattle.book_model.specs.declared.limits.TheConstants.{MAX_LINKS};
ghost use Rattle.book_register.specs.Choices.{Chooses, Gives, eviction_of, number_if_fresh};
ghost use Rattle.book_register.specs.Striking.{strike_of};
ghost use Rattle.book_rows.specs.Numbered.{number_of};
ghost use Rattle.numbered_rows.specs.Places.{passes};
ghost use Rattle.book_model.specs.Kept.{Kept};

use book_model::counts::{Counts, Kind};
use book_model::events::{Beyond, Change, ClientState, Reply};
use book_model::limits::Limits;
use book_rows::clients::{Client, Clients};
use book_rows::leases::{Lease, Leases, Numbers};
use book_rows::links::{Link, Links, number_in};
use book_rows::pools::PoolKey;
use book_rows::tickets::{Ticket, Tickets};
use message_view::{KeyView, Refusal};
use start_keys::StartKey;
use std::collections::VecDeque;
use std::marker::Model;
use std::sync::Arc;

/// The lists of the book, with room for all that they may hold.
pub struct BookState {
    pub(crate) clients: Clients,
    pub(crate) tickets: Tickets,
    pub(crate) lent: Links,
    pub(crate) idle: Links,
    pub(crate) keyed: Leases,
    pub(crate) marked: Numbers,
    pub(crate) ended: Numbers,
    pub(crate) last_client: u64,
    pub(crate) last_link: u64,
    pub(crate) clock: u64,
    pub(crate) limits: Arc<Limits>,
    pub(crate) is_paused: bool,
    pub(crate) is_shut: bool,
    pub(crate) fresh_from: u64,
    pub(crate) decisions: u64,
    pub(crate) counts: Counts,
    pub(crate) starts: u64,
    pub(crate) reuses: u64,
    pub(crate) evictions: u64,
    pub(crate) losses: u64,
}

impl Drop for BookState {
    fn drop(self) {
        let BookState {
            clients: _,
            tickets: _,
            lent: _,
            idle: _,
            keyed: _,
            marked: _,
            ended: _,
            last_client: _,
            last_link: _,
            clock: _,
            limits: _,
            is_paused: _,
            is_shut: _,
            fresh_from: _,
            decisions: _,
            counts: _,
            starts: _,
            reuses: _,
            evictions: _,
            losses: _,
        } = self;
    }
}

impl Model for BookState {
    ghost use Rattle.std.specs.Prelude.{suc};
    ghost use Rattle.std.specs.Arc.{arc_value};
    ghost use Rattle.book_model.specs.Book.{Book};

    ghost Value = { Book };

    ghost view = { λ b. record {
      clients = b.clients;
      tickets = b.tickets;
      lent = b.lent;
      idle = b.idle;
      keyed = b.keyed;
      marked = b.marked;
      ended = b.ended;
      next_client = suc b.last_client;
      next_link = suc b.last_link;
      clock = b.clock;
      limits = arc_value b.limits;
      is_paused = b.is_paused;
      is_shut = b.is_shut;
      fresh_from = b.fresh_from;
      decisions = b.decisions;
      counts = b.counts;
      starts = b.starts;
      reuses = b.reuses;
      evictions = b.evictions;
      losses = b.losses;
    } };
}

impl BookState {
    /// Whether there is room for a client more, which may use so many places beyond the limit.
    fn has_place(&self, beyond: Beyond) -> bool
        ensures { result ≡ nat_lt (length self.now.clients) (self.now.limits.max_clients + book.places_beyond beyond) }
    {
        let limits: &Limits = &self.limits;
        self.clients.len() < limits.max_client_conn as usize + beyond.places() as usize
    }

    /// A client comes.
    #[tactic(auto, using(crate::proofs::Beginnings::may_come))]
    pub(crate) fn arrives(&mut self, beyond: Beyond) -> Reply
        requires kept { Kept self.old }
        requires more { self.old.decisions < outcome.last_decision }
        ensures book { self.new ≡ (outcome.arrives self.old beyond).book }
        ensures reply { result ≡ (outcome.arrives self.old beyond).reply }
    {
        if self.is_shut {
            return Reply::Refuse(Refusal::ShuttingDown);
        }
        if self.has_place(beyond) {
            self.last_client += 1;
            self.clients.push(Client {
                number: self.last_client,
                state: ClientState::LoggingIn,
            });
            return Reply::Arrived(self.last_client);
        }
        Reply::Refuse(Refusal::TooManyClients)
    }

    /// A client that is there asks for a link.
    pub(crate) fn asks(&mut self, client: u64, key: Arc<StartKey>) -> Reply
        requires room { length self.old.tickets < length self.old.clients }
        requires kept { Kept self.old }
        ensures book { self.new ≡ (outcome.asks self.old client (arc_value key)).book }
        ensures reply { result ≡ (outcome.asks self.old client (arc_value key)).reply }
    {
        if self.is_shut {
            return Reply::Refuse(Refusal::ShuttingDown);
        }
        let ticket = Ticket {
            client,
            key: PoolKey::new(key),
            since: self.clock,
        };
        let before = self.tickets.waiting(&ticket.key);
        self.clients.put_in_state(ClientState::Waiting, client);
        self.tickets.push(ticket);
        Reply::Queued(before as u64)
    }

    /// A client leaves.
    pub(crate) fn leaves(&mut self, client: u64) -> Reply
        requires kept { Kept self.old }
        ensures book { self.new ≡ (outcome.leaves self.old client).book }
        ensures reply { result ≡ (outcome.leaves self.old client).reply }
    {
        self.clients.remove(client);
        drop(self.tickets.take_out(client));
        Reply::Done
    }

    /// A lent link has gone.
    pub(crate) fn loses(&mut self, link: u64) -> Reply
        requires kept { Kept self.old }
        requires more { self.old.decisions < outcome.last_decision }
        ensures book { self.new ≡ record (outcome.loses self.old link) { losses = suc self.old.losses } }
        ensures reply { result ≡ Done }
    {
        self.forgets(link);
        drop(self.lent.take_out(link));
        self.losses += 1;
        Reply::Done
    }

    /// Nothing is known of a link's lease any more.
    fn forgets(&mut self, number: u64)
        requires keyed { (n : ℕ) → count_by (book.is_of_link n) self.old.keyed ≤ 1 }
        requires marked { (n : ℕ) → count_by (book.is_number n) self.old.marked ≤ 1 }
        requires ended { (n : ℕ) → count_by (book.is_number n) self.old.ended ≤ 1 }
        ensures { self.new ≡ record self.old { keyed = book.without_lease number self.old.keyed; marked = book.without_number number self.old.marked; ended = book.without_number number self.old.ended } }
    {
        self.keyed.remove(number);
        self.marked.remove(number);
        self.ended.remove(number);
    }

    /// Whether the link was started since the last Reconnect.
    fn is_fresh(&self, link: &Link) -> bool
        ensures { result ≡ book.is_fresh self.now.fresh_from link.now }
    {
        self.fresh_from <= link.number
    }

    /// Whether a link that comes back is too old to be kept.
    fn is_old(&self, link: &Link) -> bool
        ensures { result ≡ outcome.is_old self.now link.now }
    {
        let limits: &Limits = &self.limits;
        let lifetime = u64::from(limits.server_lifetime);
        lifetime <= self.clock.saturating_sub(link.started_at)
            || self.is_shut
            || !self.is_fresh(link)
    }

    /// Whether an idle link is to be closed.
    fn is_stale(&self, link: &Link) -> bool
        ensures { result ≡ outcome.is_stale self.now link.now }
    {
        let limits: &Limits = &self.limits;
        let idle_timeout = u64::from(limits.server_idle_timeout);
        self.is_old(link)
            || !limits.lists(link.key.key())
            || (idle_timeout != 0 && idle_timeout <= self.clock.saturating_sub(link.since))
    }

    /// Whether the book or the link's pool has more links than it may.
    fn is_crowded(&self, link: &Link) -> bool
        ensures { result ≡ outcome.is_crowded self.now link.now }
    {
        let limits: &Limits = &self.limits;
        self.link_count() > limits.max_links as usize
            || self.pool_count(&link.key) > limits.pool_size(link.key.key().row.as_slice()) as usize
    }

    /// How many links there are.
    fn link_count(&self) -> usize
        ensures { result ≡ book.link_count self.now }
    {
        self.lent.len() + self.idle.len()
    }

    /// How many links of this pool there are.
    fn pool_count(&self, pool: &PoolKey) -> usize
        ensures { result ≡ book.pool_count self.now pool.now }
    {
        self.lent.count_of_pool(pool) + self.idle.count_of_pool(pool)
    }

    /// Whether a ticket has waited for as long as it may.
    fn has_waited(&self, ticket: &Ticket) -> bool
        ensures { result ≡ outcome.has_waited self.now ticket.now }
    {
        let limits: &Limits = &self.limits;
        let timeout = u64::from(limits.query_wait_timeout);
        timeout != 0 && timeout <= self.clock.saturating_sub(ticket.since)
    }

    /// Whether the key's pool has room for a link more.
    fn has_pool_room(&self, pool: &PoolKey) -> bool
        ensures { result ≡ nat_lt (book.pool_count self.now pool.now) (book.pool_size self.now.limits pool.now) }
    {
        let limits: &Limits = &self.limits;
        self.pool_count(pool) < limits.pool_size(pool.key().row.as_slice()) as usize
    }

    /// Whether the book has room for a link more.
    pub(crate) fn has_room(&self) -> bool
        ensures { result ≡ nat_lt (book.link_count self.now) self.now.limits.max_links }
    {
        let limits: &Limits = &self.limits;
        self.link_count() < limits.max_links as usize
    }

    /// The link of this key that may be lent: the latest returned one, where it is fresh.
    #[tactic(auto, using(crate::proofs::Choices::fresh_number))]
    fn lendable(&self, key: &PoolKey) -> Option<u64>
        requires once { (n : ℕ) → count_by (book.is_link n) self.now.idle ≤ 1 }
        ensures { result ≡ number_of (book.lendable self.now.fresh_from key.now self.now.idle) }
    {
        if_fresh(self.fresh_from, self.idle.last_of_key(key))
    }

    /// What the first ticket of its pool is answered.
    #[tactic(auto, using(crate::proofs::Choices::lend_chosen, crate::proofs::Choices::unknown))]
    fn choice(&self, ticket: &Ticket) -> Choice
        requires once { (n : ℕ) → count_by (book.is_link n) self.now.idle ≤ 1 }
        ensures { Chooses self.now ticket.now result }
    {
        match self.lendable(&ticket.key) {
            Some(number) => Choice::Lend(number),
            None => self.room_for(ticket),
        }
    }

    /// What it is answered where no idle link may be lent to it.
    fn room_for(&self, ticket: &Ticket) -> Choice
        requires { book.lendable self.now.fresh_from ticket.now.key self.now.idle ≡ None }
        ensures { Chooses self.now ticket.now result }
    {
        if !self.has_pool_room(&ticket.key) {
            return eviction(self.idle.first_of_pool(&ticket.key));
        }
        if self.has_room() {
            return Choice::Start;
        }
        eviction(self.idle.first())
    }

    /// A link goes to the ticket's client. Both have been taken out.
    fn lends(&mut self, ticket: Ticket, link: Link) -> Reply
        requires room { length self.old.lent < MAX_LINKS }
        requires once { (n : ℕ) → count_by (book.is_client n) self.old.clients ≤ 1 }
        requires more { self.old.reuses < outcome.last_decision }
        ensures book { self.new ≡ record ((outcome.lends self.old ticket link).book) { tickets = self.old.tickets; idle = self.old.idle } }
        ensures reply { result ≡ (outcome.lends self.old ticket link).reply }
    {
        let number = link.number;
        self.clients
            .put_in_state(ClientState::Active, ticket.client);
        self.lent.push(link);
        self.reuses += 1;
        Reply::Lend(number)
    }

    /// A link is to be started for the ticket's client. The ticket has been taken out.
    fn starts(&mut self, ticket: Ticket, evicted: Option<u64>) -> Reply
        requires room { length self.old.lent < MAX_LINKS }
        requires once { (n : ℕ) → count_by (book.is_client n) self.old.clients ≤ 1 }
        requires more { self.old.starts < outcome.last_decision }
        requires next { self.old.next_link ≤ outcome.last_decision }
        ensures book { self.new ≡ record ((outcome.starts self.old ticket self.old.idle evicted).book) { tickets = self.old.tickets } }
        ensures reply { result ≡ (outcome.starts self.old ticket self.old.idle evicted).reply }
    {
        let Ticket { client, key, .. } = ticket;
        let started_at = self.clock;
        self.last_link += 1;
        self.starts += 1;
        let link = self.last_link;
        self.clients.put_in_state(ClientState::Active, client);
        self.lent.push(Link {
            number: link,
            key,
            started_at,
            since: started_at,
        });
        Reply::Start {
            link,
            started_at,
            evicted,
        }
    }

    /// Whether a ticket waits on that so many of its pool stand before.
    fn must_wait(&self, before: usize) -> bool
        ensures { result ≡ (self.now.is_paused || not (before == 0)) }
    {
        self.is_paused || before != 0
    }

    /// A client takes its link, if it may have one now.
    pub(crate) fn takes(&mut self, client: u64) -> Reply
        requires kept { Kept self.old }
        requires more { self.old.decisions < outcome.last_decision }
        ensures { Gives self.new result (outcome.takes self.old (find (book.is_of client) self.old.tickets)) }
    {
        let Some(ticket) = self.tickets.get(client) else {
            return Reply::Stranger;
        };
        if self.is_shut {
            return self.loses_ticket(client, Refusal::ShuttingDown);
        }
        if self.has_waited(ticket) {
            return self.loses_ticket(client, Refusal::WaitedTooLong);
        }
        let before = self.tickets.waiting_before(&ticket.key, client);
        if self.must_wait(before) {
            return Reply::Queued(before as u64);
        }
        self.grants(client)
    }

    /// The client's ticket goes.
    fn loses_ticket(&mut self, client: u64, refusal: Refusal) -> Reply
        requires once { (n : ℕ) → count_by (book.is_of n) self.old.tickets ≤ 1 }
        ensures book { self.new ≡ record self.old { tickets = book.without_ticket client self.old.tickets } }
        ensures reply { result ≡ Refuse refusal }
    {
        drop(self.tickets.take_out(client));
        Reply::Refuse(refusal)
    }

    /// What the client gets by its ticket, which is the first of its pool.
    fn grants(&mut self, client: u64) -> Reply
        requires first { (t : TicketRow) → find (book.is_of client) self.old.tickets ≡ Some t → book.waiting_before t.key t.client self.old.tickets ≡ 0 }
        requires kept { Kept self.old }
        requires more { self.old.decisions < outcome.last_decision }
        ensures { (t : TicketRow) → find (book.is_of client) self.old.tickets ≡ Some t → Gives self.new result (outcome.grants self.old t (book.lendable self.old.fresh_from t.key self.old.idle)) }
    {
        let Some(ticket) = self.tickets.get(client) else {
            return Reply::Stranger;
        };
        let choice = self.choice(ticket);
        if let Choice::Wait = choice {
            return Reply::Queued(0);
        }
        let Some(ticket) = self.tickets.take_out(client) else {
            return Reply::Stranger;
        };
        match choice {
            Choice::Lend(idle) => match self.idle.take_out(idle) {
                Some(link) => self.lends(ticket, link),
                None => Reply::Stranger,
            },
            Choice::Start => self.starts(ticket, None),
            Choice::Evict(idle) => {
                drop(self.idle.take_out(idle));
                self.evictions += 1;
                self.starts(ticket, Some(idle))
            }
            Choice::Wait => Reply::Queued(0),
        }
    }

    /// A lent link comes back: it is kept, or to be closed.
    pub(crate) fn gives_back(&mut self, number: u64) -> Reply
        requires kept { Kept self.old }
        ensures { Gives self.new result (outcome.gives_back self.old (find (book.is_link number) self.old.lent)) }
    {
        let Some(link) = self.lent.get(number) else {
            return Reply::Stranger;
        };
        let closes = self.closes(link);
        let link = self.lent.take_out(number);
        self.forgets(number);
        if closes {
            return Reply::Close(number);
        }
        match link {
            Some(link) => self.keeps(link),
            None => Reply::Stranger,
        }
    }

    /// Whether a link that comes back is to be closed.
    fn closes(&self, link: &Link) -> bool
        ensures { result ≡ (outcome.is_old self.now link.now || outcome.is_crowded self.now link.now) }
    {
        self.is_old(link) || self.is_crowded(link)
    }

    /// The link, which has been taken out, lies idle from now on.
    fn keeps(&mut self, link: Link) -> Reply
        requires room { length self.old.idle < MAX_LINKS }
        ensures book { self.new ≡ record self.old { idle = self.old.idle ++ record link { since = self.old.clock } ∷ [] } }
        ensures reply { result ≡ Done }
    {
        let since = self.clock;
        self.idle.push(Link { since, ..link });
        Reply::Done
    }

    /// The clock has reached this second: the first idle link that is to be closed goes.
    pub(crate) fn ticks(&mut self, now: u64) -> Reply
        requires kept { Kept self.old }
        ensures { Gives self.new result (outcome.closes (outcome.at_clock self.old now) (find (outcome.is_stale (outcome.at_clock self.old now)) self.old.idle)) }
    {
        self.clock = later(self.clock, now);
        self.closes_first()
    }

    /// The first idle link goes that is to be closed.
    fn closes_first(&mut self) -> Reply
        requires once { (n : ℕ) → count_by (book.is_link n) self.old.idle ≤ 1 }
        ensures { Gives self.new result (outcome.closes self.old (find (outcome.is_stale self.old) self.old.idle)) }
    {
        match self.first_stale() {
            Some(number) => {
                drop(self.idle.take_out(number));
                Reply::Close(number)
            }
            None => Reply::Done,
        }
    }

    /// The server of a link has hung up: the link goes, where it is idle.
    pub(crate) fn hangs_up(&mut self, number: u64) -> Reply
        requires kept { Kept self.old }
        ensures { Gives self.new result (outcome.hangs_up self.old (find (book.is_link number) self.old.idle)) }
    {
        let Some(link) = self.idle.take_out(number) else {
            return Reply::Nobody;
        };
        drop(link);
        Reply::Close(number)
    }

    /// The link's lease is found by its client's key word from now on.
    pub(crate) fn keys(&mut self, link: u64, client: KeyView, server: KeyView) -> Reply
        requires room { length self.old.keyed < MAX_LINKS }
        ensures book { self.new ≡ (outcome.keys self.old link client server).book }
        ensures reply { result ≡ Done }
    {
        self.keyed.push(Lease {
            link,
            client,
            server,
        });
        Reply::Done
    }

    /// What the client of this key word is at is to be cancelled: the link of its first lease is marked.
    pub(crate) fn cancels(&mut self, client: KeyView) -> Reply
        requires kept { Kept self.old }
        ensures { Gives self.new result (outcome.cancels self.old (find (book.is_of_client client) self.old.keyed)) }
    {
        let reply = self.strike(client);
        if let Reply::Strike { link, .. } = reply {
            self.marked.note(link);
        }
        reply
    }

    /// What a Cancel of the client is answered.
    fn strike(&self, client: KeyView) -> Reply
        requires once { (n : ℕ) → count_by (book.is_link n) self.now.lent ≤ 1 }
        ensures { result ≡ (outcome.cancels self.now (find (book.is_of_client client) self.now.keyed)).reply }
    {
        match self.keyed.of_client(client) {
            Some(lease) => self.strike_at(lease),
            None => Reply::Nobody,
        }
    }

    /// What a Cancel of this lease's client is answered.
    fn strike_at(&self, lease: &Lease) -> Reply
        requires once { (n : ℕ) → count_by (book.is_link n) self.now.lent ≤ 1 }
        ensures { result ≡ (outcome.strikes_at self.now lease.now (find (book.is_link lease.now.link) self.now.lent)).reply }
    {
        match self.lent.get(lease.link) {
            Some(link) => strike_by(lease, link.key.key()),
            None => Reply::Nobody,
        }
    }

    /// The lease of a lent link ends: no Cancel finds it any more.
    pub(crate) fn ends_lease(&mut self, link: u64) -> Reply
        requires kept { Kept self.old }
        requires lent { list_any (book.is_link link) self.old.lent ≡ true }
        ensures book { self.new ≡ (outcome.ends_lease self.old link).book }
        ensures reply { result ≡ (outcome.ends_lease self.old link).reply }
    {
        self.keyed.remove(link);
        self.ended.note(link);
        self.end_of(link)
    }

    /// What is to become of the link when its lease ends.
    fn end_of(&self, link: u64) -> Reply
        ensures { result ≡ (outcome.ends_lease self.now link).reply }
    {
        if self.marked.has(link) {
            Reply::Dispose
        } else {
            Reply::Reset
        }
    }

    /// This is changed for all from now on.
    pub(crate) fn changes(&mut self, change: Change) -> Reply
        requires next { self.old.next_link ≤ outcome.last_decision }
        ensures book { self.new ≡ outcome.changed (change_of change) self.old }
        ensures reply { result ≡ Done }
    {
        match change {
            Change::Limits(limits) => self.limits = limits,
            Change::Pause => self.is_paused = true,
            Change::Resume => self.is_paused = false,
            Change::Shutdown => self.is_shut = true,
            Change::Reconnect => self.fresh_from = self.last_link + 1,
        }
        Reply::Done
    }

    /// Whether an idle link that is to be closed is in the slot.
    fn has_stale(&self, slot: &Option<Link>) -> bool
        ensures { result ≡ passes (outcome.is_stale self.now) slot.now }
    {
        match slot {
            Some(link) => self.is_stale(link),
            None => false,
        }
    }

    /// The first slot of an idle link that is to be closed.
    fn stale_slot<'a>(&self, slots: &'a VecDeque<Option<Link>>) -> Option<&'a Option<Link>>
        ensures { option_copied result ≡ find (λ s. passes (outcome.is_stale self.now) s) slots.now.items }
    {
        slots.iter().find(|s| self.has_stale(s))
    }

    /// The first idle link that is to be closed.
    fn first_stale(&self) -> Option<u64>
        ensures { result ≡ number_of (find (outcome.is_stale self.now) self.now.idle) }
    {
        number_in(self.stale_slot(self.idle.slots()))
    }
}

/// What is changed for all is of this kind.
pub(crate) fn kind_of_change(change: &Change) -> Kind
    ensures { result ≡ outcome.kind_of_change (change_of change.now) }
{
    match change {
        Change::Limits(_) => Kind::Limiting,
        Change::Pause => Kind::Pausing,
        Change::Resume => Kind::Resuming,
        Change::Shutdown => Kind::Closing,
        Change::Reconnect => Kind::Reconnecting,
    }
}

/// The strike of a lease whose link was started for this key.
fn strike_by(lease: &Lease, key: &StartKey) -> Reply
    ensures { result ≡ strike_of lease.now key.now.host }
{
    match key.host {
        Some(_) => Reply::Strike {
            link: lease.link,
            server: lease.server,
        },
        None => Reply::Nobody,
    }
}

/// The link of this number, where it is fresh.
fn if_fresh(fresh_from: u64, number: Option<u64>) -> Option<u64>
    ensures { result ≡ number_if_fresh fresh_from number }
{
    match number {
        Some(number) => {
            if fresh_from <= number {
                Some(number)
            } else {
                None
            }
        }
        None => None,
    }
}

/// The later of two seconds.
fn later(clock: u64, now: u64) -> u64
    ensures { result ≡ cond (nat_lt clock now) now clock }
{
    if clock < now { now } else { clock }
}

/// What the first ticket of its pool is answered; links by their numbers.
#[derive(Clone, Copy, Drop)]
enum Choice {
    Lend(u64),
    Start,
    Evict(u64),
    Wait,
}

/// To close this link for another's start; to wait, where there is none.
fn eviction(link: Option<u64>) -> Choice
    ensures { result ≡ eviction_of link }
{
    match link {
        Some(number) => Choice::Evict(number),
        None => Choice::Wait,
    }
}
