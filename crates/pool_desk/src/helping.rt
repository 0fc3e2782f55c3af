//! Which of the clients that wait a decision may help. That they are enough is shown by tests.
ghost use Rattle.std.specs.Prelude.{◌≡◌, ℕ, true};
ghost use Rattle.std.specs.List.{list_any};
ghost use Rattle.book_model.specs.Book.{is_number};
ghost use Rattle.book_model.specs.Events.{event_of};
ghost use Rattle.book_register.specs.Waking.{waiting_behind};
ghost use Rattle.pool_desk.specs.Helping.{ChoosesFirsts, IsChosen, helped_behind, helped_by, helped_by_link};
ghost use Rattle.lease_book.specs.Links.{plain};

use crate::bells::{BELLS, Chosen, choose};
use crate::inner::Core;
use crate::outside::Outside;
use book_model::events::{Change, Event};
use book_rows::firsts::Firsts;
use desk_tallies::ledgers::Ledgers;
use lease_book::events::BookEvent;

/// Which of the clients that wait a decision may help.
#[derive(Clone, Copy, Drop)]
pub enum Helps {
    Nobody,
    /// The one that has waited longest in its pool.
    One(u64),
    /// The one that has waited longest in each pool.
    FirstOfEach,
    All,
}

impl<S: Outside, K: Ledgers> Core<S, K> {
    /// Whom this event helps, once it is decided.
    pub fn helped_by(&self, event: &BookEvent<S::End>) -> Helps
        ensures { result ≡ helped_by self.now.book.lists (plain event.now) }
    {
        match event {
            BookEvent::GiveBack(link) => self.helped_by_link(link.number()),
            BookEvent::Plain(event) => self.helped_plainly(event),
        }
    }

    /// The same, where no link comes with it.
    fn helped_plainly(&self, event: &Event) -> Helps
        ensures { result ≡ helped_by self.now.book.lists (event_of event.now) }
    {
        match event {
            Event::Arrive { .. }
            | Event::Ask { .. }
            | Event::Keyed { .. }
            | Event::Cancel { .. }
            | Event::EndLease { .. }
            | Event::HungUp { .. }
            | Event::Change(Change::Reconnect) => Helps::Nobody,
            Event::Take { client } | Event::Leave { client } => self.helped_behind(*client),
            Event::Lost { link } | Event::StartFailed { link } => self.helped_by_link(*link),
            Event::Change(Change::Shutdown) => Helps::All,
            Event::Tick { .. } | Event::Change(_) => Helps::FirstOfEach,
        }
    }

    /// Whom it helps that this client waits no more.
    pub fn helped_behind(&self, client: u64) -> Helps
        ensures { result ≡ helped_behind self.now.book.lists client }
    {
        match self.book.lists().waiting_behind(client) {
            Some(next) => Helps::One(next),
            None => Helps::Nobody,
        }
    }

    /// Whom it helps that this link isn't lent any more.
    fn helped_by_link(&self, link: u64) -> Helps
        ensures { result ≡ helped_by_link self.now.book.lists link }
    {
        if self.book.lists().is_full() {
            return Helps::FirstOfEach;
        }
        match self.book.lists().waiting_for(link) {
            Some(next) => Helps::One(next),
            None => Helps::Nobody,
        }
    }

    /// The bells of those that have waited longest in each pool.
    pub fn first_of_each(&self) -> Chosen
        ensures { ChoosesFirsts self.now.book.lists result }
    {
        bells_of(self.book.lists().firsts())
    }
}

/// The bells of these clients.
#[tactic(auto, using(crate::proofs::Choosing::one_chosen, crate::proofs::Choosing::all_chosen))]
fn bells_of(clients: Firsts<'_>) -> Chosen
    ensures { (client : ℕ) → list_any (is_number client) clients.entry ≡ true → IsChosen result client }
{
    let mut chosen = [false; BELLS as usize];
    for client in clients {
        choose(&mut chosen, client);
    }
    chosen
}
