//! The clients that are there.
ghost use Rattle.std.specs.Prelude.{◌≡◌, ◌<◌, ◌≤◌, ◌++◌, ◌∷◌, [], ℕ, IfOk, count_by, length};
ghost use Rattle.std.specs.List.{list_any};
ghost use Rattle.book_model.specs.Book as book;
ghost use Rattle.book_model.specs.Outcomes.{in_state};
ghost use Rattle.book_model.specs.declared.limits.TheConstants.{MAX_PRESENT};

use book_model::events::ClientState;
use numbered_rows::numbered::{Numbered, NumberedRows};
use std::alloc::{AllocError, Global};
use std::marker::Model;

/// A client that is there.
#[derive(Clone, Drop)]
pub struct Client {
    pub number: u64,
    pub state: ClientState,
}

impl Model for Client {
    ghost use Rattle.book_model.specs.Book.{Client as ClientRow};

    ghost Value = { ClientRow };

    ghost view = { λ c. record { number = c.number; state = c.state } };
}

impl Numbered for Client {
    ghost number = { λ c. c.number };

    fn number(&self) -> u64 {
        self.number
    }
}

/// The clients in the order in which they came, with room for the most that there can be.
pub struct Clients {
    rows: NumberedRows<Client>,
}

impl Drop for Clients {
    fn drop(self) {
        let Clients { rows: _ } = self;
    }
}

impl Model for Clients {
    ghost use Rattle.std.specs.Prelude.{List};
    ghost use Rattle.book_model.specs.Book.{Client as ClientRow};

    ghost Value = { List ClientRow };

    ghost view = { λ c. c.rows };
}

impl Clients {
    /// No clients, with all the room.
    pub fn new(alloc: Global) -> Result<Clients, AllocError>
        ensures { IfOk result (λ c. c ≡ []) }
    {
        let rows = NumberedRows::new(alloc)?;
        Ok(Clients { rows })
    }

    /// How many there are.
    pub fn len(&self) -> usize
        ensures { result ≡ length self.now }
    {
        self.rows.len()
    }

    /// The clients, in rows of the holder's own.
    pub fn copied(&self, alloc: Global) -> Result<Vec<Client>, AllocError>
        ensures { IfOk result (λ v. v.items ≡ self.now) }
    {
        self.rows.copied(alloc)
    }

    /// Whether the client is there.
    #[tactic(auto, using(numbered_rows::proofs::Numbering::is_there))]
    pub fn has(&self, number: u64) -> bool
        requires once { (n : ℕ) → count_by (book.is_client n) self.now ≤ 1 }
        ensures { result ≡ list_any (book.is_client number) self.now }
    {
        self.rows.get(number).is_some()
    }

    /// A client comes.
    pub fn push(&mut self, client: Client)
        requires { length self.old < MAX_PRESENT }
        ensures { self.new ≡ self.old ++ client ∷ [] }
    {
        self.rows.push(client);
    }

    /// The client goes.
    pub fn remove(&mut self, number: u64)
        requires once { (n : ℕ) → count_by (book.is_client n) self.old ≤ 1 }
        ensures { self.new ≡ book.without_client number self.old }
    {
        drop(self.rows.take(number));
    }

    /// The client is in this state from now on.
    #[tactic(auto, using(crate::proofs::Numbering::state_put))]
    pub fn put_in_state(&mut self, state: ClientState, number: u64)
        requires once { (n : ℕ) → count_by (book.is_client n) self.old ≤ 1 }
        ensures { self.new ≡ in_state state number self.old }
    {
        self.rows.replace(Client { number, state });
    }
}
