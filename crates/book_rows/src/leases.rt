//! The leases that a Cancel finds, and the numbers of lent links: those that one found, or whose lease has ended.
ghost use Rattle.std.specs.Prelude.{◌≡◌, ◌<◌, ◌≤◌, ◌++◌, ◌∷◌, [], ℕ, IfOk, count_by, find, length, option_copied, position};
ghost use Rattle.std.specs.List.{list_any};
ghost use Rattle.book_model.specs.Book as book;
ghost use Rattle.book_model.specs.declared.limits.TheConstants.{MAX_LINKS};

use crate::index::Index;
use book_model::limits::MAX_LINKS;
use message_view::KeyView;
use std::alloc::{AllocError, Global};
use std::marker::Model;

/// A lease of a lent link, with the key words of its client and of its server.
#[derive(Clone, Drop)]
pub struct Lease {
    pub link: u64,
    pub client: KeyView,
    pub server: KeyView,
}

impl Model for Lease {
    ghost use Rattle.book_model.specs.Book.{Lease as LeaseRow};

    ghost Value = { LeaseRow };

    ghost view = { λ l. record { link = l.link; client = l.client; server = l.server } };
}

impl Lease {
    /// Whether it is of this link.
    fn is_of_link(&self, link: u64) -> bool
        ensures { result ≡ book.is_of_link link self.now }
    {
        self.link == link
    }

    /// Whether it is of the client of this key word.
    fn is_of_client(&self, client: KeyView) -> bool
        ensures { result ≡ book.is_of_client client self.now }
    {
        self.client.pid == client.pid && self.client.secret == client.secret
    }
}

/// Leases in the order of their Keyed, with room for one of each link. A key word that nobody has is mostly known for one by an index,
/// without a look at the leases.
pub struct Leases {
    rows: Vec<Lease>,
    index: Index,
}

impl Drop for Leases {
    fn drop(self) {
        let Leases { rows: _, index: _ } = self;
    }
}

impl Model for Leases {
    ghost use Rattle.std.specs.Prelude.{◌≤◌, List, vec_capacity};
    ghost use Rattle.book_model.specs.Book.{Lease as LeaseRow};
    ghost use Rattle.book_model.specs.declared.limits.TheConstants.{MAX_LINKS};
    ghost use Rattle.book_rows.specs.Index.{Tells};

    ghost Value = { List LeaseRow };

    ghost view = { λ l. l.rows.items };

    ghost invariant = { λ l. (MAX_LINKS ≤ vec_capacity l.rows) × Tells l.index l.rows.items };
}

impl Leases {
    /// No leases, with all the room.
    #[tactic(auto, using(crate::proofs::Indexing::tells_nobody))]
    pub fn new(alloc: Global) -> Result<Leases, AllocError>
        ensures { IfOk result (λ l. l ≡ []) }
    {
        let rows = Vec::with_capacity(alloc, MAX_LINKS as usize)?;
        let index = Index::new(alloc)?;
        Ok(Leases { rows, index })
    }

    /// Where the link's lease stands.
    fn place_of(&self, link: u64) -> Option<usize>
        ensures { result ≡ position (book.is_of_link link) self.now }
    {
        self.rows.iter().position(|l| l.is_of_link(link))
    }

    /// Whether the link's lease is there.
    pub fn has(&self, link: u64) -> bool
        ensures { result ≡ list_any (book.is_of_link link) self.now }
    {
        self.rows.iter().any(|l| l.is_of_link(link))
    }

    /// The first lease of this client.
    #[tactic(auto, using(crate::proofs::Indexing::nobody))]
    pub fn of_client(&self, client: KeyView) -> Option<&Lease>
        ensures { option_copied result ≡ find (book.is_of_client client) self.now }
    {
        if !self.index.may_have(client) {
            return None;
        }
        self.rows.iter().find(|l| l.is_of_client(client))
    }

    /// A lease more.
    #[tactic(auto, using(crate::proofs::Indexing::one_more_told, crate::proofs::Indexing::fits))]
    pub fn push(&mut self, lease: Lease)
        requires { length self.old < MAX_LINKS }
        ensures { self.new ≡ self.old ++ lease ∷ [] }
    {
        self.index.raise(lease.client);
        self.rows.push_reserved(lease);
    }

    /// The link's lease is there no more.
    #[tactic(auto, using(crate::proofs::Indexing::one_less_told, crate::proofs::Indexing::is_told))]
    pub fn remove(&mut self, link: u64)
        requires once { (n : ℕ) → count_by (book.is_of_link n) self.old ≤ 1 }
        ensures { self.new ≡ book.without_lease link self.old }
    {
        if let Some(place) = self.place_of(link) {
            let lease = self.rows.remove(place);
            self.index.lower(lease.client);
        }
    }
}

/// The numbers of lent links, each once, in the order in which they were noted, with room for the most links that there can be.
pub struct Numbers {
    rows: Vec<u64>,
}

impl Drop for Numbers {
    fn drop(self) {
        let Numbers { rows: _ } = self;
    }
}

impl Model for Numbers {
    ghost use Rattle.std.specs.Prelude.{◌≤◌, ℕ, List, vec_capacity};
    ghost use Rattle.book_model.specs.declared.limits.TheConstants.{MAX_LINKS};

    ghost Value = { List ℕ };

    ghost view = { λ n. n.rows.items };

    ghost invariant = { λ n. MAX_LINKS ≤ vec_capacity n.rows };
}

impl Numbers {
    /// No numbers, with all the room.
    pub fn new(alloc: Global) -> Result<Numbers, AllocError>
        ensures { IfOk result (λ n. n ≡ []) }
    {
        let rows = Vec::with_capacity(alloc, MAX_LINKS as usize)?;
        Ok(Numbers { rows })
    }

    /// Where the number stands.
    fn place_of(&self, number: u64) -> Option<usize>
        ensures { result ≡ position (book.is_number number) self.now }
    {
        self.rows.iter().position(|n| *n == number)
    }

    /// Whether the number is there.
    pub fn has(&self, number: u64) -> bool
        ensures { result ≡ list_any (book.is_number number) self.now }
    {
        self.rows.iter().any(|n| *n == number)
    }

    /// The number is there no more.
    pub fn remove(&mut self, number: u64)
        requires once { (n : ℕ) → count_by (book.is_number n) self.old ≤ 1 }
        ensures { self.new ≡ book.without_number number self.old }
    {
        if let Some(place) = self.place_of(number) {
            let _number = self.rows.remove(place);
        }
    }

    /// The number is there from now on, behind all others.
    pub fn note(&mut self, number: u64)
        requires once { (n : ℕ) → count_by (book.is_number n) self.old ≤ 1 }
        requires room { length (book.without_number number self.old) < MAX_LINKS }
        ensures { self.new ≡ book.with_number number self.old }
    {
        self.remove(number);
        self.rows.push_reserved(number);
    }
}
