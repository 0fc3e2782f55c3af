//! The links that are idle, in the order of their return.
ghost use Rattle.std.specs.Prelude.{◌≡◌, ℕ, ◌≤◌, ◌<◌, ◌++◌, ◌∷◌, [], IfOk, count_by, length, position};
ghost use Rattle.std.specs.List.{list_any};
ghost use Rattle.start_keys.specs.Keys.{same_key};
ghost use Rattle.book_model.specs.declared.limits.TheConstants.{MAX_LINKS};
ghost use Rattle.lease_book.specs.Links.{found, is_numbered, left};

use book_model::limits::MAX_LINKS;
use link_run::links::CleanLink;
use server_end::ServerEnd;
use start_keys::StartKey;
use std::alloc::{AllocError, Global};
use std::marker::Model;

/// The idle links, with room for the most that a book can hold.
pub struct IdleLinks<E: ServerEnd> {
    links: Vec<CleanLink<E>>,
}

impl<E: ServerEnd> Drop for IdleLinks<E> {
    fn drop(self) {
        let IdleLinks { links: _ } = self;
    }
}

impl<E: ServerEnd> Model for IdleLinks<E> {
    ghost use Rattle.std.specs.Prelude.{◌≤◌, List, vec_capacity};
    ghost use Rattle.book_model.specs.declared.limits.TheConstants.{MAX_LINKS};
    ghost use Rattle.link_run.specs.Links.{LinkView};

    ghost Value = { List LinkView };

    ghost view = { λ l. l.links.items };

    ghost invariant = { λ l. MAX_LINKS ≤ vec_capacity l.links };
}

/// Where the link of this number stands.
fn place_of<E: ServerEnd>(links: &[CleanLink<E>], number: u64) -> Option<usize>
    ensures { result ≡ position (is_numbered number) links.now }
{
    links.iter().position(|l| l.number() == number)
}

impl<E: ServerEnd> IdleLinks<E> {
    /// No links, with all the room.
    pub fn new(alloc: Global) -> Result<IdleLinks<E>, AllocError>
        ensures { IfOk result (λ l. l ≡ []) }
    {
        let mut links = Vec::new(alloc);
        links.reserve(MAX_LINKS as usize)?;
        Ok(IdleLinks { links })
    }

    /// Keeps a link behind the others.
    pub fn push(&mut self, link: CleanLink<E>)
        requires { length self.old < MAX_LINKS }
        ensures { self.new ≡ self.old ++ link ∷ [] }
    {
        self.links.push_reserved(link);
    }

    /// Whether a link of this key is among them.
    pub fn has_key(&self, key: &StartKey) -> bool
        ensures { result ≡ list_any (λ l. same_key l.key key.now) self.now }
    {
        self.links.iter().any(|link| **link.key() == *key)
    }

    /// Takes the link of this number out, if one is named.
    #[tactic(auto, using(crate::proofs::Links::found_at, crate::proofs::Links::left_at, crate::proofs::Links::none_at, crate::proofs::Links::all_at))]
    pub fn take(&mut self, number: Option<u64>) -> Option<CleanLink<E>>
        requires once { (n : ℕ) → count_by (is_numbered n) self.old ≤ 1 }
        ensures found { result ≡ found number self.old }
        ensures left { self.new ≡ left number self.old }
    {
        let place = place_of(&self.links, number?)?;
        Some(self.links.remove(place))
    }
}
