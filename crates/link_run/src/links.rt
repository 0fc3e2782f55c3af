//! Links to servers, as they are kept and handed on.
ghost use Rattle.std.specs.Prelude.{◌≡◌};
ghost use Rattle.std.specs.Arc.{arc_value};
ghost use Rattle.link_run.specs.Receipts.{IsClean, IsUsed};

use message_view::KeyView;
use param_track::{Reported, StartReport};
use server_end::ServerEnd;
use server_end::gate::Gate;
use start_keys::StartKey;
use std::marker::Model;
use std::sync::Arc;

/// A link taken apart, of which nothing is known.
#[derive(Drop)]
pub struct LinkParts<E: ServerEnd> {
    pub end: E,
    /// The start key of its session.
    pub key: Arc<StartKey>,
    /// Its number, and the second in which it was begun.
    pub number: u64,
    pub started_at: u64,
    /// The words of its server's BackendKeyData, if it sent one.
    pub server_key: Option<KeyView>,
    /// What its start reported, and whether the server has told otherwise since.
    pub reported: Reported,
}

/// A link that nobody has used since its start or its reset. Over an end of any kind: all that went over it since it was begun was a
/// start with its key, and then leases, each of which was settled and then reset. Where its end follows, it stands in the fresh session
/// of its key, with nothing under way.
pub struct CleanLink<E: ServerEnd> {
    link: LinkParts<E>,
}

impl<E: ServerEnd> Drop for CleanLink<E> {
    fn drop(self) {
        let CleanLink { link: _ } = self;
    }
}

impl<E: ServerEnd> Model for CleanLink<E> {
    ghost use Rattle.std.specs.Arc.{arc_value};
    ghost use Rattle.link_run.specs.Links.{LinkView};
    ghost use Rattle.link_run.specs.Receipts.{IsClean};

    ghost Value = { LinkView };

    ghost view = { λ l. record { stands = E.standing l.link.end; key = arc_value l.link.key; number = l.link.number; started_at = l.link.started_at; server_key = l.link.server_key; reports = l.link.reported } };

    ghost invariant = { λ l. IsClean (E.standing l.link.end) (arc_value l.link.key) l.link.server_key l.link.reported };
}

/// A link that was used and is settled. Over an end of any kind: a lease went over a clean link, whose every message is answered. Where
/// its end follows and lives, it stands at rest in a session of its key, with nothing under way. A reset makes it clean.
pub struct UsedLink<E: ServerEnd> {
    link: LinkParts<E>,
}

impl<E: ServerEnd> Drop for UsedLink<E> {
    fn drop(self) {
        let UsedLink { link: _ } = self;
    }
}

impl<E: ServerEnd> Model for UsedLink<E> {
    ghost use Rattle.std.specs.Arc.{arc_value};
    ghost use Rattle.link_run.specs.Links.{LinkView};
    ghost use Rattle.link_run.specs.Receipts.{IsUsed};

    ghost Value = { LinkView };

    ghost view = { λ l. record { stands = E.standing l.link.end; key = arc_value l.link.key; number = l.link.number; started_at = l.link.started_at; server_key = l.link.server_key; reports = l.link.reported } };

    ghost invariant = { λ l. IsUsed (E.standing l.link.end) (arc_value l.link.key) l.link.server_key l.link.reported };
}

impl<E: ServerEnd> CleanLink<E> {
    /// Its number.
    pub fn number(&self) -> u64
        ensures { result ≡ self.now.number }
    {
        self.link.number
    }

    /// The second in which it was begun.
    pub fn started_at(&self) -> u64
        ensures { result ≡ self.now.started_at }
    {
        self.link.started_at
    }

    /// The words by which the link's server lets its session be cancelled: those of the BackendKeyData that it sent while the link
    /// was started, or none where it sent none. No client is given them.
    pub fn server_key(&self) -> Option<KeyView>
        ensures { result ≡ self.now.server_key }
    {
        self.link.server_key
    }

    /// The start key of its session.
    pub fn key(&self) -> &Arc<StartKey>
        ensures { arc_value result.now ≡ self.now.key }
    {
        &self.link.key
    }

    /// From here on the gate's turns tell of its end; nothing of it changes.
    pub fn watch<G: Gate<E>>(&mut self, gate: &mut G)
        ensures same { self.new ≡ self.old }
        ensures turns { G.turns gate.new ≡ G.turns gate.old }
    {
        gate.watch(&mut self.link.end);
    }

    /// From here on they don't; nothing of it changes.
    pub fn unwatch<G: Gate<E>>(&mut self, gate: &mut G)
        ensures same { self.new ≡ self.old }
        ensures turns { G.turns gate.new ≡ G.turns gate.old }
    {
        gate.unwatch(&mut self.link.end);
    }

    /// The parameters that its start reported, in that order and with the values of then.
    pub fn reports(&self) -> &[StartReport]
        ensures { result.now ≡ self.now.reports }
    {
        self.link.reported.reports()
    }

    /// Takes it apart, for a lease.
    pub fn lend(self) -> LinkParts<E>
        ensures stands { E.standing result.end ≡ self.stands }
        ensures key { arc_value result.key ≡ self.key }
        ensures number { result.number ≡ self.number }
        ensures started_at { result.started_at ≡ self.started_at }
        ensures server_key { result.server_key ≡ self.server_key }
        ensures reports { result.reported ≡ self.reports }
        ensures clean { IsClean (E.standing result.end) (arc_value result.key) result.server_key result.reported }
    {
        let CleanLink { link } = self;
        link
    }
}

impl<E: ServerEnd> UsedLink<E> {
    /// Takes it apart, for its reset.
    pub fn lend(self) -> LinkParts<E>
        ensures stands { E.standing result.end ≡ self.stands }
        ensures key { arc_value result.key ≡ self.key }
        ensures number { result.number ≡ self.number }
        ensures started_at { result.started_at ≡ self.started_at }
        ensures server_key { result.server_key ≡ self.server_key }
        ensures reports { result.reported ≡ self.reports }
        ensures used { IsUsed (E.standing result.end) (arc_value result.key) result.server_key result.reported }
    {
        let UsedLink { link } = self;
        link
    }
}

impl<E: ServerEnd> LinkParts<E> {
    /// The same as a link that nobody has used.
    pub fn clean(self) -> CleanLink<E>
        requires { IsClean (E.standing self.end) (arc_value self.key) self.server_key self.reported }
        ensures stands { result.stands ≡ E.standing self.end }
        ensures key { result.key ≡ arc_value self.key }
        ensures number { result.number ≡ self.number }
        ensures started_at { result.started_at ≡ self.started_at }
        ensures server_key { result.server_key ≡ self.server_key }
        ensures reports { result.reports ≡ self.reported }
    {
        CleanLink { link: self }
    }

    /// The same as a link that was used and is settled.
    pub fn used(self) -> UsedLink<E>
        requires { IsUsed (E.standing self.end) (arc_value self.key) self.server_key self.reported }
        ensures stands { result.stands ≡ E.standing self.end }
        ensures key { result.key ≡ arc_value self.key }
        ensures number { result.number ≡ self.number }
        ensures started_at { result.started_at ≡ self.started_at }
        ensures server_key { result.server_key ≡ self.server_key }
        ensures reports { result.reports ≡ self.reported }
    {
        UsedLink { link: self }
    }
}
