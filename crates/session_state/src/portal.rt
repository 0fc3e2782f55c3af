//! Prepared statements and portals (PostgreSQL manual, "Extended Query").
ghost use Rattle.std.specs.Prelude.{◌≡◌, ◌≤◌, ◌<◌, ◌^◌, ℕ, length, drop, map, take, IfOk, Some};
ghost use Rattle.std.specs.Arc.{arc_value};
ghost use Rattle.std.specs.List.{list_all};
ghost use Rattle.session_values.specs.Extended.{is_of_other};
ghost use Rattle.session_state.specs.Portals.{progress_of};

use session_values::naming::HasName;
use session_values::row::Row;
use session_values::text::Text;
use shared_list::Shared;
use std::alloc::{AllocError, Global};
use std::marker::Model;
use std::sync::Arc;

/// A prepared statement.
pub struct Prepared {
    name: Text,
    query: Text,
    oids: Vec<u32>,
}

impl Drop for Prepared {
    fn drop(self) {
        let Prepared {
            name: _,
            query: _,
            oids: _,
        } = self;
    }
}

impl Model for Prepared {
    ghost use Rattle.std.specs.Prelude.{◌<◌, ◌^◌, length};
    ghost use Rattle.session_values.specs.State.{PreparedOf};

    ghost Value = { PreparedOf };

    ghost view = { λ p. record { name = p.name; query = p.query; oids = p.oids.items } };

    ghost invariant = { λ p. length p.oids.items < 2 ^ 16 };
}

impl HasName for Prepared {
    ghost use Rattle.session_values.specs.State.{prepared_name};

    ghost name_of = { prepared_name };

    fn name(&self) -> &Text {
        &self.name
    }
}

impl Prepared {
    ghost use Rattle.session_values.specs.State.{PreparedOf};

    /// A prepared statement of this name and text, with fewer than 65,536 oids.
    pub fn new(name: Text, query: Text, oids: Vec<u32>) -> Prepared
        requires { length oids.items < 2 ^ 16 }
        ensures { result ≡ record { name = name; query = query; oids = oids.items } }
    {
        Prepared { name, query, oids }
    }

    /// Its text.
    pub fn query(&self) -> &Text
        ensures { result.now ≡ self.now.query }
    {
        &self.query
    }

    /// The types that its Parse asked for.
    pub fn oids(&self) -> &[u32]
        ensures oids { result.now ≡ self.now.oids }
        ensures count { length self.now.oids < 2 ^ 16 }
    {
        self.oids.as_slice()
    }
}

/// The rows of a portal that are left.
pub struct Rows {
    list: Shared<Row>,
    from: usize,
}

impl Drop for Rows {
    fn drop(self) {
        let Rows { list: _, from: _ } = self;
    }
}

impl Model for Rows {
    ghost use Rattle.std.specs.Prelude.{◌≤◌, List, Option, ℕ, drop, length};

    ghost Value = { List (List (Option (List ℕ))) };

    ghost view = { λ r. drop r.from r.list };

    ghost invariant = { λ r. r.from ≤ length r.list };
}

impl Rows {
    /// These rows.
    pub fn new(list: Shared<Row>) -> Rows
        ensures { result ≡ list }
    {
        Rows { list, from: 0 }
    }

    /// How many are left.
    pub fn len(&self) -> usize
        ensures { result ≡ length self.now }
    {
        self.list.len() - self.from
    }

    /// The rows that are left, in order.
    pub fn as_slice(&self) -> &[Arc<Row>]
        ensures { map arc_value result.now ≡ self.now }
    {
        &self.list.as_slice()[self.from..]
    }

    /// The first `count` rows that are left.
    #[tactic(auto, using(session_values::proofs::Mapped::take_mapped))]
    pub fn first(&self, count: usize) -> &[Arc<Row>]
        requires { count ≤ length self.now }
        ensures { map arc_value result.now ≡ take count self.now }
    {
        &self.as_slice()[..count]
    }

    /// What is left after the first `count`.
    pub fn after(&self, count: usize) -> Result<Rows, AllocError>
        requires { count ≤ length self.now }
        ensures { IfOk result (λ r. r ≡ drop count self.now) }
    {
        Ok(Rows {
            list: self.list.copied()?,
            from: self.from + count,
        })
    }
}

/// How far a portal has come.
pub enum Progress {
    NotRun,
    /// The rows that are left.
    Remaining(Rows),
    /// Run, and it gives no rows.
    Finished,
}

impl Drop for Progress {
    fn drop(self) {
        match self {
            Progress::NotRun => {}
            Progress::Remaining(_first) => {}
            Progress::Finished => {}
        }
    }
}

impl Progress {
    /// The same progress; the rows are shared.
    pub fn copied(&self) -> Result<Progress, AllocError>
        ensures { IfOk result (λ p. progress_of p ≡ progress_of self.now) }
    {
        match self {
            Progress::NotRun => Ok(Progress::NotRun),
            Progress::Remaining(rows) => Ok(Progress::Remaining(rows.after(0)?)),
            Progress::Finished => Ok(Progress::Finished),
        }
    }
}

/// What a Bind fixed.
pub struct BoundStatement {
    pub portal: Text,
    pub statement: Text,
    pub query: Text,
    pub given: Row,
    pub formats: Vec<u16>,
}

impl Drop for BoundStatement {
    fn drop(self) {
        let BoundStatement {
            portal: _,
            statement: _,
            query: _,
            given: _,
            formats: _,
        } = self;
    }
}

/// A portal: a statement with its values. Its copies share them.
pub struct Portal {
    bound: Arc<BoundStatement>,
    /// Its statement was replaced or dropped without a Close.
    is_orphan: bool,
    progress: Progress,
}

impl Drop for Portal {
    fn drop(self) {
        let Portal {
            bound: _,
            is_orphan: _,
            progress: _,
        } = self;
    }
}

impl Model for Portal {
    ghost use Rattle.std.specs.Prelude.{Some, None, if◌then◌else◌};
    ghost use Rattle.std.specs.Arc.{arc_value};
    ghost use Rattle.session_values.specs.State.{PortalOf};
    ghost use Rattle.session_state.specs.Portals.{progress_of};

    ghost Value = { PortalOf };

    ghost view = { λ p. record {
      name = (arc_value p.bound).portal;
      statement = (if p.is_orphan then None else Some (arc_value p.bound).statement);
      query = (arc_value p.bound).query;
      given = (arc_value p.bound).given;
      formats = (arc_value p.bound).formats.items;
      progress = progress_of p.progress;
    } };
}

impl HasName for Portal {
    ghost use Rattle.session_values.specs.State.{portal_name};

    ghost name_of = { portal_name };

    fn name(&self) -> &Text {
        &self.bound.portal
    }
}

impl Portal {
    ghost use Rattle.std.specs.Prelude.{Some};
    ghost use Rattle.session_values.specs.State.{PortalOf, NotRun};
    ghost use Rattle.session_values.specs.Extended.{is_of, orphaned};

    /// A portal that was not run.
    pub fn new(alloc: Global, bound: BoundStatement) -> Result<Portal, AllocError>
        ensures { IfOk result (λ p. p ≡ record { name = bound.portal; statement = Some bound.statement; query = bound.query; given = bound.given; formats = bound.formats.items; progress = NotRun }) }
    {
        Ok(Portal {
            bound: Arc::new(alloc, bound)?,
            is_orphan: false,
            progress: Progress::NotRun,
        })
    }

    /// The text of its statement.
    pub fn query(&self) -> &Text
        ensures { result.now ≡ self.now.query }
    {
        &self.bound.query
    }

    /// The values that it was bound to.
    pub fn given(&self) -> &Row
        ensures { result.now ≡ self.now.given }
    {
        &self.bound.given
    }

    /// The result formats that its Bind asked for.
    pub fn formats(&self) -> &[u16]
        ensures { result.now ≡ self.now.formats }
    {
        self.bound.formats.as_slice()
    }

    /// How far it has come.
    pub fn progress(&self) -> &Progress
        ensures { progress_of result.now ≡ self.now.progress }
    {
        &self.progress
    }

    /// Whether it was made from the statement of this name that stands.
    pub fn is_of(&self, statement: &[u8]) -> bool
        ensures { result ≡ is_of statement.now self.now.statement }
    {
        !self.is_orphan && self.bound.statement.is(statement)
    }

    /// This portal at this progress.
    pub fn at(&self, progress: Progress) -> Result<Portal, AllocError>
        ensures { IfOk result (λ p. p ≡ record self.now { progress = progress_of progress }) }
    {
        Ok(Portal {
            bound: Arc::try_clone(&self.bound)?,
            is_orphan: self.is_orphan,
            progress,
        })
    }

    /// This portal without its statement, if that is the one of this name.
    pub fn orphaned(&self, statement: &[u8]) -> Result<Portal, AllocError>
        ensures { IfOk result (λ p. p ≡ orphaned statement.now self.now) }
    {
        Ok(Portal {
            bound: Arc::try_clone(&self.bound)?,
            is_orphan: self.is_orphan || self.is_of(statement),
            progress: self.progress.copied()?,
        })
    }
}

/// Whether no portal was made from the statement of this name that stands.
pub fn are_of_others(portals: &[Arc<Portal>], name: &[u8]) -> bool
    ensures { result ≡ list_all (is_of_other name.now) (map arc_value portals.now) }
{
    for portal in portals {
        if portal.is_of(name) {
            return false;
        }
    }
    true
}
