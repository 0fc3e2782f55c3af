//! What a transaction may change and a roll back gives back.
ghost use Rattle.std.specs.Prelude.{◌≡◌, [], IfOk};

use session_values::table::Table;
use session_values::values::Values;
use shared_list::Shared;
use std::alloc::{AllocError, Global};
use std::marker::Model;

/// What a transaction may change and a roll back gives back: values and temporary tables.
pub struct Work {
    pub values: Values,
    pub tables: Shared<Table>,
}

impl Drop for Work {
    fn drop(self) {
        let Work {
            values: _,
            tables: _,
        } = self;
    }
}

impl Model for Work {
    ghost use Rattle.session_values.specs.State.{SavedOf};

    ghost Value = { SavedOf };

    ghost view = { λ w. record { values = w.values; tables = w.tables } };
}

impl Work {
    /// These values, and no temporary tables.
    pub fn begun(alloc: Global, values: &Values) -> Result<Work, AllocError>
        ensures { IfOk result (λ w. w ≡ record { values = values.now; tables = [] }) }
    {
        Ok(Work {
            values: values.copied()?,
            tables: Shared::new(alloc)?,
        })
    }

    /// The same work; what it holds is shared.
    pub fn copied(&self) -> Result<Work, AllocError>
        ensures { IfOk result (λ w. w ≡ self.now) }
    {
        Ok(Work {
            values: self.values.copied()?,
            tables: self.tables.copied()?,
        })
    }
}

/// What a session keeps for a roll back.
#[derive(Drop)]
pub enum Saved {
    Nothing,
    /// The work as it stands now: it is copied only once it changes.
    Standing,
    Changed(Work),
}

impl Saved {
    /// The same.
    pub fn copied(&self) -> Result<Saved, AllocError>
        ensures { IfOk result (λ s. s ≡ self.now) }
    {
        match self {
            Saved::Nothing => Ok(Saved::Nothing),
            Saved::Standing => Ok(Saved::Standing),
            Saved::Changed(work) => Ok(Saved::Changed(work.copied()?)),
        }
    }
}
