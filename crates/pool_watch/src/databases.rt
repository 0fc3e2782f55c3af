//! What went through each database.

use indexmap::IndexMap;
use pool_figures::figures::Figures;
use pool_figures::seen::DatabaseSeen;
use session_values::text::Text;
use std::alloc::{AllocError, Global};

/// So many names that no row of the settings bears have figures of their own; what goes through others is summed under `*`. So nobody who
/// may log in fills the memory with names.
const MAX_UNLISTED: usize = 1_000;

/// The name of the row that serves databases of other names.
const WILDCARD: &[u8] = b"*";

/// What went through a database.
#[derive(Drop)]
struct Passed {
    /// Through connections that are gone.
    gone: Figures,
    /// In all, up to the last border of a period; and within that period.
    before: Figures,
    recent: Figures,
}

/// What went through connections that name a database.
#[derive(Drop)]
struct Sum {
    /// A row of the settings bears the name.
    is_listed: bool,
    figures: Figures,
}

/// What went through connections that are there, by the names of their databases.
#[derive(Drop)]
pub(crate) struct Sums {
    by_name: IndexMap<Vec<u8>, Sum>,
}

impl Sums {
    pub(crate) fn new(alloc: Global) -> Sums {
        Sums {
            by_name: IndexMap::new(alloc),
        }
    }

    /// And through one more.
    pub(crate) fn add(
        &mut self,
        alloc: Global,
        name: &[u8],
        is_listed: bool,
        figures: Figures,
    ) -> Result<(), AllocError> {
        if let Some(sum) = self.by_name.get_mut(name) {
            sum.is_listed = sum.is_listed || is_listed;
            sum.figures = sum.figures.plus(figures);
            return Ok(());
        }
        let sum = Sum { is_listed, figures };
        self.by_name.insert(Vec::from_slice(alloc, name)?, sum)?;
        Ok(())
    }
}

/// What went through each database, by its name.
#[derive(Drop)]
pub(crate) struct Databases {
    by_name: IndexMap<Vec<u8>, Passed>,
    unlisted: usize,
}

impl Databases {
    pub(crate) fn new(alloc: Global) -> Databases {
        Databases {
            by_name: IndexMap::new(alloc),
            unlisted: 0,
        }
    }

    /// The name under which a database's figures are summed.
    fn name_for<'n>(&self, name: &'n [u8], is_listed: bool) -> &'n [u8] {
        if is_listed || self.unlisted < MAX_UNLISTED {
            return name;
        }
        match self.by_name.get(name) {
            Some(_) => name,
            None => WILDCARD,
        }
    }

    /// The place of a database, which is made where it isn't there.
    fn place(&mut self, alloc: Global, name: &[u8], is_listed: bool) -> Result<usize, AllocError> {
        let name = self.name_for(name, is_listed);
        if let Some(place) = self.by_name.get_index_of(name) {
            return Ok(place);
        }
        let passed = Passed {
            gone: Figures::none(),
            before: Figures::none(),
            recent: Figures::none(),
        };
        self.by_name.insert(Vec::from_slice(alloc, name)?, passed)?;
        if !is_listed {
            self.unlisted = self.unlisted.saturating_add(1);
        }
        Ok(self.by_name.len().saturating_sub(1))
    }

    /// A connection is gone through which this went.
    pub(crate) fn add_gone(
        &mut self,
        alloc: Global,
        name: &[u8],
        is_listed: bool,
        figures: Figures,
    ) {
        let Ok(place) = self.place(alloc, name, is_listed) else {
            return;
        };
        if let Some(passed) = self.by_name.get_index_mut(place) {
            passed.gone = passed.gone.plus(figures);
        }
    }

    /// What went through each in all, by place: through connections that are gone.
    pub(crate) fn gone(&self, alloc: Global) -> Result<Vec<Figures>, AllocError> {
        let mut totals = Vec::with_capacity(alloc, self.by_name.len())?;
        for passed in self.by_name.values() {
            totals.push(passed.gone)?;
        }
        Ok(totals)
    }

    /// What went through each in all, by place: this through connections that were gone, and these sums through those that weren't. What
    /// isn't among them was named since, and nothing went through it by then.
    pub(crate) fn totals(
        &mut self,
        alloc: Global,
        gone: Vec<Figures>,
        sums: &Sums,
    ) -> Result<Vec<Figures>, AllocError> {
        let mut totals = gone;
        for (name, sum) in sums.by_name.iter() {
            let place = self.place(alloc, name, sum.is_listed)?;
            for _ in totals.len()..self.by_name.len() {
                totals.push(Figures::none())?;
            }
            if let Some(total) = totals.get_mut(place) {
                *total = total.plus(sum.figures);
            }
        }
        Ok(totals)
    }

    /// A period is over, with these totals at its end: what went through all within it.
    pub(crate) fn end_period(&mut self, totals: &[Figures]) -> Figures {
        let mut sum = Figures::none();
        for (passed, total) in self.by_name.values_mut().zip(totals) {
            passed.recent = total.since(passed.before);
            passed.before = *total;
            sum = sum.plus(passed.recent);
        }
        sum
    }

    /// As they are shown, with these totals.
    pub(crate) fn shown(
        &self,
        alloc: Global,
        totals: &[Figures],
    ) -> Result<Vec<DatabaseSeen>, AllocError> {
        let mut shown = Vec::with_capacity(alloc, totals.len())?;
        for ((name, passed), total) in self.by_name.iter().zip(totals) {
            shown.push(DatabaseSeen {
                name: Text::from_slice(alloc, name)?,
                total: *total,
                recent: passed.recent,
            })?;
        }
        Ok(shown)
    }
}
