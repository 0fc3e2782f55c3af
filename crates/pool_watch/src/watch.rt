//! Who is there, and what went through each database.

use crate::databases::{Databases, Sums};
use crate::seats::Seat;
use indexmap::IndexMap;
use log_lines::notes::Visit;
use pool_figures::decisions::DecisionSeen;
use pool_figures::figures::Figures;
use pool_figures::seen::{ClientSeen, DatabaseSeen, Seen};
use std::alloc::{AllocError, Global};
use std::rt::Clock;
use std::sync::{Arc, Mutex, Wait};
use std::time::SystemTime;
use tcp_notes::sight::Sight;
use user_file::Users;

/// So many seats are copied in one hold of the table's lock: who comes or goes waits for no more of them.
const MAX_AT_ONCE: usize = 256;

#[derive(Drop)]
struct Table {
    /// In the order in which they came, but for gaps.
    seats: IndexMap<u64, Arc<Seat>>,
    next: u64,
    databases: Databases,
    /// The seats before this place are being copied: those of them whose clients have left meanwhile keep their places until that is done.
    copied_before: usize,
    left: Vec<u64>,
    /// So many periods are over, of as many seconds as the last one had.
    periods: u64,
    period: u32,
    /// Nobody is let in any more.
    is_closing: bool,
}

impl Table {
    /// Whether this seat is among those that are being copied.
    fn is_copied(&self, id: u64) -> bool {
        match self.seats.get_index_of(&id) {
            Some(place) => place < self.copied_before,
            None => false,
        }
    }
}

/// Who was there at one moment, and what had gone through each database by then through connections that were gone.
#[derive(Drop)]
struct Present {
    seats: Vec<Arc<Seat>>,
    gone: Vec<Figures>,
}

/// Who is there, and what went through each database.
pub struct Watch<R> {
    rt: R,
    alloc: Global,
    table: Mutex<Table>,
    /// Seats are copied for one at a time.
    copying: Mutex<()>,
}

impl<R: Drop> Drop for Watch<R> {
    fn drop(self) {
        let Watch {
            rt: _,
            alloc: _,
            table: _,
            copying: _,
        } = self;
    }
}

impl<R> Watch<R> {
    /// Of nobody.
    pub fn new(rt: R, alloc: Global) -> Watch<R> {
        Watch {
            rt,
            alloc,
            table: Mutex::new(Table {
                seats: IndexMap::new(alloc),
                next: 0,
                databases: Databases::new(alloc),
                copied_before: 0,
                left: Vec::new(alloc),
                periods: 0,
                period: 0,
                is_closing: false,
            }),
            copying: Mutex::new(()),
        }
    }
}

impl<R: Wait + Clock> Watch<R> {
    /// A client's connection has come: its number here, and its seat. `None` where memory is refused, or nobody is let in any more.
    pub fn enter(&self, visit: Visit, sight: Sight) -> Option<(u64, Arc<Seat>)> {
        let seat = Arc::new(self.alloc, Seat::new(self.alloc, visit, sight)).ok()?;
        let shared = Arc::try_clone(&seat).ok()?;
        let mut table = self.table.lock(&self.rt);
        if table.is_closing {
            return None;
        }
        let id = table.next;
        table.next = id.wrapping_add(1);
        table.seats.insert(id, shared).ok()?;
        Some((id, seat))
    }

    /// It is closed: what went through it is kept.
    pub fn leave(&self, id: u64) {
        let mut table = self.table.lock(&self.rt);
        // there is room for as many as are copied
        if table.is_copied(id) && table.left.push(id).is_ok() {
            return;
        }
        self.remove(&mut *table, id);
    }

    /// Its seat is no longer there; what went through it is kept.
    fn remove(&self, table: &mut Table, id: u64) {
        let Some(seat) = table.seats.swap_remove(&id) else {
            return;
        };
        let held = seat.hold(&self.rt);
        if !held.database().is_empty() {
            let figures = seat.figures(&held);
            table
                .databases
                .add_gone(self.alloc, held.database(), held.is_listed(), figures);
        }
    }

    /// Closes the connection that has been there longest of those whose clients haven't said who they are; whether there was one.
    pub fn cut_oldest(&self) -> bool {
        let table = self.table.lock(&self.rt);
        let mut oldest = u64::MAX;
        for (id, seat) in table.seats.iter() {
            if *id < oldest && seat.may_be_cut() {
                oldest = *id;
            }
        }
        match table.seats.get(&oldest) {
            Some(seat) => seat.cut(),
            None => false,
        }
    }

    /// Nobody is let in any more: closes the connections of all whose clients haven't said who they are.
    pub fn cut_strangers(&self) {
        let mut table = self.table.lock(&self.rt);
        table.is_closing = true;
        for seat in table.seats.values() {
            seat.cut();
        }
    }

    /// Begins to copy who is there at this moment.
    #[inline(never)]
    fn begin_copy(&self) -> Result<Present, AllocError> {
        let mut table = self.table.lock(&self.rt);
        let count = table.seats.len();
        let present = Present {
            seats: Vec::with_capacity(self.alloc, count)?,
            gone: table.databases.gone(self.alloc)?,
        };
        table.left.reserve(count)?;
        table.copied_before = count;
        Ok(present)
    }

    /// Copies some more; whether there are any left.
    #[inline(never)]
    fn copy_some(&self, present: &mut Present) -> Result<bool, AllocError> {
        let table = self.table.lock(&self.rt);
        let copied = present.seats.len();
        let left = table.copied_before.saturating_sub(copied);
        for further in 0..left.min(MAX_AT_ONCE) {
            if let Some((_, seat)) = table.seats.get_index(copied.saturating_add(further)) {
                present.seats.push(Arc::try_clone(seat)?)?;
            }
        }
        Ok(left > MAX_AT_ONCE)
    }

    /// Nobody's seat is kept for its place any more; whether there are some left whose clients have left meanwhile.
    #[inline(never)]
    fn end_copy(&self) -> bool {
        let mut table = self.table.lock(&self.rt);
        table.copied_before = 0;
        for _ in 0..MAX_AT_ONCE {
            let Some(id) = table.left.pop() else {
                return false;
            };
            self.remove(&mut *table, id);
        }
        true
    }

    /// Who is there at this moment.
    fn present(&self) -> Result<Present, AllocError> {
        let _copying = self.copying.lock(&self.rt);
        let mut present = self.begin_copy()?;
        let mut copied = Ok(true);
        for _ in self.rt.forever() {
            copied = self.copy_some(&mut present);
            if !matches!(copied, Ok(true)) {
                break;
            }
        }
        for _ in self.rt.forever() {
            if !self.end_copy() {
                break;
            }
        }
        copied?;
        Ok(present)
    }

    /// What went through these connections, by the databases that they have named.
    fn sums(&self, seats: &[Arc<Seat>]) -> Result<Sums, AllocError> {
        let mut sums = Sums::new(self.alloc);
        for seat in seats {
            let held = seat.hold(&self.rt);
            if !held.database().is_empty() {
                let figures = seat.figures(&held);
                sums.add(self.alloc, held.database(), held.is_listed(), figures)?;
            }
        }
        Ok(sums)
    }

    /// What went through all databases in the period that is over, up to now.
    fn end_period(&self) -> Result<Figures, AllocError> {
        let Present { seats, gone } = self.present()?;
        let sums = self.sums(&seats)?;
        let mut table = self.table.lock(&self.rt);
        let totals = table.databases.totals(self.alloc, gone, &sums)?;
        Ok(table.databases.end_period(&totals))
    }

    /// What went through each database, by these sums.
    #[inline(never)]
    fn databases(&self, gone: Vec<Figures>, sums: &Sums) -> Result<Vec<DatabaseSeen>, AllocError> {
        let mut table = self.table.lock(&self.rt);
        let totals = table.databases.totals(self.alloc, gone, sums)?;
        table.databases.shown(self.alloc, &totals)
    }

    /// So many seconds a period has.
    fn period(&self) -> u64 {
        self.table.lock(&self.rt).period as u64
    }

    /// Whether a period is over at this second, where a period has so many.
    fn is_period_over(&self, second: u64, period: u32) -> bool {
        let mut table = self.table.lock(&self.rt);
        let periods = second / (period.max(1) as u64);
        let is_over = table.period == period && table.periods != periods;
        table.period = period;
        table.periods = periods;
        is_over
    }

    /// The clock has reached this second, where a period has so many: what went through all databases in the period that is over, if one
    /// is. Seconds may be left out.
    pub fn tick(&self, second: u64, period: u32) -> Option<Figures> {
        if !self.is_period_over(second, period) {
            return None;
        }
        self.end_period().ok()
    }

    fn clients(&self, seats: &[Arc<Seat>]) -> Result<Vec<ClientSeen>, AllocError> {
        let mut clients = Vec::with_capacity(self.alloc, seats.len())?;
        for seat in seats {
            if let Some(client) = seat.shown(&self.rt, self.alloc)? {
                clients.push(client)?;
            }
        }
        Ok(clients)
    }

    /// The seconds since 1970 began; 0 where the clock can't be read.
    fn seconds(&self) -> u64 {
        let Ok(now) = SystemTime::now(&self.rt) else {
            return 0;
        };
        match now.duration_since(SystemTime::UNIX_EPOCH) {
            Ok(passed) => passed.as_secs(),
            Err(_) => 0,
        }
    }

    /// What is known now, with these users and decisions.
    pub fn seen(
        &self,
        users: Option<Arc<Users>>,
        decisions: Vec<DecisionSeen>,
    ) -> Result<Seen, AllocError> {
        let Present { seats, gone } = self.present()?;
        let sums = self.sums(&seats)?;
        Ok(Seen {
            databases: self.databases(gone, &sums)?,
            clients: self.clients(&seats)?,
            users,
            decisions,
            period: self.period(),
            second: self.seconds(),
        })
    }
}
