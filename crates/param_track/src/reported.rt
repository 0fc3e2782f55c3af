//! What a link's server reported of its parameters at the start, and whether it has told other values since
//! (PostgreSQL manual, "Asynchronous Operations").
ghost use Rattle.std.specs.Prelude.{◌≡◌, ◌≤◌, ◌<◌, [], true, bytes_eq, length, IfOk, OnErr, OnOk};
ghost use Rattle.param_track.specs.declared.reported.ReportError.TheVariants.{OutOfMemory};
ghost use Rattle.param_track.specs.KeptReports as spec;
ghost use Rattle.param_track.specs.KeptReports.{Adds, Tells, first_told, has_name, is_at_start, told, with_first, with_told};

use message_view::StatusView;
use start_keys::text::Text;
use std::alloc::{AllocError, Global};
use std::marker::Model;

/// How many names a start may report.
pub const MAX_NAMES: usize = 64;

/// Why a report of the start wasn't added.
#[derive(Clone, Copy, Debug, PartialEq, Eq, Drop)]
pub enum ReportError {
    /// [`MAX_NAMES`] other names were reported already.
    TooMany,
    /// An allocation failed.
    OutOfMemory,
}

impl From<AllocError> for ReportError {
    ghost from_gives = { λ _ fault. fault ≡ OutOfMemory };

    fn from(_error: AllocError) -> ReportError {
        ReportError::OutOfMemory
    }
}

/// A parameter that the start reported: its name, the value at the start, and whether the value last told is
/// another.
pub struct StartReport {
    name: Text,
    value: Text,
    differs: bool,
}

impl Drop for StartReport {
    fn drop(self) {
        let StartReport {
            name: _,
            value: _,
            differs: _,
        } = self;
    }
}

impl Model for StartReport {
    ghost use Rattle.param_track.specs.KeptReports.{KeptReport};

    ghost Value = { KeptReport };

    ghost view = { λ r. record { name = r.name; value = r.value; differs = r.differs } };
}

impl StartReport {
    /// The name of the parameter, as it was reported.
    pub fn name(&self) -> &[u8]
        ensures { result.now ≡ self.now.name }
    {
        self.name.as_slice()
    }

    /// The value at the start.
    pub fn value(&self) -> &[u8]
        ensures { result.now ≡ self.now.value }
    {
        self.value.as_slice()
    }

    /// Whether it is of this parameter.
    fn is_of(&self, name: &[u8]) -> bool
        ensures { result ≡ bytes_eq self.now.name name.now }
    {
        self.name.is(name)
    }

    /// A report of the start.
    fn first(alloc: Global, report: &StatusView<'_>) -> Result<StartReport, AllocError>
        ensures { IfOk result (λ r. r ≡ first_told (report.now.name.now, report.now.setting.now)) }
    {
        Ok(StartReport {
            name: Text::from_slice(alloc, report.name)?,
            value: Text::from_slice(alloc, report.setting)?,
            differs: false,
        })
    }

    /// Whether the value last told of it is another than at the start.
    fn differs(&self) -> bool
        ensures { result ≡ self.now.differs }
    {
        self.differs
    }

    /// This value is told of it.
    fn tell(&mut self, value: &[u8])
        ensures { self.new ≡ told self.old value.now }
    {
        self.differs = !self.value.is(value);
    }
}

/// The parameters that a link's start reported, each name once, in the order in which they came; and which of
/// them the server has told another value of since then.
pub struct Reported {
    reports: Vec<StartReport>,
}

impl Drop for Reported {
    fn drop(self) {
        let Reported { reports: _ } = self;
    }
}

impl Model for Reported {
    ghost use Rattle.std.specs.Prelude.{List};
    ghost use Rattle.param_track.specs.KeptReports.{KeptReport};

    ghost Value = { List KeptReport };

    ghost view = { λ r. r.reports.items };
}

/// How many of the reports come before that of the name.
fn place_of(reports: &[StartReport], name: &[u8]) -> usize
    ensures place { result ≡ spec.place_of name.now reports.now }
    ensures bound { result ≤ length reports.now }
{
    let mut place = 0;
    while place < reports.len() && !reports[place].is_of(name) {
        place += 1;
    }
    place
}

/// Whether the value last told of some parameter is another than at the start.
fn is_one_other(reports: &[StartReport]) -> bool
    ensures { result ≡ spec.is_one_other reports.now }
{
    reports.iter().any(|report| report.differs())
}

/// Puts a report at its place: that of its name, or the end.
fn put_at(
    reports: &mut Vec<StartReport>,
    place: usize,
    report: StartReport,
) -> Result<(), AllocError>
    ensures ok { OnOk result (reports.new.items ≡ spec.put_at place report reports.old.items) }
    ensures err { OnErr result (reports.new.items ≡ reports.old.items) }
{
    if place < reports.len() {
        reports[place] = report;
        return Ok(());
    }
    reports.push(report)?;
    Ok(())
}

/// Tells the report at this place, which is that of the name, its value.
fn tell_at(reports: &mut Vec<StartReport>, place: usize, report: &StatusView<'_>)
    requires place { place ≡ spec.place_of report.now.name.now reports.old.items }
    requires there { place < length reports.old.items }
    ensures { reports.new.items ≡ with_told reports.old.items (report.now.name.now, report.now.setting.now) }
{
    reports[place].tell(report.setting);
}

impl Reported {
    /// Nothing is reported yet.
    pub fn new(alloc: Global) -> Reported
        ensures { Tells result [] [] }
    {
        Reported {
            reports: Vec::new(alloc),
        }
    }

    /// Whether the start reported the name.
    #[tactic(auto, using(crate::proofs::Reporting::has_at))]
    fn has(&self, name: &[u8]) -> bool
        ensures { result ≡ has_name self.now name.now }
    {
        place_of(self.reports.as_slice(), name) < self.reports.len()
    }

    /// Whether a report of this name can be added.
    fn fits(&self, name: &[u8]) -> bool
        ensures { result ≡ spec.fits self.now name.now }
    {
        self.has(name) || self.reports.len() < MAX_NAMES
    }

    /// Puts a report of the start at the place of its name, which fits.
    #[tactic(auto, using(crate::proofs::Reporting::first_at))]
    fn put(&mut self, alloc: Global, report: &StatusView<'_>) -> Result<(), AllocError>
        requires { spec.fits self.old report.now.name.now ≡ true }
        ensures ok { OnOk result (self.new ≡ with_first self.old (report.now.name.now, report.now.setting.now)) }
        ensures err { OnErr result (self.new ≡ self.old) }
    {
        let first = StartReport::first(alloc, report)?;
        let place = place_of(self.reports.as_slice(), report.name);
        put_at(&mut self.reports, place, first)
    }

    /// Adds a report of the start. Of a name that was reported already the new value counts, at its old
    /// place: what the server told last is what it is held to.
    ///
    /// [`ReportError::TooMany`] where it is a new name and [`MAX_NAMES`] are there;
    /// [`ReportError::OutOfMemory`] only where there is none left. With either all stays as it was.
    pub fn add(&mut self, alloc: Global, report: &StatusView<'_>) -> Result<(), ReportError>
        ensures { Adds (report.now.name.now, report.now.setting.now) self.old self.new result }
    {
        if !self.fits(report.name) {
            return Err(ReportError::TooMany);
        }
        self.put(alloc, report)?;
        Ok(())
    }

    /// The server has told this since the start. `false`: the start didn't report the name, and nothing
    /// changes. It takes no memory.
    #[tactic(auto, using(crate::proofs::Reporting::has_there, crate::proofs::Reporting::told_none))]
    pub fn apply(&mut self, report: &StatusView<'_>) -> bool
        ensures answer { result ≡ has_name self.old report.now.name.now }
        ensures told { self.new ≡ with_told self.old (report.now.name.now, report.now.setting.now) }
    {
        if !self.has(report.name) {
            return false;
        }
        let place = place_of(self.reports.as_slice(), report.name);
        tell_at(&mut self.reports, place, report);
        true
    }

    /// Whether each value last told is the start's, byte for byte. It takes no memory.
    pub fn at_start(&self) -> bool
        ensures { result ≡ is_at_start self.now }
    {
        !is_one_other(self.reports.as_slice())
    }

    /// The parameters of the start, in its order: what a link's next client is told at its welcome.
    pub fn reports(&self) -> &[StartReport]
        ensures { result.now ≡ self.now }
    {
        self.reports.as_slice()
    }
}
