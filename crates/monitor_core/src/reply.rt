//! What a monitor is answered.
ghost use Rattle.std.specs.Prelude.{◌≡◌, IfOk};
ghost use Rattle.monitor_core.specs.Replies as spec;
ghost use Rattle.monitor_core.specs.Views.{reply_view};

use crate::asking::{Asked, Table};
use crate::known::{decisions, users};
use crate::pools::pools;
use crate::rows::Row;
use crate::servers::{clients, servers};
use crate::tables::{
    activity, averages, config, databases, lists, state, stats, sums, totals, version,
};
use book_register::view::BookView;
use ini_config::Settings;
use pool_figures::seen::Seen;
use std::alloc::{AllocError, Global};

/// What a monitor is answered.
#[derive(Drop)]
pub enum MonitorReply {
    /// These rows of this table.
    Rows { table: Table, rows: Vec<Row> },
    /// That a parameter is set.
    Set,
    /// What may be asked for.
    Help,
    /// That it is no command.
    Unknown,
}

/// The rows of a table.
fn rows_of(
    alloc: Global,
    view: &BookView,
    seen: &Seen,
    settings: &Settings,
    table: Table,
) -> Result<Vec<Row>, AllocError>
    ensures { IfOk result (λ v. v.items ≡ spec.rows_of view.now seen.now settings.now table) }
{
    match table {
        Table::Stats => stats(alloc, seen),
        Table::StatsTotals => totals(alloc, seen),
        Table::StatsAverages => averages(alloc, seen),
        Table::Lists => lists(alloc, view, view.limits.rows.as_slice(), seen),
        Table::Databases => databases(alloc, view, view.limits.rows.as_slice()),
        Table::State => state(alloc, view),
        Table::Activity => activity(alloc, seen),
        Table::Pools => pools(alloc, view, seen),
        Table::Clients => clients(alloc, view, seen),
        Table::Servers => servers(alloc, view, seen),
        Table::Config => config(alloc, settings),
        Table::Version => version(alloc),
        Table::Totals => sums(alloc, seen),
        Table::Users => users(alloc, seen),
        Table::Decisions => decisions(alloc, seen),
    }
}

/// What a monitor is answered over this view of the book, what is known beside it, and these settings. The only error is that memory was
/// refused.
pub fn monitor_answer(
    alloc: Global,
    view: &BookView,
    seen: &Seen,
    settings: &Settings,
    asked: Asked,
) -> Result<MonitorReply, AllocError>
    ensures { IfOk result (λ r. reply_view r ≡ spec.reply_to view.now seen.now settings.now asked) }
{
    match asked {
        Asked::Set => Ok(MonitorReply::Set),
        Asked::Help => Ok(MonitorReply::Help),
        Asked::Unknown => Ok(MonitorReply::Unknown),
        Asked::Show(table) => Ok(MonitorReply::Rows {
            table,
            rows: rows_of(alloc, view, seen, settings, table)?,
        }),
    }
}
