//! The text.
ghost use Rattle.std.specs.Prelude.{◌≡◌, ◌∷◌, ◌++◌, [], codes, length, map, OnOk};
ghost use Rattle.console_core.specs.Tables.{pool_keys};
ghost use Rattle.metrics_text.specs.Columns.{database_columns, pool_columns, pooler_columns, stats_columns, version_columns};
ghost use Rattle.metrics_text.specs.Families.{table};
ghost use Rattle.metrics_text.specs.Metrics as spec;

use crate::columns::{
    database_columns, pool_columns, pooler_columns, stats_columns, version_columns,
};
use crate::families::put_table;
use crate::tables::{database_rows, pool_rows, pooler_row, stats_rows, version_row};
use book_register::view::BookView;
use book_rows::pools::PoolKey;
use console_core::pools::pool_keys;
use ini_config::Settings;
use pool_figures::seen::Seen;
use std::alloc::{AllocError, Global};

fn put_version(alloc: Global, text: &mut Vec<u8>) -> Result<(), AllocError>
    ensures { OnOk result (text.new.items ≡ text.old.items ++ table version_columns (spec.version_row ∷ [])) }
{
    put_table(text, version_columns(), &[version_row(alloc)?])
}

fn put_pooler(
    alloc: Global,
    view: &BookView,
    seen: &Seen,
    settings: &Settings,
    pools: usize,
    text: &mut Vec<u8>,
) -> Result<(), AllocError>
    ensures { OnOk result (text.new.items ≡ text.old.items ++ table pooler_columns (spec.pooler_row view.now seen.now settings.now pools ∷ [])) }
{
    let row = pooler_row(alloc, view, seen, settings, pools)?;
    put_table(text, pooler_columns(), &[row])
}

fn put_databases(alloc: Global, view: &BookView, text: &mut Vec<u8>) -> Result<(), AllocError>
    ensures { OnOk result (text.new.items ≡ text.old.items ++ table database_columns (map (spec.database_row view.now) view.now.limits.rows)) }
{
    let rows = database_rows(alloc, view, view.limits.rows.as_slice())?;
    put_table(text, database_columns(), &rows)
}

fn put_pools(
    alloc: Global,
    view: &BookView,
    pools: &[PoolKey],
    text: &mut Vec<u8>,
) -> Result<(), AllocError>
    ensures { OnOk result (text.new.items ≡ text.old.items ++ table pool_columns (map (spec.pool_row view.now) pools.now)) }
{
    let rows = pool_rows(alloc, view, pools)?;
    put_table(text, pool_columns(), &rows)
}

fn put_stats(alloc: Global, seen: &Seen, text: &mut Vec<u8>) -> Result<(), AllocError>
    ensures { OnOk result (text.new.items ≡ text.old.items ++ table stats_columns (map spec.stats_row seen.now.databases)) }
{
    let rows = stats_rows(alloc, &seen.databases)?;
    put_table(text, stats_columns(), &rows)
}

/// Appends what is told of a pool over this view of its book, what is known beside it, and these settings. The only error is that an
/// allocation failed: then the text has a part of it.
pub fn put_metrics(
    alloc: Global,
    view: &BookView,
    seen: &Seen,
    settings: &Settings,
    text: &mut Vec<u8>,
) -> Result<(), AllocError>
    ensures { OnOk result (text.new.items ≡ text.old.items ++ spec.metrics view.now seen.now settings.now) }
{
    let pools = pool_keys(alloc, view)?;
    put_version(alloc, text)?;
    put_pooler(alloc, view, seen, settings, pools.len(), text)?;
    put_databases(alloc, view, text)?;
    put_pools(alloc, view, &pools, text)?;
    put_stats(alloc, seen, text)?;
    text.extend_from_slice(b"# EOF\n")
}
