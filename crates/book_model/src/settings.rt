//! The limits of a lease book under the settings.

ghost use Rattle.std.specs.Prelude.{◌≡◌, IfOk};
ghost use Rattle.ini_config.specs.Bounds.{AreWithinBounds};
ghost use Rattle.book_model.specs.Limits.{limits_in, row_in, rows_in};

use crate::limits::Limits;
use crate::rows::{DatabaseRow, DatabaseRows};
use ini_config::{DbRow, Settings};
use session_values::text::Text;
use std::alloc::{AllocError, Global};

/// A row of the settings, as the limits have it.
fn row_of(alloc: Global, settings: &Settings, row: &DbRow) -> Result<DatabaseRow, AllocError>
    ensures { IfOk result (λ r. r ≡ row_in settings.now.default_pool_size row.now) }
{
    Ok(DatabaseRow {
        name: Text::from_slice(alloc, row.name.as_bytes())?,
        host: row.host,
        port: row.port,
        dbname: Text::from_slice(alloc, row.dbname.as_bytes())?,
        size: settings.pool_size(row),
    })
}

/// The rows of the settings, in their order.
fn rows_of(alloc: Global, settings: &Settings) -> Result<Vec<DatabaseRow>, AllocError>
    ensures { IfOk result (λ v. v.items ≡ rows_in settings.now.default_pool_size settings.now.rows) }
{
    let mut listed = Vec::new(alloc);
    'rows: while let Some(row) = settings.rows.at(listed.len()) {
        listed.push(row_of(alloc, settings, row)?)?;
    }
    Ok(listed)
}

/// What a lease book decides by under these settings. The only error is that memory was refused.
pub fn limits_of(alloc: Global, settings: &Settings) -> Result<Limits, AllocError>
    requires { AreWithinBounds settings.now }
    ensures { IfOk result (λ l. l ≡ limits_in settings.now) }
{
    Ok(Limits {
        max_client_conn: settings.max_client_conn(),
        default_pool_size: settings.default_pool_size(),
        max_links: settings.max_links(),
        query_wait_timeout: settings.query_wait_timeout(),
        server_lifetime: settings.server_lifetime(),
        server_idle_timeout: settings.server_idle_timeout(),
        rows: DatabaseRows::new(alloc, rows_of(alloc, settings)?)?,
    })
}
