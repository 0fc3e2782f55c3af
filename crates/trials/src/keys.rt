//! Keys and database rows.
use book_model::rows::DatabaseRow;
use session_values::text::Text;
use start_keys::{Host, StartKey};
use std::alloc::{AllocError, Global};
use std::sync::Arc;

/// The key of this number on this database row, of the pool of this one.
pub(crate) fn key(
    alloc: Global,
    row: &[u8],
    number: u64,
    pool: u64,
) -> Result<Arc<StartKey>, AllocError> {
    let mut parameters = Vec::new(alloc);
    let parameter = Text::from_slice(alloc, b"application_name")?;
    parameters.push((parameter, Text::from_slice(alloc, &number.to_be_bytes())?))?;
    let key = StartKey {
        row: Text::from_slice(alloc, row)?,
        host: Some(Host::local()),
        port: 5432,
        dbname: Text::from_slice(alloc, b"bench")?,
        user: Text::from_slice(alloc, &pool.to_be_bytes())?,
        parameters,
    };
    Ok(Arc::new(alloc, key)?)
}

/// The database row of this name, for pools of so many links.
pub(crate) fn row(alloc: Global, name: &[u8], size: u32) -> Result<DatabaseRow, AllocError> {
    Ok(DatabaseRow {
        name: Text::from_slice(alloc, name)?,
        host: Host::local(),
        port: 5432,
        dbname: Text::from_slice(alloc, b"bench")?,
        size,
    })
}
