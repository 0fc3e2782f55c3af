//! Links of the measurements, over ends that were never really started.
ghost use Rattle.std.specs.Prelude.{◌≤◌};

use crate::rows::RowServer;
use link_run::links::{CleanLink, LinkParts};
use memory_ends::gone_end::GoneEnd;
use memory_start_laws::unfollowed_starts_are_clean;
use param_track::Reported;
use start_keys::StartKey;
use std::alloc::{AllocError, Global};
use std::sync::Arc;

/// A link of this key, number and second of birth, whose server has gone since.
pub(crate) fn gone_link(
    alloc: Global,
    key: Arc<StartKey>,
    number: u64,
    started_at: u64,
) -> Result<CleanLink<GoneEnd>, AllocError> {
    unfollowed_starts_are_clean();
    let parts = LinkParts {
        end: GoneEnd::of(&key)?,
        key,
        number,
        started_at,
        server_key: None,
        reported: Reported::new(alloc),
    };
    Ok(parts.clean())
}

/// A link over a server of rows of this size, 11 or more, at least so many bytes in all.
pub(crate) fn row_link(
    alloc: Global,
    key: Arc<StartKey>,
    size: u32,
    total: u64,
) -> Result<CleanLink<RowServer>, AllocError>
    requires { 11 ≤ size }
{
    unfollowed_starts_are_clean();
    let parts = LinkParts {
        end: RowServer::new(alloc, &key, size, total)?,
        key,
        number: 1,
        started_at: 0,
        server_key: None,
        reported: Reported::new(alloc),
    };
    Ok(parts.clean())
}
