//! Close (PostgreSQL manual, "Extended Query").
ghost use Rattle.std.specs.Prelude.{◌<◌, Ok, OnOk};
ghost use Rattle.message_view.specs.Shown.{shown_target};
ghost use Rattle.session_values.specs.Answers.{Gives};
ghost use Rattle.session_values.specs.Extended.{close};

use bytes::BytesMut;
use message_view::{Target, put_close_complete};
use session_statements::portal::Portal;
use session_statements::session::SessionState;
use std::alloc::{AllocError, Global};

/// Close of a prepared statement, with its portals, or of a portal.
pub(crate) fn close(
    alloc: Global,
    session: &mut SessionState,
    target: Target<'_>,
    out: &mut BytesMut,
) -> Result<(), AllocError>
    ensures { OnOk result (Gives (Ok tt) session.old session.new out.old.items out.new.items (Ok (close session.old (shown_target target.entry)))) }
{
    match target {
        Target::Statement(name) => session.close_statement(alloc, name)?,
        Target::Portal(name) => session.close_portal(alloc, name)?,
    }
    put_close_complete(out)
}
