//! Parse (PostgreSQL manual, "Extended Query").
ghost use Rattle.std.specs.Prelude.{◌≡◌, ◌<◌, [], Ok, Err, IfOk};
ghost use Rattle.message_view.specs.Left.{oids_left};
ghost use Rattle.message_view.specs.Shown.{shown_parse};
ghost use Rattle.session_values.specs.Answers.{Performs};
ghost use Rattle.session_values.specs.Extended.{is_taken, parse, prepared_of};

use bytes::BytesMut;
use message_view::{Oids, ParseView, put_parse_complete};
use session_catalogue::Catalogue;
use session_statements::lookup::look_up;
use session_statements::portal::Prepared;
use session_statements::run::usable;
use session_statements::session::SessionState;
use session_values::cause::Cause;
use session_values::naming::find_named;
use session_values::stop::Stop;
use session_values::text::Text;
use std::alloc::{AllocError, Global};

/// Only what has no name may be replaced.
pub(crate) fn is_taken(name: &[u8], is_there: bool) -> bool
    ensures { result ≡ is_taken name.now is_there }
{
    match name {
        [] => false,
        _ => is_there,
    }
}

fn given_oids(alloc: Global, oids: Oids<'_>) -> Result<Vec<u32>, AllocError>
    ensures { IfOk result (λ v. v.items ≡ oids_left oids.entry) }
{
    let mut list = Vec::with_capacity(alloc, oids.len())?;
    for oid in oids {
        list.push(oid)?;
    }
    Ok(list)
}

fn prepared(alloc: Global, view: &ParseView<'_>) -> Result<Prepared, AllocError>
    ensures { IfOk result (λ p. p ≡ prepared_of (shown_parse view.now)) }
{
    let _count = view.oids.len();
    let oids = given_oids(alloc, view.oids)?;
    Ok(Prepared::new(
        Text::from_slice(alloc, view.name)?,
        Text::from_slice(alloc, view.query)?,
        oids,
    ))
}

/// Parse: keeps a prepared statement.
pub(crate) fn parse(
    alloc: Global,
    session: &mut SessionState,
    catalogue: &Catalogue,
    view: &ParseView<'_>,
    out: &mut BytesMut,
) -> Result<(), Stop>
    ensures { Performs result session.old session.new out.old.items out.new.items (parse catalogue.now session.old (shown_parse view.now)) }
{
    let statement = usable(session, view.query)?;
    if is_taken(
        view.name,
        find_named(session.statements(), view.name).is_some(),
    ) {
        return Err(Stop::Refused(Cause::StatementExists));
    }
    let _ = look_up(alloc, session, catalogue, &statement)?;
    session.drop_statement(alloc, view.name)?;
    let prepared = prepared(alloc, view)?;
    session.put_statement(alloc, prepared)?;
    put_parse_complete(out)?;
    Ok(())
}
