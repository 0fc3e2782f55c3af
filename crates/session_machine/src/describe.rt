//! Describe (PostgreSQL manual, "Extended Query").
ghost use Rattle.std.specs.Prelude.{◌≡◌, ◌<◌, [], length, Ok, Err, OnOk, IfOk};
ghost use Rattle.mini_sql.specs.Meanings.{meaning};
ghost use Rattle.message_view.specs.Bodies.{OfPortal, OfStatement};
ghost use Rattle.message_view.specs.Shown.{shown_target};
ghost use Rattle.session_values.specs.Answers.{Gave, Performs};
ghost use Rattle.session_values.specs.Extended.{describe, describe_portal, describe_statement, described, gives_rows, is_describable, oid_at, oids_of};
ghost use Rattle.session_machine.specs.Described.{described_of, FindsDescribed};

use crate::bind::{is_result_count, parameter_count};
use bytes::BytesMut;
use message_view::{Target, put_parameter_description};
use mini_sql::Stmt;
use session_catalogue::Catalogue;
use session_statements::lookup::look_up;
use session_statements::output::put_description;
use session_statements::portal::{Portal, Prepared};
use session_statements::run::read_narrow;
use session_statements::session::SessionState;
use session_values::block::Block;
use session_values::cause::Cause;
use session_values::names::Names;
use session_values::naming::find_named;
use session_values::stop::Stop;
use std::alloc::{AllocError, Global};

/// The oid of the type text.
const TEXT: u32 = 25;

/// The oid of a parameter: as it came, that of text for 0 or a missing one.
fn oid_at(oids: &[u32], place: usize) -> u32
    ensures { result ≡ oid_at oids.now place }
{
    match oids.get(place) {
        Some(0) => TEXT,
        Some(oid) => *oid,
        None => TEXT,
    }
}

fn oids_of(alloc: Global, count: usize, oids: &[u32]) -> Result<Vec<u32>, AllocError>
    ensures oids { IfOk result (λ v. v.items ≡ oids_of count oids.now) }
    ensures count { IfOk result (λ v. length v.items ≡ count) }
{
    let mut list = Vec::with_capacity(alloc, count)?;
    for place in 0..count {
        list.push(oid_at(oids, place))?;
    }
    Ok(list)
}

/// Whether a statement gives rows.
fn gives_rows(statement: &Stmt<'_>) -> bool
    ensures { result ≡ gives_rows (meaning statement.now) }
{
    matches!(
        statement,
        Stmt::Show { .. } | Stmt::Select { .. } | Stmt::Fetch { .. }
    )
}

/// In a failed block a statement that gives rows isn't described.
fn is_describable(block: Block, statement: &Stmt<'_>) -> bool
    ensures { result ≡ is_describable block (meaning statement.now) }
{
    match block {
        Block::Failed => !gives_rows(statement),
        Block::Outside => true,
        Block::Inside => true,
    }
}

/// A statement and the names of the columns of its rows.
#[derive(Drop)]
pub(crate) struct Described<'a> {
    pub statement: Stmt<'a>,
    pub names: Option<Names>,
}

/// The statement of a text, and the columns of its rows; in a failed block one that gives rows
/// isn't described.
fn find_described<'a>(
    alloc: Global,
    session: &SessionState,
    catalogue: &Catalogue,
    text: &'a [u8],
) -> Result<Described<'a>, Stop>
    ensures { FindsDescribed result (described catalogue.now session.now text.now) }
{
    let Ok(statement) = read_narrow(text) else {
        return Err(Stop::Refused(Cause::Syntax));
    };
    if !is_describable(session.block(), &statement) {
        return Err(Stop::Refused(Cause::Aborted));
    }
    let names = look_up(alloc, session, catalogue, &statement)?;
    Ok(Described { statement, names })
}

fn describe_statement(
    alloc: Global,
    session: &SessionState,
    prepared: &Prepared,
    described: &Described<'_>,
    out: &mut BytesMut,
) -> Result<(), AllocError>
    ensures { OnOk result (Gave session.now out.old.items out.new.items (describe_statement session.now prepared.now (described_of described.now))) }
{
    let count = parameter_count(&described.statement, prepared);
    let oids = oids_of(alloc, count, prepared.oids())?;
    put_parameter_description(out, &oids)?;
    put_description(alloc, &[], &described.names, out)
}

fn describe_prepared(
    alloc: Global,
    session: &mut SessionState,
    catalogue: &Catalogue,
    name: &[u8],
    out: &mut BytesMut,
) -> Result<(), Stop>
    ensures { Performs result session.old session.new out.old.items out.new.items (describe catalogue.now session.old (OfStatement name.now)) }
{
    let Some(prepared) = find_named(session.statements(), name) else {
        return Err(Stop::Refused(Cause::NoStatement));
    };
    let described = find_described(alloc, session, catalogue, prepared.query().as_slice())?;
    describe_statement(alloc, session, prepared, &described, out)?;
    Ok(())
}

fn describe_portal(
    alloc: Global,
    session: &SessionState,
    portal: &Portal,
    described: &Described<'_>,
    out: &mut BytesMut,
) -> Result<(), Stop>
    ensures { Performs result session.now session.now out.old.items out.new.items (describe_portal session.now portal.now (described_of described.now)) }
{
    if !is_result_count(portal.formats().len(), &described.names) {
        return Err(Stop::Refused(Cause::MalformedMessage));
    }
    put_description(alloc, portal.formats(), &described.names, out)?;
    Ok(())
}

fn describe_bound(
    alloc: Global,
    session: &mut SessionState,
    catalogue: &Catalogue,
    name: &[u8],
    out: &mut BytesMut,
) -> Result<(), Stop>
    ensures { Performs result session.old session.new out.old.items out.new.items (describe catalogue.now session.old (OfPortal name.now)) }
{
    let Some(portal) = find_named(session.portals(), name) else {
        return Err(Stop::Refused(Cause::NoPortal));
    };
    let described = find_described(alloc, session, catalogue, portal.query().as_slice())?;
    describe_portal(alloc, session, portal, &described, out)
}

/// Describe of a prepared statement or a portal.
pub(crate) fn describe(
    alloc: Global,
    session: &mut SessionState,
    catalogue: &Catalogue,
    target: Target<'_>,
    out: &mut BytesMut,
) -> Result<(), Stop>
    ensures { Performs result session.old session.new out.old.items out.new.items (describe catalogue.now session.old (shown_target target.entry)) }
{
    match target {
        Target::Statement(name) => describe_prepared(alloc, session, catalogue, name, out),
        Target::Portal(name) => describe_bound(alloc, session, catalogue, name, out),
    }
}
