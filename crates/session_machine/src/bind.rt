//! Bind (PostgreSQL manual, "Extended Query").
ghost use Rattle.std.specs.Prelude.{◌≡◌, ◌<◌, ◌^◌, max, Ok, Err, IfOk};
ghost use Rattle.std.specs.Iterator.{YieldsFirstBy};
ghost use Rattle.std.specs.List.{list_all};
ghost use Rattle.mini_sql.specs.Meanings.{meaning};
ghost use Rattle.message_view.specs.Left.{codes_left, values_left};
ghost use Rattle.message_view.specs.Parts.{shown_value};
ghost use Rattle.message_view.specs.Shown.{shown_bind};
ghost use Rattle.session_values.specs.Answers.{Performs};
ghost use Rattle.session_values.specs.Extended.{bind, bindable, is_count, is_format, is_result_count, parameter_count, portal_to, values_fault};
ghost use Rattle.session_machine.specs.Described.{FindsPrepared};

use crate::parse::is_taken;
use bytes::BytesMut;
use message_view::{BindView, Codes, Values, put_bind_complete};
use mini_sql::Stmt;
use session_catalogue::Catalogue;
use session_statements::lookup::look_up;
use session_statements::portal::{BoundStatement, Portal, Prepared};
use session_statements::run::usable;
use session_statements::session::SessionState;
use session_values::cause::Cause;
use session_values::names::Names;
use session_values::naming::{HasName, find_named};
use session_values::row::Row;
use session_values::stop::Stop;
use session_values::text::Text;
use std::alloc::{AllocError, Global};

/// How many values a prepared statement asks for: its greatest `$n`, or as many as its Parse gave
/// oids, where these are more.
pub(crate) fn parameter_count(statement: &Stmt<'_>, prepared: &Prepared) -> usize
    ensures count { result ≡ parameter_count (meaning statement.now) prepared.now }
    ensures short { result < 2 ^ 16 }
{
    (statement.parameters() as usize).max(prepared.oids().len())
}

/// None, one for all, or one for each.
fn is_count(have: usize, count: usize) -> bool
    ensures { result ≡ is_count have count }
{
    have == 0 || have == 1 || have == count
}

fn is_format(code: u16) -> bool
    ensures { result ≡ is_format code }
{
    code == 0 || code == 1
}

fn are_formats(codes: Codes<'_>) -> bool
    ensures { result ≡ list_all is_format (codes_left codes.entry) }
{
    for code in codes {
        if !is_format(code) {
            return false;
        }
    }
    true
}

/// Whether so many result formats fit the columns of the rows; a statement without rows has none.
pub(crate) fn is_result_count(have: usize, names: &Option<Names>) -> bool
    ensures { result ≡ is_result_count have names.now }
{
    match names {
        None => is_count(have, 0),
        Some(names) => is_count(have, names.as_slice().len()),
    }
}

/// The next of the values.
fn next_value<'a>(values: &mut Values<'a>) -> Option<Option<&'a [u8]>>
    ensures { YieldsFirstBy shown_value values_left values.old result values.new }
{
    values.next()
}

fn given_of(alloc: Global, values: Values<'_>) -> Result<Vec<Option<Text>>, AllocError>
    ensures { IfOk result (λ v. v.items ≡ values_left values.entry) }
{
    let mut list = Vec::with_capacity(alloc, values.len())?;
    let mut rest = values;
    while let Some(value) = next_value(&mut rest) {
        list.push(owned(alloc, value)?)?;
    }
    Ok(list)
}

fn owned(alloc: Global, value: Option<&[u8]>) -> Result<Option<Text>, AllocError>
    ensures { IfOk result (λ v. v ≡ shown_value value.entry) }
{
    match value {
        Some(bytes) => Ok(Some(Text::from_slice(alloc, bytes)?)),
        None => Ok(None),
    }
}

fn codes_of(alloc: Global, codes: Codes<'_>) -> Result<Vec<u16>, AllocError>
    ensures { IfOk result (λ v. v.items ≡ codes_left codes.entry) }
{
    let mut list = Vec::with_capacity(alloc, codes.len())?;
    for code in codes {
        list.push(code)?;
    }
    Ok(list)
}

fn row_of(alloc: Global, values: Values<'_>) -> Result<Row, AllocError>
    ensures { IfOk result (λ r. r ≡ values_left values.entry) }
{
    let _count = values.len();
    Ok(Row::from_vec(given_of(alloc, values)?))
}

fn portal_to(alloc: Global, view: &BindView<'_>, prepared: &Prepared) -> Result<Portal, AllocError>
    ensures { IfOk result (λ p. p ≡ portal_to (shown_bind view.now) prepared.now) }
{
    Portal::new(
        alloc,
        BoundStatement {
            portal: Text::from_slice(alloc, view.portal)?,
            statement: prepared.name().copied()?,
            query: prepared.query().copied()?,
            given: row_of(alloc, view.given)?,
            formats: codes_of(alloc, view.results)?,
        },
    )
}

/// Whether the values of a Bind are those that its statement asks for.
fn values_fault(statement: &Stmt<'_>, prepared: &Prepared, view: &BindView<'_>) -> Option<Cause>
    ensures { result ≡ values_fault (shown_bind view.now) prepared.now (meaning statement.now) }
{
    if view.given.len() != parameter_count(statement, prepared) {
        return Some(Cause::MalformedMessage);
    }
    if !is_count(view.formats.len(), view.given.len()) {
        return Some(Cause::MalformedMessage);
    }
    if !(are_formats(view.formats) && are_formats(view.results)) {
        return Some(Cause::InvalidValue);
    }
    None
}

/// The statement that a Bind may bind now.
fn bindable<'a>(
    alloc: Global,
    session: &'a SessionState,
    catalogue: &Catalogue,
    view: &BindView<'_>,
) -> Result<&'a Prepared, Stop>
    ensures { FindsPrepared result (bindable catalogue.now session.now (shown_bind view.now)) }
{
    let Some(prepared) = find_named(session.statements(), view.statement) else {
        return Err(Stop::Refused(Cause::NoStatement));
    };
    let statement = usable(session, prepared.query().as_slice())?;
    if is_taken(
        view.portal,
        find_named(session.portals(), view.portal).is_some(),
    ) {
        return Err(Stop::Refused(Cause::PortalExists));
    }
    if let Some(cause) = values_fault(&statement, prepared, view) {
        return Err(Stop::Refused(cause));
    }
    let names = look_up(alloc, session, catalogue, &statement)?;
    if !is_result_count(view.results.len(), &names) {
        return Err(Stop::Refused(Cause::MalformedMessage));
    }
    Ok(prepared)
}

/// Bind: keeps a portal.
pub(crate) fn bind(
    alloc: Global,
    session: &mut SessionState,
    catalogue: &Catalogue,
    view: &BindView<'_>,
    out: &mut BytesMut,
) -> Result<(), Stop>
    ensures { Performs result session.old session.new out.old.items out.new.items (bind catalogue.now session.old (shown_bind view.now)) }
{
    let prepared = bindable(alloc, session, catalogue, view)?;
    let portal = portal_to(alloc, view, prepared)?;
    session.put_portal(alloc, portal)?;
    put_bind_complete(out)?;
    Ok(())
}
