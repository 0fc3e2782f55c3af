//! What the console writes.
ghost use Rattle.std.specs.Prelude.{◌≡◌, ◌<◌, ◌^◌, ◌++◌, Some, length, map, IfOk, OnErr, OnOk};
ghost use Rattle.std.specs.List.{flat_map};
ghost use Rattle.frame_view.specs.Frames.{spelling};
ghost use Rattle.message_view.specs.Parts.{formats_of, names_of, row_of, shown_value};
ghost use Rattle.console_core.specs.Messages.{reports, welcome};
ghost use Rattle.console_core.specs.Replies as spec;
ghost use Rattle.console_core.specs.Views.{reply_view, texts_of};

use crate::cells::Cells;
use crate::commands::{AWAITING, Table};
use crate::reply::ConsoleReply;
use bytes::BytesMut;
use message_view::{
    Column, KeyWord, Severity, Status, put_backend_key_data, put_command_complete, put_data_row,
    put_error_response, put_parameter_status, put_ready_for_query, put_row_description,
};
use session_values::cause::Cause;
use session_values::error_responses::put_error;
use session_values::text::Text;
use std::alloc::{AllocError, Global};

/// The names of a table's columns.
fn columns(table: Table) -> &'static [&'static [u8]]
    ensures few { length result.now < 2 ^ 16 }
    ensures names { texts_of result.now ≡ spec.columns table }
{
    match table {
        Table::Pools => &[
            b"database",
            b"user",
            b"cl_active",
            b"cl_waiting",
            b"sv_active",
            b"sv_idle",
        ],
        Table::Clients => &[b"number", b"state"],
        Table::Servers => &[b"number", b"database", b"user", b"state"],
        Table::Config => &[b"key", b"value"],
        Table::Version => &[b"version"],
        Table::Totals => &[b"decisions", b"starts", b"reuses", b"evictions", b"losses"],
    }
}

/// Columns of texts.
fn text_columns<'a>(alloc: Global, names: &[&'a [u8]]) -> Result<Vec<Column<'a>>, AllocError>
    ensures names { IfOk result (λ v. names_of v.items ≡ texts_of names.now) }
    ensures formats { IfOk result (λ v. formats_of v.items ≡ map (λ name. 0) (texts_of names.now)) }
    ensures count { IfOk result (λ v. length v.items ≡ length names.now) }
{
    let mut columns = Vec::with_capacity(alloc, names.len())?;
    for name in names {
        columns.push(Column { name, format: 0 })?;
    }
    Ok(columns)
}

fn put_heading(alloc: Global, names: &[&[u8]], out: &mut BytesMut) -> Result<(), AllocError>
    requires { length names.now < 2 ^ 16 }
    ensures { OnOk result (out.new.items ≡ out.old.items ++ spelling (spec.heading (texts_of names.now))) }
{
    let columns = text_columns(alloc, names)?;
    put_row_description(out, &columns)
}

fn bytes_of(cell: &Text) -> Option<&[u8]>
    ensures { shown_value result ≡ Some cell.now }
{
    Some(cell.as_slice())
}

/// The texts of a row, where they lie.
fn values_of(alloc: Global, cells: &[Text]) -> Result<Vec<Option<&[u8]>>, AllocError>
    ensures values { IfOk result (λ v. row_of v.items ≡ map Some cells.now) }
    ensures width { IfOk result (λ v. length v.items ≡ length cells.now) }
{
    let mut values = Vec::with_capacity(alloc, cells.len())?;
    for cell in cells {
        values.push(bytes_of(cell))?;
    }
    Ok(values)
}

fn put_row(alloc: Global, cells: &Cells, out: &mut BytesMut) -> Result<(), AllocError>
    ensures { OnOk result (out.new.items ≡ out.old.items ++ spelling (spec.row_frame cells.now)) }
{
    let values = values_of(alloc, cells.as_slice())?;
    put_data_row(out, &values)
}

fn put_rows(alloc: Global, rows: &[Cells], out: &mut BytesMut) -> Result<(), AllocError>
    ensures { OnOk result (out.new.items ≡ out.old.items ++ flat_map spelling (map spec.row_frame rows.now)) }
{
    for row in rows {
        put_row(alloc, row, out)?;
    }
    Ok(())
}

fn put_done(tag: &[u8], out: &mut BytesMut) -> Result<(), AllocError>
    ensures { OnOk result (out.new.items ≡ out.old.items ++ flat_map spelling (spec.done tag.now)) }
{
    put_command_complete(out, tag)?;
    put_ready_for_query(out, Status::Idle)
}

fn put_listing(
    alloc: Global,
    table: Table,
    rows: &[Cells],
    out: &mut BytesMut,
) -> Result<(), AllocError>
    ensures { OnOk result (out.new.items ≡ out.old.items ++ flat_map spelling (spec.listing table rows.now)) }
{
    put_heading(alloc, columns(table), out)?;
    put_rows(alloc, rows, out)?;
    put_done(b"SHOW", out)
}

fn put_refused(cause: Cause, out: &mut BytesMut) -> Result<(), AllocError>
    ensures { OnOk result (out.new.items ≡ out.old.items ++ flat_map spelling (spec.refused cause)) }
{
    put_error(out, cause)?;
    put_ready_for_query(out, Status::Idle)
}

fn put_not_allowed(out: &mut BytesMut) -> Result<(), AllocError>
    ensures { OnOk result (out.new.items ≡ out.old.items ++ flat_map spelling spec.not_allowed) }
{
    put_error_response(out, Severity::Error, b"42501", b"admin access needed")?;
    put_ready_for_query(out, Status::Idle)
}

fn put_shutting_down(out: &mut BytesMut) -> Result<(), AllocError>
    ensures { OnOk result (out.new.items ≡ out.old.items ++ flat_map spelling spec.shuts_down) }
{
    put_error_response(out, Severity::Error, b"57P01", b"pooler is shutting down")?;
    put_ready_for_query(out, Status::Idle)
}

fn put_frames(alloc: Global, reply: &ConsoleReply, out: &mut BytesMut) -> Result<(), AllocError>
    ensures { OnOk result (out.new.items ≡ out.old.items ++ flat_map spelling (spec.frames_of (reply_view reply.now))) }
{
    match reply {
        ConsoleReply::Rows { table, rows } => put_listing(alloc, *table, rows, out),
        ConsoleReply::Act(action) => put_done(action.tag(), out),
        ConsoleReply::Await => put_done(AWAITING, out),
        ConsoleReply::NotAllowed => put_not_allowed(out),
        ConsoleReply::ShuttingDown => put_shutting_down(out),
        ConsoleReply::Unknown => put_refused(Cause::Syntax, out),
    }
}

/// Writes a reply; that of an action is for when it is done, and that of a WAIT_CLOSE for when no link is stale. The only error is that memory was refused, which leaves the buffer as it
/// was.
pub fn put_reply(alloc: Global, reply: &ConsoleReply, out: &mut BytesMut) -> Result<(), AllocError>
    ensures ok { OnOk result (out.new.items ≡ out.old.items ++ flat_map spelling (spec.frames_of (reply_view reply.now))) }
    ensures err { OnErr result (out.new.items ≡ out.old.items) }
{
    let mut frames = BytesMut::new(alloc);
    put_frames(alloc, reply, &mut frames)?;
    out.extend_from_slice(frames.as_slice())
}

/// Writes an error of a command or a Query, after which the console is ready. The only error is that memory was refused, which leaves
/// the buffer as it was.
pub fn put_refusal(alloc: Global, cause: Cause, out: &mut BytesMut) -> Result<(), AllocError>
    ensures ok { OnOk result (out.new.items ≡ out.old.items ++ flat_map spelling (spec.refused cause)) }
    ensures err { OnErr result (out.new.items ≡ out.old.items) }
{
    let mut frames = BytesMut::new(alloc);
    put_refused(cause, &mut frames)?;
    out.extend_from_slice(frames.as_slice())
}

/// What the console reports of itself.
fn put_reports(out: &mut BytesMut) -> Result<(), AllocError>
    ensures { OnOk result (out.new.items ≡ out.old.items ++ flat_map spelling reports) }
{
    put_parameter_status(out, b"client_encoding", b"UTF8")?;
    put_parameter_status(out, b"server_encoding", b"UTF8")?;
    put_parameter_status(out, b"server_version", b"16.0")?;
    Ok(())
}

fn put_welcome_frames(word: KeyWord, out: &mut BytesMut) -> Result<(), AllocError>
    ensures { OnOk result (out.new.items ≡ out.old.items ++ flat_map spelling (welcome word.pid word.secret)) }
{
    put_reports(out)?;
    put_backend_key_data(out, word.pid, word.secret)?;
    put_ready_for_query(out, Status::Idle)
}

/// Writes the welcome of a client that is through its login. The only error is that memory was refused, which leaves the buffer as it
/// was.
pub fn put_welcome(alloc: Global, word: KeyWord, out: &mut BytesMut) -> Result<(), AllocError>
    ensures ok { OnOk result (out.new.items ≡ out.old.items ++ flat_map spelling (welcome word.pid word.secret)) }
    ensures err { OnErr result (out.new.items ≡ out.old.items) }
{
    let mut frames = BytesMut::new(alloc);
    put_welcome_frames(word, &mut frames)?;
    out.extend_from_slice(frames.as_slice())
}
