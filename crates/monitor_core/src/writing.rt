//! What a monitor is written.
ghost use Rattle.std.specs.Prelude.{◌≡◌, ◌≤◌, ◌<◌, ◌^◌, ◌++◌, Some, length, map, IfOk, OnErr, OnOk};
ghost use Rattle.std.specs.List.{flat_map};
ghost use Rattle.frame_view.specs.Frames.{spelling};
ghost use Rattle.message_view.specs.Parts.{row_of, shown_value};
ghost use Rattle.console_core.specs.Messages.{welcome};
ghost use Rattle.console_core.specs.Replies.{done, row_frame};
ghost use Rattle.console_core.specs.Views.{texts_of};
ghost use Rattle.monitor_core.specs.Columns.{column, group_text, heading, names_of};
ghost use Rattle.monitor_core.specs.Replies as spec;
ghost use Rattle.monitor_core.specs.Views.{groups_of, reply_view, status_of};
ghost use Rattle.monitor_core.specs.declared.rows.TheConstants.{WIDEST};

use crate::asking::Table;
use crate::columns::{Group, Kind, columns};
use crate::reply::MonitorReply;
use crate::rows::Row;
use bytes::BytesMut;
use console_core::writing::put_welcome;
use frame_view::server::{NOTICE_RESPONSE, ROW_DESCRIPTION};
use ini_config::ConsoleStyle as Style;
use message_view::{
    KeyWord, Severity, Status, put_backend_key_data, put_command_complete, put_data_row,
    put_error_response, put_message, put_parameter_status, put_ready_for_query,
};
use session_values::text::Text;
use std::alloc::{AllocError, Global};

/// How many columns there are.
fn width(groups: &[Group]) -> usize
    requires { length (names_of (groups_of groups.now)) ≤ WIDEST }
    ensures { result ≡ length (names_of (groups_of groups.now)) }
{
    let mut count: usize = 0;
    for group in groups {
        count += group.names.len();
    }
    count
}

/// A column, as a heading has it.
fn put_column(text: &mut Vec<u8>, kind: Kind, name: &[u8]) -> Result<(), AllocError>
    ensures { OnOk result (text.new.items ≡ text.old.items ++ column kind name.now) }
{
    text.extend_from_slice(name)?;
    text.extend_from_slice(kind.behind_name())
}

/// The columns of one type.
fn put_group(text: &mut Vec<u8>, kind: Kind, names: &[&[u8]]) -> Result<(), AllocError>
    ensures { OnOk result (text.new.items ≡ text.old.items ++ flat_map (column kind) (texts_of names.now)) }
{
    for name in names {
        put_column(text, kind, name)?;
    }
    Ok(())
}

/// All columns.
fn put_groups(text: &mut Vec<u8>, groups: &[Group]) -> Result<(), AllocError>
    ensures { OnOk result (text.new.items ≡ text.old.items ++ flat_map group_text (groups_of groups.now)) }
{
    for group in groups {
        put_group(text, group.kind, group.names)?;
    }
    Ok(())
}

fn put_heading(alloc: Global, groups: &[Group], out: &mut BytesMut) -> Result<(), AllocError>
    requires { length (names_of (groups_of groups.now)) ≤ WIDEST }
    ensures { OnOk result (out.new.items ≡ out.old.items ++ spelling (heading (groups_of groups.now))) }
{
    let count = (width(groups) as u16).to_be_bytes();
    let mut text = Vec::new(alloc);
    put_groups(&mut text, groups)?;
    put_message(out, ROW_DESCRIPTION, &[&count, &text])
}

fn bytes_of(text: &Text) -> Option<&[u8]>
    ensures { shown_value result ≡ Some text.now }
{
    Some(text.as_slice())
}

/// The texts of a row, where they lie.
fn values_of(alloc: Global, texts: &[Text]) -> Result<Vec<Option<&[u8]>>, AllocError>
    ensures values { IfOk result (λ v. row_of v.items ≡ map Some texts.now) }
    ensures width { IfOk result (λ v. length v.items ≡ length texts.now) }
{
    let mut values = Vec::with_capacity(alloc, texts.len())?;
    for text in texts {
        values.push(bytes_of(text))?;
    }
    Ok(values)
}

fn put_row(alloc: Global, row: &Row, out: &mut BytesMut) -> Result<(), AllocError>
    ensures { OnOk result (out.new.items ≡ out.old.items ++ spelling (row_frame row.now)) }
{
    let values = values_of(alloc, row.as_slice())?;
    put_data_row(out, &values)
}

fn put_rows(alloc: Global, rows: &[Row], out: &mut BytesMut) -> Result<(), AllocError>
    ensures { OnOk result (out.new.items ≡ out.old.items ++ flat_map spelling (map row_frame rows.now)) }
{
    for row in rows {
        put_row(alloc, row, out)?;
    }
    Ok(())
}

fn put_done(tag: &[u8], out: &mut BytesMut) -> Result<(), AllocError>
    ensures { OnOk result (out.new.items ≡ out.old.items ++ flat_map spelling (done tag.now)) }
{
    put_command_complete(out, tag)?;
    put_ready_for_query(out, Status::Idle)
}

fn put_listing(
    alloc: Global,
    table: Table,
    rows: &[Row],
    out: &mut BytesMut,
) -> Result<(), AllocError>
    ensures { OnOk result (out.new.items ≡ out.old.items ++ flat_map spelling (spec.listing table rows.now)) }
{
    put_heading(alloc, columns(table), out)?;
    put_rows(alloc, rows, out)?;
    put_done(b"SHOW", out)
}

/// What may be asked for.
const HELP: &[u8] =
    b"SHOW HELP|ACTIVITY|CLIENTS|CONFIG|DATABASES|DECISIONS|LISTS|POOLS|SERVERS|STATE|STATS|STATS_AVERAGES|STATS_TOTALS|TOTALS|USERS|VERSION, SET name = value, PAUSE, RESUME, RELOAD, RECONNECT, WAIT_CLOSE [database], SHUTDOWN";

#[tactic(auto, unfolding(crate::specs::Replies::help))]
fn put_help(out: &mut BytesMut) -> Result<(), AllocError>
    ensures { OnOk result (out.new.items ≡ out.old.items ++ spelling spec.help) }
{
    put_message(
        out,
        NOTICE_RESPONSE,
        &[b"SNOTICE\0VNOTICE\0C00000\0M", HELP, b"\0\0"],
    )
}

#[tactic(auto, unfolding(crate::specs::Replies::unknown))]
fn put_unknown(out: &mut BytesMut) -> Result<(), AllocError>
    ensures { OnOk result (out.new.items ≡ out.old.items ++ spelling spec.unknown) }
{
    put_error_response(
        out,
        Severity::Error,
        b"42601",
        b"invalid command, use SHOW HELP;",
    )
}

fn put_frames(alloc: Global, reply: &MonitorReply, out: &mut BytesMut) -> Result<(), AllocError>
    ensures { OnOk result (out.new.items ≡ out.old.items ++ flat_map spelling (spec.frames_of (reply_view reply.now))) }
{
    match reply {
        MonitorReply::Rows { table, rows } => put_listing(alloc, *table, rows, out),
        MonitorReply::Set => put_done(b"SET", out),
        MonitorReply::Help => {
            put_help(out)?;
            put_done(b"SHOW", out)
        }
        MonitorReply::Unknown => {
            put_unknown(out)?;
            put_ready_for_query(out, Status::Idle)
        }
    }
}

/// Writes a reply. The only error is that memory was refused, which leaves the buffer as it was.
pub fn put_monitor_reply(
    alloc: Global,
    reply: &MonitorReply,
    out: &mut BytesMut,
) -> Result<(), AllocError>
    ensures ok { OnOk result (out.new.items ≡ out.old.items ++ flat_map spelling (spec.frames_of (reply_view reply.now))) }
    ensures err { OnErr result (out.new.items ≡ out.old.items) }
{
    let mut frames = BytesMut::new(alloc);
    put_frames(alloc, reply, &mut frames)?;
    out.extend_from_slice(frames.as_slice())
}

/// What PgBouncer's console reports of itself.
const REPORTS: [(&[u8], &[u8]); 7] = [
    (b"server_version", b"1.24.0/bouncer"),
    (b"client_encoding", b"UTF8"),
    (b"server_encoding", b"UTF8"),
    (b"DateStyle", b"ISO"),
    (b"TimeZone", b"GMT"),
    (b"standard_conforming_strings", b"on"),
    (b"is_superuser", b"on"),
];

fn put_statuses(statuses: &[(&[u8], &[u8])], out: &mut BytesMut) -> Result<(), AllocError>
    ensures { OnOk result (out.new.items ≡ out.old.items ++ flat_map spelling (map status_of statuses.now)) }
{
    for (name, setting) in statuses {
        put_parameter_status(out, name, setting)?;
    }
    Ok(())
}

#[tactic(auto, unfolding(crate::specs::Replies::reports))]
fn put_reports(out: &mut BytesMut) -> Result<(), AllocError>
    ensures { OnOk result (out.new.items ≡ out.old.items ++ flat_map spelling spec.reports) }
{
    put_statuses(&REPORTS, out)
}

fn put_style_frames(
    alloc: Global,
    style: Style,
    word: KeyWord,
    out: &mut BytesMut,
) -> Result<(), AllocError>
    ensures { OnOk result (out.new.items ≡ out.old.items ++ flat_map spelling (spec.welcome_of style word.pid word.secret)) }
{
    match style {
        Style::Own => put_welcome(alloc, word, out),
        Style::PgBouncer => {
            put_reports(out)?;
            put_backend_key_data(out, word.pid, word.secret)?;
            put_ready_for_query(out, Status::Idle)
        }
    }
}

/// Writes the welcome of a client that is through its login. The only error is that memory was refused, which leaves the buffer as it
/// was.
pub fn put_style_welcome(
    alloc: Global,
    style: Style,
    word: KeyWord,
    out: &mut BytesMut,
) -> Result<(), AllocError>
    ensures ok { OnOk result (out.new.items ≡ out.old.items ++ flat_map spelling (spec.welcome_of style word.pid word.secret)) }
    ensures err { OnErr result (out.new.items ≡ out.old.items) }
{
    let mut frames = BytesMut::new(alloc);
    put_style_frames(alloc, style, word, &mut frames)?;
    out.extend_from_slice(frames.as_slice())
}
