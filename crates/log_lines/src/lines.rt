//! The lines about clients.
ghost use Rattle.std.specs.Prelude.{◌≡◌, ◌++◌, ◌||◌, bytes_eq, codes, decimal, OnOk};
ghost use Rattle.std.specs.Iterator.{YieldsFirstBy};
ghost use Rattle.message_view.specs.Left.{fields_left};
ghost use Rattle.message_view.specs.Views.{code_and_text_of};
ghost use Rattle.message_view.specs.Reading.{note_of};
ghost use Rattle.message_view.specs.Refusals.{telling};
ghost use Rattle.log_lines.specs.Shown.{address, after};
ghost use Rattle.log_lines.specs.declared.notes.Unstarted.TheVariants.{Refused};
ghost use Rattle.log_lines.specs.Lines as spec;

use crate::notes::{Client, LoginFailure, Loss, Note, Server, Unstarted};
use crate::shown::{put_address, put_after, put_name, put_number, put_quoted, put_text};
use message_view::kinds::{ASKS_CLEARTEXT, ASKS_MD5};
use message_view::{Fields, NoteView, Refusal, refusal_bytes};
use std::alloc::AllocError;

/// What precedes the body in a message: its type and length.
const HEAD: usize = 5;

/// The authentication method by which SASL is asked for, of which the log says more than its number, as of a password and its digest.
const SASL: u32 = 10;

fn put_numbered(line: &mut Vec<u8>, number: Option<u64>) -> Result<(), AllocError>
    ensures { OnOk result (line.new.items ≡ line.old.items ++ spec.numbered number) }
{
    let Some(number) = number else {
        return Ok(());
    };
    line.push(b' ')?;
    put_number(line, number)
}

fn put_named(line: &mut Vec<u8>, user: &[u8], database: &[u8]) -> Result<(), AllocError>
    ensures { OnOk result (line.new.items ≡ line.old.items ++ spec.named user.now database.now) }
{
    if user.is_empty() {
        return Ok(());
    }
    line.push(b' ')?;
    put_name(line, user)?;
    line.push(b'@')?;
    put_name(line, database)
}

/// Whom the line is about.
fn put_who(line: &mut Vec<u8>, client: &Client<'_>) -> Result<(), AllocError>
    ensures { OnOk result (line.new.items ≡ line.old.items ++ spec.who client.now) }
{
    line.extend_from_slice(b"client")?;
    put_numbered(line, client.number)?;
    put_named(line, client.user, client.database)?;
    line.extend_from_slice(b" from ")?;
    put_address(
        line,
        client.visit.host.as_str().as_bytes(),
        client.visit.port,
    )
}

fn next_field<'a>(fields: &mut Fields<'a>) -> Option<(u8, &'a [u8])>
    ensures { YieldsFirstBy code_and_text_of fields_left fields.old result fields.new }
{
    fields.next()
}

/// The text of the first field of this code; empty where there is none.
fn field<'a>(fields: Fields<'a>, code: u8) -> &'a [u8]
    ensures { result.now ≡ spec.field code (fields_left fields.entry) }
{
    let mut fields = fields;
    while let Some((other, text)) = next_field(&mut fields) {
        if other == code {
            return text;
        }
    }
    b""
}

/// The SQLSTATE and the text of an ErrorResponse, the body of one.
fn put_error_body(line: &mut Vec<u8>, body: &[u8]) -> Result<(), AllocError>
    ensures { OnOk result (line.new.items ≡ line.old.items ++ spec.state_and_text (spec.fields_or_none (note_of body.now))) }
{
    match NoteView::read(body) {
        Ok(view) => {
            put_text(line, field(view.fields(), b'C'))?;
            line.push(b' ')?;
            put_text(line, field(view.fields(), b'M'))
        }
        Err(_) => {
            line.push(b' ')?;
            Ok(())
        }
    }
}

/// The SQLSTATE and the text of an ErrorResponse, the whole message.
pub(crate) fn put_error(line: &mut Vec<u8>, message: &[u8]) -> Result<(), AllocError>
    ensures { OnOk result (line.new.items ≡ line.old.items ++ spec.error_words message.now) }
{
    if message.len() < HEAD {
        return put_error_body(line, b"");
    }
    put_error_body(line, &message[HEAD..])
}

/// The text of the first field of this code in an ErrorResponse, the whole message; empty where it has none or can't be read.
fn field_of(message: &[u8], code: u8) -> &[u8]
    ensures { result.now ≡ spec.field_of code message.now }
{
    let body = if message.len() < HEAD {
        b""
    } else {
        &message[HEAD..]
    };
    match NoteView::read(body) {
        Ok(view) => field(view.fields(), code),
        Err(_) => b"",
    }
}

/// The SQLSTATE of an ErrorResponse, the whole message; empty where it has none or can't be read.
pub fn sqlstate(message: &[u8]) -> &[u8]
    ensures { result.now ≡ spec.sqlstate message.now }
{
    field_of(message, b'C')
}

/// The severity of an ErrorResponse, the whole message, in the server's own words only where it tells no other.
fn severity(message: &[u8]) -> &[u8]
    ensures { result.now ≡ spec.severity message.now }
{
    let severity = field_of(message, b'V');
    if severity.is_empty() {
        return field_of(message, b'S');
    }
    severity
}

/// Whether an ErrorResponse, the whole message, is one by which its server ends the session: of severity FATAL or PANIC (PostgreSQL
/// manual, "Message Severity Levels").
pub fn ends_session(message: &[u8]) -> bool
    ensures { result ≡ spec.ends_session message.now }
{
    let severity = severity(message);
    severity == b"FATAL".as_slice() || severity == b"PANIC".as_slice()
}

/// What a server said of its session's end.
pub(crate) fn put_said(line: &mut Vec<u8>, message: &[u8]) -> Result<(), AllocError>
    ensures { OnOk result (line.new.items ≡ line.old.items ++ spec.said_words message.now) }
{
    line.extend_from_slice(b"its server said ")?;
    put_error(line, message)
}

fn put_server_error(line: &mut Vec<u8>, message: &[u8]) -> Result<(), AllocError>
    ensures { OnOk result (line.new.items ≡ line.old.items ++ (codes " refused the start: " ++ spec.error_words message.now)) }
{
    line.extend_from_slice(b" refused the start: ")?;
    put_error(line, message)
}

fn put_asked(line: &mut Vec<u8>, method: u32) -> Result<(), AllocError>
    ensures { OnOk result (line.new.items ≡ line.old.items ++ spec.asks_for method) }
{
    if method == SASL {
        return line.extend_from_slice(
            b" asks for SCRAM (authentication method 10), which can't be answered: the user file has no password, or SCRAM-SHA-256 isn't offered",
        );
    }
    if method == ASKS_CLEARTEXT {
        return line.extend_from_slice(
            b" asks for a password (authentication method 3), which can't be given: the user file has none",
        );
    }
    if method == ASKS_MD5 {
        return line.extend_from_slice(
            b" asks for MD5 (authentication method 5), which can't be answered: the user file has neither a password nor its digest",
        );
    }
    line.extend_from_slice(b" asks for authentication method ")?;
    put_number(line, method as u64)?;
    line.extend_from_slice(b", which isn't served: use SCRAM, md5 or a password")
}

/// Why a link wasn't started.
fn put_unstarted(line: &mut Vec<u8>, why: Unstarted<'_>) -> Result<(), AllocError>
    ensures { OnOk result (line.new.items ≡ line.old.items ++ spec.unstarted_words why.entry) }
{
    match why {
        Unstarted::NotReached => line.extend_from_slice(b" could not be reached (P7)"),
        Unstarted::Unanswerable(method) => {
            put_asked(line, method)?;
            line.extend_from_slice(b" (P7)")
        }
        Unstarted::Lost => line.extend_from_slice(b" closed the connection within its start (P7)"),
        Unstarted::Unexpected => line.extend_from_slice(
            b" answered its start by no message that belongs there (P7)",
        ),
        Unstarted::TimedOut => line.extend_from_slice(b" didn't answer its start in time (P7)"),
        Unstarted::Refused(message) => put_server_error(line, message),
    }
}

/// Why a link was closed.
fn put_loss(line: &mut Vec<u8>, loss: Loss<'_>) -> Result<(), AllocError>
    ensures { OnOk result (line.new.items ≡ line.old.items ++ spec.loss_words loss.entry) }
{
    match loss {
        Loss::Ended => line.extend_from_slice(b"server connection ended"),
        Loss::Said(message) => put_said(line, message),
        Loss::InBlock => line.extend_from_slice(b"left within a transaction block"),
        Loss::Unanswered => line.extend_from_slice(b"left before all was answered"),
        Loss::Foreign => line.extend_from_slice(b"malformed server message"),
        Loss::NotReset => line.extend_from_slice(b"not reset by DISCARD ALL"),
        Loss::Cancelled => line.extend_from_slice(b"cancel requested"),
    }
}

fn failure_words(why: LoginFailure) -> &'static [u8]
    ensures { result.now ≡ spec.failure_words why }
{
    match why {
        LoginFailure::NoUser => b"no such user",
        LoginFailure::Digest => b"its secret is an MD5 digest, by which SCRAM judges nobody",
        LoginFailure::Rounds => b"its SCRAM verifier has more than 1,000,000 rounds",
        LoginFailure::NoSecret => b"its secret is empty, or a spoiled SCRAM verifier",
        LoginFailure::NoAdmin => b"not of admin_users or stats_users",
        LoginFailure::WrongPassword => b"wrong password",
    }
}

/// A refusal's text, which stands in the bytes that its client is given.
#[tactic(auto, using(crate::proofs::Refusing::texts))]
fn refusal_text(refusal: Refusal) -> &'static [u8]
    ensures { result.now ≡ (telling refusal).message }
{
    field_of(refusal_bytes(refusal), b'M')
}

/// A refusal's text and number.
fn put_refusal(line: &mut Vec<u8>, refusal: Refusal) -> Result<(), AllocError>
    ensures { OnOk result (line.new.items ≡ line.old.items ++ spec.refusal_words refusal) }
{
    line.extend_from_slice(refusal_text(refusal))?;
    line.extend_from_slice(b" (")?;
    line.extend_from_slice(refusal.code())?;
    line.extend_from_slice(b")")
}

/// A word, how long it took, and a text.
fn put_timed(
    line: &mut Vec<u8>,
    word: &[u8],
    ms: Option<u64>,
    text: &[u8],
) -> Result<(), AllocError>
    ensures { OnOk result (line.new.items ≡ line.old.items ++ (word.now ++ after ms ++ text.now)) }
{
    line.extend_from_slice(word)?;
    put_after(line, ms)?;
    line.extend_from_slice(text)
}

/// An unsupported startup parameter.
fn put_parameter(line: &mut Vec<u8>, name: &[u8]) -> Result<(), AllocError>
    ensures { OnOk result (line.new.items ≡ line.old.items ++ spec.parameter_words name.now) }
{
    line.extend_from_slice(b"unsupported startup parameter ")?;
    put_quoted(line, name)?;
    line.extend_from_slice(b" (P4)")
}

/// What a client does, or what is done to it, since no link of its server was started.
fn put_unstarted_by(
    line: &mut Vec<u8>,
    word: &[u8],
    server: Server<'_>,
    why: Unstarted<'_>,
    ms: Option<u64>,
) -> Result<(), AllocError>
    ensures { OnOk result (line.new.items ≡ line.old.items ++ spec.unstarted_by word.now server.entry why.entry ms) }
{
    put_timed(line, word, ms, b": server ")?;
    put_address(line, server.host, server.port)?;
    put_unstarted(line, why)
}

/// That a client asks for another link, since its server refused the start of one by this message.
fn put_asks_again(
    line: &mut Vec<u8>,
    server: Server<'_>,
    message: &[u8],
    ms: Option<u64>,
) -> Result<(), AllocError>
    ensures { OnOk result (line.new.items ≡ line.old.items ++ spec.unstarted_by (codes " asks again") server.entry (Refused message.entry) ms) }
{
    let why = Unstarted::Refused(message);
    put_unstarted_by(line, b" asks again", server, why, ms)
}

/// A process of a server.
fn put_process(line: &mut Vec<u8>, process: Option<u32>) -> Result<(), AllocError>
    ensures { OnOk result (line.new.items ≡ line.old.items ++ spec.process_words process) }
{
    let Some(process) = process else {
        return Ok(());
    };
    line.extend_from_slice(b", process ")?;
    put_number(line, process as u64)
}

/// Which link a client was lent.
fn put_lent(
    line: &mut Vec<u8>,
    number: u64,
    server: Server<'_>,
    process: Option<u32>,
) -> Result<(), AllocError>
    ensures { OnOk result (line.new.items ≡ line.old.items ++ spec.lent_words number server.entry process) }
{
    put_between(line, b" has link ", number, b" to server ")?;
    put_address(line, server.host, server.port)?;
    put_process(line, process)
}

fn put_lost(line: &mut Vec<u8>, number: u64, loss: Loss<'_>) -> Result<(), AllocError>
    ensures { OnOk result (line.new.items ≡ line.old.items ++ (codes " link " ++ decimal number ++ codes " closed: " ++ spec.loss_words loss.entry)) }
{
    put_between(line, b" link ", number, b" closed: ")?;
    put_loss(line, loss)
}

/// A number between two texts.
fn put_between(
    line: &mut Vec<u8>,
    before: &[u8],
    number: u64,
    behind: &[u8],
) -> Result<(), AllocError>
    ensures { OnOk result (line.new.items ≡ line.old.items ++ (before.now ++ decimal number ++ behind.now)) }
{
    line.extend_from_slice(before)?;
    put_number(line, number)?;
    line.extend_from_slice(behind)
}

/// What is logged.
fn put_words(line: &mut Vec<u8>, note: Note<'_>, ms: Option<u64>) -> Result<(), AllocError>
    ensures { OnOk result (line.new.items ≡ line.old.items ++ spec.words note.entry ms) }
{
    match note {
        Note::LoggedIn => line.extend_from_slice(b" in"),
        Note::Closed => put_timed(line, b" out", ms, b""),
        Note::Late => put_timed(
            line,
            b" closed",
            ms,
            b": not through its login in client_login_timeout",
        ),
        Note::Refused(refusal) => {
            put_timed(line, b" refused", ms, b": ")?;
            put_refusal(line, refusal)
        }
        Note::UnsupportedParameter(name) => {
            put_timed(line, b" refused", ms, b": ")?;
            put_parameter(line, name)
        }
        Note::LoginFailed(why) => {
            put_timed(
                line,
                b" failed",
                ms,
                b": password authentication failed (28P01): ",
            )?;
            line.extend_from_slice(failure_words(why))
        }
        Note::NoDatabase => put_timed(line, b" failed", ms, b": database does not exist (3D000)"),
        Note::Unstarted(server, why) => put_unstarted_by(line, b" refused", server, why, ms),
        Note::AsksAgain(server, message) => put_asks_again(line, server, message, ms),
        Note::Lent(number, server, process) => put_lent(line, number, server, process),
        Note::LinkLost(number, loss) => put_lost(line, number, loss),
        Note::Cancels(number) => put_between(line, b" cancels link ", number, b"'s statement"),
        Note::CancelsNobody => line.extend_from_slice(
            b" requests a cancel by a key that nobody has",
        ),
        Note::Paused => line.extend_from_slice(b" paused the pool"),
        Note::Resumed => line.extend_from_slice(b" resumed the pool"),
        Note::Reconnecting => line.extend_from_slice(b" reconnects the pool"),
        Note::ShuttingDown => line.extend_from_slice(b" shuts the pool down"),
    }
}

/// Appends the line of what is logged of a client, without its end, to a buffer: after so many milliseconds of its visit, where
/// they are known. The only error is that an allocation failed: then the buffer holds a part of it.
pub fn put_note(
    line: &mut Vec<u8>,
    client: &Client<'_>,
    note: Note<'_>,
    ms: Option<u64>,
) -> Result<(), AllocError>
    ensures { OnOk result (line.new.items ≡ line.old.items ++ spec.line client.now note.entry ms) }
{
    line.extend_from_slice(b"pgsess: ")?;
    put_who(line, client)?;
    put_words(line, note, ms)
}
