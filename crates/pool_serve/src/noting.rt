//! What is logged of a client. No contract says what is logged; the tests do.

use crate::ending::Ending;
use crate::logged_in::LoggedIn;
use crate::secrets::uselessness;
use disposal::Verdict;
use link_desk::answers::Cancelled;
use link_desk::desk::LinkDesk;
use link_run::links::CleanLink;
use link_start::start::StartCause;
use log_lines::lines::{ends_session, sqlstate};
use log_lines::notes::{Client, LoginFailure, Loss, Note, Server, Unstarted, Visit};
use login_core::LoginRefusal;
use login_run::{LoginReply, LoginRun};
use message_view::Refusal;
use relay_core::last_note::LastNote;
use relay_core::relay::GoneCause;
use server_end::{ClientEnd, ServerEnd};
use start_keys::StartKey;
use std::sync::Arc;

/// A client of this key, where it is known, as the log names it.
pub(crate) fn named<'a>(
    visit: Visit,
    number: Option<u64>,
    key: Option<&'a Arc<StartKey>>,
) -> Client<'a> {
    let (user, database) = match key {
        Some(key) => (key.user.as_slice(), key.row.as_slice()),
        None => (b"".as_slice(), b"".as_slice()),
    };
    Client {
        visit,
        number,
        user,
        database,
    }
}

/// The key of a client that has arrived, where it can be shared.
pub(crate) fn own_key<C: ClientEnd>(run: &LoginRun<C>) -> Option<Arc<StartKey>> {
    match run.key() {
        Some(key) => Arc::try_clone(key).ok(),
        None => None,
    }
}

/// Why a client isn't let in by its password.
fn login_failure<C: ClientEnd>(run: &LoginRun<C>) -> LoginFailure {
    let Some(key) = run.key() else {
        return LoginFailure::NoUser;
    };
    let name = key.user.as_slice();
    let Some(user) = run.login().users().row(name) else {
        return LoginFailure::NoUser;
    };
    let settings = run.login().settings();
    if let Some(failure) = uselessness(settings.auth_type(), &user.secret) {
        return failure;
    }
    if key.row.is(b"pgbouncer") & !(settings.is_admin(name) | settings.may_look(name)) {
        return LoginFailure::NoAdmin;
    }
    LoginFailure::WrongPassword
}

/// How a login ended that goes no further; nothing, where its client went.
fn login_note<C: ClientEnd>(run: &LoginRun<C>) -> Option<Note<'_>> {
    match (run.said(), run.login().unsupported_parameter()) {
        (LoginReply::Refusal(Refusal::UnsupportedParameter), Some(name)) => Some(
            Note::UnsupportedParameter(name),
        ),
        (LoginReply::Refusal(refusal), _) => Some(Note::Refused(*refusal)),
        (LoginReply::Failure(LoginRefusal::WrongPassword), _) => Some(Note::LoginFailed(
            login_failure(run),
        )),
        (LoginReply::Failure(LoginRefusal::NoDatabase), _) => Some(Note::NoDatabase),
        (
            LoginReply::Nothing
            | LoginReply::Question(_)
            | LoginReply::LetIn(_)
            | LoginReply::Proof(_),
            _,
        ) => None,
    }
}

/// Logs how a login ended that goes no further; of one that was late, unless it had been told why it is over.
pub(crate) fn note_login<C: ClientEnd, D: LinkDesk>(
    desk: &D,
    run: &LoginRun<C>,
    visit: Visit,
    number: Option<u64>,
    is_late: bool,
) {
    let note = match login_note(run) {
        Some(note) => note,
        None if is_late => Note::Late,
        None => return,
    };
    desk.note(&named(visit, number, run.key()), &note);
}

/// Logs whose statement a CancelRequest is for.
pub(crate) fn note_cancel<D: LinkDesk>(desk: &D, visit: Visit, cancelled: Cancelled) {
    let note = match cancelled {
        Cancelled::Strike(strike) => Note::Cancels(strike.link),
        Cancelled::Nobody => Note::CancelsNobody,
        Cancelled::Last => Note::Refused(Refusal::LastDecision),
    };
    desk.note(&named(visit, None, None), &note);
}

/// Logs by what a client of the console was refused, if by anything, and that it is gone.
pub(crate) fn note_end<D: LinkDesk>(desk: &D, client: &Client<'_>, last: Option<Refusal>) {
    if let Some(refusal) = last {
        desk.note(client, &Note::Refused(refusal));
    }
    desk.note(client, &Note::Closed);
}

/// Why a link wasn't started; nothing, where memory was refused.
fn start_note<'a>(cause: &'a StartCause) -> Option<Unstarted<'a>> {
    match cause {
        StartCause::Refused(error) => Some(Unstarted::Refused(error.as_bytes())),
        StartCause::Lost => Some(Unstarted::Lost),
        StartCause::Unanswerable(question) => Some(Unstarted::Unanswerable(question.number())),
        StartCause::Unexpected => Some(Unstarted::Unexpected),
        StartCause::Turns | StartCause::Late => Some(Unstarted::TimedOut),
        StartCause::Memory => None,
    }
}

/// The server of a client's database.
fn server_of(logged_in: &LoggedIn) -> Server<'_> {
    let host = match &logged_in.key.host {
        Some(host) => host.as_bytes(),
        None => b"",
    };
    Server {
        host,
        port: logged_in.key.port,
    }
}

/// How a client's time at the desk ended; nothing, where it went or was served.
pub(crate) fn ending_note<'a>(logged_in: &'a LoggedIn, ending: &'a Ending) -> Option<Note<'a>> {
    match ending {
        Ending::Left | Ending::Strange | Ending::Relayed(None) | Ending::Managed(None) => None,
        Ending::Refused(refusal)
        | Ending::Relayed(Some(refusal))
        | Ending::Managed(Some(refusal)) => Some(Note::Refused(*refusal)),
        Ending::Memory => Some(Note::Refused(Refusal::OutOfMemory)),
        Ending::Last => Some(Note::Refused(Refusal::LastDecision)),
        Ending::Unreached => Some(Note::Unstarted(server_of(logged_in), Unstarted::NotReached)),
        Ending::Unstarted(cause) => match start_note(cause) {
            Some(why) => Some(Note::Unstarted(server_of(logged_in), why)),
            None => Some(Note::Refused(Refusal::OutOfMemory)),
        },
    }
}

/// Why a client whose server had no place for its link asks again; nothing, where it ended otherwise.
pub(crate) fn asking_note<'a>(logged_in: &'a LoggedIn, ending: &'a Ending) -> Option<Note<'a>> {
    match ending {
        Ending::Unstarted(StartCause::Refused(error)) => Some(Note::AsksAgain(
            server_of(logged_in),
            error.as_bytes(),
        )),
        _ => None,
    }
}

/// Which link a client was lent, and to which process of its server.
pub(crate) fn lent_note<'a, E: ServerEnd>(
    logged_in: &'a LoggedIn,
    link: &CleanLink<E>,
) -> Note<'a> {
    let process = match link.server_key() {
        Some(key) => Some(key.pid),
        None => None,
    };
    Note::Lent(link.number(), server_of(logged_in), process)
}

/// How the session of a link ended whose server said this last; nothing, where its connection hasn't ended, nor was that told by an error.
fn server_loss(has_ended: bool, last: &LastNote) -> Option<Loss<'_>> {
    let message = last.message();
    if ends_session(message) {
        return Some(Loss::Said(message));
    }
    if !has_ended {
        return None;
    }
    // a server that ends at once warns of it
    let state = sqlstate(message);
    if state == b"57P01".as_slice() || state == b"57P02".as_slice() {
        return Some(Loss::Said(message));
    }
    Some(Loss::Ended)
}

/// Why a link is closed after its lease, within which its server's connection may have ended, and which said this last.
pub(crate) fn loss_of(cause: GoneCause, has_ended: bool, last: &LastNote) -> Loss<'_> {
    let verdict = match cause {
        GoneCause::Left(verdict) => verdict,
        GoneCause::Lost => return Loss::Ended,
    };
    match (verdict, server_loss(has_ended, last)) {
        (Verdict::Broken, _) => Loss::Foreign,
        (_, Some(loss)) => loss,
        (Verdict::InBlock, None) => Loss::InBlock,
        (_, None) => Loss::Unanswered,
    }
}

/// Why a link is closed that wasn't reset, whose server's connection may have ended by it, and which said this last within its lease.
pub(crate) fn loss_in_reset(has_ended: bool, last: &LastNote) -> Loss<'_> {
    server_loss(has_ended, last).unwrap_or(Loss::NotReset)
}
