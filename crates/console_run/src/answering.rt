//! What the console answers to one client.
ghost use Rattle.std.specs.Prelude.{◌≡◌, [], false, true, IfOk, OnOk, option_map};
ghost use Rattle.std.specs.List.{flat_map};
ghost use Rattle.frame_view.specs.Frames.{spelling};
ghost use Rattle.message_view.specs.Parts.{shown_value};
ghost use Rattle.session_values.specs.Answers.{frame_of};
ghost use Rattle.console_core.specs.Commands.{command_of};
ghost use Rattle.console_core.specs.Messages as messages;
ghost use Rattle.console_core.specs.Replies as replies;
ghost use Rattle.console_core.specs.Views.{command_view, reply_view, response_view};
ghost use Rattle.monitor_core.specs.Replies as monitor;
ghost use Rattle.monitor_core.specs.Requests.{request_view};
ghost use Rattle.console_run.specs.Exchanges as exchange;
ghost use Rattle.console_run.specs.Exchanges.{ForAdmins, IsActed, IsAnswer, IsClosed, asker};
ghost use Rattle.console_run.specs.Passing.{pass_of};
ghost use Rattle.console_run.specs.Turns.{HasAnswered, HasResponded, IsEarly, IsNotAllowed, IsSaid, IsSeenBy, IsShownAs, Waits, shown_by, told_of};

use crate::acting::{Acted, act};
use book_register::view::BookView;
use bytes::BytesMut;
use console_core::commands::{Action, Command};
use console_core::messages::{Response, response_to};
use console_core::reply::{ConsoleReply, reply_to};
use console_core::writing::{put_refusal, put_reply};
use frame_view::Frame;
use ini_config::Settings;
use link_desk::desk::LinkDesk;
use log_lines::notes::{Client, Note};
use message_view::{Refusal, Status, put_ready_for_query};
use monitor_core::asking::{Asked, Request, read_request};
use monitor_core::reply::monitor_answer;
use monitor_core::writing::put_monitor_reply;
use pool_figures::seen::Seen;
use session_values::cause::Cause;
use session_values::error_responses::put_error;
use std::alloc::{AllocError, Global};

/// What a message of a client came to.
#[derive(Drop)]
pub(crate) enum Answered {
    /// It is told this, and whether its messages are dropped from now on up to the next Sync.
    Told(BytesMut, bool),
    /// Its answer is for later: nothing was done.
    NotYet,
    /// It leaves.
    Left,
    /// It is refused.
    Refused(Refusal),
}

/// The console, as it answers one client: its desk, the settings of the client's arrival, and who the client is.
#[derive(Drop)]
pub(crate) struct Console<'a, D: LinkDesk> {
    pub alloc: Global,
    pub desk: &'a D,
    pub settings: &'a Settings,
    pub who: &'a Client<'a>,
}

/// Where there was no memory for what the client is told, it is refused.
fn told(reply: Result<BytesMut, AllocError>, drops: bool) -> Answered
    ensures { result ≡ told_of reply drops }
{
    match reply {
        Ok(reply) => Answered::Told(reply, drops),
        Err(_) => Answered::Refused(Refusal::OutOfMemory),
    }
}

/// The messages of a reply.
fn reply_bytes(alloc: Global, reply: &ConsoleReply) -> Result<BytesMut, AllocError>
    ensures { IfOk result (λ out. out.items ≡ flat_map spelling (replies.frames_of (reply_view reply.now))) }
{
    let mut out = BytesMut::new(alloc);
    put_reply(alloc, reply, &mut out)?;
    Ok(out)
}

/// An error, and ReadyForQuery.
fn error_bytes(alloc: Global, cause: Cause) -> Result<BytesMut, AllocError>
    ensures { IfOk result (λ out. out.items ≡ flat_map spelling (replies.refused cause)) }
{
    let mut out = BytesMut::new(alloc);
    put_refusal(alloc, cause, &mut out)?;
    Ok(out)
}

fn put_response(
    alloc: Global,
    response: Response<'_>,
    drops: bool,
    out: &mut BytesMut,
) -> Result<(), AllocError>
    requires { out.old.items ≡ [] }
    ensures { OnOk result (IsSaid (response_view drops response.entry) out.new.items) }
{
    match response {
        Response::Malformed => put_refusal(alloc, Cause::MalformedMessage, out),
        Response::NotServed => put_error(out, Cause::NotSupported),
        Response::Ready => put_ready_for_query(out, Status::Idle),
        Response::Answer(_) | Response::Nothing | Response::Leave => Ok(()),
    }
}

/// The messages of a response that is no command's answer.
fn response_bytes(
    alloc: Global,
    response: Response<'_>,
    drops: bool,
) -> Result<BytesMut, AllocError>
    ensures { IfOk result (λ out. IsSaid (response_view drops response.entry) out.items) }
{
    let mut out = BytesMut::new(alloc);
    put_response(alloc, response, drops, &mut out)?;
    Ok(out)
}

/// Whether messages are dropped behind one of this response.
fn drops_after(response: Response<'_>, drops: bool) -> bool
    ensures { result ≡ exchange.drops_after (response_view drops response.entry) }
{
    match response {
        Response::NotServed => true,
        Response::Nothing => drops,
        Response::Answer(_) | Response::Malformed | Response::Ready | Response::Leave => false,
    }
}

/// What a WAIT_CLOSE is answered over this book, where it isn't too early for an answer.
fn closing(view: &BookView, database: Option<&[u8]>) -> Option<ConsoleReply>
    ensures { option_map reply_view result ≡ exchange.closing view.now (shown_value database.entry) }
{
    if !view.has_stale(database) {
        return Some(ConsoleReply::Await);
    }
    if view.is_shut {
        return Some(ConsoleReply::ShuttingDown);
    }
    None
}

/// What a monitor is answered over this book and what is known beside it.
fn monitor_bytes(
    alloc: Global,
    view: &BookView,
    known: &Seen,
    settings: &Settings,
    asked: Asked,
) -> Result<BytesMut, AllocError>
    ensures { IfOk result (λ out. out.items ≡ flat_map spelling (monitor.frames_of (monitor.reply_to view.now known.now settings.now asked))) }
{
    let reply = monitor_answer(alloc, view, known, settings, asked)?;
    let mut out = BytesMut::new(alloc);
    put_monitor_reply(alloc, &reply, &mut out)?;
    Ok(out)
}

/// What the console itself answers over this book.
fn own_bytes(
    alloc: Global,
    view: &BookView,
    settings: &Settings,
    command: Option<Command<'_>>,
) -> Result<BytesMut, AllocError>
    ensures { IfOk result (λ out. out.items ≡ flat_map spelling (replies.frames_of (replies.reply_to view.now settings.now (option_map command_view command.entry)))) }
{
    let reply = reply_to(alloc, view, settings, command)?;
    reply_bytes(alloc, &reply)
}

/// What a request is told that has nothing done.
fn shown_bytes(
    alloc: Global,
    view: &BookView,
    known: &Seen,
    settings: &Settings,
    request: Request<'_>,
) -> Result<BytesMut, AllocError>
    ensures { IfOk result (λ out. out.items ≡ flat_map spelling (shown_by view.now known.now settings.now (request_view request.entry))) }
{
    match request {
        Request::Own(command) => own_bytes(alloc, view, settings, Some(command)),
        Request::Asked(asked) => monitor_bytes(alloc, view, known, settings, asked),
        Request::Unknown => own_bytes(alloc, view, settings, None),
    }
}

/// What is logged of an action that was done; of new files the desk logs it.
fn note_of(action: Action) -> Option<Note<'static>> {
    match action {
        Action::Pause => Some(Note::Paused),
        Action::Resume => Some(Note::Resumed),
        Action::Reconnect => Some(Note::Reconnecting),
        Action::Shutdown => Some(Note::ShuttingDown),
        Action::Reload => None,
    }
}

impl<'a, D: LinkDesk> Console<'a, D> {
    /// Logs an action.
    fn note(&self, action: Action) {
        if let Some(note) = note_of(action) {
            self.desk.note(self.who, &note);
        }
    }

    /// Does an action. What couldn't be answered isn't done.
    fn act(&self, pass: &mut D::Pass, action: Action) -> Answered
        ensures { HasAnswered (IsActed action) ⊥ false result (pass_of (D.counted pass.old) (D.holder pass.old)) (pass_of (D.counted pass.new) (D.holder pass.new)) }
    {
        let done = match reply_bytes(self.alloc, &ConsoleReply::Act(action)) {
            Ok(done) => done,
            Err(_) => return Answered::Refused(Refusal::OutOfMemory),
        };
        match act(self.desk, pass, action) {
            Acted::Done => {
                self.note(action);
                Answered::Told(done, false)
            }
            Acted::Faulty => told(error_bytes(self.alloc, Cause::InvalidValue), false),
            Acted::Last => Answered::Refused(Refusal::LastDecision),
        }
    }

    /// Whether the client may have something done.
    fn may_act(&self) -> bool
        ensures { result ≡ exchange.may_act (asker self.now.settings.now self.now.who.now.user.now) }
    {
        self.settings.is_admin(self.who.user)
    }

    /// What a client is told that may but look.
    fn not_allowed(&self) -> Answered
        ensures { IsNotAllowed result }
    {
        told(reply_bytes(self.alloc, &ConsoleReply::NotAllowed), false)
    }

    /// Does an action, where the client may have it done.
    fn act_if_allowed(&self, pass: &mut D::Pass, action: Action) -> Answered
        ensures { HasAnswered (ForAdmins (exchange.may_act (asker self.now.settings.now self.now.who.now.user.now)) (IsActed action)) ⊥ false result (pass_of (D.counted pass.old) (D.holder pass.old)) (pass_of (D.counted pass.new) (D.holder pass.new)) }
    {
        if !self.may_act() {
            return self.not_allowed();
        }
        self.act(pass, action)
    }

    /// The answer to a WAIT_CLOSE over the book as it is now, where it isn't too early for one.
    fn await_close(&self, pass: &mut D::Pass, database: Option<&[u8]>) -> Answered
        ensures { HasAnswered (IsClosed (pass_of (D.counted pass.old) (D.holder pass.old)) (shown_value database.entry)) (IsEarly (pass_of (D.counted pass.old) (D.holder pass.old)) (shown_value database.entry)) false result (pass_of (D.counted pass.old) (D.holder pass.old)) (pass_of (D.counted pass.new) (D.holder pass.new)) }
    {
        let view = match self.desk.view(self.alloc, pass) {
            Ok(view) => view,
            Err(_) => return Answered::Refused(Refusal::OutOfMemory),
        };
        match closing(&view, database) {
            Some(reply) => told(reply_bytes(self.alloc, &reply), false),
            None => Answered::NotYet,
        }
    }

    /// The same, where the client may have something done.
    fn await_if_allowed(&self, pass: &mut D::Pass, database: Option<&[u8]>) -> Answered
        ensures { HasAnswered (ForAdmins (exchange.may_act (asker self.now.settings.now self.now.who.now.user.now)) (IsClosed (pass_of (D.counted pass.old) (D.holder pass.old)) (shown_value database.entry))) ((exchange.may_act (asker self.now.settings.now self.now.who.now.user.now) ≡ true) × IsEarly (pass_of (D.counted pass.old) (D.holder pass.old)) (shown_value database.entry)) false result (pass_of (D.counted pass.old) (D.holder pass.old)) (pass_of (D.counted pass.new) (D.holder pass.new)) }
    {
        if !self.may_act() {
            return self.not_allowed();
        }
        self.await_close(pass, database)
    }

    /// What is known beside the book.
    fn known(&self) -> Result<Seen, AllocError> {
        let mut known = self.desk.seen(self.alloc)?;
        known.decisions = self.desk.decisions(self.alloc)?;
        Ok(known)
    }

    /// What a request is told that has nothing done, over the book as it is now.
    fn show(&self, pass: &mut D::Pass, request: Request<'_>) -> Result<BytesMut, AllocError>
        ensures shown { IfOk result (λ out. IsShownAs self.now.settings.now (pass_of (D.counted pass.old) (D.holder pass.old)) (request_view request.entry) out.items) }
        ensures counted { D.counted pass.new ≡ D.counted pass.old }
        ensures holder { D.holder pass.new ≡ D.holder pass.old }
    {
        let view = self.desk.view(self.alloc, pass)?;
        let known = self.known()?;
        shown_bytes(self.alloc, &view, &known, self.settings, request)
    }

    /// The answer to a request that has nothing done.
    fn look(&self, pass: &mut D::Pass, request: Request<'_>) -> Answered
        ensures { HasAnswered (IsSeenBy self.now.settings.now (pass_of (D.counted pass.old) (D.holder pass.old)) (request_view request.entry)) ⊥ false result (pass_of (D.counted pass.old) (D.holder pass.old)) (pass_of (D.counted pass.new) (D.holder pass.new)) }
    {
        told(self.show(pass, request), false)
    }

    /// The answer to the text of a Query.
    fn command(&self, pass: &mut D::Pass, text: &[u8]) -> Answered
        ensures { HasAnswered (IsAnswer (asker self.now.settings.now self.now.who.now.user.now) (pass_of (D.counted pass.old) (D.holder pass.old)) text.now (command_of text.now)) (Waits (asker self.now.settings.now self.now.who.now.user.now) (pass_of (D.counted pass.old) (D.holder pass.old)) (command_of text.now)) false result (pass_of (D.counted pass.old) (D.holder pass.old)) (pass_of (D.counted pass.new) (D.holder pass.new)) }
    {
        match read_request(self.settings.console_style(), text) {
            Request::Own(Command::Act(action)) => self.act_if_allowed(pass, action),
            Request::Own(Command::Await(database)) => self.await_if_allowed(pass, database),
            Request::Own(Command::Show(table)) => {
                self.look(pass, Request::Own(Command::Show(table)))
            }
            Request::Asked(asked) => self.look(pass, Request::Asked(asked)),
            Request::Unknown => self.look(pass, Request::Unknown),
        }
    }

    /// The answer to a message, where messages are dropped up to the next Sync or not.
    pub(crate) fn answer(&self, pass: &mut D::Pass, frame: Frame<'_>, drops: bool) -> Answered
        ensures { HasResponded (asker self.now.settings.now self.now.who.now.user.now) (messages.response_to drops (frame_of frame.entry)) result (pass_of (D.counted pass.old) (D.holder pass.old)) (pass_of (D.counted pass.new) (D.holder pass.new)) }
    {
        match response_to(frame, drops) {
            Response::Leave => Answered::Left,
            Response::Answer(text) => self.command(pass, text),
            response => told(
                response_bytes(self.alloc, response, drops),
                drops_after(response, drops),
            ),
        }
    }
}
