//! One client, from its first byte to its end.
ghost use Rattle.std.specs.Prelude.{◌≡◌, ◌⊎◌, IsSome, [], None, false, true};
ghost use Rattle.ini_config.specs.Bounds.{AreWithinBounds};
ghost use Rattle.login_core.specs.Dialogue.{AtFirst};
ghost use Rattle.login_core.specs.Logins.{AwaitsPacket};
ghost use Rattle.login_run.specs.Runs.{Arrived, Console, IsAllGiven, IsRun, IsSameLogin};
ghost use Rattle.console_run.specs.Passing.{IsSameHolder, pass_of};
ghost use Rattle.link_desk.specs.Passes.{after_cancel, cancelled_by};
ghost use Rattle.pool_serve.specs.Cancels.{IsPassedOn};
ghost use Rattle.pool_serve.specs.Again.{HasEndedAtLast};
ghost use Rattle.pool_serve.specs.Causes.{AtArrival, AtAsking};
ghost use Rattle.pool_serve.specs.Endings.{HasLeased, Traces, refusal_in};
ghost use Rattle.pool_serve.specs.Serving.{HasStopped, IsLoggedIn, IsManaged, LetsIn};
ghost use Rattle.pool_serve.specs.Shares.{Evens, Settles};
ghost use Rattle.pool_serve.specs.Stays.{CameIn, IfManaged, IsAllowed, IsAtConsole, IsDismissed, IsOver, IsUntouched, ServesAs, StayedAtConsole, TracesAtLast};

use crate::ending::Ending;
use crate::logged_in::LoggedIn;
use crate::noting::{ending_note, named, note_cancel, note_end, note_login, own_key};
use crate::worker::Worker;
use console_run::console::serve_console;
use link_desk::answers::{Arrival, Cancelled};
use link_desk::desk::LinkDesk;
use log_lines::notes::{Note, Visit};
use login_core::Login;
use login_laws::laws::{
    bounded_rows_are_lawful, passed_keys_are_link_keys, passed_keys_are_of_their_rows,
};
use login_run::laws::{
    cancelling_runs_have_asked, passed_runs_are_let_in, passed_runs_have_passed, runs_are_allowed,
    runs_stand_at_pieces,
};
use login_run::{LoginRun, LoginTurn};
use message_view::{KeyView, KeyWord};
use relay_flow::buffers::Buffers;
use server_end::gate::Gate;
use server_end::{ClientEnd, ServerEnd};
use std::alloc::Global;
use time_limits::{CLIENT_TURNS, MAX_TURNS};

/// Goes on with a login until it has arrived, is let in or is over; or until its time is over, whatever came meanwhile, or nothing has
/// moved for so many turns of the client, if `most` says how many. A turn is taken only where nothing moved.
// written into no caller: the stack of a thread would have room for it as long as its client is served
#[inline(never)]
fn drive_login<C: ClientEnd, E: ServerEnd, G: Gate<E>>(
    alloc: Global,
    run: &mut LoginRun<C>,
    gate: &mut G,
    most: Option<u32>,
) -> LoginTurn
    ensures login { IsSameLogin run.old run.new }
    ensures stopped { HasStopped run.new result }
{
    let mut waited: u32 = 0;
    for _ in 0..MAX_TURNS {
        if gate.is_late() {
            return LoginTurn::Over;
        }
        match run.turn(alloc) {
            LoginTurn::Again => waited = 0,
            LoginTurn::Wait => match most {
                None => {
                    gate.turn();
                }
                Some(most) => {
                    if most == waited {
                        return LoginTurn::Over;
                    }
                    gate.turn_of_client();
                    waited = waited.saturating_add(1);
                }
            },
            turn => return turn,
        }
    }
    LoginTurn::Over
}

/// Has what the client of this key word is at cancelled, if it has a lease: the cancel goes to the server of its link.
fn pass_on<D: LinkDesk>(desk: &D, pass: &mut D::Pass, client: KeyView) -> Cancelled
    ensures counted { D.counted pass.new ≡ after_cancel (D.counted pass.old) result }
    ensures holder { D.holder pass.new ≡ cancelled_by client (D.holder pass.old) result }
{
    let cancelled = desk.cancel(pass, client);
    match &cancelled {
        Cancelled::Strike(strike) => desk.strike(pass, strike),
        Cancelled::Nobody | Cancelled::Last => {}
    }
    cancelled
}

/// Ends a login that comes to no arrival: what it asked to be cancelled is passed on, or it is logged why it is over.
// for the same reason as `drive_login`
#[inline(never)]
fn dismiss<C: ClientEnd, D: LinkDesk>(
    desk: &D,
    pass: D::Pass,
    run: LoginRun<C>,
    turn: LoginTurn,
    visit: Visit,
) -> (C, D::Pass)
    ensures run { IsRun run }
    ensures client { C.facts result.0 ≡ run.client }
    ensures pass { IsDismissed turn (D.counted pass) (D.counted result.1) (D.holder pass) (D.holder result.1) }
{
    let mut pass = pass;
    match turn {
        LoginTurn::Cancel(key) => {
            let cancelled = pass_on(desk, &mut pass, key);
            note_cancel(desk, visit, cancelled);
        }
        _ => note_login(desk, &run, visit, None, false),
    }
    let (client, _, _) = run.finish();
    (client, pass)
}

impl<'a, D: LinkDesk, G: Gate<D::End>> Worker<'a, D, G> {
    /// Serves a client of the console, which is through its login.
    // for the same reason as `drive_login`: a client that logs in waits without it
    #[inline(never)]
    fn manage<C: ClientEnd>(&mut self, run: LoginRun<C>, word: KeyWord) -> (C, Ending)
        requires console { run.phase ≡ Console }
        requires given { IsAllGiven run }
        requires word { run.login.word ≡ word }
        ensures tells { (C.facts result.0).tells ≡ run.client.tells }
        ensures share { Evens (D.counted self.old.pass) (D.counted self.new.pass) }
        ensures holder { IsSameHolder (D.holder self.old.pass) (D.holder self.new.pass) }
        ensures traces { Traces AtAsking (D.counted self.old.pass) (D.counted self.new.pass) result.1 }
        ensures refused { refusal_in result.1 ≡ None }
        ensures came { CameIn D.home run.login (C.facts result.0) result.1 }
        ensures managed { IfManaged result.1 (IsManaged run.login (pass_of (D.counted self.old.pass) (D.holder self.old.pass)) (pass_of (D.counted self.new.pass) (D.holder self.new.pass)) (C.facts result.0)) }
        ensures serves { run.client.tells ≡ true → ServesAs D.home run.login (C.facts result.0) result.1 }
    {
        let key = own_key(&run);
        let (client, login, _) = run.finish();
        let who = named(self.visit, self.number, key.as_ref());
        self.gate.limit(None);
        self.desk.note(&who, &Note::LoggedIn);
        let (client, last) = serve_console(
            self.alloc,
            self.desk,
            &mut self.pass,
            client,
            login.settings(),
            word,
            &mut self.gate,
            &who,
        );
        note_end(self.desk, &who, last);
        (client, Ending::Managed(last))
    }

    /// Serves the client that has arrived. One whose time is over before it is through its login, or whose dialogue doesn't go on for
    /// [`CLIENT_TURNS`] turns, is closed.
    fn serve_arrived<C: ClientEnd>(&mut self, run: LoginRun<C>, word: KeyWord) -> (C, Ending)
        requires settings { AreWithinBounds run.login.settings }
        requires word { run.login.word ≡ word }
        requires here { IsSome (D.holder self.old.pass).client }
        requires none { (D.holder self.old.pass).lease ≡ None }
        requires unrefused { (D.holder self.old.pass).refused ≡ None }
        ensures tells { (C.facts result.0).tells ≡ run.client.tells }
        ensures share { Evens (D.counted self.old.pass) (D.counted self.new.pass) }
        ensures leased { HasLeased (D.holder self.old.pass) (D.holder self.new.pass) result.1 }
        ensures traces { TracesAtLast D.home run.login AtAsking (D.counted self.old.pass) (D.counted self.new.pass) result.1 }
        ensures came { CameIn D.home run.login (C.facts result.0) result.1 }
        ensures managed { IfManaged result.1 (IsManaged run.login (pass_of (D.counted self.old.pass) (D.holder self.old.pass)) (pass_of (D.counted self.new.pass) (D.holder self.new.pass)) (C.facts result.0)) }
        ensures serves { run.client.tells ≡ true → LetsIn D.home run.login → ServesAs D.home run.login (C.facts result.0) result.1 }
    {
        bounded_rows_are_lawful();
        passed_keys_are_link_keys();
        passed_keys_are_of_their_rows();
        runs_are_allowed();
        passed_runs_are_let_in();
        passed_runs_have_passed();
        let mut run = run;
        match drive_login(self.alloc, &mut run, &mut self.gate, Some(CLIENT_TURNS)) {
            LoginTurn::Passed => {}
            LoginTurn::Console => return self.manage(run, word),
            _ => {
                let is_late = self.gate.is_late();
                note_login(self.desk, &run, self.visit, self.number, is_late);
                let (client, _, _) = run.finish();
                return (client, Ending::Left);
            }
        }
        let (client, login, key) = run.finish();
        match key {
            Some(key) => self.host(client, &LoggedIn { key, word, login }),
            None => (client, Ending::Left),
        }
    }

    /// Serves a client that is through its login, and logs how it came and went.
    // likewise
    #[inline(never)]
    fn host<C: ClientEnd>(&mut self, client: C, logged_in: &LoggedIn) -> (C, Ending)
        requires logged_in { IsLoggedIn logged_in.now }
        requires here { IsSome (D.holder self.old.pass).client }
        requires none { (D.holder self.old.pass).lease ≡ None }
        requires unrefused { (D.holder self.old.pass).refused ≡ None }
        ensures share { Evens (D.counted self.old.pass) (D.counted self.new.pass) }
        ensures leased { HasLeased (D.holder self.old.pass) (D.holder self.new.pass) result.1 }
        ensures ended { HasEndedAtLast D.home logged_in.now (D.counted self.old.pass) (D.counted self.new.pass) (C.facts client) (C.facts result.0) result.1 }
    {
        self.gate.limit(None);
        self.note(&Note::LoggedIn);
        let (client, ending) = self.lease(client, logged_in);
        if let Some(note) = ending_note(logged_in, &ending) {
            self.note(&note);
        }
        self.note(&Note::Closed);
        (client, ending)
    }

    /// Lets a client that arrives in, and serves it. It may use the places beyond the limit that are its own.
    fn admit<C: ClientEnd>(&mut self, run: LoginRun<C>, word: KeyWord) -> (C, Ending)
        requires arrived { run.phase ≡ Arrived }
        requires given { IsAllGiven run }
        requires settings { AreWithinBounds run.login.settings }
        requires word { run.login.word ≡ word }
        requires free { (D.holder self.old.pass).client ≡ None }
        requires none { (D.holder self.old.pass).lease ≡ None }
        ensures tells { (C.facts result.0).tells ≡ run.client.tells }
        ensures share { Settles (D.counted self.old.pass) (D.counted self.new.pass) }
        ensures free { (D.holder self.new.pass).client ≡ None }
        ensures none { (D.holder self.new.pass).lease ≡ None }
        ensures refused { (D.holder self.new.pass).refused ≡ refusal_in result.1 }
        ensures found { (D.holder self.new.pass).found ≡ (D.holder self.old.pass).found }
        ensures struck { (D.holder self.new.pass).struck ≡ (D.holder self.old.pass).struck }
        ensures traces { TracesAtLast D.home run.login AtArrival (D.counted self.old.pass) (D.counted self.new.pass) result.1 }
        ensures came { CameIn D.home run.login (C.facts result.0) result.1 }
        ensures managed { IfManaged result.1 (StayedAtConsole run.login (pass_of (D.counted self.old.pass) (D.holder self.old.pass)) (pass_of (D.counted self.new.pass) (D.holder self.new.pass)) (C.facts result.0)) }
        ensures serves { run.client.tells ≡ true → LetsIn D.home run.login → ServesAs D.home run.login (C.facts result.0) result.1 }
    {
        runs_stand_at_pieces();
        match self.arrive(&run) {
            Arrival::Client(number) => {
                self.number = Some(number);
                self.own = own_key(&run);
                let mut run = run;
                run.go_on(self.alloc);
                let served = self.serve_arrived(run, word);
                self.desk.leave(&mut self.pass);
                served
            }
            Arrival::Refused(refusal) => {
                let named = named(self.visit, None, run.key());
                self.desk.note(&named, &Note::Refused(refusal));
                let (client, _, _) = run.finish();
                (client, Ending::Refused(refusal))
            }
        }
    }
}

/// Serves one client from its first byte to its end: its login, then a link of the desk's, which it gives back, reset, or reports
/// lost, before the client is told why it is refused. Answers the client's end and the pass.
///
/// `login` was made with the key word `word`, under settings within their bounds, and has taken no byte; where the client tells,
/// none was taken from it or given to it. The buffers of its lease are those that are kept, or new ones, which are kept then. Only the desk and the gate wait: a turn of the gate is taken where nothing moved.
///
/// Where the client tells, and the desk's home follows and lets its user in, what it was given is allowed for what a server
/// started for it alone answers, over the catalogue of its row, where cancels struck some of its frames or none (only the link's
/// end tells which); and a refusal in it has its cause: it is the login's own, or for memory, or the pass tells its trace (a refusal
/// by the desk, a link that was lent, one that was lost), and a message of the client's that is refused is none under the limit. The
/// traces hold, from where the client asked last for its link, unless a call of the desk was answered by the last decision or as strange. With the same exception, as many links were
/// granted as given back or lost, and as many clients arrived as left.
///
/// A client of the console, to which no server would answer, was given its login, what the console says to its messages over the desk's
/// book, and its last word. Between its arrival and its leaving nothing was done through its pass but what the console did.
///
/// Whether it tells or not, the client's last word is that of how its time at the desk ended: the desk's own refusal, the cause for
/// which its link wasn't started, or the refusal that its relay's last answer tells. It is given whole, unless the client's end ended
/// or faulted or took nothing for [`CLIENT_TURNS`] turns. No client is in the pass before, and none afterwards.
///
/// A client whose first packet is a CancelRequest is given no byte: the desk is asked for the lease of the key word in it, and the cancel
/// that it answers is sent. Who asks takes no place in the book.
///
/// The time that the gate has at first is that of the login, up to where the client is let in: one that is late is closed without a byte,
/// wherever its login stands, and leaves the desk. A client that may use places beyond the limit has [`LOGIN_BEYOND_SECONDS`] for it, from its arrival on.
///
/// Its refusal, a start that failed and a link that is lost are logged; `visit` is what it knows the client by.
pub fn serve<C: ClientEnd, D: LinkDesk, G: Gate<D::End> + Drop>(
    alloc: Global,
    desk: &D,
    pass: D::Pass,
    client: C,
    login: Login,
    word: KeyWord,
    gate: G,
    visit: Visit,
    kept: &mut Option<Buffers>,
) -> (C, D::Pass)
    requires awaiting { login.awaiting ≡ AwaitsPacket (AtFirst false false) }
    requires held { login.held ≡ [] }
    requires word { login.word ≡ word }
    requires settings { AreWithinBounds login.settings }
    requires taken { (C.facts client).tells ≡ true → (C.facts client).taken ≡ [] }
    requires given { (C.facts client).tells ≡ true → (C.facts client).given ≡ [] }
    requires free { (D.holder pass).client ≡ None }
    requires none { (D.holder pass).lease ≡ None }
    ensures tells { (C.facts result.0).tells ≡ (C.facts client).tells }
    ensures allowed { (C.facts client).tells ≡ true → LetsIn D.home login → IsAllowed D.home login (D.counted pass) (D.counted result.1) (C.facts result.0) ⊎ IsAtConsole login (pass_of (D.counted pass) (D.holder pass)) (pass_of (D.counted result.1) (D.holder result.1)) (C.facts result.0) }
    ensures share { Settles (D.counted pass) (D.counted result.1) }
    ensures free { (D.holder result.1).client ≡ None }
    ensures none { (D.holder result.1).lease ≡ None }
    ensures over { IsUntouched (D.counted pass) (D.counted result.1) (D.holder pass) (D.holder result.1) ⊎ IsPassedOn login (D.counted pass) (D.counted result.1) (D.holder pass) (D.holder result.1) (C.facts result.0) ⊎ IsOver D.home login (D.counted pass) (D.counted result.1) (D.holder pass) (D.holder result.1) (C.facts result.0) }
{
    runs_are_allowed();
    cancelling_runs_have_asked();
    let mut gate = gate;
    let mut run = LoginRun::new(client, login);
    // a client that hasn't come yet takes no place in the book
    match drive_login(alloc, &mut run, &mut gate, None) {
        LoginTurn::Arrived => gate.know(),
        turn => return dismiss(desk, pass, run, turn, visit),
    }
    let mut worker = Worker {
        alloc,
        desk,
        pass,
        gate,
        kept,
        visit,
        number: None,
        own: None,
    };
    let (mut client, ending) = worker.admit(run, word);
    ending
        .into_final_message()
        .tell(&mut client, &mut worker.gate);
    let Worker {
        alloc: _,
        desk: _,
        pass,
        gate: _,
        kept: _,
        visit: _,
        number: _,
        own: _,
    } = worker;
    (client, pass)
}
