//! A client's arrival at the desk.
ghost use Rattle.std.specs.Prelude.{◌≡◌, None};
ghost use Rattle.link_desk.specs.Passes.{after_arrival, arrived};
ghost use Rattle.link_desk.specs.Refusing.{MayArrive};
ghost use Rattle.pool_serve.specs.Places as spec;

use crate::worker::Worker;
use book_model::events::Beyond;
use link_desk::answers::Arrival;
use link_desk::desk::LinkDesk;
use log_lines::notes::Visit;
use login_run::LoginRun;
use server_end::gate::Gate;
use server_end::{ClientEnd, ServerEnd};
use time_limits::LOGIN_BEYOND_SECONDS;

/// Whether a client came over a Unix socket.
fn is_local(visit: &Visit) -> bool
    ensures { result ≡ spec.is_local visit.now }
{
    visit.host.as_str() == "unix"
}

/// The places beyond the limit that the client of this login may use.
fn beyond_for<C: ClientEnd>(run: &LoginRun<C>, visit: &Visit) -> Beyond
    ensures { result ≡ spec.beyond_for run.now.login visit.now }
{
    match (run.arrives_at_console(), is_local(visit)) {
        (false, _) => Beyond::Nothing,
        (true, false) => Beyond::Console,
        (true, true) => Beyond::LocalConsole,
    }
}

/// Who may use places beyond the limit keeps none of them for long without its login.
fn hurry<E: ServerEnd, G: Gate<E>>(gate: &mut G, beyond: Beyond) {
    if beyond != Beyond::Nothing {
        gate.limit(Some(LOGIN_BEYOND_SECONDS));
    }
}

impl<'a, D: LinkDesk, G: Gate<D::End>> Worker<'a, D, G> {
    /// The client of this login arrives, and may use the places beyond the limit that are its own.
    pub(crate) fn arrive<C: ClientEnd>(&mut self, run: &LoginRun<C>) -> Arrival
        requires free { (D.holder self.old.pass).client ≡ None }
        ensures counted { D.counted self.new.pass ≡ after_arrival (D.counted self.old.pass) result }
        ensures holder { D.holder self.new.pass ≡ arrived (spec.beyond_for run.now.login self.old.visit) (D.holder self.old.pass) result }
        ensures refused { MayArrive result }
    {
        let beyond = beyond_for(run, &self.visit);
        hurry(&mut self.gate, beyond);
        self.desk.arrive(&mut self.pass, beyond)
    }
}
