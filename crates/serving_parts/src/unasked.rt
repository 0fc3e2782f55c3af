//! A desk that finds no memory for what its clients ask for, and what a client is told there.
ghost use Rattle.std.specs.Prelude.{◌≡◌};
ghost use Rattle.desk_tallies.specs.declared.passes.TheConstants.{ALL_PARTS};
ghost use Rattle.desk_tallies.specs.Shares.{names_of, of_each, parts_of};

use crate::guests::Guest;
use crate::rows::Client;
use crate::servers::{Behind, Servers};
use crate::serving::is_told;
use book_model::events::Beyond;
use book_model::limits::Limits;
use book_register::view::BookView;
use credentials::Credential;
use desk_tallies::ledgers::Ledgers;
use desk_tallies::tallies::Blanks;
use link_desk::answers::{
    Arrival, Asked, Back, Cancelled, Changed, Gone, Grant, Keying, Release, Strike,
};
use link_desk::desk::LinkDesk;
use link_start::links::CleanLink;
use log_lines::notes;
use message_view::KeyView;
use play_tests::files::catalogue;
use pool_desk::desk::Desk;
use pool_figures::decisions::DecisionSeen;
use pool_figures::seen::Seen;
use pool_serve::serve::serve;
use server_end::gate::OpenGate;
use start_keys::StartKey;
use std::alloc::{AllocError, Global};
use std::marker::Brand;
use std::sync::Arc;
use std::test::Fail;
use worker_parts::{CUT, TestRuntime, is_free, limits, login_by, visit, word};

/// A desk where memory is refused whenever a client asks for a link. All else is as at the desk behind it, but that nobody waits for a place.
#[derive(Drop)]
struct Unasked<'a, D> {
    desk: &'a D,
}

impl<'a, D: LinkDesk> LinkDesk for Unasked<'a, D> {
    type End = D::End;

    type Pass = D::Pass;

    ghost home = { D.home };

    ghost counted = { λ p. D.counted p };

    ghost holder = { λ p. D.holder p };

    fn arrive(&self, pass: &mut D::Pass, beyond: Beyond) -> Arrival {
        self.desk.arrive(pass, beyond)
    }

    fn ask(&self, _pass: &mut D::Pass, _key: &Arc<StartKey>) -> Asked {
        Asked::Memory
    }

    fn take(&self, pass: &mut D::Pass) -> Grant<D::End> {
        self.desk.take(pass)
    }

    fn keyed(&self, pass: &mut D::Pass, client: KeyView, server: KeyView) -> Keying {
        self.desk.keyed(pass, client, server)
    }

    fn end_lease(&self, pass: &mut D::Pass) -> Release {
        self.desk.end_lease(pass)
    }

    fn cancel(&self, pass: &mut D::Pass, client: KeyView) -> Cancelled {
        self.desk.cancel(pass, client)
    }

    fn strike(&self, pass: &mut D::Pass, strike: &Strike) {
        self.desk.strike(pass, strike);
    }

    fn give_back(&self, pass: &mut D::Pass, link: &mut Option<CleanLink<D::End>>) -> Back {
        self.desk.give_back(pass, link)
    }

    fn lost(&self, pass: &mut D::Pass) -> Gone {
        self.desk.lost(pass)
    }

    fn start_failed(&self, pass: &mut D::Pass) -> Gone {
        self.desk.start_failed(pass)
    }

    fn leave(&self, pass: &mut D::Pass) -> Gone {
        self.desk.leave(pass)
    }

    fn dial(
        &self,
        number: u64,
        key: &StartKey,
        credential: &Credential<'_>,
        seconds: u32,
    ) -> Option<D::End> {
        self.desk.dial(number, key, credential, seconds)
    }

    fn view(&self, alloc: Global, pass: &mut D::Pass) -> Result<BookView, AllocError> {
        self.desk.view(alloc, pass)
    }

    fn seen(&self, alloc: Global) -> Result<Seen, AllocError> {
        self.desk.seen(alloc)
    }

    fn decisions(&self, alloc: Global) -> Result<Vec<DecisionSeen>, AllocError> {
        self.desk.decisions(alloc)
    }

    fn pause(&self, pass: &mut D::Pass) -> Changed {
        self.desk.pause(pass)
    }

    fn resume(&self, pass: &mut D::Pass) -> Changed {
        self.desk.resume(pass)
    }

    fn shutdown(&self, pass: &mut D::Pass) -> Changed {
        self.desk.shutdown(pass)
    }

    fn reconnect(&self, pass: &mut D::Pass) -> Changed {
        self.desk.reconnect(pass)
    }

    fn limits(&self, pass: &mut D::Pass, limits: Arc<Limits>) -> Changed {
        self.desk.limits(pass, limits)
    }

    fn reload(&self) -> Option<Arc<Limits>> {
        self.desk.reload()
    }

    fn settle(&self, pass: &D::Pass, changed: Changed) {
        self.desk.settle(pass, changed);
    }

    fn note(&self, client: &notes::Client<'_>, note: &notes::Note<'_>) {
        self.desk.note(client, note);
    }
}

/// Whether a client is told what it is to be told by a desk over new ledgers that finds no memory for what it asks for.
fn is_told_unasked_over<R: TestRuntime, K: Ledgers>(
    rt: R,
    alloc: Global,
    blanks: Blanks,
    client: &Client,
) -> Result<bool, Fail>
    requires names { names_of blanks ≡ K.names }
    requires parts { K.parts ≡ parts_of blanks }
    requires all { parts_of blanks ≡ of_each ALL_PARTS }
{
    let servers = Servers::new(alloc, catalogue(alloc)?, Behind::Sessions)?;
    let desk = Desk::<R, Servers, K>::new(rt, alloc, servers, limits(alloc, 1, 1)?, blanks)?;
    let pass = desk.pass().ok_or("no pass")?;
    if !is_free(&pass) {
        return Ok(false);
    }
    let login = login_by(alloc, client.under.settings(), 1)?;
    let guest = Guest::new(alloc, client.talk, CUT)?;
    let unasked = Unasked { desk: &desk };
    let (guest, _) = serve(
        alloc,
        &unasked,
        pass,
        guest,
        login,
        word(1),
        OpenGate::new(),
        visit("127.0.0.1"),
        &mut None,
    );
    Ok(is_told(guest.given(), client))
}

/// Whether a client is told what it is to be told where no memory is found for what it asks for.
pub fn is_told_unasked<R: TestRuntime>(
    rt: R,
    alloc: Global,
    client: &Client,
) -> Result<bool, Fail> {
    is_told_unasked_over::<R, Brand>(rt, alloc, Blanks::new(), client)
}
