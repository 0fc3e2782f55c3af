//! A desk whose calls are watched: each is made as it is, and what it came to is told to the client's seat.

use crate::seats::Seat;
use crate::watch::Watch;
use book_model::events::Beyond;
use book_model::limits::Limits;
use book_register::view::BookView;
use credentials::Credential;
use ini_config::Settings;
use link_desk::answers::{
    Arrival, Asked, Back, Cancelled, Changed, Gone, Grant, Keying, Place, Release, Strike,
};
use link_desk::desk::LinkDesk;
use link_start::links::CleanLink;
use log_lines::notes::{Client, Note};
use message_view::KeyView;
use pool_figures::decisions::DecisionSeen;
use pool_figures::seen::Seen;
use start_keys::StartKey;
use std::alloc::{AllocError, Global};
use std::rt::Clock;
use std::sync::{Arc, Wait};
use std::time::Instant;
use user_file::Users;

/// A desk, the seat of the client whose worker calls it, and the settings and users of the client's arrival.
pub struct WatchedDesk<'a, R, D> {
    pub rt: R,
    pub alloc: Global,
    pub desk: &'a D,
    pub watch: &'a Watch<R>,
    pub seat: &'a Seat,
    pub settings: Arc<Settings>,
    pub users: Arc<Users>,
}

impl<'a, R: Drop, D> Drop for WatchedDesk<'a, R, D> {
    fn drop(self) {
        let WatchedDesk {
            rt: _,
            alloc: _,
            desk: _,
            watch: _,
            seat: _,
            settings: _,
            users: _,
        } = self;
    }
}

impl<'a, R: Wait + Clock, D: LinkDesk> LinkDesk for WatchedDesk<'a, R, D> {
    type End = D::End;

    type Pass = D::Pass;

    ghost home = { D.home };

    ghost counted = { λ p. D.counted p };

    ghost holder = { λ p. D.holder p };

    fn arrive(&self, pass: &mut D::Pass, beyond: Beyond) -> Arrival {
        let arrival = self.desk.arrive(pass, beyond);
        if let Arrival::Client(number) = arrival {
            self.seat.arrived(&self.rt, number);
        }
        arrival
    }

    fn ask(&self, pass: &mut D::Pass, key: &Arc<StartKey>) -> Asked {
        self.seat.asks(&self.rt);
        self.desk.ask(pass, key)
    }

    fn take(&self, pass: &mut D::Pass) -> Grant<D::End> {
        let grant = self.desk.take(pass);
        match &grant {
            Grant::Lend(link) => self.seat.granted(&self.rt, link.number()),
            Grant::Start { number, .. } => self.seat.granted(&self.rt, *number),
            Grant::Queued | Grant::Refused(_) | Grant::Stranger => {}
        }
        grant
    }

    fn keyed(&self, pass: &mut D::Pass, client: KeyView, server: KeyView) -> Keying {
        self.seat.keyed(&self.rt, server.pid);
        self.desk.keyed(pass, client, server)
    }

    fn end_lease(&self, pass: &mut D::Pass) -> Release {
        self.desk.end_lease(pass)
    }

    fn cancel(&self, pass: &mut D::Pass, client: KeyView) -> Cancelled {
        self.desk.cancel(pass, client)
    }

    fn strike(&self, pass: &mut D::Pass, strike: &Strike) {
        self.desk.strike(pass, strike);
    }

    fn give_back(&self, pass: &mut D::Pass, link: &mut Option<CleanLink<D::End>>) -> Back {
        self.seat.unlinked(&self.rt);
        self.desk.give_back(pass, link)
    }

    fn lost(&self, pass: &mut D::Pass) -> Gone {
        self.seat.unlinked(&self.rt);
        self.desk.lost(pass)
    }

    fn start_failed(&self, pass: &mut D::Pass) -> Gone {
        self.seat.unlinked(&self.rt);
        self.desk.start_failed(pass)
    }

    fn await_place(
        &self,
        pass: &mut D::Pass,
        key: &Arc<StartKey>,
        since: Option<Instant>,
        seconds: u32,
    ) -> Place {
        self.desk.await_place(pass, key, since, seconds)
    }

    fn leave(&self, pass: &mut D::Pass) -> Gone {
        self.desk.leave(pass)
    }

    fn dial(
        &self,
        number: u64,
        key: &StartKey,
        credential: &Credential<'_>,
        seconds: u32,
    ) -> Option<D::End> {
        self.desk.dial(number, key, credential, seconds)
    }

    fn view(&self, alloc: Global, pass: &mut D::Pass) -> Result<BookView, AllocError> {
        self.seat.looks(&self.rt);
        self.desk.view(alloc, pass)
    }

    fn seen(&self, alloc: Global) -> Result<Seen, AllocError> {
        let users = Arc::try_clone(&self.users)?;
        self.watch.seen(Some(users), self.desk.decisions(alloc)?)
    }

    fn decisions(&self, alloc: Global) -> Result<Vec<DecisionSeen>, AllocError> {
        self.desk.decisions(alloc)
    }

    fn pause(&self, pass: &mut D::Pass) -> Changed {
        self.desk.pause(pass)
    }

    fn resume(&self, pass: &mut D::Pass) -> Changed {
        self.desk.resume(pass)
    }

    fn shutdown(&self, pass: &mut D::Pass) -> Changed {
        self.desk.shutdown(pass)
    }

    fn reconnect(&self, pass: &mut D::Pass) -> Changed {
        self.desk.reconnect(pass)
    }

    fn limits(&self, pass: &mut D::Pass, limits: Arc<Limits>) -> Changed {
        self.desk.limits(pass, limits)
    }

    fn reload(&self) -> Option<Arc<Limits>> {
        self.desk.reload()
    }

    fn settle(&self, pass: &D::Pass, changed: Changed) {
        self.desk.settle(pass, changed);
    }

    fn note(&self, client: &Client<'_>, note: &Note<'_>) {
        if let Note::LoggedIn = note {
            let is_listed = self.settings.rows.get(client.database).is_some();
            self.seat.named(
                &self.rt,
                self.alloc,
                client.user,
                client.database,
                is_listed,
            );
        }
        self.desk.note(client, note);
    }
}
