//! A lease from its welcome to its end.
ghost use Rattle.std.specs.Prelude.{◌≡◌, IfSome, Some, true};
ghost use Rattle.ini_config.specs.Bounds.{AreWithinBounds};
ghost use Rattle.login_core.specs.Solo.{service_pieces};
ghost use Rattle.link_desk.specs.Homes.{IsAtHome};
ghost use Rattle.relay_model.specs.declared.Phase.TheVariants.{Running};
ghost use Rattle.relay_model.specs.Leases.{IsLease, Keeps, Place};
ghost use Rattle.relay_model.specs.Answers.{AtBorder, RefusedBy};
ghost use Rattle.pool_serve.specs.Backs.{IsBackOrLost};
ghost use Rattle.pool_serve.specs.Cancels.{IsKeyed};
ghost use Rattle.pool_serve.specs.Endings.{HasRelayed, refusal_at, refusal_told};
ghost use Rattle.pool_serve.specs.Serving.{Serves, limit_of};
ghost use Rattle.pool_serve.specs.Shares.{Ends};
ghost use Rattle.pool_serve.specs.FinalMessages.{final_message_of};

use crate::ending::Ending;
use crate::logged_in::LoggedIn;
use crate::noting::lent_note;
use crate::worker::Worker;
use link_desk::desk::LinkDesk;
use link_run::links::CleanLink;
use login_core::laws::service_is_its_pieces;
use message_view::Refusal;
use relay_core::relay::Relay;
use relay_model::{Next, leases_are_allowed};
use server_end::gate::{Gate, Ready};
use server_end::{ClientEnd, ServerEnd};
use time_limits::MAX_TURNS;

/// Both ends may be tried.
const BOTH: Ready = Ready {
    client: true,
    server: true,
};

/// What the relay's last answer refuses the client by, if it does.
fn refusal_told(next: Next) -> Option<Refusal>
    ensures { result ≡ refusal_told next }
{
    match next {
        Next::Refuse(refusal) => Some(refusal),
        Next::Again | Next::Wait | Next::ClientDone | Next::Closed => None,
    }
}

/// Whether its server's connection has ended, by the relay's last answer.
fn has_ended(next: Next) -> bool {
    matches!(next, Next::Refuse(Refusal::ServerFailed) | Next::Closed)
}

/// Waits at the gate, which is told first what went over the link.
fn wait<C: ClientEnd, E: ServerEnd, G: Gate<E>>(relay: &Relay<C, E>, gate: &mut G) -> Ready {
    gate.tell(relay.counts());
    gate.turn()
}

/// What may be tried behind bytes that moved: both ends at once; or, where nothing was on its way before and nothing is now, what the gate
/// tells: each end was then read with room to spare, and the gate knows whether that may have left more.
fn more<C: ClientEnd, E: ServerEnd, G: Gate<E>>(
    relay: &Relay<C, E>,
    gate: &mut G,
    is_drained: bool,
) -> Ready {
    if is_drained {
        return wait(relay, gate);
    }
    BOTH
}

/// Pumps until the lease ends. A turn of the gate is taken only where nothing moved, or nothing is left of what did. What the client is
/// refused by, if it is, and whether the server's connection has ended.
fn pumped<C: ClientEnd, E: ServerEnd, G: Gate<E>>(
    relay: &mut Relay<C, E>,
    gate: &mut G,
) -> (Option<Refusal>, bool)
    requires runs { relay.old.phase ≡ Running }
    ensures keeps { Keeps relay.old relay.new }
    ensures told { result.0 ≡ refusal_at relay.new }
    ensures refused { IfSome result.0 (λ r. (p : Place) → IsLease p relay.old → AtBorder p relay.new × RefusedBy p relay.new r) }
{
    let mut next = relay.pump(BOTH);
    let mut was_clear = false;
    for _ in 0..MAX_TURNS {
        let is_clear = relay.is_clear();
        let ready = match next {
            Next::Again => more(relay, gate, was_clear & is_clear),
            Next::Wait => wait(relay, gate),
            Next::ClientDone | Next::Refuse(_) | Next::Closed => break,
        };
        was_clear = is_clear;
        next = relay.pump(ready);
    }
    (refusal_told(next), has_ended(next))
}

impl<'a, D: LinkDesk, G: Gate<D::End>> Worker<'a, D, G> {
    /// Relays over the client's link, which is logged, and gives that back, before the client is told why it is refused, if it is.
    pub(crate) fn relay<C: ClientEnd>(
        &mut self,
        client: C,
        logged_in: &LoggedIn,
        link: CleanLink<D::End>,
    ) -> (C, Ending)
        requires home { IsAtHome D.home link }
        requires keyed { IsKeyed (D.holder self.old.pass) link logged_in.now.word link.server_key }
        requires settings { AreWithinBounds logged_in.now.login.settings }
        ensures tells { (C.facts result.0).tells ≡ (C.facts client).tells }
        ensures share { Ends (D.counted self.old.pass) (D.counted self.new.pass) }
        ensures holder { IsBackOrLost (D.holder self.old.pass) (D.holder self.new.pass) }
        ensures ended { HasRelayed link logged_in.now (C.facts client) (C.facts result.0) result.1 }
        ensures serves { (C.facts client).tells ≡ true → link.stands.follows ≡ true → Serves (limit_of logged_in.now) link.stands.server.strikable (C.facts client) (C.facts result.0) (service_pieces link.stands.server.catalogue link.key logged_in.now.word) (final_message_of result.1) }
    {
        leases_are_allowed();
        service_is_its_pieces();
        self.note(&lent_note(logged_in, &link));
        let number = link.number();
        let limit = logged_in.login.settings().max_packet_size();
        let mut relay = match Relay::begin_over(
            self.alloc,
            client,
            link,
            logged_in.word,
            limit,
            self.kept,
        ) {
            Ok(relay) => relay,
            Err((client, link)) => {
                self.give_back_unused(logged_in, link);
                return (client, Ending::Memory);
            }
        };
        let (refusal, has_ended) = pumped(&mut relay, &mut self.gate);
        self.gate.tell(relay.counts());
        let last = relay.last_note();
        let (client, link) = relay.close_over(self.kept);
        self.hand_back(logged_in, number, link, has_ended, &last);
        (client, Ending::Relayed(refusal))
    }
}
