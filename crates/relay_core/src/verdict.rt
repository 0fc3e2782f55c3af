//! What is told of a lease's frames, and the verdict on it.
ghost use Rattle.std.specs.Prelude.{◌≡◌, ◌≢◌, ◌≤◌, None, false, true};
ghost use Rattle.disposal.specs.Tallies.{may_end};
ghost use Rattle.disposal.specs.declared.TheConstants.{FULL};
ghost use Rattle.disposal.specs.declared.Verdict.TheVariants.{Settled};
ghost use Rattle.relay_model.specs.Verdicts.{begun_arrived, told_arrived, told_sent, verdict_by};

use disposal::{Traffic, Verdict};
use frame_view::server::READY_FOR_QUERY;
use relay_flow::flow::Passed;

/// A whole frame of the client went on.
pub fn tell_sent(traffic: &mut Traffic, kind: u8)
    requires { traffic.old.is_sending ≡ false }
    ensures { traffic.new ≡ told_sent kind traffic.old }
{
    traffic.send_begin(kind);
    traffic.send_end();
}

/// A law of counts: none is above the greatest.
fn counts_fit(traffic: &Traffic)
    ensures answered { traffic.now.answered ≤ FULL }
    ensures ended { traffic.now.ended ≤ FULL }
{
    let _ = traffic.answered();
    let _ = traffic.ended();
}

/// A whole frame of the server came, and goes on. Where no session of the link sends it (not `own`), that is told before its
/// end.
pub fn tell_arrived(traffic: &mut Traffic, passed: Passed, own: bool)
    requires border { traffic.old.getting ≡ None }
    requires status { may_end passed.status (begun_arrived passed own traffic.old) ≡ true }
    ensures { traffic.new ≡ told_arrived passed own traffic.old }
{
    // a row's way: where no answer ends and nothing broke, all stays as it is
    if own && passed.kind != READY_FOR_QUERY {
        counts_fit(traffic);
        return;
    }
    traffic.got_begin(passed.kind);
    if !own {
        traffic.broken();
    }
    traffic.got_end(passed.status);
}

/// The verdict, by that of the counts, whether the server's bytes are faulty, and whether both directions stand at a border.
pub fn verdict_by(verdict: Verdict, faulty: bool, border: bool) -> Verdict
    ensures { result ≡ verdict_by verdict faulty border }
{
    match verdict {
        Verdict::Broken => Verdict::Broken,
        Verdict::MidFrame => if faulty {
            Verdict::Broken
        } else {
            Verdict::MidFrame
        },
        Verdict::Unanswered | Verdict::InBlock | Verdict::Settled => {
            if faulty {
                return Verdict::Broken;
            }
            if border { verdict } else { Verdict::MidFrame }
        }
    }
}

/// Whether the link can be reset.
pub fn is_settled(verdict: Verdict) -> bool
    ensures yes { result ≡ true → verdict ≡ Settled }
    ensures no { result ≡ false → verdict ≢ Settled }
{
    matches!(verdict, Verdict::Settled)
}
