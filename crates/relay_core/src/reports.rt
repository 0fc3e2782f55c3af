//! What the server reports of its parameters while a lease lasts (PostgreSQL manual, "Asynchronous Operations").
ghost use Rattle.std.specs.Prelude.{◌≡◌, ◌≤◌, drop, false, length};
ghost use Rattle.frame_view.specs.declared.server.TheConstants as server;
ghost use Rattle.link_run.specs.Dialogues.{names_kept};
ghost use Rattle.link_run.specs.Links.{told_by};
ghost use Rattle.message_view.specs.Reading.{status_of};
ghost use Rattle.relay_flow.specs.declared.parts.TheConstants as parts;
ghost use Rattle.relay_model.specs.Verdicts.{IsRead};

use frame_view::server::PARAMETER_STATUS;
use message_view::StatusView;
use param_track::Reported;
use relay_flow::flow::{Flow, Passed};
use relay_flow::parts::HEAD;

/// Keeps what a ParameterStatus reports. Whether it can be read, and the link's start reported its name.
#[inline(never)]
fn read_status(reported: &mut Reported, frame: &[u8]) -> bool
    requires { parts.HEAD ≤ length frame.now }
    ensures own { result ≡ names_kept reported.old (status_of (drop parts.HEAD frame.now)) }
    ensures kept { reported.new ≡ told_by reported.old (status_of (drop parts.HEAD frame.now)) }
{
    match StatusView::read(&frame[HEAD..]) {
        Ok(report) => reported.apply(&report),
        Err(_) => false,
    }
}

/// Keeps what the frame that went on last reports, if it is a ParameterStatus. Whether a session of the link may send the frame:
/// not one that no session sends, and no ParameterStatus that can't be read, or whose name the link's start didn't report.
#[inline(always)]
pub fn read_report(reported: &mut Reported, flow: &Flow, passed: Passed) -> bool
    requires count { passed.count ≤ length flow.now.held }
    requires head { passed.kind ≡ server.PARAMETER_STATUS → passed.is_foreign ≡ false → parts.HEAD ≤ passed.count }
    ensures { IsRead reported.old reported.new result flow.now passed }
{
    if passed.is_foreign {
        return false;
    }
    if passed.kind != PARAMETER_STATUS {
        return true;
    }
    read_status(reported, flow.last_held(passed.count))
}
