//! The close of a link that nobody uses.
ghost use Rattle.link_start.specs.Closes.{IsOffered};

use link_run::ServerEnd;
use link_run::links::{CleanLink, LinkParts};

/// The message Terminate (PostgreSQL manual, "Message Flow", "Termination").
static TERMINATE: [u8; 5] = *b"X\0\0\0\x04";

/// Writes a Terminate once, as much of it as goes: a server that is told so closes its session without a complaint.
#[tactic(auto, using(crate::proofs::Closing::offered))]
pub fn offer_terminate<E: ServerEnd>(end: &mut E)
    ensures { IsOffered (E.standing end.old) (E.standing end.new) }
{
    let _ = end.write_some(&TERMINATE);
}

/// Offers the link's server one Terminate, and hands its end back, whatever came of it.
pub fn close_link<E: ServerEnd>(link: CleanLink<E>) -> E
    ensures { IsOffered link.stands (E.standing result) }
{
    let LinkParts {
        mut end,
        key: _,
        number: _,
        started_at: _,
        server_key: _,
        reported: _,
    } = link.lend();
    offer_terminate(&mut end);
    end
}
