//! What is shown of the decisions that are kept: of a key its process id alone, never its secret.
ghost use Rattle.std.specs.Prelude.{◌≡◌, ◌+◌, ◌≤◌, suc, IfOk, length, map};
ghost use Rattle.book_model.specs.Outcomes.{last_decision};
ghost use Rattle.lease_book.specs.Shown.{SecretsStayHidden, as_shown, refusal_number, reply_name, reply_number, shown_from, shown_of};

use crate::history::Decision;
use book_model::events::Reply;
use circular_buffer::HeapCircularBuffer;
use message_view::Refusal;
use pool_figures::decisions::DecisionSeen;
use std::alloc::{AllocError, Global};

/// A decision is shown as if every secret of it were 0.
pub fn secrets_stay_hidden()
    ensures { SecretsStayHidden }
{}

/// What a reply is called.
fn reply_name(reply: Reply) -> &'static str
    ensures { result.now ≡ reply_name reply }
{
    match reply {
        Reply::Arrived(_) => "arrived",
        Reply::Queued(_) => "queued",
        Reply::Lend(_) => "lend",
        Reply::Start { .. } => "start",
        Reply::Close(_) => "close",
        Reply::Refuse(_) => "refuse",
        Reply::Done => "done",
        Reply::Stranger => "stranger",
        Reply::Strike { .. } => "strike",
        Reply::Nobody => "nobody",
        Reply::Reset => "reset",
        Reply::Dispose => "dispose",
    }
}

/// The number of a refusal: 1 to 12.
fn refusal_number(refusal: Refusal) -> u64
    ensures { result ≡ refusal_number refusal }
{
    match refusal {
        Refusal::TooManyClients => 1,
        Refusal::UnsupportedProtocol => 2,
        Refusal::MalformedClientMessage => 3,
        Refusal::UnsupportedParameter => 4,
        Refusal::WaitedTooLong => 5,
        Refusal::ServerFailed => 6,
        Refusal::ServerNotReached => 7,
        Refusal::ShuttingDown => 8,
        Refusal::OutOfMemory => 9,
        Refusal::ClientMessageTooLong => 10,
        Refusal::MalformedServerMessage => 11,
        Refusal::LastDecision => 12,
    }
}

/// The number that it names: a client's, how many wait, a link's, or a refusal's; 0 for none.
fn reply_number(reply: Reply) -> u64
    ensures { result ≡ reply_number reply }
{
    match reply {
        Reply::Arrived(client) => client,
        Reply::Queued(before) => before,
        Reply::Lend(link) => link,
        Reply::Start { link, .. } => link,
        Reply::Close(link) => link,
        Reply::Refuse(refusal) => refusal_number(refusal),
        Reply::Strike { link, .. } => link,
        Reply::Done | Reply::Stranger | Reply::Nobody | Reply::Reset | Reply::Dispose => 0,
    }
}

/// A decision of this number, as it is shown.
#[tactic(auto, unfolding(crate::specs::Shown::as_shown, crate::specs::Shown::shown_of))]
fn decision_seen(number: u64, decision: &Decision) -> DecisionSeen
    ensures { as_shown result ≡ shown_of number decision.now }
{
    DecisionSeen {
        number,
        pass: decision.pass,
        event: decision.event.name(),
        of: decision.event.number(),
        reply: reply_name(decision.reply),
        to: reply_number(decision.reply),
    }
}

/// Decisions that are kept, behind so many others, as they are shown.
pub(crate) fn all_shown(
    alloc: Global,
    base: u64,
    kept: &HeapCircularBuffer<Decision>,
) -> Result<Vec<DecisionSeen>, AllocError>
    requires numbered { base + length kept.now.items ≤ last_decision }
    ensures { IfOk result (λ v. map as_shown v.items ≡ shown_from (suc base) kept.now.items) }
{
    let mut shown = Vec::with_capacity(alloc, kept.len())?;
    'decisions: while let Some(decision) = kept.get(shown.len()) {
        let number = base + shown.len() as u64 + 1;
        shown.push(decision_seen(number, decision))?;
    }
    Ok(shown)
}
