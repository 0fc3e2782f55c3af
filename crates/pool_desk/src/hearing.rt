//! Who holds a pass after an event that was made through it.
ghost use Rattle.std.specs.Prelude.{◌≡◌};
ghost use Rattle.desk_tallies.specs.Passes.{at_stage};
ghost use Rattle.link_desk.specs.declared.calls.Stage.TheVariants.{Granted};
ghost use Rattle.book_model.specs.Events.{change_of, event_of};
ghost use Rattle.lease_book.specs.Links.{plain};
ghost use Rattle.pool_desk.specs.Hears.{call_of, call_of_change, heard, target_in};

use book_model::events::{Change, Event};
use desk_tallies::answers::{Release, Target};
use desk_tallies::calls::{Call, Holder, Lease, Stage};
use lease_book::events::{BookEvent, BookReply};
use server_end::ServerEnd;

/// The call that a change is.
fn call_of_change(change: &Change) -> Call
    ensures { result ≡ call_of_change (change_of change.now) }
{
    match change {
        Change::Limits(_) => Call::Limits,
        Change::Pause => Call::Pause,
        Change::Resume => Call::Resume,
        Change::Shutdown => Call::Shutdown,
        Change::Reconnect => Call::Reconnect,
    }
}

/// The call that an event is with which no link comes.
fn plain_call(event: &Event) -> Call
    ensures { result ≡ call_of (event_of event.now) }
{
    match event {
        Event::Arrive { beyond } => Call::Arrive(*beyond),
        Event::Ask { client, .. } => Call::Ask(*client),
        Event::Take { client } => Call::Take(*client),
        Event::Lost { link } => Call::Lost(*link),
        Event::StartFailed { link } => Call::StartFailed(*link),
        Event::Leave { client } => Call::Leave(*client),
        Event::Tick { now } => Call::Tick(*now),
        Event::Change(change) => call_of_change(change),
        Event::Keyed {
            link,
            client,
            server,
        } => Call::Keyed {
            link: *link,
            client: *client,
            server: *server,
        },
        Event::Cancel { client } => Call::Cancel(*client),
        Event::EndLease { link } => Call::EndLease(*link),
        Event::HungUp { link } => Call::HungUp(*link),
    }
}

/// The call that an event is.
pub(crate) fn call_of<E: ServerEnd>(event: &BookEvent<E>) -> Call
    ensures { result ≡ call_of (plain event.now) }
{
    match event {
        BookEvent::GiveBack(link) => Call::GiveBack(link.number()),
        BookEvent::Plain(event) => plain_call(event),
    }
}

/// The same holder, with a link of this number and second of birth, whose lease begins.
fn with_lease(holder: Holder, number: u64, started_at: u64) -> Holder
    ensures { result ≡ record holder { lease = Some (record { number = number; started_at = started_at; stage = Granted }) } }
{
    Holder {
        lease: Some(Lease {
            number,
            started_at,
            stage: Stage::Granted,
        }),
        ..holder
    }
}

/// The same holder, with its lease at this stage.
fn at_stage(holder: Holder, stage: Stage) -> Holder
    ensures { result ≡ at_stage stage holder }
{
    match holder.lease {
        Some(lease) => Holder {
            lease: Some(Lease { stage, ..lease }),
            ..holder
        },
        None => holder,
    }
}

/// The same holder, whose lease was answered so at its end.
fn released(holder: Holder, release: Release) -> Holder
    ensures { result ≡ record holder { release = Some release } }
{
    Holder {
        release: Some(release),
        ..holder
    }
}

/// What the cancel is for that is to be sent by this reply.
fn target_in<E: ServerEnd>(reply: &BookReply<E>) -> Option<Target>
    ensures { result ≡ target_in reply.now }
{
    match reply {
        BookReply::Strike { number, server, .. } => Some(Target {
            link: *number,
            server: *server,
        }),
        _ => None,
    }
}

/// Who holds a pass after this call, by its reply: each call is the last, but for a client's that waits on.
pub(crate) fn heard<E: ServerEnd>(holder: Holder, call: Call, reply: &BookReply<E>) -> Holder
    ensures { result ≡ heard holder call reply.now }
{
    let held = Holder {
        last: Some(call),
        ..holder
    };
    match (call, reply) {
        (Call::Arrive(_), BookReply::Client(client)) => Holder {
            client: Some(*client),
            refused: None,
            ..held
        },
        (Call::Arrive(_) | Call::Ask(_) | Call::Take(_), BookReply::Refuse(refusal, _)) => Holder {
            refused: Some(*refusal),
            ..held
        },
        (Call::Take(_), BookReply::Queued(_)) => holder,
        (Call::Take(_), BookReply::Lend(link)) => with_lease(
            held,
            link.number(),
            link.started_at(),
        ),
        (
            Call::Take(_),
            BookReply::Start {
                number,
                started_at,
                ..
            },
        ) => with_lease(held, *number, *started_at),
        (Call::Keyed { .. }, BookReply::Done) => at_stage(held, Stage::Keyed),
        (Call::EndLease(_), BookReply::Reset) => at_stage(
            released(held, Release::Reset),
            Stage::Ended,
        ),
        (Call::EndLease(_), BookReply::Dispose) => released(held, Release::Dispose),
        (Call::EndLease(_), BookReply::Refuse(..)) => released(held, Release::Last),
        (Call::EndLease(_), BookReply::Stranger(_)) => released(held, Release::Stranger),
        (Call::GiveBack(_) | Call::Lost(_) | Call::StartFailed(_), _) => Holder {
            lease: None,
            ..held
        },
        (Call::Cancel(_), _) => Holder {
            found: target_in(reply),
            struck: None,
            ..held
        },
        (Call::Leave(_), _) => Holder {
            client: None,
            ..held
        },
        _ => held,
    }
}
