//! What happens at a desk in a test, and what it answers, with links by their numbers.
use crate::desk_parts::TestDesk;
use book_model::events::Beyond;
use book_tests::book_parts::{Settings, Whose, key_of, limits, link};
use desk_tallies::ledgers::Ledgers;
use desk_tallies::passes::Pass;
use link_desk::answers as told;
use link_desk::calls::{Holder, Lease, Stage};
use link_desk::desk::LinkDesk;
use link_run::links::CleanLink;
use memory_ends::gone_end::GoneEnd;
use message_view::{KeyView, Refusal};
use pool_desk::answers::{Changed, HungUp, Ticked};
use std::alloc::{AllocError, Global};
use std::rt::Clock;
use std::sync::Wait;

/// A call through a pass.
#[derive(Clone, Copy, Drop)]
pub(crate) enum Act {
    Come,
    /// The client may use these places beyond the limit.
    ComeBeyond(Beyond),
    /// The client of the pass asks for a link of this key.
    Ask(Whose),
    Take,
    /// Its lease is found from now on by a cancel of this key word, and its server's key word is that one; pid and secret are each a
    /// number.
    Key(Word, Word),
    /// Somebody asks for a cancel by this key word.
    Cancel(Word),
    EndLease,
    /// Its link comes back, of this key, once its lease has ended.
    Back(Whose),
    Lost,
    StartFailed,
    Leave,
    Tick(u64),
    /// The server of this link hangs up.
    HungUp(u64),
    Limits(Settings),
    Pause,
    Resume,
    Shutdown,
    Reconnect,
}

/// A key word: its pid and its secret.
pub(crate) type Word = (u32, u32);

/// What the desk answers.
#[derive(Clone, Copy, PartialEq, Eq, Drop)]
pub(crate) enum Says {
    Client(u64),
    Queued(u64),
    Lend(u64),
    /// The number, the second of birth, and the evicted link.
    Start(u64, u64, Option<u64>),
    Refuse(Refusal),
    Close(u64),
    /// The cancel is for this link, whose server told this key word, at this port.
    Strike(u64, Word, u16),
    /// Nobody of this key word has a lease, or the link isn't idle.
    Unknown,
    Reset,
    Dispose,
    Done,
    Last,
    Stranger,
    Memory,
    /// The client waits on.
    Waits,
    /// Nothing was asked of it: the pass has no client or no link for this call, or has one already.
    Nobody,
}

impl From<told::Arrival> for Says {
    fn from(arrival: told::Arrival) -> Says {
        match arrival {
            told::Arrival::Client(client) => Says::Client(client),
            told::Arrival::Refused(refusal) => Says::Refuse(refusal),
        }
    }
}

impl From<told::Asked> for Says {
    fn from(asked: told::Asked) -> Says {
        match asked {
            told::Asked::Queued(before) => Says::Queued(before),
            told::Asked::Refused(refusal) => Says::Refuse(refusal),
            told::Asked::Memory => Says::Memory,
            told::Asked::Stranger => Says::Stranger,
        }
    }
}

impl From<told::Gone> for Says {
    fn from(gone: told::Gone) -> Says {
        match gone {
            told::Gone::Done => Says::Done,
            told::Gone::Last => Says::Last,
            told::Gone::Stranger => Says::Stranger,
        }
    }
}

impl From<told::Keying> for Says {
    fn from(keying: told::Keying) -> Says {
        match keying {
            told::Keying::Done => Says::Done,
            told::Keying::Last => Says::Last,
            told::Keying::Stranger => Says::Stranger,
        }
    }
}

impl From<told::Release> for Says {
    fn from(release: told::Release) -> Says {
        match release {
            told::Release::Reset => Says::Reset,
            told::Release::Dispose => Says::Dispose,
            told::Release::Last => Says::Last,
            told::Release::Stranger => Says::Stranger,
        }
    }
}

impl From<told::Cancelled> for Says {
    fn from(cancelled: told::Cancelled) -> Says {
        match cancelled {
            told::Cancelled::Strike(strike) => {
                let server = (strike.server.pid, strike.server.secret);
                Says::Strike(strike.link, server, strike.port)
            }
            told::Cancelled::Nobody => Says::Unknown,
            told::Cancelled::Last => Says::Last,
        }
    }
}

impl From<Changed> for Says {
    fn from(changed: Changed) -> Says {
        match changed {
            Changed::Done => Says::Done,
            Changed::Last => Says::Last,
        }
    }
}

/// The number of a link that may be there; the link is closed.
fn number_of(link: Option<CleanLink<GoneEnd>>) -> Option<u64> {
    match link {
        Some(link) => Some(link.number()),
        None => None,
    }
}

fn granted(grant: told::Grant<GoneEnd>) -> Says {
    match grant {
        told::Grant::Queued => Says::Waits,
        told::Grant::Lend(link) => Says::Lend(link.number()),
        told::Grant::Start {
            number,
            started_at,
            evicted,
        } => Says::Start(number, started_at, number_of(evicted)),
        told::Grant::Refused(refusal) => Says::Refuse(refusal),
        told::Grant::Stranger => Says::Stranger,
    }
}

fn ticked(ticked: Ticked<GoneEnd>) -> Says {
    match ticked {
        Ticked::Done => Says::Done,
        Ticked::Close(link) => Says::Close(link.number()),
        Ticked::Last => Says::Last,
    }
}

fn heard_up(heard: HungUp<GoneEnd>) -> Says {
    match heard {
        HungUp::Close(link) => Says::Close(link.number()),
        HungUp::NotIdle => Says::Unknown,
        HungUp::Last => Says::Last,
    }
}

/// The answer to a link that came back, and what was left of it there.
fn taken_back(back: told::Back, left: Option<CleanLink<GoneEnd>>) -> Says {
    match (back, number_of(left)) {
        (told::Back::Done, None) => Says::Done,
        (told::Back::Close, Some(number)) => Says::Close(number),
        (told::Back::Last, Some(_)) => Says::Last,
        (told::Back::Stranger, Some(_)) => Says::Stranger,
        _ => Says::Nobody,
    }
}

fn comes<R: Wait + Clock, K: Ledgers>(
    desk: &TestDesk<R, K>,
    pass: &mut Pass<K>,
    beyond: Beyond,
) -> Says {
    match pass.holder().client {
        None => Says::from(desk.arrive(pass, beyond)),
        Some(_) => Says::Nobody,
    }
}

fn asks<R: Wait + Clock, K: Ledgers>(
    alloc: Global,
    desk: &TestDesk<R, K>,
    pass: &mut Pass<K>,
    whose: Whose,
) -> Result<Says, AllocError> {
    let key = key_of(alloc, whose)?;
    Ok(match pass.holder().client {
        Some(_) => Says::from(desk.ask(pass, &key)),
        None => Says::Nobody,
    })
}

/// A call that takes a link; nobody, where the call is none of the pass's.
fn takes_once<R: Wait + Clock, K: Ledgers>(desk: &TestDesk<R, K>, pass: &mut Pass<K>) -> Says {
    match pass.holder() {
        Holder {
            client: Some(_),
            lease: None,
            ..
        } => granted(desk.take(pass)),
        _ => Says::Nobody,
    }
}

/// The same, until the client needn't wait any longer; each call waits for at most a second.
fn takes<R: Wait + Clock, K: Ledgers>(desk: &TestDesk<R, K>, pass: &mut Pass<K>) -> Says {
    for _ in 0..60u32 {
        match takes_once(desk, pass) {
            Says::Waits => {}
            says => return says,
        }
    }
    Says::Waits
}

fn view_of(word: Word) -> KeyView {
    let (pid, secret) = word;
    KeyView { pid, secret }
}

fn keys<R: Wait + Clock, K: Ledgers>(
    desk: &TestDesk<R, K>,
    pass: &mut Pass<K>,
    client: Word,
    server: Word,
) -> Says {
    match pass.holder().lease {
        Some(
            Lease {
                stage: Stage::Granted,
                ..
            },
        ) => Says::from(desk.keyed(pass, view_of(client), view_of(server))),
        _ => Says::Nobody,
    }
}

fn ends_lease<R: Wait + Clock, K: Ledgers>(desk: &TestDesk<R, K>, pass: &mut Pass<K>) -> Says {
    match pass.holder().lease {
        Some(
            Lease {
                stage: Stage::Granted | Stage::Keyed,
                ..
            },
        ) => Says::from(desk.end_lease(pass)),
        _ => Says::Nobody,
    }
}

/// A link of this key comes back whose lease has ended.
fn gives_back<R: Wait + Clock, K: Ledgers>(
    alloc: Global,
    desk: &TestDesk<R, K>,
    pass: &mut Pass<K>,
    whose: Whose,
) -> Result<Says, AllocError> {
    let key = key_of(alloc, whose)?;
    let Some(
        Lease {
            number,
            started_at,
            stage: Stage::Ended,
        },
    ) = pass.holder().lease
    else {
        return Ok(Says::Nobody);
    };
    let mut back = Some(link(alloc, key, number, started_at)?);
    let answer = desk.give_back(pass, &mut back);
    Ok(taken_back(answer, back))
}

/// The lease ends, if it hasn't, and the link comes back; what the end is answered, where it doesn't.
fn ends<R: Wait + Clock, K: Ledgers>(
    alloc: Global,
    desk: &TestDesk<R, K>,
    pass: &mut Pass<K>,
    whose: Whose,
) -> Result<Says, AllocError> {
    match ends_lease(desk, pass) {
        Says::Reset | Says::Nobody => gives_back(alloc, desk, pass, whose),
        says => Ok(says),
    }
}

fn loses<R: Wait + Clock, K: Ledgers>(desk: &TestDesk<R, K>, pass: &mut Pass<K>) -> Says {
    match pass.holder().lease {
        Some(_) => Says::from(desk.lost(pass)),
        None => Says::Nobody,
    }
}

fn starts_in_vain<R: Wait + Clock, K: Ledgers>(desk: &TestDesk<R, K>, pass: &mut Pass<K>) -> Says {
    match pass.holder().lease {
        Some(_) => Says::from(desk.start_failed(pass)),
        None => Says::Nobody,
    }
}

fn leaves<R: Wait + Clock, K: Ledgers>(desk: &TestDesk<R, K>, pass: &mut Pass<K>) -> Says {
    match pass.holder() {
        Holder {
            client: Some(_),
            lease: None,
            ..
        } => Says::from(desk.leave(pass)),
        _ => Says::Nobody,
    }
}

fn keeps_to<R: Wait + Clock, K: Ledgers>(
    alloc: Global,
    desk: &TestDesk<R, K>,
    pass: &mut Pass<K>,
    settings: Settings,
) -> Result<Says, AllocError> {
    let limits = limits(alloc, settings)?;
    Ok(Says::from(desk.limits(pass, limits)))
}

/// What the desk answers; nobody, where the call is none of the pass's.
pub(crate) fn answer<R: Wait + Clock, K: Ledgers>(
    alloc: Global,
    desk: &TestDesk<R, K>,
    pass: &mut Pass<K>,
    act: Act,
) -> Result<Says, AllocError> {
    match act {
        Act::Come => Ok(comes(desk, pass, Beyond::Nothing)),
        Act::ComeBeyond(beyond) => Ok(comes(desk, pass, beyond)),
        Act::Ask(whose) => asks(alloc, desk, pass, whose),
        Act::Take => Ok(takes(desk, pass)),
        Act::Key(client, server) => Ok(keys(desk, pass, client, server)),
        Act::Cancel(client) => Ok(Says::from(desk.cancel(pass, view_of(client)))),
        Act::EndLease => Ok(ends_lease(desk, pass)),
        Act::Back(whose) => ends(alloc, desk, pass, whose),
        Act::Lost => Ok(loses(desk, pass)),
        Act::StartFailed => Ok(starts_in_vain(desk, pass)),
        Act::Leave => Ok(leaves(desk, pass)),
        Act::Tick(now) => Ok(ticked(desk.tick(pass, now))),
        Act::HungUp(number) => Ok(heard_up(desk.hung_up(pass, number))),
        Act::Limits(settings) => keeps_to(alloc, desk, pass, settings),
        Act::Pause => Ok(Says::from(desk.pause(pass))),
        Act::Resume => Ok(Says::from(desk.resume(pass))),
        Act::Shutdown => Ok(Says::from(desk.shutdown(pass))),
        Act::Reconnect => Ok(Says::from(desk.reconnect(pass))),
    }
}
