//! How workers are held to a row.
ghost use Rattle.std.specs.Prelude.{◌≡◌};
ghost use Rattle.desk_tallies.specs.declared.passes.TheConstants.{ALL_PARTS};
ghost use Rattle.desk_tallies.specs.Shares.{names_of, of_each, parts_of};

use crate::gates::{Told, TurnedGate};
use crate::guests::{Guest, QUESTION, READY, Talk};
use crate::meanwhile::{Moment, Notes, TestDesk};
use crate::rows::{Client, Row};
use crate::servers::{Seen, Servers};
use book_register::view::BookView;
use book_rows::links::Link;
use desk_tallies::ledgers::Ledgers;
use desk_tallies::passes::Pass;
use desk_tallies::tallies::Blanks;
use link_desk::calls::Call;
use link_desk::desk::LinkDesk;
use play_tests::files::catalogue;
use pool_desk::desk::Desk;
use server_end::gate::TurnCount;
use std::alloc::{AllocError, Global};
use std::marker::Brand;
use std::sync::atomic::Ordering;
use std::test::Fail;
use std::thread::join;
use worker_parts::{CUT, TestRuntime, limits, login_by, serve_by};

/// Where workers depart from a row.
#[derive(Clone, Copy, Drop)]
enum Departure {
    /// What a client is given, or what its gate is told of it.
    Given,
    /// What the desk shows.
    Shown,
    /// What the desk counted.
    Totals,
    /// What the servers saw.
    Seen,
    /// What was logged.
    Noted,
}

impl Departure {
    fn words(self) -> &'static str {
        match self {
            Departure::Given => "what a client is given",
            Departure::Shown => "what the desk shows",
            Departure::Totals => "what the desk counted",
            Departure::Seen => "what the servers saw",
            Departure::Noted => "what was logged",
        }
    }
}

/// Whether so many bytes were given, and then the last of the client.
pub(crate) fn is_told(given: &[u8], client: &Client) -> bool {
    let last = client.last.bytes();
    given.len().checked_sub(last.len()) == Some(client.before) && given.ends_with(last)
}

/// Whether a client was let in that was given this: it has AuthenticationOk at its first or its second message.
fn is_let_in(given: &[u8]) -> bool {
    let behind = given.strip_prefix(QUESTION).unwrap_or(given);
    behind.starts_with(b"R\0\0\0\x08\0\0\0\0")
}

/// How often these bytes begin somewhere in what a client was given.
fn times(given: &[u8], wanted: &[u8]) -> u64 {
    let mut count: u64 = 0;
    for at in 0..given.len() {
        if given[at..].starts_with(wanted) {
            count = count.saturating_add(1);
        }
    }
    count
}

/// Whether a client's gate was told of its lease that each ReadyForQuery behind its welcome was an answer, and each of those that tell of
/// no block the end of a transaction. At the console there is no lease.
fn is_counted(told: &Told, talk: Talk, given: &[u8]) -> bool {
    if let Talk::ToConsole = talk {
        return true;
    }
    let answered = times(given, b"Z\0\0\0\x05").saturating_sub(1);
    let ended = times(given, READY).saturating_sub(1);
    told.has_counted(answered, ended)
}

/// Whether the gate was told what it is to be told of a client that was given this.
fn is_heard(told: &Told, talk: Talk, given: &[u8], has_come: bool) -> bool {
    told.is_of(has_come, is_let_in(given)) && is_counted(told, talk, given)
}

/// Whether a client came to the desk by this pass, as its last call tells.
fn has_come<K: Ledgers>(pass: &Pass<K>) -> bool {
    matches!(
        pass.holder().last,
        Some(Call::Leave(_)) | Some(Call::Arrive(_))
    )
}

/// Serves a client through this pass, while the row's act happens through the other: the pass, and whether it was given what it is
/// to be given.
fn served_once<R: TestRuntime, K: Ledgers + Send + Sync>(
    rt: R,
    alloc: Global,
    desk: &TestDesk<R, K>,
    own: Pass<K>,
    other: &mut Pass<K>,
    row: &Row,
    client: &Client,
    number: u32,
) -> Result<(Pass<K>, bool), AllocError> {
    let notes = Notes::new(row.moment);
    let shared = &notes;
    let told = Told::new();
    let gate = TurnedGate {
        rt,
        notes: shared,
        is_of_lease: matches!(row.moment, Moment::AtLease),
        goes: row.go,
        clock: row.clock,
        told: &told,
        turns: TurnCount::new(),
    };
    let login = login_by(alloc, client.under.settings(), number)?;
    let guest = Guest::new(alloc, client.talk, CUT)?;
    let (moment, act) = (row.moment, row.act);
    let (served, happened) = join(
        &rt,
        || -> Option<(Guest, Pass<K>)> { serve_by(alloc, desk, own, guest, login, number, gate) },
        || -> bool {
            shared
                .follow(rt, alloc, desk, other, moment, act)
                .unwrap_or(false)
        },
    );
    let Some((guest, pass)) = served else {
        return Err(AllocError);
    };
    let is_told = is_told(guest.given(), client);
    let is_heard = is_heard(&told, client.talk, guest.given(), has_come(&pass));
    Ok((pass, is_told && is_heard && happened))
}

/// Serves the row's clients one after the other: the pass, and whether each was given what it is to be given.
fn served_all<R: TestRuntime, K: Ledgers + Send + Sync>(
    rt: R,
    alloc: Global,
    desk: &TestDesk<R, K>,
    own: Pass<K>,
    other: &mut Pass<K>,
    row: &Row,
) -> Result<(Pass<K>, bool), AllocError> {
    let mut pass = own;
    let mut number: u32 = 0;
    let mut are_told = true;
    for _ in 0..row.times {
        for client in row.served {
            number = number.saturating_add(1);
            let (next, is_told) = served_once(rt, alloc, desk, pass, other, row, client, number)?;
            pass = next;
            if !is_told {
                are_told = false;
            }
        }
    }
    Ok((pass, are_told))
}

fn are_links(links: &[Link], numbers: &[u64]) -> bool {
    for (link, number) in links.iter().zip(numbers.iter()) {
        if link.number != *number {
            return false;
        }
    }
    links.len() == numbers.len()
}

fn shows(view: &BookView, row: &Row) -> bool {
    let sums = [
        view.starts,
        view.reuses,
        view.evictions,
        view.counts.lost,
        view.counts.starts_failed,
    ];
    let wanted = [
        row.starts,
        row.reuses,
        row.evictions,
        row.losses,
        row.failed_starts,
    ];
    (view.clients.len(), view.tickets.len()) == row.there
        && are_links(&view.lent, row.lent)
        && are_links(&view.idle, row.idle)
        && sums == wanted
}

fn have_seen(seen: &Seen, row: &Row) -> bool {
    let terminates = seen.terminates.load(Ordering::SeqCst);
    let resets = seen.resets.load(Ordering::SeqCst);
    [terminates, resets] == [row.terminates, row.resets]
}

fn are_noted(seen: &Seen, row: &Row) -> bool {
    let logins = seen.late_logins.load(Ordering::SeqCst);
    let starts = seen.late_starts.load(Ordering::SeqCst);
    let links = seen.ended_links.load(Ordering::SeqCst);
    [logins, starts, links] == [row.late_logins, row.late_starts, row.ended_links]
}

/// What happens at a desk by this row, and where it departs from it, but for the totals.
fn happens<R: TestRuntime, K: Ledgers + Send + Sync>(
    rt: R,
    alloc: Global,
    desk: &TestDesk<R, K>,
    own: Pass<K>,
    other: &mut Pass<K>,
    row: &Row,
) -> Result<(Pass<K>, Option<Departure>), AllocError> {
    row.first.happens(alloc, desk, other)?;
    let (pass, are_told) = served_all(rt, alloc, desk, own, other, row)?;
    if !are_told {
        return Ok((pass, Some(Departure::Given)));
    }
    if !shows(&desk.view(alloc, other)?, row) {
        return Ok((pass, Some(Departure::Shown)));
    }
    Ok((pass, None))
}

/// Where workers over new ledgers depart from a row first.
fn departure_from<R: TestRuntime, K: Ledgers + Send + Sync>(
    rt: R,
    alloc: Global,
    blanks: Blanks,
    row: &Row,
) -> Result<Option<Departure>, Fail>
    requires names { names_of blanks ≡ K.names }
    requires parts { K.parts ≡ parts_of blanks }
    requires all { parts_of blanks ≡ of_each ALL_PARTS }
{
    let servers = Servers::new(alloc, catalogue(alloc)?, row.behind)?;
    let seen = servers.seen()?;
    let limits = limits(alloc, row.clients, row.pool)?;
    let desk = Desk::<R, Servers, K>::new(rt, alloc, servers, limits, blanks)?;
    let (Some(own), Some(mut other)) = (desk.pass(), desk.pass()) else {
        return Err("no pass")?;
    };
    let (own, departure) = happens(rt, alloc, &desk, own, &mut other, row)?;
    if departure.is_some() {
        return Ok(departure);
    }
    let passes = Vec::from_array(alloc, [own, other])?;
    let totals = desk.gather(passes).ok().ok_or("other passes")?;
    if totals != row.totals {
        return Ok(Some(Departure::Totals));
    }
    if !have_seen(&seen, row) {
        return Ok(Some(Departure::Seen));
    }
    if !are_noted(&seen, row) {
        return Ok(Some(Departure::Noted));
    }
    Ok(None)
}

/// Where workers depart from a row first, in words; none where they don't.
pub fn first_departure<R: TestRuntime>(
    rt: R,
    alloc: Global,
    row: &Row,
) -> Result<&'static str, Fail> {
    match departure_from::<R, Brand>(rt, alloc, Blanks::new(), row)? {
        Some(departure) => Ok(departure.words()),
        None => Ok(""),
    }
}
