//! What is logged of the program itself, and the lines of it.
ghost use Rattle.std.specs.Prelude.{◌≡◌, ◌++◌, codes, decimal, OnOk};
ghost use Rattle.std.specs.List.{flat_map};
ghost use Rattle.log_lines.specs.Events.{counted, counted_view};
ghost use Rattle.log_lines.specs.Events as spec;
ghost use Rattle.log_lines.specs.Shown.{address, shown_text};

use crate::lines::put_said;
use crate::shown::{put_address, put_name, put_number, put_text};
use std::alloc::AllocError;

/// What a pool has done when it ends.
#[derive(Clone, Copy)]
pub struct Totals {
    /// All decisions of the book.
    pub decisions: u64,
    /// Links started.
    pub starts: u64,
    /// The decisions by class, which are all together: clients let in.
    pub arrived: u64,
    /// Links granted.
    pub granted: u64,
    /// Links given back.
    pub given_back: u64,
    /// Links lost, or not started.
    pub lost: u64,
    /// Clients gone.
    pub left: u64,
    /// All others.
    pub others: u64,
}

/// What went through a pool in a period.
#[derive(Clone, Copy)]
pub struct Rates {
    /// Transactions a second.
    pub transactions: u64,
    /// Queries a second.
    pub queries: u64,
    /// Bytes a second that came from clients.
    pub received: u64,
    /// Bytes a second that went to clients.
    pub sent: u64,
    /// Microseconds of a transaction, on average.
    pub transaction_time: u64,
    /// Microseconds of a query.
    pub query_time: u64,
    /// Microseconds that a client waited for its link.
    pub wait_time: u64,
}

/// What came from the server of an idle link.
#[derive(Clone, Copy)]
pub enum Heard<'a> {
    /// Its end.
    Ended,
    /// An ErrorResponse or a NoticeResponse, the whole message.
    Said(&'a [u8]),
    /// Something else.
    Spoke,
}

/// What is logged of the program itself.
#[derive(Clone, Copy)]
pub enum Event<'a> {
    /// It listens at this address or folder, and port.
    Listening(&'a [u8], u16),
    /// It doesn't listen at this folder and port, because of this.
    NotListening(&'a [u8], u16, &'a [u8]),
    /// The pool's figures are had by HTTP at this host and port.
    ListeningForMetrics(&'a [u8], u16),
    /// They aren't, because of this.
    NotListeningForMetrics(&'a [u8], u16, &'a [u8]),
    /// A server of this host and port couldn't be reached, because of this.
    Unreached(&'a [u8], u16, &'a [u8]),
    /// No file was left for a connection to the server of this host and port, because of this.
    NoFile(&'a [u8], u16, &'a [u8]),
    /// The clock can't be read: no limit of time is over until it can.
    NoClock,
    /// The settings and users were read again.
    Reloaded,
    /// They weren't, because of this fault.
    NotReloaded(&'a [u8]),
    /// The files say this anew, which is as it was at the start.
    AsAtStart(&'a [u8]),
    /// So many users have a secret by which nobody can log in; this is the first of them.
    NoPasswords(u64, &'a [u8]),
    /// So many connections were closed unserved, for want of a thread, a poll, a file or memory.
    Wanting(u64),
    /// So many connections were closed that were late, and hadn't said who they are.
    Late(u64),
    /// So many lines of the log were dropped.
    Dropped(u64),
    /// The idle link of this number was closed, to what came from its server.
    IdleClosed(u64, Heard<'a>),
    /// What went through the pool in the last period.
    Stats(Rates),
    /// The pool has ended.
    Ended(Totals),
}

/// A number, and what there are so many of.
fn put_count(line: &mut Vec<u8>, n: u64, what: &[u8]) -> Result<(), AllocError>
    ensures { OnOk result (line.new.items ≡ line.old.items ++ counted (n, what.now)) }
{
    put_number(line, n)?;
    line.extend_from_slice(what)
}

fn counts_of(totals: &Totals) -> [(u64, &'static [u8]); 8]
    ensures { flat_map counted_view result ≡ flat_map counted (spec.counts totals.now) }
{
    [
        (totals.decisions, b" decisions, "),
        (totals.starts, b" starts; "),
        (totals.arrived, b" arrived, "),
        (totals.granted, b" granted, "),
        (totals.given_back, b" given back, "),
        (totals.lost, b" lost, "),
        (totals.left, b" left, "),
        (totals.others, b" others"),
    ]
}

fn rates_of(rates: &Rates) -> [(u64, &'static [u8]); 7]
    ensures { flat_map counted_view result ≡ flat_map counted (spec.rates rates.now) }
{
    [
        (rates.transactions, b" transactions/s, "),
        (rates.queries, b" queries/s, "),
        (rates.received, b" B/s in, "),
        (rates.sent, b" B/s out; "),
        (rates.transaction_time, b" us a transaction, "),
        (rates.query_time, b" us a query, "),
        (rates.wait_time, b" us a wait"),
    ]
}

/// Numbers, each with what there are so many of.
fn put_counts(line: &mut Vec<u8>, counts: &[(u64, &[u8])]) -> Result<(), AllocError>
    ensures { OnOk result (line.new.items ≡ line.old.items ++ flat_map counted_view counts.now) }
{
    for (n, what) in counts {
        put_count(line, *n, *what)?;
    }
    Ok(())
}

fn put_fault(line: &mut Vec<u8>, fault: &[u8]) -> Result<(), AllocError>
    ensures { OnOk result (line.new.items ≡ line.old.items ++ (codes "not reloaded: " ++ shown_text fault.now)) }
{
    line.extend_from_slice(b"not reloaded: ")?;
    put_text(line, fault)
}

fn put_no_passwords(line: &mut Vec<u8>, n: u64, first: &[u8]) -> Result<(), AllocError>
    ensures { OnOk result (line.new.items ≡ line.old.items ++ spec.no_passwords n first.now) }
{
    put_count(
        line,
        n,
        b" secrets of the user file accept no password, the first that of ",
    )?;
    put_name(line, first)
}

/// A host or folder, and a port.
fn put_place(line: &mut Vec<u8>, host: &[u8], port: u16) -> Result<(), AllocError>
    ensures { OnOk result (line.new.items ≡ line.old.items ++ spec.place host.now port) }
{
    put_name(line, host)?;
    line.push(b' ')?;
    put_number(line, port as u64)
}

fn put_listening(line: &mut Vec<u8>, host: &[u8], port: u16) -> Result<(), AllocError>
    ensures { OnOk result (line.new.items ≡ line.old.items ++ (codes "listening " ++ spec.place host.now port)) }
{
    line.extend_from_slice(b"listening ")?;
    put_place(line, host, port)
}

/// A text behind another.
fn put_because(line: &mut Vec<u8>, words: &[u8], why: &[u8]) -> Result<(), AllocError>
    ensures { OnOk result (line.new.items ≡ line.old.items ++ (words.now ++ shown_text why.now)) }
{
    line.extend_from_slice(words)?;
    put_text(line, why)
}

fn put_not_listening(
    line: &mut Vec<u8>,
    folder: &[u8],
    port: u16,
    why: &[u8],
) -> Result<(), AllocError>
    ensures { OnOk result (line.new.items ≡ line.old.items ++ spec.not_listening folder.now port why.now) }
{
    line.extend_from_slice(b"not listening ")?;
    put_place(line, folder, port)?;
    put_because(line, b": ", why)
}

/// A host and its port behind a text.
fn put_at(line: &mut Vec<u8>, words: &[u8], host: &[u8], port: u16) -> Result<(), AllocError>
    ensures { OnOk result (line.new.items ≡ line.old.items ++ (words.now ++ address host.now port)) }
{
    line.extend_from_slice(words)?;
    put_address(line, host, port)
}

fn put_no_metrics(line: &mut Vec<u8>, host: &[u8], port: u16, why: &[u8]) -> Result<(), AllocError>
    ensures { OnOk result (line.new.items ≡ line.old.items ++ spec.no_metrics host.now port why.now) }
{
    line.extend_from_slice(b"not listening for metrics at ")?;
    put_address(line, host, port)?;
    put_because(line, b": ", why)
}

fn put_unreached(line: &mut Vec<u8>, host: &[u8], port: u16, why: &[u8]) -> Result<(), AllocError>
    ensures { OnOk result (line.new.items ≡ line.old.items ++ spec.unreached host.now port why.now) }
{
    line.extend_from_slice(b"server ")?;
    put_address(line, host, port)?;
    put_because(line, b" not reached: ", why)
}

fn put_no_file(line: &mut Vec<u8>, host: &[u8], port: u16, why: &[u8]) -> Result<(), AllocError>
    ensures { OnOk result (line.new.items ≡ line.old.items ++ spec.no_file host.now port why.now) }
{
    line.extend_from_slice(b"no file left for a connection to server ")?;
    put_address(line, host, port)?;
    put_because(line, b": ", why)
}

fn put_heard(line: &mut Vec<u8>, heard: Heard<'_>) -> Result<(), AllocError>
    ensures { OnOk result (line.new.items ≡ line.old.items ++ spec.heard_words heard.entry) }
{
    match heard {
        Heard::Ended => line.extend_from_slice(b"server connection ended"),
        Heard::Said(message) => put_said(line, message),
        Heard::Spoke => line.extend_from_slice(b"its server said what nobody asked for"),
    }
}

fn put_idle(line: &mut Vec<u8>, number: u64, heard: Heard<'_>) -> Result<(), AllocError>
    ensures { OnOk result (line.new.items ≡ line.old.items ++ (codes "idle link " ++ decimal number ++ codes " closed: " ++ spec.heard_words heard.entry)) }
{
    line.extend_from_slice(b"idle link ")?;
    put_number(line, number)?;
    line.extend_from_slice(b" closed: ")?;
    put_heard(line, heard)
}

fn put_words(line: &mut Vec<u8>, event: Event<'_>) -> Result<(), AllocError>
    ensures { OnOk result (line.new.items ≡ line.old.items ++ spec.event_words event.entry) }
{
    match event {
        Event::Listening(host, port) => put_listening(line, host, port),
        Event::NotListening(folder, port, why) => put_not_listening(line, folder, port, why),
        Event::ListeningForMetrics(host, port) => put_at(
            line,
            b"listening for metrics at ",
            host,
            port,
        ),
        Event::NotListeningForMetrics(host, port, why) => put_no_metrics(line, host, port, why),
        Event::Unreached(host, port, why) => put_unreached(line, host, port, why),
        Event::NoFile(host, port, why) => put_no_file(line, host, port, why),
        Event::NoClock => line.extend_from_slice(
            b"no limit of time holds until the clock can be read",
        ),
        Event::Reloaded => line.extend_from_slice(b"reloaded"),
        Event::NotReloaded(fault) => put_fault(line, fault),
        Event::AsAtStart(what) => put_because(line, b"not changed by RELOAD: ", what),
        Event::NoPasswords(n, first) => put_no_passwords(line, n, first),
        Event::Wanting(n) => put_count(
            line,
            n,
            b" connections closed for want of a thread, a poll, a file or memory",
        ),
        Event::Late(n) => put_count(
            line,
            n,
            b" connections closed that didn't say who they are in client_login_timeout",
        ),
        Event::Dropped(n) => put_count(line, n, b" lines of the log were dropped"),
        Event::IdleClosed(number, heard) => put_idle(line, number, heard),
        Event::Stats(rates) => {
            line.extend_from_slice(b"stats: ")?;
            put_counts(line, &rates_of(&rates))
        }
        Event::Ended(totals) => {
            line.extend_from_slice(b"shut down: ")?;
            put_counts(line, &counts_of(&totals))
        }
    }
}

/// Appends an event's line, without its end, to a buffer. The only error is that an allocation failed: then the buffer holds a
/// part of it.
pub fn put_event(line: &mut Vec<u8>, event: Event<'_>) -> Result<(), AllocError>
    ensures { OnOk result (line.new.items ≡ line.old.items ++ spec.event_line event.entry) }
{
    line.extend_from_slice(b"pgsess: ")?;
    put_words(line, event)
}
