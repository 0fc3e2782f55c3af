//! The lines of the log. Each was worked out by hand from what is told.
use arrayvec::ArrayString;
use log_lines::events::{Event, Heard, Rates, Totals, put_event};
use log_lines::lines::{ends_session, put_note};
use log_lines::notes::{Client, LoginFailure, Loss, Note, Server, Unstarted, Visit};
use message_view::Refusal;
use std::alloc::Global;
use std::test::Fail;

/// A client's connection from this host.
fn visit(host: &str) -> Visit {
    Visit {
        host: match ArrayString::from(host) {
            Ok(host) => host,
            Err(_) => ArrayString::new(),
        },
        port: 40_112,
        since: None,
    }
}

fn ann() -> Client<'static> {
    Client {
        visit: visit("10.0.0.5"),
        number: Some(12),
        user: b"ann",
        database: b"shop",
    }
}

const SERVER: Server<'static> = Server {
    host: b"127.0.0.1",
    port: 5432,
};

/// Whether this is the line of what is told of the client.
fn is_line(
    alloc: Global,
    client: &Client<'_>,
    note: Note<'_>,
    ms: Option<u64>,
    wanted: &[u8],
) -> Result<bool, Fail> {
    let mut line = Vec::new(alloc);
    put_note(&mut line, client, note, ms)?;
    Ok(line.as_slice() == wanted)
}

/// Whether the line of ann goes on so after her address.
fn goes_on(alloc: Global, note: Note<'_>, ms: Option<u64>, wanted: &[u8]) -> Result<bool, Fail> {
    let mut line = Vec::new(alloc);
    line.extend_from_slice(b"pgsess: client 12 ann@shop from 10.0.0.5:40112")?;
    line.extend_from_slice(wanted)?;
    is_line(alloc, &ann(), note, ms, &line)
}

#[test]
fn what_a_client_comes_to(rt: HostRuntime) -> Result<(), Fail> {
    let rows: &[(Note<'_>, Option<u64>, &[u8])] = &[
        (Note::LoggedIn, Some(7), b" in"),
        (Note::Closed, Some(3_299), b" out after 3.2 s"),
        (Note::Closed, None, b" out"),
        (
            Note::Late,
            Some(60_049),
            b" closed after 60.0 s: not through its login in client_login_timeout",
        ),
        (
            Note::Refused(Refusal::WaitedTooLong),
            Some(120_400),
            b" refused after 120.4 s: query_wait_timeout (P5)",
        ),
        (
            Note::UnsupportedParameter(b"search_path"),
            Some(0),
            b" refused after 0.0 s: unsupported startup parameter \"search_path\" (P4)",
        ),
        (
            Note::LoginFailed(LoginFailure::WrongPassword),
            Some(99),
            b" failed after 0.0 s: password authentication failed (28P01): wrong password",
        ),
        (
            Note::LoginFailed(LoginFailure::NoUser),
            Some(99),
            b" failed after 0.0 s: password authentication failed (28P01): no such user",
        ),
        (
            Note::LoginFailed(LoginFailure::NoAdmin),
            Some(99),
            b" failed after 0.0 s: password authentication failed (28P01): not of admin_users or stats_users",
        ),
        (
            Note::LoginFailed(LoginFailure::Digest),
            Some(99),
            b" failed after 0.0 s: password authentication failed (28P01): its secret is an MD5 digest, by which SCRAM judges nobody",
        ),
        (
            Note::LoginFailed(LoginFailure::Rounds),
            Some(99),
            b" failed after 0.0 s: password authentication failed (28P01): its SCRAM verifier has more than 1,000,000 rounds",
        ),
        (
            Note::LoginFailed(LoginFailure::NoSecret),
            None,
            b" failed: password authentication failed (28P01): its secret is empty, or a spoiled SCRAM verifier",
        ),
        (
            Note::NoDatabase,
            Some(100),
            b" failed after 0.1 s: database does not exist (3D000)",
        ),
        (
            Note::AsksAgain(SERVER, NO_PLACE),
            Some(1_500),
            b" asks again after 1.5 s: server 127.0.0.1:5432 refused the start: 53300 sorry, too many clients already",
        ),
        (
            Note::Lent(7, SERVER, Some(4_294_967_295)),
            Some(5),
            b" has link 7 to server 127.0.0.1:5432, process 4294967295",
        ),
        (
            Note::Lent(7, SERVER, None),
            Some(5),
            b" has link 7 to server 127.0.0.1:5432",
        ),
        (
            Note::LinkLost(7, Loss::Ended),
            Some(5),
            b" link 7 closed: server connection ended",
        ),
        (
            Note::LinkLost(7, Loss::Said(TERMINATED)),
            Some(5),
            b" link 7 closed: its server said 57P01 terminating connection due to administrator command",
        ),
        (
            Note::LinkLost(7, Loss::InBlock),
            None,
            b" link 7 closed: left within a transaction block",
        ),
        (Note::Paused, None, b" paused the pool"),
        (Note::Resumed, None, b" resumed the pool"),
        (Note::Reconnecting, None, b" reconnects the pool"),
        (Note::ShuttingDown, None, b" shuts the pool down"),
    ];
    for &(note, ms, wanted) in rows {
        assert!(rt; goes_on(rt.alloc(), note, ms, wanted)?);
    }
    Ok(())
}

/// What a server says that has no slot left: 53300, `sorry, too many clients already`.
const NO_PLACE: &[u8] = b"E\0\0\0\x3bSFATAL\0VFATAL\0C53300\0Msorry, too many clients already\0\0";

/// What a server says whose administrator ends a session, in the words of a French one: 57P01.
const TERMINATED: &[u8] =
    b"E\0\0\0\x52SFATALE\0VFATAL\0C57P01\0Mterminating connection due to administrator command\0R\0\0";

/// An error of a query, after which the session goes on: 42601.
const SYNTAX: &[u8] = b"E\0\0\0\x2fSERROR\0VERROR\0C42601\0Msyntax error at end\0\0";

// A release before 9.6 has the severity in its own language alone.
#[test]
fn errors_by_which_a_session_ends(rt: HostRuntime) -> Result<(), Fail> {
    let rows: &[(&[u8], bool)] = &[
        (SERVER_ERROR, true),
        (TERMINATED, true),
        (SYNTAX, false),
        (b"E\0\0\0\x1bSPANIC\0CXX000\0Mno WAL\0\0", true),
        (b"E\0\0\0\x1aSFATALE\0C57P01\0Mgone\0\0", false),
        (b"E\0\0\0\x05\0", false),
        (b"E\0\0", false),
    ];
    for &(message, wanted) in rows {
        assert!(rt; ends_session(message) == wanted);
    }
    Ok(())
}

/// A FATAL error of a server: 28P01, `password authentication failed for user "ann"`.
const SERVER_ERROR: &[u8] =
    b"E\0\0\0\x49SFATAL\0VFATAL\0C28P01\0Mpassword authentication failed for user \"ann\"\0\0";

#[test]
fn why_no_link_was_started(rt: HostRuntime) -> Result<(), Fail> {
    let rows: &[(Unstarted<'_>, &[u8])] = &[
        (Unstarted::NotReached, b" could not be reached (P7)"),
        (
            Unstarted::Unanswerable(10),
            b" asks for SCRAM (authentication method 10), which can't be answered: the user file has no password, or SCRAM-SHA-256 isn't offered (P7)",
        ),
        (
            Unstarted::Unanswerable(7),
            b" asks for authentication method 7, which isn't served: use SCRAM, md5 or a password (P7)",
        ),
        (
            Unstarted::Unanswerable(3),
            b" asks for a password (authentication method 3), which can't be given: the user file has none (P7)",
        ),
        (
            Unstarted::Unanswerable(5),
            b" asks for MD5 (authentication method 5), which can't be answered: the user file has neither a password nor its digest (P7)",
        ),
        (
            Unstarted::Lost,
            b" closed the connection within its start (P7)",
        ),
        (
            Unstarted::TimedOut,
            b" didn't answer its start in time (P7)",
        ),
        (
            Unstarted::Refused(SERVER_ERROR),
            b" refused the start: 28P01 password authentication failed for user \"ann\"",
        ),
        (Unstarted::Refused(b"E\0\0"), b" refused the start:  "),
    ];
    for &(why, wanted) in rows {
        let mut words = Vec::new(rt.alloc());
        words.extend_from_slice(b" refused after 1.5 s: server 127.0.0.1:5432")?;
        words.extend_from_slice(wanted)?;
        assert!(rt;
            goes_on(
                rt.alloc(),
                Note::Unstarted(SERVER, why),
                Some(1_500),
                &words
            )?
        );
    }
    Ok(())
}

// Before its StartupMessage is read a client has neither name nor number.
#[test]
fn unknown_clients(rt: HostRuntime) -> Result<(), Fail> {
    let client = Client {
        visit: visit("10.0.0.5"),
        number: None,
        user: b"",
        database: b"",
    };
    let wanted = b"pgsess: client from 10.0.0.5:40112 refused: malformed client message (P3)";
    let note = Note::Refused(Refusal::MalformedClientMessage);
    assert!(rt; is_line(rt.alloc(), &client, note, None, wanted)?);
    Ok(())
}

// An address of IPv6 stands between brackets; who comes over a Unix socket has none.
#[test]
fn where_clients_come_from(rt: HostRuntime) -> Result<(), Fail> {
    let rows: &[(&str, &[u8])] = &[
        (
            "2001:db8::7",
            b"pgsess: client ann@shop from [2001:db8::7]:40112 in",
        ),
        ("unix", b"pgsess: client ann@shop from unix:40112 in"),
    ];
    for &(host, wanted) in rows {
        let client = Client {
            visit: visit(host),
            number: None,
            user: b"ann",
            database: b"shop",
        };
        assert!(rt; is_line(rt.alloc(), &client, Note::LoggedIn, None, wanted)?);
    }
    Ok(())
}

// A name ends no line and holds no space; a text between quotation marks doesn't end them; an UTF-8 letter is two bytes.
#[test]
fn names_are_escaped(rt: HostRuntime) -> Result<(), Fail> {
    let client = Client {
        visit: visit("10.0.0.5"),
        number: None,
        user: b"a b\n\x1b[2J\\\x7f",
        database: b"caf\xc3\xa9",
    };
    let wanted =
        b"pgsess: client a\\x20b\\x0a\\x1b[2J\\x5c\\x7f@caf\\xc3\\xa9 from 10.0.0.5:40112 in";
    assert!(rt; is_line(rt.alloc(), &client, Note::LoggedIn, None, wanted)?);
    let note = Note::UnsupportedParameter(b"a\"\r\n~ b");
    let wanted = b" refused: unsupported startup parameter \"a\\x22\\x0d\\x0a~ b\" (P4)";
    assert!(rt; goes_on(rt.alloc(), note, None, wanted)?);
    Ok(())
}

/// The line of a client of this user.
fn line_of_user(alloc: Global, user: &[u8]) -> Result<Vec<u8>, Fail> {
    let client = Client {
        visit: visit("10.0.0.5"),
        number: None,
        user,
        database: b"d",
    };
    let mut line = Vec::new(alloc);
    put_note(&mut line, &client, Note::LoggedIn, None)?;
    Ok(line)
}

#[test]
fn two_hundred_bytes_of_a_name(rt: HostRuntime) -> Result<(), Fail> {
    let whole = line_of_user(rt.alloc(), &[b'a'; 200])?;
    assert!(rt; whole.ends_with(b"aa@d from 10.0.0.5:40112 in"));
    let cut = line_of_user(rt.alloc(), &[b'a'; 201])?;
    assert!(rt; cut.ends_with(b"aa...@d from 10.0.0.5:40112 in"));
    assert!(rt; cut.len() == whole.len() + 3);
    Ok(())
}

#[test]
fn what_the_program_tells(rt: HostRuntime) -> Result<(), Fail> {
    let totals = Totals {
        decisions: 21,
        starts: 2,
        arrived: 6,
        granted: 5,
        given_back: 4,
        lost: 1,
        left: 3,
        others: 2,
    };
    let rows: &[(Event<'_>, &[u8])] = &[
        (
            Event::Listening(b"127.0.0.1", 6432),
            b"pgsess: listening 127.0.0.1 6432",
        ),
        (
            Event::Listening(b"::1", 6432),
            b"pgsess: listening ::1 6432",
        ),
        (
            Event::NotListening(b"/run/pool", 6432, b"permission denied"),
            b"pgsess: not listening /run/pool 6432: permission denied",
        ),
        (
            Event::Unreached(b"::1", 5432, b"connection refused"),
            b"pgsess: server [::1]:5432 not reached: connection refused",
        ),
        (
            Event::NoFile(b"::1", 5432, b"Too many open files (os error 24)"),
            b"pgsess: no file left for a connection to server [::1]:5432: Too many open files (os error 24)",
        ),
        (
            Event::IdleClosed(7, Heard::Ended),
            b"pgsess: idle link 7 closed: server connection ended",
        ),
        (
            Event::IdleClosed(7, Heard::Said(SERVER_ERROR)),
            b"pgsess: idle link 7 closed: its server said 28P01 password authentication failed for user \"ann\"",
        ),
        (
            Event::IdleClosed(7, Heard::Spoke),
            b"pgsess: idle link 7 closed: its server said what nobody asked for",
        ),
        (
            Event::NoClock,
            b"pgsess: no limit of time holds until the clock can be read",
        ),
        (Event::Reloaded, b"pgsess: reloaded"),
        (
            Event::NotReloaded(b"file /etc/pgsess.ini: C3 line 7"),
            b"pgsess: not reloaded: file /etc/pgsess.ini: C3 line 7",
        ),
        (
            Event::AsAtStart(b"listen_port"),
            b"pgsess: not changed by RELOAD: listen_port",
        ),
        (
            Event::NoPasswords(2, b"ann"),
            b"pgsess: 2 secrets of the user file accept no password, the first that of ann",
        ),
        (
            Event::Wanting(17),
            b"pgsess: 17 connections closed for want of a thread, a poll, a file or memory",
        ),
        (
            Event::Dropped(18_446_744_073_709_551_615),
            b"pgsess: 18446744073709551615 lines of the log were dropped",
        ),
        (
            Event::Ended(totals),
            b"pgsess: shut down: 21 decisions, 2 starts; 6 arrived, 5 granted, 4 given back, 1 lost, 3 left, 2 others",
        ),
    ];
    for &(event, wanted) in rows {
        let mut line = Vec::new(rt.alloc());
        put_event(&mut line, event)?;
        assert!(rt; line.as_slice() == wanted);
    }
    Ok(())
}

#[test]
fn what_the_program_tells_of_figures(rt: HostRuntime) -> Result<(), Fail> {
    let rates = Rates {
        transactions: 12,
        queries: 34,
        received: 567,
        sent: 8_900,
        transaction_time: 1_234,
        query_time: 56,
        wait_time: 0,
    };
    let rows: &[(Event<'_>, &[u8])] = &[
        (
            Event::Stats(rates),
            b"pgsess: stats: 12 transactions/s, 34 queries/s, 567 B/s in, 8900 B/s out; 1234 us a transaction, 56 us a query, 0 us a wait",
        ),
        (
            Event::Late(3),
            b"pgsess: 3 connections closed that didn't say who they are in client_login_timeout",
        ),
        (
            Event::ListeningForMetrics(b"::1", 9127),
            b"pgsess: listening for metrics at [::1]:9127",
        ),
        (
            Event::NotListeningForMetrics(b"127.0.0.1", 9127, b"address in use"),
            b"pgsess: not listening for metrics at 127.0.0.1:9127: address in use",
        ),
    ];
    for &(event, wanted) in rows {
        let mut line = Vec::new(rt.alloc());
        put_event(&mut line, event)?;
        assert!(rt; line.as_slice() == wanted);
    }
    Ok(())
}
