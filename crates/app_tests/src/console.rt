//! What the console answers. Each reply was worked out by hand from the messages of the protocol and the columns of each table.
use crate::console_books::{Rows, one_lease, view};
use crate::every_setting::{CHANGED, DEFAULTS, FILE};
use book_model::events::ClientState;
use book_register::view::BookView;
use bytes::BytesMut;
use console_core::commands::{Command, read_command};
use console_core::messages::{Response, response_to};
use console_core::reply::{ConsoleReply, answer};
use console_core::writing::{put_refusal, put_reply, put_welcome};
use frame_view::Frame;
use ini_config::read_settings;
use message_view::KeyWord;
use session_values::cause::Cause;
use std::alloc::Global;
use std::test::Fail;

const NOTHING: Rows = Rows {
    clients: &[],
    tickets: &[],
    lent: &[],
    idle: &[],
};

/// The bytes by which a command is answered over this book, under the settings of this file.
fn answered(alloc: Global, view: &BookView, file: &[u8], command: &[u8]) -> Result<BytesMut, Fail> {
    let settings = read_settings(alloc, file)?;
    let reply = answer(alloc, view, &settings, command)?;
    let mut out = BytesMut::new(alloc);
    put_reply(alloc, &reply, &mut out)?;
    Ok(out)
}

/// Whether these bytes answer the command, whatever is in the book.
fn is_answer(alloc: Global, command: &[u8], wanted: &[u8]) -> Result<bool, Fail> {
    let view = view(alloc, &NOTHING)?;
    let out = answered(alloc, &view, b"", command)?;
    Ok(out.as_slice() == wanted)
}

const VERSION: &[u8] =
    b"T\0\0\0\x20\0\x01version\0\0\0\0\0\0\0\0\0\0\x19\xff\xff\xff\xff\xff\xff\0\0D\0\0\0\x12\0\x01\0\0\0\x08pgsess 1C\0\0\0\x09SHOW\0Z\0\0\0\x05I";

const SYNTAX: &[u8] = b"E\0\0\0\x28SERROR\0VERROR\0C42601\0Msyntax error\0\0Z\0\0\0\x05I";

#[test]
fn commands(rt: HostRuntime) -> Result<(), Fail> {
    let rows: &[(&[u8], &[u8])] = &[
        (b"SHOW VERSION;", VERSION),
        (b"show version", VERSION),
        (
            b" \t\r\n\x0cshow\x0c\n\r\t Version \x0c\n\r\t;\t\r\n\x0c ",
            VERSION,
        ),
        (b"PAUSE", b"C\0\0\0\x0aPAUSE\0Z\0\0\0\x05I"),
        (b"RESUME", b"C\0\0\0\x0bRESUME\0Z\0\0\0\x05I"),
        (b"RELOAD", b"C\0\0\0\x0bRELOAD\0Z\0\0\0\x05I"),
        (b"SHUTDOWN", b"C\0\0\0\x0dSHUTDOWN\0Z\0\0\0\x05I"),
        (b"pause;", b"C\0\0\0\x0aPAUSE\0Z\0\0\0\x05I"),
        (b"  Resume  ;  ", b"C\0\0\0\x0bRESUME\0Z\0\0\0\x05I"),
        (b"\nshutDown", b"C\0\0\0\x0dSHUTDOWN\0Z\0\0\0\x05I"),
        (
            b"SHUTDOWN WAIT_FOR_CLIENTS",
            b"C\0\0\0\x0dSHUTDOWN\0Z\0\0\0\x05I",
        ),
        (
            b"shutdown\twait_for_Servers ;",
            b"C\0\0\0\x0dSHUTDOWN\0Z\0\0\0\x05I",
        ),
        (b"reconnect;", b"C\0\0\0\x0eRECONNECT\0Z\0\0\0\x05I"),
        (b"wait_close", b"C\0\0\0\x0fWAIT_CLOSE\0Z\0\0\0\x05I"),
        (b"WAIT_CLOSE shop;", b"C\0\0\0\x0fWAIT_CLOSE\0Z\0\0\0\x05I"),
    ];
    for &(command, wanted) in rows {
        assert!(rt; is_answer(rt.alloc(), command, wanted)?);
    }
    Ok(())
}

#[test]
fn no_commands(rt: HostRuntime) -> Result<(), Fail> {
    let rows: &[&[u8]] = &[
        b"",
        b";",
        b"  ",
        b"SHOW",
        b"SHOW;",
        b"SHOW X",
        b"SHOW PAUSE",
        b"VERSION",
        b"PAUSE shop",
        b"PAUSE;;",
        b"; PAUSE",
        b"PAUSE; RESUME",
        b"SHOW VERSION;;",
        b"SHOW; VERSION",
        b"SHOWVERSION",
        b"SHOW VERSION x",
        b"SHOW VERSIONS",
        b"SHOW \"VERSION\"",
        b"SHOW\x0bVERSION",
        b"SHOW VERSION\x0b",
        b"SHOW VERSION -- now",
        b"\xd0\x9fAUSE",
        b"PAUSE_",
        b"SHOW_VERSION",
        b"RECONNECT shop",
        b"SHUTDOWN NOW",
        b"SHUTDOWN WAIT_FOR",
        b"SHUTDOWN WAIT_FOR_CLIENTS now",
        b"WAIT_CLOSE a b",
        b"WAIT_CLOSE a;b",
        b"WAIT_CLOSE \"a",
        b"WAIT_CLOSE \"a\"b",
        b"WAIT_CLOSE ;;",
    ];
    for &command in rows {
        assert!(rt; is_answer(rt.alloc(), command, SYNTAX)?);
    }
    Ok(())
}

/// The database that a WAIT_CLOSE names.
fn awaited(text: &[u8]) -> Option<&[u8]> {
    match read_command(text) {
        Some(Command::Await(database)) => database,
        _ => None,
    }
}

#[test]
fn databases_that_are_awaited(rt: HostRuntime) {
    let rows: &[(&[u8], Option<&[u8]>)] = &[
        (b"WAIT_CLOSE", None),
        (b"WAIT_CLOSE;", None),
        (b"WAIT_CLOSE shop", Some(b"shop")),
        (b"wait_close\t Shop-2 ; ", Some(b"Shop-2")),
        (b"WAIT_CLOSE a\"b", Some(b"a\"b")),
        (b"WAIT_CLOSE \"my ;shop\";", Some(b"my ;shop")),
        (b"WAIT_CLOSE\"shop\"", Some(b"shop")),
        (b"WAIT_CLOSE \"\"", Some(b"")),
    ];
    for &(text, wanted) in rows {
        assert!(rt; awaited(text) == wanted);
    }
}

/// Whether these are the bytes of the pieces, one after another.
fn are_pieces(bytes: &[u8], heading: &[u8], rows: &[&[u8]], end: &[u8]) -> bool {
    let Some(mut rest) = bytes.strip_prefix(heading) else {
        return false;
    };
    for row in rows {
        match rest.strip_prefix(*row) {
            Some(behind) => rest = behind,
            None => return false,
        }
    }
    rest == end
}

/// The end of each table.
const END: &[u8] = b"C\0\0\0\x09SHOW\0Z\0\0\0\x05I";

const POOLS_HEADING: &[u8] =
    b"T\0\0\0\xa7\0\x06database\0\0\0\0\0\0\0\0\0\0\x19\xff\xff\xff\xff\xff\xff\0\0user\0\0\0\0\0\0\0\0\0\0\x19\xff\xff\xff\xff\xff\xff\0\0cl_active\0\0\0\0\0\0\0\0\0\0\x19\xff\xff\xff\xff\xff\xff\0\0cl_waiting\0\0\0\0\0\0\0\0\0\0\x19\xff\xff\xff\xff\xff\xff\0\0sv_active\0\0\0\0\0\0\0\0\0\0\x19\xff\xff\xff\xff\xff\xff\0\0sv_idle\0\0\0\0\0\0\0\0\0\0\x19\xff\xff\xff\xff\xff\xff\0\0";

const CLIENTS_HEADING: &[u8] =
    b"T\0\0\0\x37\0\x02number\0\0\0\0\0\0\0\0\0\0\x19\xff\xff\xff\xff\xff\xff\0\0state\0\0\0\0\0\0\0\0\0\0\x19\xff\xff\xff\xff\xff\xff\0\0";

const SERVERS_HEADING: &[u8] =
    b"T\0\0\0\x69\0\x04number\0\0\0\0\0\0\0\0\0\0\x19\xff\xff\xff\xff\xff\xff\0\0database\0\0\0\0\0\0\0\0\0\0\x19\xff\xff\xff\xff\xff\xff\0\0user\0\0\0\0\0\0\0\0\0\0\x19\xff\xff\xff\xff\xff\xff\0\0state\0\0\0\0\0\0\0\0\0\0\x19\xff\xff\xff\xff\xff\xff\0\0";

const CONFIG_HEADING: &[u8] =
    b"T\0\0\0\x34\0\x02key\0\0\0\0\0\0\0\0\0\0\x19\xff\xff\xff\xff\xff\xff\0\0value\0\0\0\0\0\0\0\0\0\0\x19\xff\xff\xff\xff\xff\xff\0\0";

const TOTALS_HEADING: &[u8] =
    b"T\0\0\0\x89\0\x05decisions\0\0\0\0\0\0\0\0\0\0\x19\xff\xff\xff\xff\xff\xff\0\0starts\0\0\0\0\0\0\0\0\0\0\x19\xff\xff\xff\xff\xff\xff\0\0reuses\0\0\0\0\0\0\0\0\0\0\x19\xff\xff\xff\xff\xff\xff\0\0evictions\0\0\0\0\0\0\0\0\0\0\x19\xff\xff\xff\xff\xff\xff\0\0losses\0\0\0\0\0\0\0\0\0\0\x19\xff\xff\xff\xff\xff\xff\0\0";

/// Whether a command is answered by the table of this heading and these rows.
fn shows(
    alloc: Global,
    view: &BookView,
    command: &[u8],
    heading: &[u8],
    rows: &[&[u8]],
) -> Result<bool, Fail> {
    let out = answered(alloc, view, b"", command)?;
    Ok(are_pieces(out.as_slice(), heading, rows, END))
}

#[test]
fn tables_without_rows(rt: HostRuntime) -> Result<(), Fail> {
    let view = view(rt.alloc(), &NOTHING)?;
    let rows: &[(&[u8], &[u8])] = &[
        (b"SHOW POOLS", POOLS_HEADING),
        (b"SHOW CLIENTS", CLIENTS_HEADING),
        (b"SHOW SERVERS", SERVERS_HEADING),
    ];
    for &(command, heading) in rows {
        assert!(rt; shows(rt.alloc(), &view, command, heading, &[])?);
    }
    Ok(())
}

/// Clients, tickets and links out of any order, and names that aren't plain: two pools that would be one if their names were put one behind
/// the other, and names that differ in case or by a last byte.
const BUSY: Rows = Rows {
    clients: &[
        (10, ClientState::Active),
        (1, ClientState::Active),
        (u64::MAX, ClientState::Waiting),
        (2, ClientState::Waiting),
        (9, ClientState::LoggingIn),
    ],
    tickets: &[
        (2, b"shop", b"ann"),
        (4, b"\xff\xfe", b"o'x"),
        (u64::MAX, b"shop", b"ann"),
        (5, b"a\"b\n", b"zed"),
    ],
    lent: &[
        (100, b"shop", b"ann"),
        (10, b"shop", b"2ann"),
        (9, b"shop", b"ann"),
        (11, b"shop2", b"ann"),
    ],
    idle: &[
        (12, b"shop", b"ann\t"),
        (2, b"Shop", b"ann"),
        (3, b"shop", b"ann"),
    ],
};

/// By database, then user, in the order of their bytes.
const POOLS: &[&[u8]] = &[
    b"D\0\0\0\x29\0\x06\0\0\0\x04Shop\0\0\0\x03ann\0\0\0\x010\0\0\0\x010\0\0\0\x010\0\0\0\x011",
    b"D\0\0\0\x29\0\x06\0\0\0\x04a\"b\n\0\0\0\x03zed\0\0\0\x010\0\0\0\x011\0\0\0\x010\0\0\0\x010",
    b"D\0\0\0\x2a\0\x06\0\0\0\x04shop\0\0\0\x042ann\0\0\0\x011\0\0\0\x010\0\0\0\x011\0\0\0\x010",
    b"D\0\0\0\x29\0\x06\0\0\0\x04shop\0\0\0\x03ann\0\0\0\x012\0\0\0\x012\0\0\0\x012\0\0\0\x011",
    b"D\0\0\0\x2a\0\x06\0\0\0\x04shop\0\0\0\x04ann\t\0\0\0\x010\0\0\0\x010\0\0\0\x010\0\0\0\x011",
    b"D\0\0\0\x2a\0\x06\0\0\0\x05shop2\0\0\0\x03ann\0\0\0\x011\0\0\0\x010\0\0\0\x011\0\0\0\x010",
    b"D\0\0\0\x27\0\x06\0\0\0\x02\xff\xfe\0\0\0\x03o'x\0\0\0\x010\0\0\0\x011\0\0\0\x010\0\0\0\x010",
];

/// By number, not by its text.
const SERVERS: &[&[u8]] = &[
    b"D\0\0\0\x22\0\x04\0\0\0\x012\0\0\0\x04Shop\0\0\0\x03ann\0\0\0\x04idle",
    b"D\0\0\0\x22\0\x04\0\0\0\x013\0\0\0\x04shop\0\0\0\x03ann\0\0\0\x04idle",
    b"D\0\0\0\x24\0\x04\0\0\0\x019\0\0\0\x04shop\0\0\0\x03ann\0\0\0\x06active",
    b"D\0\0\0\x26\0\x04\0\0\0\x0210\0\0\0\x04shop\0\0\0\x042ann\0\0\0\x06active",
    b"D\0\0\0\x26\0\x04\0\0\0\x0211\0\0\0\x05shop2\0\0\0\x03ann\0\0\0\x06active",
    b"D\0\0\0\x24\0\x04\0\0\0\x0212\0\0\0\x04shop\0\0\0\x04ann\t\0\0\0\x04idle",
    b"D\0\0\0\x26\0\x04\0\0\0\x03100\0\0\0\x04shop\0\0\0\x03ann\0\0\0\x06active",
];

const CLIENTS: &[&[u8]] = &[
    b"D\0\0\0\x15\0\x02\0\0\0\x011\0\0\0\x06active",
    b"D\0\0\0\x16\0\x02\0\0\0\x012\0\0\0\x07waiting",
    b"D\0\0\0\x14\0\x02\0\0\0\x019\0\0\0\x05login",
    b"D\0\0\0\x16\0\x02\0\0\0\x0210\0\0\0\x06active",
    b"D\0\0\0\x29\0\x02\0\0\0\x1418446744073709551615\0\0\0\x07waiting",
];

const TOTALS: &[&[u8]] = &[
    b"D\0\0\0\x34\0\x05\0\0\0\x1418446744073709551615\0\0\0\x0212\0\0\0\x010\0\0\0\x013\0\0\0\x0210",
];

#[test]
fn tables(rt: HostRuntime) -> Result<(), Fail> {
    let view = view(rt.alloc(), &BUSY)?;
    let rows: &[(&[u8], &[u8], &[&[u8]])] = &[
        (b"SHOW POOLS", POOLS_HEADING, POOLS),
        (b"SHOW SERVERS", SERVERS_HEADING, SERVERS),
        (b"SHOW CLIENTS", CLIENTS_HEADING, CLIENTS),
        (b"SHOW TOTALS", TOTALS_HEADING, TOTALS),
    ];
    for &(command, heading, rows) in rows {
        assert!(rt; shows(rt.alloc(), &view, command, heading, rows)?);
    }
    Ok(())
}

/// The pool of ann on shop, while she has a link, and when it came back.
const LENT: &[u8] =
    b"D\0\0\0\x29\0\x06\0\0\0\x04shop\0\0\0\x03ann\0\0\0\x011\0\0\0\x010\0\0\0\x011\0\0\0\x010";

const BACK: &[u8] =
    b"D\0\0\0\x29\0\x06\0\0\0\x04shop\0\0\0\x03ann\0\0\0\x010\0\0\0\x010\0\0\0\x010\0\0\0\x011";

#[test]
fn one_pool(rt: HostRuntime) -> Result<(), Fail> {
    for (is_given_back, row) in [(false, LENT), (true, BACK)] {
        let view = one_lease(rt.alloc(), is_given_back)?;
        assert!(rt; shows(rt.alloc(), &view, b"SHOW POOLS", POOLS_HEADING, &[row])?);
    }
    Ok(())
}

#[test]
fn settings(rt: HostRuntime) -> Result<(), Fail> {
    let view = view(rt.alloc(), &NOTHING)?;
    let rows: &[(&[u8], &[&[u8]])] = &[(b"", DEFAULTS), (FILE, CHANGED)];
    for &(file, rows) in rows {
        let out = answered(rt.alloc(), &view, file, b"SHOW CONFIG")?;
        assert!(rt; are_pieces(out.as_slice(), CONFIG_HEADING, rows, END));
    }
    Ok(())
}

const WELCOME: &[u8] =
    b"S\0\0\0\x19client_encoding\0UTF8\0S\0\0\0\x19server_encoding\0UTF8\0S\0\0\0\x18server_version\016.0\0K\0\0\0\x0c\0\0\0\x01\0\0\0\x02Z\0\0\0\x05I";

/// A RELOAD whose files have a fault.
const INVALID: &[u8] = b"E\0\0\0\x29SERROR\0VERROR\0C22023\0Minvalid value\0\0Z\0\0\0\x05I";

/// The welcome of a key word, and an error behind it.
#[test]
fn welcome_and_error(rt: HostRuntime) -> Result<(), Fail> {
    let word = KeyWord {
        pid: 1,
        secret: 2,
        salt: [1, 2, 3, 4],
    };
    let mut out = BytesMut::new(rt.alloc());
    put_welcome(rt.alloc(), word, &mut out)?;
    assert!(rt; out.as_slice() == WELCOME);
    put_refusal(rt.alloc(), Cause::InvalidValue, &mut out)?;
    assert!(rt; are_pieces(out.as_slice(), WELCOME, &[], INVALID));
    Ok(())
}

/// The bytes of a reply.
fn written(alloc: Global, reply: &ConsoleReply) -> Result<BytesMut, Fail> {
    let mut out = BytesMut::new(alloc);
    put_reply(alloc, reply, &mut out)?;
    Ok(out)
}

#[test]
fn what_is_not_done(rt: HostRuntime) -> Result<(), Fail> {
    let rows: [(ConsoleReply, &[u8]); 2] = [
        (
            ConsoleReply::NotAllowed,
            b"E\0\0\0\x2fSERROR\0VERROR\0C42501\0Madmin access needed\0\0Z\0\0\0\x05I",
        ),
        (
            ConsoleReply::ShuttingDown,
            b"E\0\0\0\x33SERROR\0VERROR\0C57P01\0Mpooler is shutting down\0\0Z\0\0\0\x05I",
        ),
    ];
    for (reply, wanted) in &rows {
        assert!(rt; written(rt.alloc(), reply)?.as_slice() == *wanted);
    }
    Ok(())
}

/// A response in a word, or the command that it answers.
fn told(response: Response<'_>) -> &[u8] {
    match response {
        Response::Answer(command) => command,
        Response::Malformed => b"malformed",
        Response::NotServed => b"not served",
        Response::Ready => b"ready",
        Response::Nothing => b"nothing",
        Response::Leave => b"leaves",
    }
}

/// A message by its type and body, and what it is answered by: where messages aren't dropped, and where they are.
const MESSAGES: &[(u8, &[u8], &[u8], &[u8])] = &[
    (b'Q', b"PAUSE\0", b"PAUSE", b"nothing"),
    (b'Q', b"\0", b"", b"nothing"),
    (b'Q', b"PAUSE", b"malformed", b"nothing"),
    (b'Q', b"PAUSE\0;\0", b"malformed", b"nothing"),
    (b'Q', b"", b"malformed", b"nothing"),
    (b'S', b"", b"ready", b"ready"),
    (b'H', b"", b"nothing", b"nothing"),
    (b'X', b"", b"leaves", b"leaves"),
    (b'P', b"\0PAUSE\0\0\0", b"not served", b"nothing"),
    (b'F', b"", b"not served", b"nothing"),
    (b'p', b"secret\0", b"not served", b"nothing"),
    (b'd', b"", b"not served", b"nothing"),
];

#[test]
fn messages(rt: HostRuntime) {
    for &(kind, body, wanted, where_dropped) in MESSAGES {
        let frame = Frame {
            kind,
            body,
            whole: body,
        };
        assert!(rt; told(response_to(frame, false)) == wanted);
        assert!(rt; told(response_to(frame, true)) == where_dropped);
    }
}
