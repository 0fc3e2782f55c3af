//! Rows: who comes, what stands behind the desk, and what comes of it.
use crate::gates::TurnClock;
use crate::guests::{QUESTION, Talk};
use crate::meanwhile::{Act, Moment};
use crate::servers::{Behind, START_ERROR};
use desk_tallies::passes::Totals;
use message_view::{Refusal, refusal_bytes};
use play_tests::files::SHOP;
use worker_parts::WELCOME;

/// The settings that a client logs in under.
#[derive(Clone, Copy, Drop)]
pub enum Under {
    /// No password is asked for.
    Trust,
    /// An MD5 password is.
    Md5,
    /// A message may have a length of 2,000.
    Short,
    /// Ann may use the console.
    Admin,
    /// She may, with an MD5 password.
    AdminMd5,
    /// A server may take as long for a start as it likes.
    Patient,
}

impl Under {
    pub(crate) fn settings(self) -> &'static [u8] {
        match self {
            Under::Trust => SHOP,
            Under::Md5 =>
                b"[databases]\nshop = host=127.0.0.1 port=5432 dbname=shop\n[pgbouncer]\nauth_type = md5\n",
            Under::Short =>
                b"[databases]\nshop = host=127.0.0.1 port=5432 dbname=shop\n[pgbouncer]\nauth_type = trust\nmax_packet_size = 2000\n",
            Under::Admin =>
                b"[databases]\nshop = host=127.0.0.1 port=5432 dbname=shop\n[pgbouncer]\nauth_type = trust\nadmin_users = ann\n",
            Under::AdminMd5 =>
                b"[databases]\nshop = host=127.0.0.1 port=5432 dbname=shop\n[pgbouncer]\nauth_type = md5\nadmin_users = ann\n",
            Under::Patient =>
                b"[databases]\nshop = host=127.0.0.1 port=5432 dbname=shop\n[pgbouncer]\nauth_type = trust\nserver_connect_timeout = 0\n",
        }
    }
}

/// The last bytes that a client is given.
#[derive(Clone, Copy, Drop)]
pub enum Last {
    Nothing,
    Refusal(Refusal),
    /// 28P01 and 3D000.
    WrongPassword,
    NoDatabase,
    /// The error of the server's own.
    StartError,
    /// The question for its password.
    Question,
    /// The last of the key word of the client with this number, up to 10, and ReadyForQuery.
    Welcome(u8),
    /// The console's answer to `SHOW VERSION`.
    Version,
    /// The answer to `SHOW application_name`, where it is empty; and its first ten bytes.
    Name,
    NameBegun,
    /// The answers to an empty Query, and to `BEGIN`.
    Empty,
    Begun,
}

/// The ends of the first welcomes.
fn welcome(number: u8) -> &'static [u8] {
    match number {
        1 => b"\0\0\0\x01\0\0\0\x01Z\0\0\0\x05I",
        2 => b"\0\0\0\x02\0\0\0\x02Z\0\0\0\x05I",
        3 => b"\0\0\0\x03\0\0\0\x03Z\0\0\0\x05I",
        _ => b"",
    }
}

impl Last {
    pub(crate) fn bytes(self) -> &'static [u8] {
        match self {
            Last::Nothing => b"",
            Last::Refusal(refusal) => refusal_bytes(refusal),
            Last::WrongPassword =>
                b"E\0\0\0\x3aSFATAL\0VFATAL\0C28P01\0Mpassword authentication failed\0\0",
            Last::NoDatabase => b"E\0\0\0\x33SFATAL\0VFATAL\0C3D000\0Mdatabase does not exist\0\0",
            Last::StartError => START_ERROR,
            Last::Question => QUESTION,
            Last::Welcome(number) => welcome(number),
            Last::Version =>
                b"T\0\0\0\x20\0\x01version\0\0\0\0\0\0\0\0\0\0\x19\xff\xff\xff\xff\xff\xff\0\0D\0\0\0\x12\0\x01\0\0\0\x08pgsess 1C\0\0\0\x09SHOW\0Z\0\0\0\x05I",
            Last::Name =>
                b"T\0\0\0\x29\0\x01application_name\0\0\0\0\0\0\0\0\0\0\x19\xff\xff\xff\xff\xff\xff\0\0D\0\0\0\x0a\0\x01\0\0\0\0C\0\0\0\x09SHOW\0Z\0\0\0\x05I",
            Last::NameBegun => b"T\0\0\0\x29\0\x01app",
            Last::Empty => b"I\0\0\0\x04Z\0\0\0\x05I",
            Last::Begun => b"C\0\0\0\x0aBEGIN\0Z\0\0\0\x05T",
        }
    }
}

/// So many bytes has the question for a password.
pub const ASKED: usize = 13;

/// AuthenticationOk.
pub const LET_IN: usize = 9;

/// A welcome.
pub const WELCOMED: usize = WELCOME;

/// A welcome but for its last fourteen, which are those of [`Last::Welcome`].
pub const UP_TO_KEY: usize = WELCOME - 14;

/// The console's welcome: AuthenticationOk, three reports, its key word and ReadyForQuery.
pub const IN_CONSOLE: usize = 105;

/// The answer to `SHOW application_name`, where it is empty.
pub const NAMED: usize = 69;

/// A client: what it says, and what it is given: so many bytes, and then these last ones.
#[derive(Clone, Copy, Drop)]
pub struct Client {
    pub talk: Talk,
    pub under: Under,
    pub before: usize,
    pub last: Last,
}

/// The first client comes and leaves once it is welcomed.
pub const LEAVES: Client = Client {
    talk: Talk::Leaves,
    under: Under::Trust,
    before: UP_TO_KEY,
    last: Last::Welcome(1),
};

/// A client comes, asks for its `application_name`, and leaves with the answer.
pub const SHOWS: Client = Client {
    talk: Talk::Shows,
    under: Under::Trust,
    before: WELCOMED,
    last: Last::Name,
};

/// A client says who it is and no more, and is given no byte.
pub const STAYS: Client = Client {
    talk: Talk::Stays,
    under: Under::Trust,
    before: 0,
    last: Last::Nothing,
};

/// A row.
#[derive(Clone, Copy, Drop)]
pub struct Row {
    /// What a failure calls it.
    pub name: &'static str,
    /// So many clients may be there, and a pool may have so many links.
    pub clients: u32,
    pub pool: u32,
    pub behind: Behind,
    /// What happens before the first client comes; and what happens later, and when.
    pub first: Act,
    pub act: Act,
    pub moment: Moment,
    /// The clock of each client's gate.
    pub clock: TurnClock,
    /// The clients that are served, one after the other, so many times.
    pub served: &'static [Client],
    pub times: u32,
    /// They have gone once they wait for a link.
    pub go: bool,
    /// How many clients and tickets there are then, and the numbers of the links that are lent and idle.
    pub there: (usize, usize),
    pub lent: &'static [u64],
    pub idle: &'static [u64],
    /// How many links were started, lent again and evicted, were lost and could not be started.
    pub starts: u64,
    pub reuses: u64,
    pub evictions: u64,
    pub losses: u64,
    pub failed_starts: u64,
    /// How many Terminates and resets the servers saw.
    pub terminates: u64,
    pub resets: u64,
    /// Of how many logins it is logged that they were late, of how many starts, and of how many lost links that their servers'
    /// connections had ended.
    pub late_logins: u64,
    pub late_starts: u64,
    pub ended_links: u64,
    /// Others are each question for a link, each lease that is keyed, each that is ended, each refusal, and what happens besides.
    pub totals: Totals,
}

/// No decision.
pub const NONE: Totals = Totals {
    arrived: 0,
    granted: 0,
    given_back: 0,
    lost: 0,
    left: 0,
    others: 0,
};

/// A desk of a hundred clients and pools of two links, where nothing else happens and nobody comes.
pub const QUIET: Row = Row {
    name: "quiet",
    clients: 100,
    pool: 2,
    behind: Behind::Sessions,
    first: Act::Nothing,
    act: Act::Nothing,
    moment: Moment::Never,
    clock: TurnClock::Still,
    served: &[],
    times: 1,
    go: false,
    there: (0, 0),
    lent: &[],
    idle: &[],
    starts: 0,
    reuses: 0,
    evictions: 0,
    losses: 0,
    failed_starts: 0,
    terminates: 0,
    resets: 0,
    late_logins: 0,
    late_starts: 0,
    ended_links: 0,
    totals: NONE,
};
