//! The times that bound what the pooler waits for, and the turns that make such times: how long each is, what it bounds, and what comes at
//! its end. Where a setting takes the place of one, or bounds the same wait, it is named; what settings alone say stands in `ini_config`.
//!
//! Public: the times, which `tcp_end` (turns of a gate), `pool_serve`, `pool_desk`, `tcp_reach`, `tcp_listen`, `pool_run`, `log_writer`,
//! `worker_threads` and `metrics_http` wait by; `MAX_TURNS` bounds loops of `console_run`, `stub_server` and `tcp_notes` too. Contracts
//! cite four of them, by name: `LINK_TURNS` and `CLIENT_TURNS` in `pool_serve`, `MAX_TURNS` in `console_run`, `CONNECT_SECONDS` in
//! `tcp_reach`. Free to change: the numbers, within what is proved of them below; docs/OPERATING.md tells them to operators.
#![tactic(auto)]

ghost use Rattle.std.specs.Prelude.{◌≡◌, ◌*◌};
ghost use Rattle.std.specs.Duration.{as_nanos};

use std::time::Duration;

/// A time in milliseconds.
#[derive(Clone, Copy, Drop)]
pub struct Milliseconds(pub u64);

impl Milliseconds {
    pub fn duration(self) -> Duration
        ensures { as_nanos result ≡ self.0 * 1_000_000 }
    {
        Duration::from_millis(self.0)
    }
}

const SECOND: Milliseconds = Milliseconds(1_000);

const MINUTE: Milliseconds = Milliseconds(60_000);

// ---- the turns of a worker's gate: none waits for longer than what is left of a limit that a setting gives

/// As long as a turn of the client alone waits: whoever waits for an answer costs a look a second. Its end is tried then.
pub const CLIENT_TURN: Milliseconds = Milliseconds(1_000);

/// As long as a turn of the link alone waits. Its end is tried then.
pub const LINK_TURN: Milliseconds = Milliseconds(100);

/// As long as any other turn waits, as while a client has its link. Both ends are tried then. An event ends it; this is for one that the
/// system might not tell.
pub const REST: Milliseconds = Milliseconds(10_000);

const _: () = prove!(LINK_TURN.0 <= CLIENT_TURN.0);

const _: () = prove!(CLIENT_TURN.0 <= REST.0);

/// The turns of the link that its start and its reset may each take: a minute of waits. At their end it is closed, and a client that was
/// to have it is told P7. A start has no more than `server_connect_timeout` either, where that isn't 0.
pub const LINK_TURNS: u32 = 600;

const _: () = prove!(LINK_TURNS as u64 * LINK_TURN.0 == MINUTE.0);

/// The turns of the client that a pause in its login and its last word may each take: a minute of waits. At their end its connection is
/// closed. A login has no more than `client_login_timeout` either, where that isn't 0.
pub const CLIENT_TURNS: u32 = 60;

const _: () = prove!(CLIENT_TURNS as u64 * CLIENT_TURN.0 == MINUTE.0);

/// The turns of the link in which the end of its connection is waited for where it wasn't reset: the first waits for nothing, since the
/// server has just spoken. At their end the log isn't told that its server ended it.
pub const ENDING_TURNS: u32 = 3;

const _: () = prove!(ENDING_TURNS as u64 * LINK_TURN.0 < SECOND.0);

/// More turns than any run takes: for a loop that ends by what it meets, in a function that may not wait for ever. Such a one is proved to
/// return, and its contract says what comes at their end too.
pub const MAX_TURNS: u64 = u64::MAX;

// ---- clients

/// As long as a client that waits for a link, or for a place at its server, sleeps. Then it is looked whether it has gone, and whether
/// `query_wait_timeout` is over.
pub const WAITING_LOOK: Milliseconds = Milliseconds(1_000);

/// The seconds that a client which may use places beyond `max_client_conn` has for its login, from its arrival on. At their end its
/// connection is closed, and the place is free. Any other has what `client_login_timeout` says.
pub const LOGIN_BEYOND_SECONDS: u32 = 10;

/// As long as a turn at the listeners waits. All are looked at then, and whether anybody is let in any more.
pub const LISTENING_TURN: Milliseconds = Milliseconds(100);

/// As long as a connection that gives way has for that. Then what it made room for is tried again.
pub const GIVING_WAY: Milliseconds = Milliseconds(50);

// ---- servers

/// The seconds that a connection to a server may take where nothing else is asked for, as under `server_connect_timeout = 0`: PgBouncer's
/// default of that. At their end no link is started, and the client is told P7.
pub const CONNECT_SECONDS: u32 = 15;

/// The seconds in which it is waited for room at a Unix socket's listener, where there are no other places. One that is there makes room
/// at once. At their end a cancel is given up, and somebody is taken to listen there.
pub const UNIX_SECONDS: u32 = 1;

/// The seconds that a cancel's connection may take, and as many that its server may then take for it. At their end it is given up.
pub const CANCEL_SECONDS: u32 = 5;

const _: () = prove!(UNIX_SECONDS <= CANCEL_SECONDS);

const _: () = prove!(CANCEL_SECONDS <= CONNECT_SECONDS);

/// So often a second it is looked whether a connection is there, or is closed, though no event says so.
pub const LOOKS_A_SECOND: u64 = 10;

/// As long as one of these looks waits.
pub const LOOK: Milliseconds = Milliseconds(100);

const _: () = prove!(LOOKS_A_SECOND * LOOK.0 == SECOND.0);

// ---- the program

/// As long as the clock waits for the next second, while it minds the idle links.
pub const CLOCK_TURN: Milliseconds = Milliseconds(1_000);

/// As long as the program's end waits for its log to be written. What isn't by then is lost.
pub const LOG_END: Milliseconds = Milliseconds(1_000);

/// As long as a thread that is done waits for its next connection. Then it ends, where enough others wait.
pub const IDLE_THREAD: Milliseconds = Milliseconds(10_000);

/// As long as a connection that asks for metrics is kept. Then it is closed, wherever its exchange stands.
pub const METRICS_EXCHANGE: Milliseconds = Milliseconds(5_000);

/// As long as a turn of who answers these waits. All are looked at then.
pub const METRICS_TURN: Milliseconds = Milliseconds(100);

const _: () = prove!(METRICS_TURN.0 < METRICS_EXCHANGE.0);
