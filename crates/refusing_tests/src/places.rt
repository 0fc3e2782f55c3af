//! Who is let in where as many clients are there as may be.
use message_view::Refusal;
use serving_parts::{Client, Crowd, IN_CONSOLE, Last, STAYS, Talk, Under, is_next_told};
use std::test::Fail;

const OF_DATABASE: Client = Client {
    last: Last::Refusal(Refusal::TooManyClients),
    ..STAYS
};

const AT_CONSOLE: Client = Client {
    talk: Talk::ToConsole,
    under: Under::Admin,
    before: IN_CONSOLE,
    last: Last::Version,
};

const SHUT_OUT: Client = Client {
    last: Last::Refusal(Refusal::TooManyClients),
    before: 0,
    ..AT_CONSOLE
};

/// Ann isn't one of the console's users.
const STRANGER: Client = Client {
    talk: Talk::ToConsole,
    ..OF_DATABASE
};

/// One client may be there: beyond that the console has 64 places, and 80 for clients that come over a Unix socket.
const CROWDS: [Crowd; 8] = [
    Crowd {
        count: 1,
        host: "127.0.0.1",
        next: OF_DATABASE,
    },
    Crowd {
        count: 1,
        host: "unix",
        next: OF_DATABASE,
    },
    Crowd {
        count: 1,
        host: "unix",
        next: STRANGER,
    },
    Crowd {
        count: 1,
        host: "127.0.0.1",
        next: AT_CONSOLE,
    },
    Crowd {
        count: 64,
        host: "127.0.0.1",
        next: AT_CONSOLE,
    },
    Crowd {
        count: 65,
        host: "127.0.0.1",
        next: SHUT_OUT,
    },
    Crowd {
        count: 80,
        host: "unix",
        next: AT_CONSOLE,
    },
    Crowd {
        count: 81,
        host: "unix",
        next: SHUT_OUT,
    },
];

#[test]
fn who_runs_the_pooler_is_let_in(rt: HostRuntime) -> Result<(), Fail> {
    for crowd in CROWDS {
        let Crowd { count, host, .. } = crowd;
        assert!(rt;
            is_next_told(rt, rt.alloc(), &crowd)?,
            "{count} from {host}"
        );
    }
    Ok(())
}
