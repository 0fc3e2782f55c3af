//! Clients that are served, and what becomes of their links.
use desk_tallies::passes::Totals;
use serving_parts::{
    ASKED, Act, Behind, Client, LEAVES, Last, Moment, NONE, QUIET, Row, SHOWS, STAYS, Talk,
    UP_TO_KEY, Under, first_departure,
};
use std::test::Fail;

/// The second client comes and leaves once it is welcomed.
const LEAVES_TOO: Client = Client {
    last: Last::Welcome(2),
    ..LEAVES
};

/// Of a client that is lent a link and gives it back: it asked for that, and its lease was keyed and ended.
const LENT: Totals = Totals {
    arrived: 1,
    granted: 1,
    given_back: 1,
    left: 1,
    others: 3,
    ..NONE
};

/// Of two such clients.
const LENT_TWICE: Totals = Totals {
    arrived: 2,
    granted: 2,
    given_back: 2,
    left: 2,
    others: 6,
    ..NONE
};

/// All of them.
static ROWS: [Row; 12] = [
    // a client leaves once it is welcomed, in second 5: the next has its link, which needs no reset
    Row {
        name: "unused",
        first: Act::Tick(5),
        served: &[LEAVES, LEAVES_TOO],
        idle: &[1],
        starts: 1,
        reuses: 1,
        totals: Totals {
            others: 7,
            ..LENT_TWICE
        },
        ..QUIET
    },
    // a link that was used is reset for the next client, by a server that takes and gives one byte at a turn
    Row {
        name: "reset byte by byte",
        behind: Behind::Slow,
        served: &[SHOWS, LEAVES_TOO],
        idle: &[1],
        starts: 1,
        reuses: 1,
        resets: 1,
        totals: LENT_TWICE,
        ..QUIET
    },
    // a client leaves as soon as it has asked: it was given its answer before, and its link is reset
    Row {
        name: "left at once",
        served: &[Client {
            talk: Talk::ShowsAndLeaves,
            ..SHOWS
        }],
        idle: &[1],
        starts: 1,
        resets: 1,
        totals: LENT,
        ..QUIET
    },
    // a client leaves a block open: its link is closed, and its server is told so
    Row {
        name: "left in a block",
        served: &[Client {
            talk: Talk::Begins,
            last: Last::Begun,
            ..SHOWS
        }],
        starts: 1,
        losses: 1,
        terminates: 1,
        // it asked for a link, and its lease was keyed
        totals: Totals {
            arrived: 1,
            granted: 1,
            lost: 1,
            left: 1,
            others: 2,
            ..NONE
        },
        ..QUIET
    },
    // a message of the greatest length is answered
    Row {
        name: "longest message",
        served: &[Client {
            talk: Talk::Longest,
            under: Under::Short,
            last: Last::Empty,
            ..SHOWS
        }],
        idle: &[1],
        starts: 1,
        resets: 1,
        totals: LENT,
        ..QUIET
    },
    // a client is asked for its password, and knows it
    Row {
        name: "right password",
        served: &[Client {
            talk: Talk::RightPassword,
            under: Under::Md5,
            before: ASKED + UP_TO_KEY,
            ..LEAVES
        }],
        idle: &[1],
        starts: 1,
        totals: LENT,
        ..QUIET
    },
    // pools may have no link any more while a client has one: it is closed when it comes back
    Row {
        name: "too many links",
        act: Act::Pools(0),
        moment: Moment::AtTurn,
        served: &[LEAVES],
        starts: 1,
        terminates: 1,
        totals: Totals { others: 4, ..LENT },
        ..QUIET
    },
    // the shutdown comes while a client has a link: it is served to its end, and the link is closed when it comes back
    Row {
        name: "shut while served",
        act: Act::Shutdown,
        moment: Moment::AtTurn,
        served: &[LEAVES],
        starts: 1,
        terminates: 1,
        totals: Totals { others: 4, ..LENT },
        ..QUIET
    },
    // a pool of one link, and a client of another key: the first one's link is closed, and its server is told so
    Row {
        name: "evicted",
        pool: 1,
        // the parameter's value is of one byte, and they are told it
        served: &[
            Client {
                talk: Talk::LeavesAsA,
                before: UP_TO_KEY + 1,
                ..LEAVES
            },
            Client {
                talk: Talk::LeavesAsB,
                before: UP_TO_KEY + 1,
                ..LEAVES_TOO
            },
        ],
        idle: &[2],
        starts: 2,
        evictions: 1,
        terminates: 1,
        totals: LENT_TWICE,
        ..QUIET
    },
    // a cancel comes while a client has a link: that is closed at the end of its lease, and its server is told so. The next client has
    // another link, which the first one's key word doesn't find: it is kept
    Row {
        name: "cancelled",
        pool: 1,
        act: Act::Cancel(1),
        moment: Moment::AtLease,
        served: &[SHOWS, SHOWS],
        idle: &[2],
        starts: 2,
        losses: 1,
        terminates: 1,
        resets: 1,
        // two questions, two leases that are keyed, a cancel, two ends
        totals: Totals {
            given_back: 1,
            lost: 1,
            others: 7,
            ..LENT_TWICE
        },
        ..QUIET
    },
    // the same of a client that asks for nothing: its link, which needs no reset, isn't kept either
    Row {
        name: "cancelled unused",
        pool: 1,
        act: Act::Cancel(1),
        moment: Moment::AtLease,
        served: &[LEAVES, LEAVES_TOO],
        idle: &[2],
        starts: 2,
        losses: 1,
        terminates: 1,
        totals: Totals {
            given_back: 1,
            lost: 1,
            others: 7,
            ..LENT_TWICE
        },
        ..QUIET
    },
    // one client may be there. A CancelRequest comes once the client has gone whose key word it has: it is given no byte, takes no place
    // and makes no decision, and the next client has the same link
    Row {
        name: "cancelled too late",
        clients: 1,
        pool: 1,
        served: &[
            LEAVES,
            Client {
                talk: Talk::Cancels,
                ..STAYS
            },
            SHOWS,
        ],
        idle: &[1],
        starts: 1,
        reuses: 1,
        resets: 1,
        totals: LENT_TWICE,
        ..QUIET
    },
];

#[test]
fn each_link_is_kept_or_closed(rt: HostRuntime) -> Result<(), Fail> {
    for row in &ROWS {
        let name = row.name;
        let fault = first_departure(rt, rt.alloc(), row)?;
        assert!(rt; fault.is_empty(), "{name}: {fault}");
    }
    Ok(())
}
