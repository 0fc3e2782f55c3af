//! Clients that are refused, or closed.
use desk_tallies::passes::Totals;
use message_view::Refusal;
use serving_parts::{
    ASKED, Act, Behind, Client, IN_CONSOLE, LEAVES, LET_IN, Last, Moment, NAMED, NONE, QUIET, Row,
    SHOWS, STAYS, Talk, TurnClock, Under, WELCOMED, first_departure,
};
use std::test::Fail;

/// So many bytes a server gives in its start.
const START: u64 = WELCOMED as u64;

/// In its answer to `SHOW application_name`.
const ANSWER: u64 = NAMED as u64;

/// And of that until a client has [`Last::NameBegun`].
const ANSWER_BEGUN: u64 = 10;

/// Of a client with a lease whose server fails: it asked for a link, and its lease was keyed.
const LOST: Totals = Totals {
    arrived: 1,
    granted: 1,
    lost: 1,
    left: 1,
    others: 2,
    ..NONE
};

/// Of a client whose link can't be started: it asked for one.
const UNSTARTED: Totals = Totals { others: 1, ..LOST };

/// A client waits for the one link of its pool, which another has: each has asked for it.
const WAITING: Row = Row {
    pool: 1,
    first: Act::HasLink,
    there: (1, 0),
    lent: &[1],
    starts: 1,
    totals: Totals {
        arrived: 2,
        granted: 1,
        left: 1,
        others: 2,
        ..NONE
    },
    ..QUIET
};

/// The same where something happens meanwhile, and it is told so when it asks once more.
const TOLD: Totals = Totals {
    arrived: 2,
    granted: 1,
    left: 1,
    others: 4,
    ..NONE
};

/// All of them.
static ROWS: [Row; 20] = [
    // no user, another protocol, a parameter that isn't served: none of these clients arrives
    Row {
        name: "before arrival",
        served: &[
            Client {
                talk: Talk::WithoutUser,
                last: Last::Refusal(Refusal::MalformedClientMessage),
                ..STAYS
            },
            Client {
                talk: Talk::OldProtocol,
                last: Last::Refusal(Refusal::UnsupportedProtocol),
                ..STAYS
            },
            Client {
                talk: Talk::WithOptions,
                last: Last::Refusal(Refusal::UnsupportedParameter),
                ..STAYS
            },
        ],
        ..QUIET
    },
    // one client may be there, and is
    Row {
        name: "too many",
        clients: 1,
        first: Act::Comes,
        served: &[Client {
            last: Last::Refusal(Refusal::TooManyClients),
            ..STAYS
        }],
        there: (1, 0),
        totals: Totals {
            arrived: 1,
            others: 1,
            ..NONE
        },
        ..QUIET
    },
    // the shutdown came before the client
    Row {
        name: "shut at arrival",
        first: Act::Shutdown,
        served: &[Client {
            last: Last::Refusal(Refusal::ShuttingDown),
            ..STAYS
        }],
        totals: Totals { others: 2, ..NONE },
        ..QUIET
    },
    // an unknown user, another database, a wrong password behind the question for it; and a client of the console: each arrives and leaves
    Row {
        name: "not let in",
        served: &[
            Client {
                talk: Talk::AsBob,
                last: Last::WrongPassword,
                ..STAYS
            },
            Client {
                talk: Talk::ToOther,
                last: Last::NoDatabase,
                ..STAYS
            },
            Client {
                talk: Talk::WrongPassword,
                under: Under::Md5,
                before: ASKED,
                last: Last::WrongPassword,
            },
            Client {
                talk: Talk::ToConsole,
                under: Under::Admin,
                before: IN_CONSOLE,
                last: Last::Version,
            },
        ],
        totals: Totals {
            arrived: 4,
            left: 4,
            ..NONE
        },
        ..QUIET
    },
    // a client that is asked for its password and says nothing is closed: the next has its place, the only one
    Row {
        name: "silent",
        clients: 1,
        served: &[
            Client {
                under: Under::Md5,
                last: Last::Question,
                ..STAYS
            },
            Client {
                last: Last::Welcome(2),
                ..LEAVES
            },
        ],
        idle: &[1],
        starts: 1,
        totals: Totals {
            arrived: 2,
            granted: 1,
            given_back: 1,
            left: 2,
            others: 3,
            ..NONE
        },
        ..QUIET
    },
    // the shutdown comes while a client is asked for its password: it is let in, and refused when it asks for a link
    Row {
        name: "shut at asking",
        act: Act::Shutdown,
        moment: Moment::AtTurn,
        served: &[Client {
            talk: Talk::RightPassword,
            under: Under::Md5,
            before: ASKED + LET_IN,
            last: Last::Refusal(Refusal::ShuttingDown),
        }],
        totals: Totals {
            arrived: 1,
            left: 1,
            others: 2,
            ..NONE
        },
        ..QUIET
    },
    // second 5 comes
    Row {
        name: "waited too long",
        act: Act::Tick(5),
        moment: Moment::AtTicket,
        served: &[Client {
            before: LET_IN,
            last: Last::Refusal(Refusal::WaitedTooLong),
            ..STAYS
        }],
        totals: TOLD,
        ..WAITING
    },
    // the shutdown comes
    Row {
        name: "shut at waiting",
        act: Act::Shutdown,
        moment: Moment::AtTicket,
        served: &[Client {
            before: LET_IN,
            last: Last::Refusal(Refusal::ShuttingDown),
            ..STAYS
        }],
        totals: TOLD,
        ..WAITING
    },
    // it goes: its ticket goes with it, and nothing is dialled
    Row {
        name: "gone while waiting",
        served: &[Client {
            before: LET_IN,
            ..STAYS
        }],
        go: true,
        ..WAITING
    },
    // ten clients, none of whose links can be started, since nobody is there
    Row {
        name: "unreached",
        behind: Behind::Nobody,
        served: &[Client {
            before: LET_IN,
            last: Last::Refusal(Refusal::ServerNotReached),
            ..STAYS
        }],
        times: 10,
        starts: 10,
        failed_starts: 10,
        totals: Totals {
            arrived: 10,
            granted: 10,
            lost: 10,
            left: 10,
            others: 10,
            ..NONE
        },
        ..QUIET
    },
    // a server dies before its start, of 260 bytes, has come to its end
    Row {
        name: "dead in its start",
        behind: Behind::Mortals(100),
        served: &[Client {
            before: LET_IN,
            last: Last::Refusal(Refusal::ServerNotReached),
            ..STAYS
        }],
        starts: 1,
        failed_starts: 1,
        totals: UNSTARTED,
        ..QUIET
    },
    // a server refuses the start by an error of its own, which the client is told
    Row {
        name: "refused by its server",
        behind: Behind::Starting,
        served: &[Client {
            before: LET_IN,
            last: Last::StartError,
            ..STAYS
        }],
        starts: 1,
        failed_starts: 1,
        totals: UNSTARTED,
        ..QUIET
    },
    // ten clients, each of whose servers dies behind its welcome: each is told, and each link is lost
    Row {
        name: "dead at a border",
        behind: Behind::Mortals(START),
        served: &[Client {
            before: WELCOMED,
            last: Last::Refusal(Refusal::ServerFailed),
            ..STAYS
        }],
        times: 10,
        starts: 10,
        losses: 10,
        ended_links: 10,
        totals: Totals {
            arrived: 10,
            granted: 10,
            lost: 10,
            left: 10,
            others: 20,
            ..NONE
        },
        ..QUIET
    },
    // a server dies inside a message: its client is closed behind a part of it, and told nothing
    Row {
        name: "dead in a message",
        behind: Behind::Mortals(START + ANSWER_BEGUN),
        served: &[Client {
            talk: Talk::ShowsAndStays,
            last: Last::NameBegun,
            ..SHOWS
        }],
        starts: 1,
        losses: 1,
        ended_links: 1,
        totals: LOST,
        ..QUIET
    },
    // a server dies within the answer to the reset of its link, of which its client hears nothing
    Row {
        name: "dead in its reset",
        behind: Behind::Mortals(START + ANSWER + 6),
        served: &[SHOWS],
        starts: 1,
        losses: 1,
        resets: 1,
        ended_links: 1,
        // its lease was ended too
        totals: Totals { others: 3, ..LOST },
        ..QUIET
    },
    // a server sends a message of length 3: its link isn't used again
    Row {
        name: "malformed by its server",
        behind: Behind::Malformed,
        served: &[Client {
            before: WELCOMED,
            last: Last::Refusal(Refusal::MalformedServerMessage),
            ..STAYS
        }],
        starts: 1,
        losses: 1,
        totals: LOST,
        ..QUIET
    },
    // a message of length 3, and one that is longer than may be: no byte of them goes over the link, which is used again as it is
    Row {
        name: "malformed or too long",
        served: &[
            Client {
                talk: Talk::Malformed,
                before: WELCOMED,
                last: Last::Refusal(Refusal::MalformedClientMessage),
                ..STAYS
            },
            Client {
                talk: Talk::TooLong,
                under: Under::Short,
                before: WELCOMED,
                last: Last::Refusal(Refusal::ClientMessageTooLong),
            },
        ],
        idle: &[1],
        starts: 1,
        reuses: 1,
        totals: Totals {
            arrived: 2,
            granted: 2,
            given_back: 2,
            left: 2,
            others: 6,
            ..NONE
        },
        ..QUIET
    },
    // two clients whose bytes come one by one are closed after a minute, the second of which has arrived: the next has its place, the only
    // one
    Row {
        name: "late in its login",
        clients: 1,
        clock: TurnClock::Left(Some(60)),
        served: &[
            Client {
                talk: Talk::DripsAtFirst,
                under: Under::Md5,
                ..STAYS
            },
            Client {
                talk: Talk::Drips,
                under: Under::Md5,
                last: Last::Question,
                ..STAYS
            },
            Client {
                last: Last::Welcome(3),
                ..LEAVES
            },
        ],
        idle: &[1],
        starts: 1,
        late_logins: 1,
        totals: Totals {
            arrived: 2,
            granted: 1,
            given_back: 1,
            left: 2,
            others: 3,
            ..NONE
        },
        ..QUIET
    },
    // where a login has no time, one at the console has ten seconds
    Row {
        name: "late at the console",
        clock: TurnClock::Left(None),
        served: &[Client {
            talk: Talk::DripsToConsole,
            under: Under::AdminMd5,
            last: Last::Question,
            ..STAYS
        }],
        late_logins: 1,
        totals: Totals {
            arrived: 1,
            left: 1,
            ..NONE
        },
        ..QUIET
    },
    // servers whose bytes come one by one: the first isn't through its start after 15 seconds, the second has the time that it takes
    Row {
        name: "late in its start",
        behind: Behind::Slow,
        clock: TurnClock::Left(Some(60)),
        served: &[
            Client {
                before: LET_IN,
                last: Last::Refusal(Refusal::ServerNotReached),
                ..STAYS
            },
            Client {
                under: Under::Patient,
                last: Last::Welcome(2),
                ..LEAVES
            },
        ],
        idle: &[2],
        starts: 2,
        failed_starts: 1,
        late_starts: 1,
        totals: Totals {
            arrived: 2,
            granted: 2,
            given_back: 1,
            lost: 1,
            left: 2,
            others: 4,
        },
        ..QUIET
    },
];

#[test]
fn each_is_told_why_it_is_refused(rt: HostRuntime) -> Result<(), Fail> {
    for row in &ROWS {
        let name = row.name;
        let fault = first_departure(rt, rt.alloc(), row)?;
        assert!(rt; fault.is_empty(), "{name}: {fault}");
    }
    Ok(())
}
