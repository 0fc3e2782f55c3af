//! Stories of cancels: which lease each finds, and what becomes of its link.
use crate::desk_acts::{Act, Says};
use crate::desk_rows::Rows;
use crate::desk_stories::{NOTHING, Step, Story};
use book_model::events::ClientState;
use book_tests::book_parts::{Change, Settings, Whose};
use desk_tallies::passes::Totals;

/// A cancel finds the lease by its client's key word, as often as it comes, and is for the server's key word and place. At the end of
/// the lease the link is to be closed, however often that is told, and the next client gets another.
static A_LEASE_IS_CANCELLED: [Step; 15] = [
    (0, Act::Come, Says::Client(1)),
    (0, Act::Ask(Whose::Ann), Says::Queued(0)),
    (0, Act::Take, Says::Start(1, 0, None)),
    (0, Act::Key((1, 2), (7, 8)), Says::Done),
    (1, Act::Cancel((1, 2)), Says::Strike(1, (7, 8), 5432)),
    (0, Act::Cancel((1, 2)), Says::Strike(1, (7, 8), 5432)),
    (0, Act::EndLease, Says::Dispose),
    (1, Act::Cancel((1, 2)), Says::Unknown),
    (0, Act::Back(Whose::Ann), Says::Dispose),
    (0, Act::Lost, Says::Done),
    (0, Act::Leave, Says::Done),
    (1, Act::Come, Says::Client(2)),
    (1, Act::Ask(Whose::Ann), Says::Queued(0)),
    (1, Act::Take, Says::Start(2, 0, None)),
    (1, Act::Back(Whose::Ann), Says::Done),
];

pub(crate) fn cancelled() -> Story {
    Story {
        settings: Settings::PoolsOf(1),
        passes: 2,
        steps: &A_LEASE_IS_CANCELLED,
        rows: Rows {
            clients: &[(2, ClientState::Active)],
            idle: &[(2, 0, 0)],
            sums: [0, 2, 0, 0, 1, 0],
            ..NOTHING
        },
        totals: Totals {
            arrived: 2,
            granted: 2,
            given_back: 1,
            lost: 1,
            left: 1,
            // two questions, a lease that is keyed, two cancels, three ends
            others: 8,
        },
    }
}

/// Pid and secret must both be the client's; those of the server find nobody. A lease is keyed once.
static OTHER_WORDS_FIND_NOBODY: [Step; 13] = [
    (1, Act::Cancel((1, 2)), Says::Unknown),
    (0, Act::Come, Says::Client(1)),
    (0, Act::Ask(Whose::Ann), Says::Queued(0)),
    (0, Act::Take, Says::Start(1, 0, None)),
    (1, Act::Cancel((1, 2)), Says::Unknown),
    (0, Act::Key((1, 2), (7, 8)), Says::Done),
    (0, Act::Key((3, 4), (7, 8)), Says::Nobody),
    (1, Act::Cancel((1, 3)), Says::Unknown),
    (1, Act::Cancel((3, 2)), Says::Unknown),
    (1, Act::Cancel((7, 8)), Says::Unknown),
    (0, Act::EndLease, Says::Reset),
    (0, Act::Key((1, 2), (7, 8)), Says::Nobody),
    (0, Act::Back(Whose::Ann), Says::Done),
];

pub(crate) fn by_another_secret() -> Story {
    Story {
        settings: Settings::PoolsOf(1),
        passes: 2,
        steps: &OTHER_WORDS_FIND_NOBODY,
        rows: Rows {
            clients: &[(1, ClientState::Active)],
            idle: &[(1, 0, 0)],
            sums: [0, 1, 0, 0, 0, 0],
            ..NOTHING
        },
        totals: Totals {
            arrived: 1,
            granted: 1,
            given_back: 1,
            lost: 0,
            left: 0,
            others: 3,
        },
    }
}

/// A cancel that comes after the end of its lease finds nobody: before the link is back, while it is idle, and while another client
/// has it, who is found by its own key word.
static A_LATE_CANCEL_FINDS_NOBODY: [Step; 16] = [
    (0, Act::Come, Says::Client(1)),
    (0, Act::Ask(Whose::Ann), Says::Queued(0)),
    (0, Act::Take, Says::Start(1, 0, None)),
    (0, Act::Key((1, 1), (7, 7)), Says::Done),
    (0, Act::EndLease, Says::Reset),
    (1, Act::Cancel((1, 1)), Says::Unknown),
    (0, Act::Back(Whose::Ann), Says::Done),
    (1, Act::Cancel((1, 1)), Says::Unknown),
    (1, Act::Come, Says::Client(2)),
    (1, Act::Ask(Whose::Ann), Says::Queued(0)),
    (1, Act::Take, Says::Lend(1)),
    (0, Act::Cancel((1, 1)), Says::Unknown),
    (1, Act::Key((2, 2), (7, 7)), Says::Done),
    (0, Act::Cancel((1, 1)), Says::Unknown),
    (0, Act::Cancel((2, 2)), Says::Strike(1, (7, 7), 5432)),
    (1, Act::EndLease, Says::Dispose),
];

pub(crate) fn after_the_end() -> Story {
    Story {
        settings: Settings::PoolsOf(1),
        passes: 2,
        steps: &A_LATE_CANCEL_FINDS_NOBODY,
        rows: Rows {
            clients: &[(1, ClientState::Active), (2, ClientState::Active)],
            lent: &[(1, 0, 0)],
            sums: [0, 1, 1, 0, 0, 0],
            ..NOTHING
        },
        totals: Totals {
            arrived: 2,
            granted: 2,
            given_back: 1,
            lost: 0,
            left: 0,
            // two questions, two leases that are keyed, a cancel, two ends
            others: 7,
        },
    }
}

/// Two leases of one key word, at two ports: a cancel finds the one that was keyed first, and the other once that has ended.
static THE_FIRST_OF_A_WORD_IS_FOUND: [Step; 16] = [
    (0, Act::Come, Says::Client(1)),
    (0, Act::Ask(Whose::Ann), Says::Queued(0)),
    (0, Act::Take, Says::Start(1, 0, None)),
    (1, Act::Come, Says::Client(2)),
    (1, Act::Limits(Settings::Shop(Change::Port)), Says::Done),
    (1, Act::Ask(Whose::AnnAt5433), Says::Queued(0)),
    (1, Act::Take, Says::Start(2, 0, None)),
    (1, Act::Key((5, 5), (8, 8)), Says::Done),
    (0, Act::Key((5, 5), (7, 7)), Says::Done),
    (2, Act::Cancel((5, 5)), Says::Strike(2, (8, 8), 5433)),
    (1, Act::EndLease, Says::Dispose),
    (2, Act::Cancel((5, 5)), Says::Strike(1, (7, 7), 5432)),
    (1, Act::Lost, Says::Done),
    (0, Act::EndLease, Says::Dispose),
    (2, Act::Cancel((5, 5)), Says::Unknown),
    (0, Act::Lost, Says::Done),
];

pub(crate) fn of_one_word() -> Story {
    Story {
        settings: Settings::Default,
        passes: 3,
        steps: &THE_FIRST_OF_A_WORD_IS_FOUND,
        rows: Rows {
            clients: &[(1, ClientState::Active), (2, ClientState::Active)],
            sums: [0, 2, 0, 0, 2, 0],
            ..NOTHING
        },
        totals: Totals {
            arrived: 2,
            granted: 2,
            given_back: 0,
            lost: 2,
            left: 0,
            // two questions, new limits, two leases that are keyed, two cancels, two ends
            others: 9,
        },
    }
}

/// A lease ends with its link where that is lost, and where it couldn't be started: no cancel finds it afterwards.
static A_LOST_LEASE_IS_NOT_FOUND: [Step; 10] = [
    (0, Act::Come, Says::Client(1)),
    (0, Act::Ask(Whose::Ann), Says::Queued(0)),
    (0, Act::Take, Says::Start(1, 0, None)),
    (0, Act::Key((1, 1), (7, 7)), Says::Done),
    (0, Act::Lost, Says::Done),
    (1, Act::Cancel((1, 1)), Says::Unknown),
    (0, Act::Ask(Whose::Ann), Says::Queued(0)),
    (0, Act::Take, Says::Start(2, 0, None)),
    (0, Act::StartFailed, Says::Done),
    (1, Act::Cancel((1, 1)), Says::Unknown),
];

pub(crate) fn lost() -> Story {
    Story {
        settings: Settings::PoolsOf(1),
        passes: 2,
        steps: &A_LOST_LEASE_IS_NOT_FOUND,
        rows: Rows {
            clients: &[(1, ClientState::Active)],
            sums: [0, 2, 0, 0, 1, 1],
            ..NOTHING
        },
        totals: Totals {
            arrived: 1,
            granted: 2,
            given_back: 0,
            lost: 2,
            left: 0,
            others: 3,
        },
    }
}
