//! What a command line asks for.

/// The line that a wrong command line is answered by.
pub const USAGE: &str =
    "usage: trials login INI USERS CUT | trials solo CATALOGUE USER [CANCELLED] | trials lease CUT [DIES_AFTER] (a client's bytes on standard input) | trials relay SIZE TOTAL | trials book CLIENTS POOLS EVENTS | trials ticks LINKS ROWS SECONDS";

/// What a command line asks for.
#[derive(Clone, Copy, Drop)]
pub enum Job<'a> {
    /// The login under these settings and users, fed in pieces of at most so many bytes.
    Login {
        ini: &'a str,
        users: &'a str,
        cut: usize,
    },
    /// The answers of this user's session over this catalogue to every front of the bytes; or to each frame, where a cancel comes
    /// before the frame of this number, counted from 0.
    Solo {
        catalogue: &'a str,
        user: &'a str,
        cancelled: Option<u64>,
    },
    /// What `pgsess replay` answers, where a call of an end of the lease moves at most so many bytes, over a server that dies once
    /// so many were read from it.
    Lease {
        cut: usize,
        dies_after: Option<u64>,
    },
    /// How many bytes a client is given over a relay, of at least so many in DataRows of this size each, 11 or more.
    Relay {
        size: u32,
        total: u64,
    },
    /// How many events there were at a lease book to which so many clients of so many pools come, and then come and go until there were
    /// so many more.
    Book {
        clients: u64,
        pools: u64,
        events: u64,
    },
    /// In how many of so many seconds a lease book closes none of so many idle links, under so many database rows.
    Ticks {
        links: u64,
        rows: u64,
        seconds: u64,
    },
}

/// The bytes of the largest piece. For 0 there is one piece.
fn cut_of(word: &str) -> Option<usize> {
    match word.parse::<usize>() {
        Ok(0) => Some(usize::MAX),
        Ok(cut) => Some(cut),
        Err(_) => None,
    }
}

/// The job of a command line, whose first word is the program's name.
pub fn job_of<'a>(words: &'a [String]) -> Option<Job<'a>> {
    match words.get(1)?.as_str() {
        "login" if words.len() == 5 => Some(Job::Login {
            ini: words[2].as_str(),
            users: words[3].as_str(),
            cut: cut_of(words[4].as_str())?,
        }),
        "solo" if words.len() == 4 => Some(Job::Solo {
            catalogue: words[2].as_str(),
            user: words[3].as_str(),
            cancelled: None,
        }),
        "solo" if words.len() == 5 => Some(Job::Solo {
            catalogue: words[2].as_str(),
            user: words[3].as_str(),
            cancelled: Some(words[4].parse::<u64>().ok()?),
        }),
        "lease" if words.len() == 3 => Some(Job::Lease {
            cut: cut_of(words[2].as_str())?,
            dies_after: None,
        }),
        "lease" if words.len() == 4 => Some(Job::Lease {
            cut: cut_of(words[2].as_str())?,
            dies_after: Some(words[3].parse::<u64>().ok()?),
        }),
        "relay" if words.len() == 4 => Some(Job::Relay {
            size: words[2].parse::<u32>().ok()?,
            total: words[3].parse::<u64>().ok()?,
        }),
        "book" if words.len() == 5 => Some(Job::Book {
            clients: words[2].parse::<u64>().ok()?,
            pools: words[3].parse::<u64>().ok()?,
            events: words[4].parse::<u64>().ok()?,
        }),
        "ticks" if words.len() == 5 => Some(Job::Ticks {
            links: words[2].parse::<u64>().ok()?,
            rows: words[3].parse::<u64>().ok()?,
            seconds: words[4].parse::<u64>().ok()?,
        }),
        _ => None,
    }
}
