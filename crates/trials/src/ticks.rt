//! `trials ticks`: seconds of a lease book in which links lie idle, under many database rows.

use crate::keys::{key, row};
use crate::links::gone_link;
use book_model::events::{Beyond, Event};
use book_model::limits::Limits;
use book_model::rows::DatabaseRows;
use lease_book::book::Book;
use lease_book::events::BookEvent::{GiveBack, Plain};
use lease_book::events::BookReply;
use memory_ends::gone_end::GoneEnd;
use std::alloc::{AllocError, Global};
use std::sync::Arc;

/// So many rows, each named by its number.
fn rows(alloc: Global, count: u64) -> Result<DatabaseRows, AllocError> {
    let mut rows = Vec::new(alloc);
    for number in 0..count {
        rows.push(row(alloc, &number.to_be_bytes(), 10_000)?)?;
    }
    DatabaseRows::new(alloc, rows)
}

/// Links live for a day, and lie idle for as long.
fn limits(alloc: Global, count: u64) -> Result<Arc<Limits>, AllocError> {
    let mut limits = Limits::usual(rows(alloc, count)?);
    limits.max_client_conn = 10_000;
    limits.max_links = 10_000;
    limits.default_pool_size = 10_000;
    limits.query_wait_timeout = 0;
    limits.server_lifetime = 86_400;
    limits.server_idle_timeout = 86_400;
    Ok(Arc::new(alloc, limits)?)
}

/// The book.
#[derive(Drop)]
struct Bench {
    alloc: Global,
    book: Book<GoneEnd>,
}

impl Bench {
    /// What the book answers.
    fn happens(&mut self, event: Event) -> BookReply<GoneEnd> {
        self.book.apply(0, Plain(event))
    }

    /// A client of this database row comes, has a link for a key of its own, gives it back and goes.
    fn leaves_link(&mut self, own: u64, row: u64) -> Result<(), AllocError> {
        let arrival = Event::Arrive {
            beyond: Beyond::Nothing,
        };
        let BookReply::Client(client) = self.happens(arrival) else {
            return Err(AllocError);
        };
        let key = key(self.alloc, &row.to_be_bytes(), own, 0)?;
        let of_link = Arc::try_clone(&key)?;
        drop(self.happens(Event::Ask { client, key }));
        let BookReply::Start {
            number,
            started_at,
            ..
        } = self.happens(Event::Take { client })
        else {
            return Err(AllocError);
        };
        let link = gone_link(self.alloc, of_link, number, started_at)?;
        drop(self.book.apply(0, GiveBack(link)));
        drop(self.happens(Event::Leave { client }));
        Ok(())
    }

    /// How many of so many seconds close no link.
    fn seconds(&mut self, count: u64) -> u64 {
        let mut quiet: u64 = 0;
        for now in 0..count {
            if matches!(self.happens(Event::Tick { now }), BookReply::Done) {
                quiet = quiet.saturating_add(1);
            }
        }
        quiet
    }
}

/// So many links, one after the other of each of so many rows, lie idle for so many seconds: how many of these close no link.
pub fn quiet(alloc: Global, links: u64, rows: u64, seconds: u64) -> Result<u64, AllocError> {
    let mut bench = Bench {
        alloc,
        book: Book::new(alloc, limits(alloc, rows)?)?,
    };
    for number in 0..links {
        bench.leaves_link(number, number % rows.max(1))?;
    }
    Ok(bench.seconds(seconds))
}
