//! `trials book`: clients that come to a lease book of 1,000 links and some pools, of one start key each, and go.
ghost use Rattle.std.specs.Prelude.{◌<◌};

use crate::keys::{key, row};
use crate::links::gone_link;
use book_model::events::{Beyond, Event};
use book_model::limits::Limits;
use book_model::rows::DatabaseRows;
use lease_book::book::Book;
use lease_book::events::BookEvent::{GiveBack, Plain};
use lease_book::events::BookReply;
use link_run::links::CleanLink;
use memory_ends::gone_end::GoneEnd;
use start_keys::StartKey;
use std::alloc::{AllocError, Global};
use std::collections::VecDeque;
use std::sync::Arc;

/// A client, and its pool.
#[derive(Clone, Copy, Drop)]
struct Client {
    number: u64,
    pool: u64,
}

/// A lent link, and whose it is.
#[derive(Drop)]
struct Lease {
    link: CleanLink<GoneEnd>,
    client: Client,
}

/// The book, the key of each pool and the clients that wait in it, and the lent links.
#[derive(Drop)]
struct Bench {
    alloc: Global,
    book: Book<GoneEnd>,
    keys: Vec<Arc<StartKey>>,
    waiting: Vec<VecDeque<Client>>,
    leases: Vec<Lease>,
    /// How many events there were.
    events: u64,
    random: u64,
}

/// 10,000 clients and 1,000 links, 10 to a pool.
fn limits(alloc: Global) -> Result<Arc<Limits>, AllocError> {
    let mut rows = Vec::new(alloc);
    rows.push(row(alloc, b"bench", 10)?)?;
    let mut limits = Limits::usual(DatabaseRows::new(alloc, rows)?);
    limits.max_client_conn = 10_000;
    limits.default_pool_size = 10;
    limits.query_wait_timeout = 0;
    limits.server_idle_timeout = 0;
    Ok(Arc::new(alloc, limits)?)
}

/// The key of each of so many pools.
fn keys(alloc: Global, pools: u64) -> Result<Vec<Arc<StartKey>>, AllocError> {
    let mut keys = Vec::new(alloc);
    for pool in 0..pools {
        keys.push(key(alloc, b"bench", pool, pool)?)?;
    }
    Ok(keys)
}

/// No clients yet, in each of so many pools.
fn nobody(alloc: Global, pools: u64) -> Result<Vec<VecDeque<Client>>, AllocError> {
    let mut waiting = Vec::new(alloc);
    for _ in 0..pools {
        waiting.push(VecDeque::new(alloc))?;
    }
    Ok(waiting)
}

impl Bench {
    /// An empty book for so many pools.
    fn new(alloc: Global, pools: u64) -> Result<Bench, AllocError> {
        Ok(Bench {
            alloc,
            book: Book::new(alloc, limits(alloc)?)?,
            keys: keys(alloc, pools)?,
            waiting: nobody(alloc, pools)?,
            leases: Vec::new(alloc),
            events: 0,
            random: 1,
        })
    }

    /// The next number, by a linear congruence.
    fn draw(&mut self) -> u64 {
        let next = self.random.wrapping_mul(6_364_136_223_846_793_005);
        self.random = next.wrapping_add(1_442_695_040_888_963_407);
        self.random >> 33
    }

    /// What the book answers.
    fn happens(&mut self, event: Event) -> BookReply<GoneEnd> {
        self.events = self.events.saturating_add(1);
        self.book.apply(0, Plain(event))
    }

    /// What it answers to a link that comes back.
    fn comes_back(&mut self, link: CleanLink<GoneEnd>) -> BookReply<GoneEnd> {
        self.events = self.events.saturating_add(1);
        self.book.apply(0, GiveBack(link))
    }

    /// The key of this pool.
    fn key_of(&self, pool: u64) -> Result<Arc<StartKey>, AllocError> {
        match self.keys.get(pool as usize) {
            Some(key) => Arc::try_clone(key),
            None => Err(AllocError),
        }
    }

    /// The first client that waits in this pool.
    fn first(&self, pool: u64) -> Option<Client> {
        let client = self.waiting.get(pool as usize)?.front()?;
        Some(*client)
    }

    /// A client waits in its pool.
    fn waits(&mut self, client: Client) -> Result<(), AllocError> {
        match self.waiting.get_mut(client.pool as usize) {
            Some(queue) => Ok(queue.push_back(client)?),
            None => Err(AllocError),
        }
    }

    /// The first client of the pool waits no more.
    fn waits_no_more(&mut self, pool: u64) {
        if let Some(queue) = self.waiting.get_mut(pool as usize) {
            let _ = queue.pop_front();
        }
    }

    /// The client has this link.
    fn has(&mut self, client: Client, link: CleanLink<GoneEnd>) -> Result<(), AllocError> {
        self.waits_no_more(client.pool);
        Ok(self.leases.push(Lease { link, client })?)
    }

    /// A link of this number is started for the client.
    fn starts(&mut self, client: Client, number: u64, started_at: u64) -> Result<(), AllocError> {
        let key = self.key_of(client.pool)?;
        let link = gone_link(self.alloc, key, number, started_at)?;
        self.has(client, link)
    }

    /// The first client of a pool takes its link, if it may have one.
    fn takes(&mut self, pool: u64) -> Result<(), AllocError> {
        let Some(client) = self.first(pool) else {
            return Ok(());
        };
        let take = Event::Take {
            client: client.number,
        };
        match self.happens(take) {
            BookReply::Lend(link) => self.has(client, link),
            BookReply::Start {
                number,
                started_at,
                ..
            } => self.starts(client, number, started_at),
            _ => Ok(()),
        }
    }

    /// A client comes and asks.
    fn comes(&mut self) -> Result<(), AllocError> {
        let arrival = Event::Arrive {
            beyond: Beyond::Nothing,
        };
        let BookReply::Client(number) = self.happens(arrival) else {
            return Err(AllocError);
        };
        let drawn = self.draw();
        let pool = drawn.checked_rem(self.keys.len() as u64).unwrap_or(0);
        self.waits(Client { number, pool })?;
        let key = self.key_of(pool)?;
        let ask = Event::Ask {
            client: number,
            key,
        };
        drop(self.happens(ask));
        self.takes(pool)
    }

    /// A lease, by chance.
    fn any_lease(&mut self) -> Option<Lease> {
        let drawn = self.draw() as usize;
        let count = self.leases.len();
        if count == 0 {
            return None;
        }
        Some(self.leases.swap_remove(drawn % count))
    }

    /// A client gives its link back and leaves, the next of its pool takes one, and another client comes.
    fn turns(&mut self) -> Result<(), AllocError> {
        let Some(lease) = self.any_lease() else {
            return Err(AllocError);
        };
        let Lease { link, client } = lease;
        drop(self.comes_back(link));
        self.takes(client.pool)?;
        let leave = Event::Leave {
            client: client.number,
        };
        drop(self.happens(leave));
        self.comes()
    }
}

/// The clients of so many pools come, and go and come; how many events there were.
pub fn events(alloc: Global, clients: u64, pools: u64, events: u64) -> Result<u64, AllocError> {
    let mut bench = Bench::new(alloc, pools)?;
    for _ in 0..clients {
        bench.comes()?;
    }
    let end = bench.events.saturating_add(events);
    for _ in 0..events {
        if bench.events >= end {
            break;
        }
        bench.turns()?;
    }
    Ok(bench.events)
}
