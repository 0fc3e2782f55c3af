//! What went through a database's links, and how long it took.
ghost use Rattle.std.specs.Prelude.{◌≡◌};
ghost use Rattle.pool_figures.specs.Figures as spec;

/// What went through links, and how long it took. Each stops at the greatest number.
#[derive(Clone, Copy, PartialEq, Eq, Drop)]
pub struct Figures {
    /// Links that were granted to clients.
    pub leases: u64,
    /// Transactions that ended: ReadyForQuery that told of no block.
    pub transactions: u64,
    /// Closing messages that were answered: ReadyForQuery in all.
    pub queries: u64,
    /// Bytes that came from clients.
    pub received: u64,
    /// Bytes that went to clients.
    pub sent: u64,
    /// Microseconds within transactions.
    pub transaction_time: u64,
    /// Microseconds in which queries were under way.
    pub query_time: u64,
    /// Microseconds in which clients waited for a link.
    pub wait_time: u64,
}

impl Figures {
    pub fn none() -> Figures
        ensures { result ≡ spec.none }
    {
        Figures {
            leases: 0,
            transactions: 0,
            queries: 0,
            received: 0,
            sent: 0,
            transaction_time: 0,
            query_time: 0,
            wait_time: 0,
        }
    }

    /// Both together.
    pub fn plus(self, more: Figures) -> Figures
        ensures { result ≡ spec.plus self more }
    {
        Figures {
            leases: self.leases.saturating_add(more.leases),
            transactions: self.transactions.saturating_add(more.transactions),
            queries: self.queries.saturating_add(more.queries),
            received: self.received.saturating_add(more.received),
            sent: self.sent.saturating_add(more.sent),
            transaction_time: self.transaction_time.saturating_add(more.transaction_time),
            query_time: self.query_time.saturating_add(more.query_time),
            wait_time: self.wait_time.saturating_add(more.wait_time),
        }
    }

    /// What came since they were `before`.
    pub fn since(self, before: Figures) -> Figures
        ensures { result ≡ spec.since self before }
    {
        Figures {
            leases: self.leases.saturating_sub(before.leases),
            transactions: self.transactions.saturating_sub(before.transactions),
            queries: self.queries.saturating_sub(before.queries),
            received: self.received.saturating_sub(before.received),
            sent: self.sent.saturating_sub(before.sent),
            transaction_time: self
                .transaction_time
                .saturating_sub(before.transaction_time),
            query_time: self.query_time.saturating_sub(before.query_time),
            wait_time: self.wait_time.saturating_sub(before.wait_time),
        }
    }

    /// As PgBouncer orders them, without the leases.
    pub fn totals(&self) -> [u64; 7]
        ensures { result ≡ spec.totals self.now }
    {
        [
            self.transactions,
            self.queries,
            self.received,
            self.sent,
            self.transaction_time,
            self.query_time,
            self.wait_time,
        ]
    }

    /// The same a second, where these came in so many; of the times for each transaction, query and lease.
    pub fn averages(&self, seconds: u64) -> [u64; 7]
        ensures { result ≡ spec.averages seconds self.now }
    {
        [
            ratio(self.transactions, seconds),
            ratio(self.queries, seconds),
            ratio(self.received, seconds),
            ratio(self.sent, seconds),
            ratio(self.transaction_time, self.transactions),
            ratio(self.query_time, self.queries),
            ratio(self.wait_time, self.leases),
        ]
    }
}

/// Their ratio; 0 where the second is 0.
pub fn ratio(n: u64, d: u64) -> u64
    ensures { result ≡ spec.ratio n d }
{
    if d == 0 { 0 } else { n / d }
}
