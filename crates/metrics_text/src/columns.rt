//! The columns of the tables: each is told as a family of metrics.
ghost use Rattle.std.specs.Prelude.{◌≡◌, map};
ghost use Rattle.metrics_text.specs.Columns as spec;
ghost use Rattle.metrics_text.specs.Views.{column_view};

/// What a metric is, in OpenMetrics' words.
#[derive(Clone, Copy, Drop)]
pub(crate) enum Kind {
    Gauge,
    Counter,
    Info,
}

/// What a figure measures.
#[derive(Clone, Copy, Drop)]
pub(crate) enum Measure {
    /// So many of something.
    Count,
    Bytes,
    Seconds,
    /// Microseconds, which are told as seconds.
    Microseconds,
}

/// A column: the family's name, what its metrics are and measure, and what it is for.
#[derive(Clone, Copy, Drop)]
pub(crate) struct Column {
    pub(crate) name: &'static str,
    pub(crate) kind: Kind,
    pub(crate) measure: Measure,
    pub(crate) help: &'static str,
}

const VERSION_COLUMNS: [Column; 1] = [Column {
    name: "pgbouncer_version",
    kind: Kind::Info,
    measure: Measure::Count,
    help: "What answers.",
}];

#[tactic(auto, unfolding(crate::specs::Columns::version_columns))]
pub(crate) fn version_columns() -> &'static [Column]
    ensures { map column_view result.now ≡ spec.version_columns }
{
    &VERSION_COLUMNS
}

const POOLER_COLUMNS: [Column; 18] = [
    Column {
        name: "pgbouncer_up",
        kind: Kind::Gauge,
        measure: Measure::Count,
        help: "Whether the pooler answers.",
    },
    Column {
        name: "pgbouncer_databases",
        kind: Kind::Gauge,
        measure: Measure::Count,
        help: "Rows of the section [databases].",
    },
    Column {
        name: "pgbouncer_users",
        kind: Kind::Gauge,
        measure: Measure::Count,
        help: "Users of the user file.",
    },
    Column {
        name: "pgbouncer_pools",
        kind: Kind::Gauge,
        measure: Measure::Count,
        help: "Pairs of a database and a user that have a link or a client that waits.",
    },
    Column {
        name: "pgbouncer_free_clients",
        kind: Kind::Gauge,
        measure: Measure::Count,
        help: "Always 0.",
    },
    Column {
        name: "pgbouncer_used_clients",
        kind: Kind::Gauge,
        measure: Measure::Count,
        help: "Clients that are there.",
    },
    Column {
        name: "pgbouncer_login_clients",
        kind: Kind::Gauge,
        measure: Measure::Count,
        help: "Clients in their login.",
    },
    Column {
        name: "pgbouncer_free_servers",
        kind: Kind::Gauge,
        measure: Measure::Count,
        help: "Always 0.",
    },
    Column {
        name: "pgbouncer_used_servers",
        kind: Kind::Gauge,
        measure: Measure::Count,
        help: "Links, lent and idle.",
    },
    Column {
        name: "pgbouncer_config_max_client_connections",
        kind: Kind::Gauge,
        measure: Measure::Count,
        help: "The setting max_client_conn.",
    },
    Column {
        name: "pgsess_clients",
        kind: Kind::Gauge,
        measure: Measure::Count,
        help: "Clients that are there.",
    },
    Column {
        name: "pgsess_paused",
        kind: Kind::Gauge,
        measure: Measure::Count,
        help: "Whether no link is lent until RESUME.",
    },
    Column {
        name: "pgsess_shutting_down",
        kind: Kind::Gauge,
        measure: Measure::Count,
        help: "Whether no client is let in any more.",
    },
    Column {
        name: "pgsess_decisions",
        kind: Kind::Counter,
        measure: Measure::Count,
        help: "Decisions of the lease book.",
    },
    Column {
        name: "pgsess_links_started",
        kind: Kind::Counter,
        measure: Measure::Count,
        help: "Links that were started.",
    },
    Column {
        name: "pgsess_links_reused",
        kind: Kind::Counter,
        measure: Measure::Count,
        help: "Times that an idle link was lent again.",
    },
    Column {
        name: "pgsess_links_evicted",
        kind: Kind::Counter,
        measure: Measure::Count,
        help: "Idle links that were closed for another's start.",
    },
    Column {
        name: "pgsess_links_lost",
        kind: Kind::Counter,
        measure: Measure::Count,
        help: "Links that were lost, or failed to start.",
    },
];

#[tactic(auto, unfolding(crate::specs::Columns::pooler_columns))]
pub(crate) fn pooler_columns() -> &'static [Column]
    ensures { map column_view result.now ≡ spec.pooler_columns }
{
    &POOLER_COLUMNS
}

const DATABASE_COLUMNS: [Column; 6] = [
    Column {
        name: "pgbouncer_databases_pool_size",
        kind: Kind::Gauge,
        measure: Measure::Count,
        help: "The most links of a pool.",
    },
    Column {
        name: "pgbouncer_databases_reserve_pool",
        kind: Kind::Gauge,
        measure: Measure::Count,
        help: "Always 0.",
    },
    Column {
        name: "pgbouncer_databases_current_connections",
        kind: Kind::Gauge,
        measure: Measure::Count,
        help: "Links to the database, lent and idle.",
    },
    Column {
        name: "pgbouncer_databases_max_connections",
        kind: Kind::Gauge,
        measure: Measure::Count,
        help: "Always 0: only its pools are limited.",
    },
    Column {
        name: "pgbouncer_databases_paused",
        kind: Kind::Gauge,
        measure: Measure::Count,
        help: "Whether no link is lent until RESUME.",
    },
    Column {
        name: "pgbouncer_databases_disabled",
        kind: Kind::Gauge,
        measure: Measure::Count,
        help: "Whether no link is lent any more.",
    },
];

#[tactic(auto, unfolding(crate::specs::Columns::database_columns))]
pub(crate) fn database_columns() -> &'static [Column]
    ensures { map column_view result.now ≡ spec.database_columns }
{
    &DATABASE_COLUMNS
}

const POOL_COLUMNS: [Column; 12] = [
    Column {
        name: "pgbouncer_pools_client_active_connections",
        kind: Kind::Gauge,
        measure: Measure::Count,
        help: "Clients that have a link.",
    },
    Column {
        name: "pgbouncer_pools_client_waiting_connections",
        kind: Kind::Gauge,
        measure: Measure::Count,
        help: "Clients that wait for a link.",
    },
    Column {
        name: "pgbouncer_pools_server_active_connections",
        kind: Kind::Gauge,
        measure: Measure::Count,
        help: "Links that are lent.",
    },
    Column {
        name: "pgbouncer_pools_server_idle_connections",
        kind: Kind::Gauge,
        measure: Measure::Count,
        help: "Links that are idle.",
    },
    Column {
        name: "pgbouncer_pools_server_used_connections",
        kind: Kind::Gauge,
        measure: Measure::Count,
        help: "Always 0.",
    },
    Column {
        name: "pgbouncer_pools_server_testing_connections",
        kind: Kind::Gauge,
        measure: Measure::Count,
        help: "Always 0.",
    },
    Column {
        name: "pgbouncer_pools_server_login_connections",
        kind: Kind::Gauge,
        measure: Measure::Count,
        help: "Always 0.",
    },
    Column {
        name: "pgbouncer_pools_client_maxwait_seconds",
        kind: Kind::Gauge,
        measure: Measure::Seconds,
        help: "For how long the client has waited that asked first.",
    },
    Column {
        name: "pgbouncer_pools_client_active_cancel_connections",
        kind: Kind::Gauge,
        measure: Measure::Count,
        help: "Always 0.",
    },
    Column {
        name: "pgbouncer_pools_client_waiting_cancel_connections",
        kind: Kind::Gauge,
        measure: Measure::Count,
        help: "Always 0.",
    },
    Column {
        name: "pgbouncer_pools_server_active_cancel_connections",
        kind: Kind::Gauge,
        measure: Measure::Count,
        help: "Always 0.",
    },
    Column {
        name: "pgbouncer_pools_server_being_canceled_connections",
        kind: Kind::Gauge,
        measure: Measure::Count,
        help: "Always 0.",
    },
];

#[tactic(auto, unfolding(crate::specs::Columns::pool_columns))]
pub(crate) fn pool_columns() -> &'static [Column]
    ensures { map column_view result.now ≡ spec.pool_columns }
{
    &POOL_COLUMNS
}

const STATS_COLUMNS: [Column; 9] = [
    Column {
        name: "pgbouncer_stats_sql_transactions_pooled",
        kind: Kind::Counter,
        measure: Measure::Count,
        help: "Transactions that ended.",
    },
    Column {
        name: "pgbouncer_stats_queries_pooled",
        kind: Kind::Counter,
        measure: Measure::Count,
        help: "Queries that were answered.",
    },
    Column {
        name: "pgbouncer_stats_received_bytes",
        kind: Kind::Counter,
        measure: Measure::Bytes,
        help: "Bytes that came from clients.",
    },
    Column {
        name: "pgbouncer_stats_sent_bytes",
        kind: Kind::Counter,
        measure: Measure::Bytes,
        help: "Bytes that went to clients.",
    },
    Column {
        name: "pgbouncer_stats_server_in_transaction_seconds",
        kind: Kind::Counter,
        measure: Measure::Microseconds,
        help: "Time within transactions.",
    },
    Column {
        name: "pgbouncer_stats_queries_duration_seconds",
        kind: Kind::Counter,
        measure: Measure::Microseconds,
        help: "Time in which queries were under way.",
    },
    Column {
        name: "pgbouncer_stats_client_wait_seconds",
        kind: Kind::Counter,
        measure: Measure::Microseconds,
        help: "Time in which clients waited for a link.",
    },
    Column {
        name: "pgbouncer_stats_server_assignments",
        kind: Kind::Counter,
        measure: Measure::Count,
        help: "Links that were granted to clients.",
    },
    Column {
        name: "pgbouncer_stats_queries",
        kind: Kind::Counter,
        measure: Measure::Count,
        help: "As many as pgbouncer_stats_queries_pooled_total.",
    },
];

#[tactic(auto, unfolding(crate::specs::Columns::stats_columns))]
pub(crate) fn stats_columns() -> &'static [Column]
    ensures { map column_view result.now ≡ spec.stats_columns }
{
    &STATS_COLUMNS
}
