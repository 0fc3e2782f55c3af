//! The keys of PgBouncer that the settings read over: what they ask for is done without them, or isn't asked for at their value.
//!
//! Public: `is_read_over`, for `ini_config`, which accepts such a key, and for `settings_check`, which tells of it; and
//! `is_read_over_in_row`, for `ini_config`. Which keys these are is in the contracts (`ReadOver`), which proofs of `replay_run` cite too.
//! Free to change: how the lists are searched.
#![tactic(auto)]

ghost use Rattle.std.specs.Prelude.{◌≡◌, ◌&&◌, bytes_eq};
ghost use Rattle.std.specs.List.{list_any};
ghost use Rattle.neutral_keys.specs.ReadOver as spec;

/// Keys of `[pgbouncer]` that are read over at any value.
static AT_ANY_VALUE: [&str; 34] = [
    "auth_file",
    "logfile",
    "pidfile",
    "syslog",
    "verbose",
    "log_pooler_errors",
    "job_name",
    "pkt_buf",
    "listen_backlog",
    "server_check_delay",
    "server_login_retry",
    "server_reset_query_always",
    "syslog_facility",
    "syslog_ident",
    "service_name",
    "conffile",
    "reserve_pool_timeout",
    "autodb_idle_timeout",
    "cancel_wait_timeout",
    "suspend_timeout",
    "server_check_query",
    "max_prepared_statements",
    "sbuf_loopcnt",
    "tcp_defer_accept",
    "tcp_socket_buffer",
    "dns_max_ttl",
    "dns_nxdomain_ttl",
    "client_tls_ca_file",
    "client_tls_key_file",
    "client_tls_cert_file",
    "client_tls_protocols",
    "client_tls_ciphers",
    "client_tls_ecdhcurve",
    "client_tls_dheparams",
];

/// Keys of `[pgbouncer]`, each with a value at which it is read over.
static AT_ONE_VALUE: [(&str, &str); 27] = [
    ("min_pool_size", "0"),
    ("reserve_pool_size", "0"),
    ("max_db_connections", "0"),
    ("max_user_connections", "0"),
    ("max_db_client_connections", "0"),
    ("max_user_client_connections", "0"),
    ("query_timeout", "0"),
    ("client_idle_timeout", "0"),
    ("idle_transaction_timeout", "0"),
    ("server_fast_close", "0"),
    ("disable_pqexec", "0"),
    ("application_name_add_host", "0"),
    ("server_round_robin", "0"),
    ("dns_zone_check_period", "0"),
    ("so_reuseport", "0"),
    ("so_reuseport", "1"),
    ("resolv_conf", ""),
    ("auth_dbname", ""),
    ("auth_ident_file", ""),
    ("auth_hba_file", ""),
    ("auth_query", ""),
    ("auth_user", ""),
    ("user", ""),
    ("client_tls_sslmode", "disable"),
    ("server_tls_sslmode", "disable"),
    ("server_tls_sslmode", "allow"),
    ("server_tls_sslmode", "prefer"),
];

/// Keys of a database row, each with a value at which it is read over.
static AT_ONE_VALUE_IN_ROW: [(&str, &str); 6] = [
    ("pool_mode", "session"),
    ("min_pool_size", "0"),
    ("reserve_pool", "0"),
    ("reserve_pool_size", "0"),
    ("max_db_connections", "0"),
    ("max_db_client_connections", "0"),
];

/// Whether the name is in a list.
fn has_name(list: &[&str], name: &[u8]) -> bool
    ensures { result ≡ list_any (λ k. bytes_eq k.now name.now) list.now }
{
    for key in list {
        if key.as_bytes() == name {
            return true;
        }
    }
    false
}

/// Whether the name is in a table with this value.
fn has_pair(table: &[(&str, &str)], name: &[u8], value: &[u8]) -> bool
    ensures { result ≡ list_any (λ e. bytes_eq e.0.now name.now && bytes_eq e.1.now value.now) table.now }
{
    for (key, taken) in table {
        if key.as_bytes() == name && taken.as_bytes() == value {
            return true;
        }
    }
    false
}

/// Whether a key of `[pgbouncer]` is read over at this value.
pub fn is_read_over(name: &[u8], value: &[u8]) -> bool
    ensures { result ≡ spec.is_read_over name.now value.now }
{
    has_name(AT_ANY_VALUE.as_slice(), name) || has_pair(AT_ONE_VALUE.as_slice(), name, value)
}

/// Whether a key of a database row is read over at this value.
pub fn is_read_over_in_row(name: &[u8], value: &[u8]) -> bool
    ensures { result ≡ spec.is_read_over_in_row name.now value.now }
{
    has_pair(AT_ONE_VALUE_IN_ROW.as_slice(), name, value)
}
