//! The columns of the tables, with their types.
ghost use Rattle.std.specs.Prelude.{◌≡◌, ◌≤◌, ◌++◌, ◌∷◌, length};
ghost use Rattle.message_view.specs.Bodies.{int16, int32, minus_one32};
ghost use Rattle.monitor_core.specs.Columns as spec;
ghost use Rattle.monitor_core.specs.Views.{groups_of};
ghost use Rattle.monitor_core.specs.declared.rows.TheConstants.{WIDEST};

use crate::asking::Table;

/// The type of a column's values.
#[derive(Clone, Copy, PartialEq, Eq, Drop)]
pub enum Kind {
    Text,
    Int4,
    Int8,
    Numeric,
}

/// Columns of one type.
#[derive(Clone, Copy, Drop)]
pub struct Group {
    pub kind: Kind,
    pub names: &'static [&'static [u8]],
}

impl Kind {
    /// What stands behind a column's name: the zero byte that ends it; no table and no number in one; the type, its size and no modifier; the
    /// text format.
    pub(crate) fn behind_name(self) -> &'static [u8]
        ensures { result.now ≡ spec.behind_name self }
    {
        match self {
            Kind::Text => b"\0\0\0\0\0\0\0\0\0\0\x19\xff\xff\xff\xff\xff\xff\0\0",
            Kind::Int4 => b"\0\0\0\0\0\0\0\0\0\0\x17\0\x04\xff\xff\xff\xff\0\0",
            Kind::Int8 => b"\0\0\0\0\0\0\0\0\0\0\x14\0\x08\xff\xff\xff\xff\0\0",
            Kind::Numeric => b"\0\0\0\0\0\0\0\0\0\x06\xa4\xff\xff\xff\xff\xff\xff\0\0",
        }
    }
}

/// The columns of a table, those of one type that stand side by side together.
#[tactic(auto, unfolding(crate::specs::Columns::groups))]
pub fn columns(table: Table) -> &'static [Group]
    ensures few { length (spec.names_of (groups_of result.now)) ≤ WIDEST }
    ensures columns { groups_of result.now ≡ spec.groups table }
{
    match table {
        Table::Stats => &[
            Group {
                kind: Kind::Text,
                names: &[b"database"],
            },
            Group {
                kind: Kind::Numeric,
                names: &[
                    b"total_xact_count",
                    b"total_query_count",
                    b"total_received",
                    b"total_sent",
                    b"total_xact_time",
                    b"total_query_time",
                    b"total_wait_time",
                    b"avg_xact_count",
                    b"avg_query_count",
                    b"avg_recv",
                    b"avg_sent",
                    b"avg_xact_time",
                    b"avg_query_time",
                    b"avg_wait_time",
                    b"total_server_assignment_count",
                    b"avg_server_assignment_count",
                    b"total_client_parse_count",
                    b"total_server_parse_count",
                    b"total_bind_count",
                    b"avg_client_parse_count",
                    b"avg_server_parse_count",
                    b"avg_bind_count",
                    b"total_requests",
                ],
            },
        ],
        Table::StatsTotals => &[
            Group {
                kind: Kind::Text,
                names: &[b"database"],
            },
            Group {
                kind: Kind::Numeric,
                names: &[
                    b"xact_count",
                    b"query_count",
                    b"bytes_received",
                    b"bytes_sent",
                    b"xact_time",
                    b"query_time",
                    b"wait_time",
                    b"server_assignment_count",
                    b"client_parse_count",
                    b"server_parse_count",
                    b"bind_count",
                ],
            },
        ],
        Table::StatsAverages => &[
            Group {
                kind: Kind::Text,
                names: &[b"database"],
            },
            Group {
                kind: Kind::Numeric,
                names: &[
                    b"xact_count",
                    b"query_count",
                    b"bytes_received",
                    b"bytes_sent",
                    b"xact_time",
                    b"query_time",
                    b"wait_time",
                    b"server_assignment_count",
                    b"avg_client_parse_count",
                    b"avg_server_parse_count",
                    b"avg_bind_count",
                ],
            },
        ],
        Table::Lists => &[
            Group {
                kind: Kind::Text,
                names: &[b"list"],
            },
            Group {
                kind: Kind::Int4,
                names: &[b"items"],
            },
        ],
        Table::Databases => &[
            Group {
                kind: Kind::Text,
                names: &[b"name", b"host"],
            },
            Group {
                kind: Kind::Int4,
                names: &[b"port"],
            },
            Group {
                kind: Kind::Text,
                names: &[b"database", b"force_user"],
            },
            Group {
                kind: Kind::Int4,
                names: &[b"pool_size", b"min_pool_size", b"reserve_pool"],
            },
            Group {
                kind: Kind::Text,
                names: &[b"pool_mode"],
            },
            Group {
                kind: Kind::Int4,
                names: &[
                    b"max_connections",
                    b"current_connections",
                    b"paused",
                    b"disabled",
                    b"reserve_pool_size",
                    b"server_lifetime",
                ],
            },
            Group {
                kind: Kind::Text,
                names: &[b"load_balance_hosts"],
            },
            Group {
                kind: Kind::Int4,
                names: &[b"max_client_connections", b"current_client_connections"],
            },
        ],
        Table::State => &[Group {
            kind: Kind::Text,
            names: &[b"key", b"value"],
        }],
        Table::Activity => &[
            Group {
                kind: Kind::Int8,
                names: &[b"client"],
            },
            Group {
                kind: Kind::Text,
                names: &[b"user", b"database", b"address"],
            },
            Group {
                kind: Kind::Int8,
                names: &[b"connected_ms"],
            },
            Group {
                kind: Kind::Text,
                names: &[b"state"],
            },
            Group {
                kind: Kind::Int8,
                names: &[
                    b"state_ms",
                    b"link",
                    b"server_pid",
                    b"transactions",
                    b"queries",
                    b"received",
                    b"sent",
                ],
            },
        ],
        Table::Pools => &[
            Group {
                kind: Kind::Text,
                names: &[b"database", b"user"],
            },
            Group {
                kind: Kind::Int4,
                names: &[
                    b"cl_active",
                    b"cl_waiting",
                    b"sv_active",
                    b"sv_idle",
                    b"sv_used",
                    b"sv_tested",
                    b"sv_login",
                    b"maxwait",
                    b"maxwait_us",
                ],
            },
            Group {
                kind: Kind::Text,
                names: &[b"pool_mode"],
            },
            Group {
                kind: Kind::Int4,
                names: &[
                    b"cl_active_cancel_req",
                    b"cl_waiting_cancel_req",
                    b"sv_active_cancel",
                    b"sv_being_canceled",
                ],
            },
            Group {
                kind: Kind::Text,
                names: &[b"load_balance_hosts"],
            },
        ],
        Table::Clients | Table::Servers => &[
            Group {
                kind: Kind::Text,
                names: &[b"type", b"user", b"database", b"state", b"addr"],
            },
            Group {
                kind: Kind::Int4,
                names: &[b"port"],
            },
            Group {
                kind: Kind::Text,
                names: &[b"local_addr"],
            },
            Group {
                kind: Kind::Int4,
                names: &[b"local_port"],
            },
            Group {
                kind: Kind::Text,
                names: &[b"connect_time", b"request_time"],
            },
            Group {
                kind: Kind::Int4,
                names: &[b"wait", b"wait_us", b"close_needed"],
            },
            Group {
                kind: Kind::Text,
                names: &[b"ptr", b"link"],
            },
            Group {
                kind: Kind::Int4,
                names: &[b"remote_pid"],
            },
            Group {
                kind: Kind::Text,
                names: &[b"tls", b"application_name", b"replication"],
            },
            Group {
                kind: Kind::Int4,
                names: &[b"prepared_statements"],
            },
            Group {
                kind: Kind::Int8,
                names: &[b"id"],
            },
        ],
        Table::Config => &[Group {
            kind: Kind::Text,
            names: &[b"key", b"value", b"default", b"changeable"],
        }],
        Table::Version => &[Group {
            kind: Kind::Text,
            names: &[b"version"],
        }],
        Table::Totals => &[
            Group {
                kind: Kind::Text,
                names: &[b"name"],
            },
            Group {
                kind: Kind::Numeric,
                names: &[b"value"],
            },
        ],
        Table::Users => &[Group {
            kind: Kind::Text,
            names: &[b"name", b"pool_mode"],
        }],
        Table::Decisions => &[
            Group {
                kind: Kind::Int8,
                names: &[b"number", b"pass"],
            },
            Group {
                kind: Kind::Text,
                names: &[b"event"],
            },
            Group {
                kind: Kind::Int8,
                names: &[b"of"],
            },
            Group {
                kind: Kind::Text,
                names: &[b"reply"],
            },
            Group {
                kind: Kind::Int8,
                names: &[b"to"],
            },
        ],
    }
}
