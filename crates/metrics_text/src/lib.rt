//! The text that Prometheus scrapes (OpenMetrics 1.0), as a function of a lease book's view and of what is known beside it. It has the
//! names of prometheus-community's pgbouncer_exporter for what PgBouncer has too, and names of its own for the rest. It does nothing
//! itself.
//!
//! Public: `put_metrics`, for `pool_run`, and `labels_tell`, which does nothing and is there for the law. Free to change: in which order
//! families are put together.
#![tactic(auto)]

mod columns;
mod families;
mod labels;
pub mod laws;
mod rows;
mod tables;
pub mod text;
