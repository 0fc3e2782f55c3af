//! What is known of a pool beside its lease book: what went through its links, who is there, and what was decided last. Whoever shows it
//! goes by these types.
//!
//! Public: `Figures`, which `pool_watch` adds up and the log of `pool_run` tells; `Seen`, `ClientSeen`, `DatabaseSeen` and `Activity`,
//! which `pool_watch` fills, desks (`link_desk`, `pool_desk`) and `console_run` hand on, and `monitor_core` and `metrics_text` show;
//! `DecisionSeen`, which `lease_book` gives. What is shown cites their fields by name (`monitor_core`, `metrics_text`): nothing but their
//! order is free to change.
#![tactic(auto)]

pub mod decisions;
pub mod figures;
pub mod seen;
