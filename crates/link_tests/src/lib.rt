//! Tests of links over ends in memory (`link_start`, `link_run`), of leases of one link by `relay_core`, of a client's whole service over
//! a link of its own (`memory_lease`), and of what a user's credential makes of a server's challenge (`credentials`).
#![tactic(auto)]

#[cfg(test)]
mod exchanges;
#[cfg(test)]
mod failures;
#[cfg(test)]
mod handover;
#[cfg(test)]
mod lease_parts;
#[cfg(test)]
mod limits;
#[cfg(test)]
mod making;
#[cfg(test)]
mod malformed;
#[cfg(test)]
mod resets;
#[cfg(test)]
mod saying_end;
#[cfg(test)]
mod scram_starts;
#[cfg(test)]
mod services;
#[cfg(test)]
mod short_gate;
#[cfg(test)]
mod starts;
#[cfg(test)]
mod verdicts;
