//! What is known of a TCP connection beside its socket: what it and the gate that minds it tell one another, and what other threads see
//! of it. All are words that threads share, of which nothing is proved.
//!
//! Public: `Notes` and `Reckoning`, which the connections and gates of `tcp_end` keep, and `Sight`, by which `pool_watch` reads what a
//! connection carried and cuts off a stranger; `running_tests` tries them over sockets. No contract speaks of any of it, so all is free
//! to change, as long as no try is left out that would come to something before the gate's next event, and nobody's descriptor is shut
//! down but the connection's own.
#![tactic(auto)]

pub mod notes;
pub mod presence;
pub mod reckoning;
pub mod sight;
pub mod tally;
