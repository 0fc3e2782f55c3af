//! What a worker (`pool_serve`) gives a client that it serves, and what becomes of its link: rows of all such ends, to which
//! `serving_parts` holds workers.
#![tactic(auto)]

#[cfg(test)]
mod served_rows;
