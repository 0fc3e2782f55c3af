//! What a worker (`pool_serve`) tells a client that it refuses or closes, and what becomes of its link: rows of all such ends, to which
//! `serving_parts` holds workers; who is let in where as many clients are there as may be; and what is told where memory is refused.
#![tactic(auto)]

#[cfg(test)]
mod places;
#[cfg(test)]
mod refused_rows;
#[cfg(test)]
mod unasked;
