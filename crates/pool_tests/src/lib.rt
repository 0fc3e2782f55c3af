//! Tests of workers that serve clients over one desk at the same time, over ends in memory (`pool_serve` over `pool_desk`, by
//! `memory_dial`): two at once, one after the other, cancels, and ends that fail.
#![tactic(auto)]

#[cfg(test)]
mod at_once;
#[cfg(test)]
mod cancels;
#[cfg(test)]
mod failing_ends;
#[cfg(test)]
mod failures;
#[cfg(test)]
mod held_client;
#[cfg(test)]
mod noted_ends;
#[cfg(test)]
mod turns;
