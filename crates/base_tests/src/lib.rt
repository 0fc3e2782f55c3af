//! Tests of what the sessions stand on: of `frame_view`, `message_view` and `disposal`, of the statements of `mini_sql`, and of
//! `shared_list`.
#![tactic(auto)]

#[cfg(test)]
mod append_lists;
#[cfg(test)]
mod blocks;
#[cfg(test)]
mod cursors;
#[cfg(test)]
mod frames;
#[cfg(test)]
mod message_parts;
#[cfg(test)]
mod readers;
#[cfg(test)]
mod refusals;
#[cfg(test)]
mod selects;
#[cfg(test)]
mod settings;
#[cfg(test)]
mod shared_lists;
#[cfg(test)]
mod shown;
#[cfg(test)]
mod statement_parts;
#[cfg(test)]
mod tables;
#[cfg(test)]
mod verdicts;
#[cfg(test)]
mod writers;
