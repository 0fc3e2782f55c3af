//! Tests of a session, from `session_values` up to `session_machine`, and of the files that name its catalogue; and of start keys and what
//! servers report of their parameters (`start_keys`, `param_track`).
#![tactic(auto)]

#[cfg(test)]
mod catalogues;
#[cfg(test)]
mod client_keys;
#[cfg(test)]
mod conversations;
#[cfg(test)]
mod key_parts;
#[cfg(test)]
mod reports;
#[cfg(test)]
mod settings;
#[cfg(test)]
mod stub_keys;
