//! Tests of the login (`login_core`): its dialogues, worked byte for byte and cut at every byte; and of the users that it goes by
//! (`user_file`).
#![tactic(auto)]

#[cfg(test)]
mod login_parts;
#[cfg(test)]
mod logins;
#[cfg(test)]
mod scram_logins;
#[cfg(test)]
mod user_keys;
