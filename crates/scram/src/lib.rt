//! SCRAM-SHA-256 (RFC 5802, RFC 7677) as PostgreSQL speaks it, for both roles: the keys of a password, what a server keeps of it
//! ([`Verifier`]), and the texts of the exchange, read and written.
//!
//! The four texts are the client's first message (`n,,n=..,r=..`), the server's challenge (`r=..,s=..,i=..`), the client's last message
//! (`c=..,r=..,p=..`) and the server's last one (`v=..`). Three parts of the first three are what both sides prove, and are handed in
//! together: `bare`, the client's first message without its header (client-first-message-bare); `challenge`, whole
//! (server-first-message); and `unproved`, the client's last message without its proof (client-final-message-without-proof). No channel
//! is bound, which TLS alone could, and nobody logs in as somebody else: such messages aren't read.
//!
//! Passwords are handed in as they are salted: who wants SASLprep prepares them. Nonces and salts are handed in too: nothing here is
//! drawn by chance, nothing is kept, and no memory is wiped.
//!
//! A proof is judged by comparing two vectors of 32 bytes, with no branch on any of them. That this takes the same time wherever they
//! differ rests on the compiler and the processor, and isn't proved.
//!
//! Public: for `user_file` verifiers and keys (`Verifier`, `Salt`, `ServerKeys`, `salted`); for `login_core` the server's role
//! (`initial_response`, `First`, `Last`, `challenge_message`, `final_message`); for `credentials` the client's (`first_message`,
//! `Challenge`, `ClientKeys`, `last_unproved`, `last_message`); `nonce` for both; and `hmac`, by which `pool_run` makes the key of the
//! salts. `login_laws` cites the definitions too. Free to change: how HMAC's blocks are kept, and how texts are taken apart.
#![tactic(auto)]

pub mod client_messages;
mod hmac_key;
pub mod keys;
mod message;
pub mod server_messages;
mod texts;
mod verifier;
mod wire;
mod writing;

pub use hmac_key::hmac;
pub use keys::{ClientKeys, ServerKeys};
pub use message::{MAX_MESSAGE, Message};
pub use verifier::{MAX_ROUNDS_KEPT, MAX_SALT, Salt, Verifier};
pub use wire::initial_response;
