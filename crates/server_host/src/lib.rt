//! A server's host, as a database row names it: a text of at most 255 bytes, which takes no memory where it is copied.
//!
//! Public: `Host`, which `ini_config` makes of a row's text, start keys have (`start_keys`), `tcp_reach` connects to, and `pgsess` names
//! the folder of its Unix socket by; `ini_config` and `start_keys` pass it on to those above them. Which texts are hosts `ini_config`
//! says. Contracts see the text alone: how its bytes lie is free to change.
#![tactic(auto)]

ghost use Rattle.std.specs.Prelude.{◌≡◌, ◌≤◌, [], length, nat_le, bytes_eq, codes, Some, None, if◌then◌else◌};
ghost use Rattle.server_host.specs.declared.TheConstants.{MAX_HOST};
ghost use Rattle.std.specs.Cmp.{partial_equiv_from_equiv};
ghost use Rattle.std.specs.Cmp.Lexicographic.{nat_list_eq_equiv};

use std::marker::Model;

/// As many bytes as a host has at most.
pub const MAX_HOST: usize = 255;

/// The text of a host: at most [`MAX_HOST`] bytes, of any encoding. Contracts see it as a list. It is copied as numbers are, so that what names a
/// server takes no memory where it goes from one place to another.
#[derive(Clone, Copy)]
pub struct Host {
    /// The text, and zeros behind it.
    bytes: [u8; MAX_HOST],
    len: u8,
}

impl Model for Host {
    ghost use Rattle.std.specs.Prelude.{◌≡◌, ◌≤◌, ◌-◌, ◌++◌, ℕ, List, length, replicate, take};
    ghost use Rattle.server_host.specs.Filled.{filled_again};

    ghost Value = { List ℕ };

    ghost view = { λ h. take h.len h.bytes };

    ghost invariant = { λ h. (length (take h.len h.bytes) ≡ h.len) × (h.bytes ≡ take h.len h.bytes ++ replicate (255 - h.len) 0) };

    ghost inverse = { λ t. record { bytes = t ++ replicate (255 - length t) 0; len = length t } };

    ghost inverse_ok = { λ a h. filled_again a h.0 h.1 };
}

/// Hosts are equal where their texts are.
impl PartialEq for Host {
    ghost eq = { bytes_eq };

    ghost laws = { partial_equiv_from_equiv nat_list_eq_equiv };

    fn eq(&self, other: &Host) -> bool {
        self.is(other.as_bytes())
    }
}

impl Eq for Host {
    ghost laws = { nat_list_eq_equiv };
}

impl Host {
    /// The empty text.
    pub fn empty() -> Host
        ensures { result ≡ [] }
    {
        Host {
            bytes: [0u8; MAX_HOST],
            len: 0,
        }
    }

    /// That of this machine: `127.0.0.1`.
    pub fn local() -> Host
        ensures { result ≡ codes "127.0.0.1" }
    {
        let mut bytes = [0u8; MAX_HOST];
        bytes[..9].copy_from_slice(b"127.0.0.1");
        Host { bytes, len: 9 }
    }

    /// That of this text; none where it has more bytes.
    #[tactic(auto, using(crate::proofs::Writing::front, crate::proofs::Writing::counted, crate::proofs::Writing::filled))]
    pub fn new(text: &[u8]) -> Option<Host>
        ensures { result ≡ (if nat_le (length text.now) MAX_HOST then Some text.now else None) }
    {
        if text.len() > MAX_HOST {
            return None;
        }
        let mut bytes = [0u8; MAX_HOST];
        bytes[..text.len()].copy_from_slice(text);
        Some(Host {
            bytes,
            len: text.len() as u8,
        })
    }

    /// The text.
    pub fn as_bytes(&self) -> &[u8]
        ensures { result.now ≡ self.now }
    {
        &self.bytes[..self.len as usize]
    }

    /// Whether it is this text.
    pub fn is(&self, text: &[u8]) -> bool
        ensures { result ≡ bytes_eq self.now text.now }
    {
        self.as_bytes() == text
    }
}
