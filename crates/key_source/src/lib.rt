//! The key words of a pooler's clients, out of a seed.
//!
//! Public: `KeySource`, of which `pool_run` has one, for a key word of each client. Its contracts say which words a seed gives
//! (`KeyWords`); `pool_run` cites of them that its source is that of its seed and `peer_id`. Free to change, with the definition: how a
//! word is made of the stream, but for a peer's number, which stays the first byte of its pids, since what stands before several poolers
//! tells by it to which of them a cancel goes.
#![tactic(auto)]

ghost use Rattle.std.specs.Prelude.{◌≡◌};
ghost use Rattle.rand_chacha.specs.ChaCha.{of_seed};
ghost use Rattle.key_source.specs.KeyWords as spec;

use message_view::KeyWord;
use rand_chacha::ChaCha20Rng;
use rand_core::SeedableRng;
use rand_core::utils::NextWord;
use std::marker::Model;

/// A pid has 31 bits: its top bit would be a number's sign.
const PIDS: u32 = 0x8000_0000;

/// As many peers as the 7 bits of a pid's first byte tell apart.
const PEERS: u32 = 0x80;

/// As many pids as begin with the same byte.
const PIDS_OF_PEER: u32 = 0x100_0000;

/// The pid that a word of the stream gives. Of a peer that isn't 0 the pid's first byte is its number, and the word has the others.
fn pid_of(peer: u32, word: u32) -> u32
    ensures { result ≡ spec.pid_of peer word }
{
    if peer == 0 {
        return word % PIDS;
    }
    peer % PEERS * PIDS_OF_PEER + word % PIDS_OF_PEER
}

/// Key words, one for each client, out of the stream of ChaCha with 20 rounds that a seed begins. Who doesn't know the seed can't
/// tell what comes; the same seed gives the same words again.
#[derive(Drop)]
pub struct KeySource {
    words: ChaCha20Rng,
    peer: u32,
}

impl Model for KeySource {
    ghost use Rattle.key_source.specs.KeyWords.{SourceOf};

    ghost Value = { SourceOf };

    ghost view = { λ s. record { words = s.words; peer = s.peer } };
}

impl KeySource {
    /// The source that this seed begins, of the peer of this number among those that share clients' cancels: 1 to 127, or 0 where there
    /// are no others.
    pub fn new(seed: [u8; 32], peer: u32) -> KeySource
        ensures { result ≡ record { words = of_seed seed; peer = peer } }
    {
        KeySource {
            words: ChaCha20Rng::from_seed(seed),
            peer,
        }
    }

    /// The next key word: of three words of the stream, the first without its top bit is the pid, the second the secret, and the
    /// third the salt, its highest byte first. A peer's number stands in the place of the pid's first byte.
    pub fn next(&mut self) -> KeyWord
        ensures word { result ≡ spec.key_word self.old }
        ensures rest { self.new ≡ spec.after_key_word self.old }
    {
        let pid = pid_of(self.peer, self.words.next_word());
        let secret = self.words.next_word();
        let salt = self.words.next_word().to_be_bytes();
        KeyWord { pid, secret, salt }
    }
}
