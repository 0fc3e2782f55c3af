//! How names are salted for SCRAM, and by which keys their proofs are judged, be there such a user or not.
ghost use Rattle.std.specs.Prelude.{◌≡◌};
ghost use Rattle.user_file.specs.Salts as spec;

use scram::{Salt, ServerKeys, hmac};

/// The rounds by which a password is salted that the user file has as it is: PostgreSQL's default.
pub const ROUNDS: u32 = 4_096;

/// How a password is salted.
#[derive(Drop)]
pub struct Salting {
    pub salt: Salt,
    pub rounds: u32,
}

/// The keys by which a name's proof is judged. Those that don't count are nobody's: a proof is compared with them, so that it takes as
/// long, and is wrong.
#[derive(Clone, Copy, Drop)]
pub struct Judging {
    pub keys: ServerKeys,
    pub counts: bool,
}

/// The salt of a name under a key that nobody else knows: the same at each try, whether there is such a user or not.
pub(crate) fn salt_for(key: &[u8; 32], name: &[u8]) -> Salt
    ensures { result ≡ spec.salt_for key.now name.now }
{
    Salt::new(&hmac(key, name)[..16])
}
