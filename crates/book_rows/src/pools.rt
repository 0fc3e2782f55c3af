//! Pools: a pool is a database row's name and a user.
ghost use Rattle.std.specs.Prelude.{◌≡◌};
ghost use Rattle.std.specs.Arc.{arc_value};
ghost use Rattle.start_keys.specs.Keys.{same_key};
ghost use Rattle.book_model.specs.Book as book;
ghost use Rattle.book_rows.specs.PoolHashes.{pool_hash_of};

use crate::short_names::ShortName;
use start_keys::StartKey;
use std::hash::{FoldHasher, Hasher};
use std::marker::Model;
use std::sync::Arc;

/// A number that the keys of a pool share, and hardly ever those of two.
fn pool_hash(key: &StartKey) -> u64
    ensures { result ≡ pool_hash_of key.now }
{
    let mut hasher = FoldHasher::default();
    hasher.write(key.row.as_slice());
    hasher.write(key.user.as_slice());
    hasher.finish()
}

/// Whether the keys are of one pool: of one database row and one user.
fn is_same_pool(left: &StartKey, right: &StartKey) -> bool
    ensures { result ≡ book.same_pool left.now right.now }
{
    left.row == right.row && left.user == right.user
}

/// A start key with its pool's number, which tells most pools apart before their names are compared; and with these, where they are
/// short, so that a walk over many keys of one pool needn't follow each to its key.
#[derive(Clone)]
pub struct PoolKey {
    key: Arc<StartKey>,
    pool_hash: u64,
    name: Option<ShortName>,
}

impl Drop for PoolKey {
    fn drop(self) {
        let PoolKey {
            key: _,
            pool_hash: _,
            name: _,
        } = self;
    }
}

impl Model for PoolKey {
    ghost use Rattle.std.specs.Prelude.{◌≡◌, IfSome};
    ghost use Rattle.std.specs.Arc.{arc_value};
    ghost use Rattle.session_values.specs.State.{StartKeyOf};
    ghost use Rattle.book_rows.specs.PoolHashes.{pool_hash_of};
    ghost use Rattle.book_rows.specs.ShortNames.{IsNameOf};

    ghost Value = { StartKeyOf };

    ghost view = { λ k. arc_value k.key };

    ghost invariant = { λ k. (k.pool_hash ≡ pool_hash_of (arc_value k.key)) × IfSome k.name (IsNameOf (arc_value k.key)) };
}

impl PoolKey {
    /// The key, with its pool's number.
    pub fn new(key: Arc<StartKey>) -> PoolKey
        ensures { result ≡ arc_value key }
    {
        let pool_hash = pool_hash(&key);
        let name = ShortName::of(&key);
        PoolKey {
            key,
            pool_hash,
            name,
        }
    }

    /// The key.
    pub fn key(&self) -> &StartKey
        ensures { result.now ≡ self.now }
    {
        &self.key
    }

    /// A number that the keys of a pool share, and hardly ever those of two.
    pub(crate) fn hash(&self) -> u64
        ensures { result ≡ pool_hash_of self.now }
    {
        self.pool_hash
    }

    /// Whether the other key is of the same pool.
    #[tactic(auto, using(crate::proofs::PoolHashes::unlike))]
    pub fn is_in_pool_of(&self, other: &PoolKey) -> bool
        ensures { result ≡ book.same_pool self.now other.now }
    {
        self.pool_hash == other.pool_hash && self.is_named_as(other)
    }

    /// Whether both names are equal.
    fn is_named_as(&self, other: &PoolKey) -> bool
        ensures { result ≡ book.same_pool self.now other.now }
    {
        match (&self.name, &other.name) {
            (Some(name), Some(others)) => name.is(others),
            _ => is_same_pool(&self.key, &other.key),
        }
    }

    /// Whether the other key is equal, which its pool decides mostly.
    #[tactic(auto, using(crate::proofs::PoolHashes::other_pool))]
    pub fn is_key_of(&self, other: &PoolKey) -> bool
        ensures { result ≡ same_key self.now other.now }
    {
        self.is_in_pool_of(other) && *self.key == *other.key
    }

    /// Whether the keys are equal.
    pub fn is(&self, key: &StartKey) -> bool
        ensures { result ≡ same_key self.now key.now }
    {
        *self.key == *key
    }
}
