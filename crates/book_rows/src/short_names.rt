//! Short names of pools, kept where they are compared.
ghost use Rattle.std.specs.Prelude.{◌≡◌, IfSome};
ghost use Rattle.book_model.specs.Book.{same_pool};
ghost use Rattle.book_rows.specs.ShortNames.{IsNameOf};
ghost use Rattle.session_values.specs.State.{StartKeyOf};

use start_keys::StartKey;
use std::marker::Model;

/// The bytes of a short name, at most.
const LONGEST: usize = 30;

/// The names of a pool's database row and of its user, one behind the other.
#[derive(Clone, Drop)]
pub(crate) struct ShortName {
    bytes: [u8; LONGEST],
    /// So many bytes are the row's name.
    row: u8,
    /// So many are both names.
    both: u8,
}

impl Model for ShortName {
    ghost use Rattle.std.specs.Prelude.{◌≤◌, take};
    ghost use Rattle.book_rows.specs.ShortNames.{NameOf, name_of};
    ghost use Rattle.book_rows.specs.declared.short_names.TheConstants.{LONGEST};

    ghost Value = { NameOf };

    ghost view = { λ n. name_of n.row (take n.both n.bytes) };

    ghost invariant = { λ n. n.both ≤ LONGEST };
}

impl ShortName {
    /// The name of the key's pool; none where it isn't short.
    pub(crate) fn of(key: &StartKey) -> Option<ShortName>
        ensures { IfSome result (IsNameOf key.now) }
    {
        let row = key.row.as_slice();
        let user = key.user.as_slice();
        if row.len() > LONGEST || user.len() > LONGEST - row.len() {
            return None;
        }
        let both = row.len() + user.len();
        let mut bytes = [0u8; LONGEST];
        bytes[..row.len()].copy_from_slice(row);
        bytes[row.len()..both].copy_from_slice(user);
        Some(ShortName {
            bytes,
            row: row.len() as u8,
            both: both as u8,
        })
    }

    /// Whether they are names of one pool.
    pub(crate) fn is(&self, other: &ShortName) -> bool
        ensures { (left right : StartKeyOf) → IsNameOf left self.now → IsNameOf right other.now → result ≡ same_pool left right }
    {
        self.row == other.row
            && self.bytes[..self.both as usize] == other.bytes[..other.both as usize]
    }
}
