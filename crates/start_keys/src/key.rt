//! A session's start key.
ghost use Rattle.std.specs.Prelude.{◌≡◌, IfOk};
ghost use Rattle.std.specs.Cmp.{decided, partial_equiv_from_equiv};
ghost use Rattle.std.proofs.Common.{ap};
ghost use Rattle.start_keys.specs.Keys.{key_hashed, same_host, same_key, same_pairs};
ghost use Rattle.start_keys.specs.SameKeys.{same_keys-one};

use server_host::Host;
use session_values::text::Text;
use std::alloc::{AllocError, Global};
use std::hash::{Hash, Hasher};
use std::marker::Model;

/// A parameter that a client asked for: its name in lower case, and the value.
pub type StartParameter = (Text, Text);

/// What a client's server session is chosen by: a link is lent only to a client with an equal key.
///
/// Parameters stand by name, each once. Where the settings have no such database row, `host` is
/// none, `port` 0 and `dbname` empty.
pub struct StartKey {
    pub row: Text,
    pub host: Option<Host>,
    pub port: u16,
    pub dbname: Text,
    pub user: Text,
    pub parameters: Vec<StartParameter>,
}

impl Drop for StartKey {
    fn drop(self) {
        let StartKey {
            row: _,
            host: _,
            port: _,
            dbname: _,
            user: _,
            parameters: _,
        } = self;
    }
}

impl Model for StartKey {
    ghost use Rattle.session_values.specs.State.{StartKeyOf};

    ghost Value = { StartKeyOf };

    ghost view = { λ k. record {
      row = k.row;
      host = k.host;
      port = k.port;
      dbname = k.dbname;
      user = k.user;
      parameters = k.parameters.items;
    } };
}

impl StartKey {
    /// The key of another user's session, of the same database and parameters. The only error is out of memory.
    pub fn of_user(&self, alloc: Global, user: &[u8]) -> Result<StartKey, AllocError>
        ensures { IfOk result (λ key. key ≡ record self.now { user = user.now }) }
    {
        Ok(StartKey {
            row: self.row.copied()?,
            host: self.host,
            port: self.port,
            dbname: self.dbname.copied()?,
            user: Text::from_slice(alloc, user)?,
            parameters: self.parameters.clone()?,
        })
    }
}

/// Whether both are none, or the same text.
fn is_same_host(left: &Option<Host>, right: &Option<Host>) -> bool
    ensures { result ≡ same_host left.now right.now }
{
    match (left, right) {
        (None, None) => true,
        (Some(left), Some(right)) => left.is(right.as_bytes()),
        _ => false,
    }
}

/// Whether the parameters are the same, one by one.
fn are_same_pairs(left: &[StartParameter], right: &[StartParameter]) -> bool
    ensures { result ≡ same_pairs left.now right.now }
{
    left == right
}

/// Keys are equal where each part is the same, byte for byte.
impl PartialEq for StartKey {
    ghost eq = { same_key };

    ghost laws = { partial_equiv_from_equiv (decided same_key same_keys-one) };

    fn eq(&self, other: &StartKey) -> bool {
        self.row == other.row
            && is_same_host(&self.host, &other.host)
            && self.port == other.port
            && self.dbname == other.dbname
            && self.user == other.user
            && are_same_pairs(self.parameters.as_slice(), other.parameters.as_slice())
    }
}

impl Eq for StartKey {
    ghost laws = { decided same_key same_keys-one };
}

impl Hash for StartKey {
    ghost hash_input = { key_hashed };

    ghost respects_eq = { λ a b same. ap key_hashed ((same_keys-one a b).0 same) };

    /// Of the row, the user and the parameters: keys of one row have one server.
    fn hash<H: Hasher>(&self, state: &mut H) {
        self.row.hash(state);
        self.user.hash(state);
        self.parameters.hash(state);
    }
}
