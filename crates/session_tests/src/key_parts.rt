//! What a key says. Each test asks for all of it at once, since each assert over a key that is alive costs its proof.
use start_keys::{Host, StartKey};

/// Whether the key is of this database row, of this database there, and of this user.
pub fn is_of(key: &StartKey, row: &[u8], dbname: &[u8], user: &[u8]) -> bool {
    key.row.is(row) && key.dbname.is(dbname) && key.user.is(user)
}

/// Whether its server is at this address and port.
pub fn is_at(key: &StartKey, host: Option<Host>, port: u16) -> bool {
    key.host == host && key.port == port
}

/// Whether these are its parameters, in this order.
pub fn has_parameters(key: &StartKey, wanted: &[(&[u8], &[u8])]) -> bool {
    if key.parameters.len() != wanted.len() {
        return false;
    }
    for (parameter, (name, value)) in key.parameters.iter().zip(wanted) {
        if !parameter.0.is(name) || !parameter.1.is(value) {
            return false;
        }
    }
    true
}
