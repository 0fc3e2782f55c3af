//! Settings, users and a catalogue.
ghost use Rattle.std.specs.Prelude.{IfOk};
ghost use Rattle.std.specs.Arc.{arc_value};
ghost use Rattle.session_values.specs.Lawful.{IsLawfulCatalogue};

use ini_config::{Settings, read_settings};
use session_catalogue::Catalogue;
use std::alloc::{AllocError, Global};
use std::sync::Arc;
use user_file::{Users, read_users};

/// A database whose clients give a password, and may send one parameter more.
const SETTINGS: &[u8] =
    b"[databases]\nshop = host=127.0.0.1 port=5432 dbname=shop\n[pgbouncer]\nauth_type = plain\n";

const USERS: &[u8] = b"\"ann\" \"secret\"\n";

const CATALOGUE: &[u8] =
    b"version\t16.0\ndatabase\tshop\ntable\tcity\tname\tcountry\nrow\tBern\tCH\nrow\tOslo\tNO\n";

pub fn settings(alloc: Global) -> Result<Arc<Settings>, AllocError> {
    match read_settings(alloc, SETTINGS) {
        Ok(settings) => Ok(Arc::new(alloc, settings)?),
        Err(_) => Err(AllocError),
    }
}

/// Ann alone.
pub fn users(alloc: Global) -> Result<Arc<Users>, AllocError> {
    match read_users(alloc, USERS) {
        Ok(table) => Ok(Arc::new(alloc, Users::new(table, [0; 32]))?),
        Err(_) => Err(AllocError),
    }
}

/// What stands behind every address.
pub fn catalogue(alloc: Global) -> Result<Arc<Catalogue>, AllocError>
    ensures { IfOk result (λ c. IsLawfulCatalogue (arc_value c)) }
{
    let Ok(catalogue) = Catalogue::read(alloc, CATALOGUE) else {
        return Err(AllocError);
    };
    catalogue.is_lawful();
    Ok(Arc::new(alloc, catalogue)?)
}
