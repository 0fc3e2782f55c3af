//! The settings, users and catalogue of the tests.
ghost use Rattle.std.specs.Prelude.{IfOk};
ghost use Rattle.ini_config.specs.Bounds.{AreWithinBounds};

use ini_config::laws::read_settings_are_within_bounds;
use ini_config::{Settings, read_settings};
use session_catalogue::Catalogue;
use std::alloc::{AllocError, Global};
use std::sync::Arc;
use user_file::{Users, read_users};

/// The database that all clients ask for, with trust; other options may follow.
pub const SHOP: &[u8] =
    b"[databases]\nshop = host=127.0.0.1 port=5432 dbname=shop\n[pgbouncer]\nauth_type = trust\n";

const USERS: &[u8] = b"\"ann\" \"secret\"\n";

const CATALOGUE: &[u8] =
    b"version\t16.0\ndatabase\tshop\ntable\tcity\tname\tcountry\nrow\tBern\tCH\nrow\tOslo\tNO\nrow\tNuuk\t\\N\n";

/// Ann's StartupMessage for the database shop.
pub const START: &[u8] = b"\0\0\0\x20\0\x03\0\0user\0ann\0database\0shop\0\0";

/// The settings of this file.
pub fn settings_of(alloc: Global, text: &[u8]) -> Result<Settings, AllocError>
    ensures { IfOk result (λ s. AreWithinBounds s) }
{
    read_settings_are_within_bounds();
    match read_settings(alloc, text) {
        Ok(settings) => Ok(settings),
        Err(_) => Err(AllocError),
    }
}

/// Ann alone.
pub fn users(alloc: Global) -> Result<Arc<Users>, AllocError> {
    match read_users(alloc, USERS) {
        Ok(table) => Ok(Arc::new(alloc, Users::new(table, [0; 32]))?),
        Err(_) => Err(AllocError),
    }
}

/// What stands behind every address.
pub fn catalogue(alloc: Global) -> Result<Arc<Catalogue>, AllocError> {
    match Catalogue::read(alloc, CATALOGUE) {
        Ok(catalogue) => Ok(Arc::new(alloc, catalogue)?),
        Err(_) => Err(AllocError),
    }
}
