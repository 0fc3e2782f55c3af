//! The standing settings of `replay`: its settings and users as files have them, its catalogue and its key word.
ghost use Rattle.std.specs.Prelude.{◌≡◌, IfOk};
ghost use Rattle.replay_run.specs.Replay.{standing_catalogue, standing_settings, standing_users};

use ini_config::{Settings, read_settings};
use message_view::KeyWord;
use session_catalogue::Catalogue;
use std::alloc::{AllocError, Global};
use user_file::{Users, read_users};

/// The key word that `replay` gives its client.
pub(crate) const KEY_WORD: KeyWord = KeyWord {
    pid: 1,
    secret: 2,
    salt: [1, 2, 3, 4],
};

const SETTINGS: &[u8] =
    b"[databases]\nshop = host=127.0.0.1 port=5432 dbname=shop\n[pgbouncer]\nauth_type = trust\nadmin_users = root\n";

const USERS: &[u8] =
    b"\"ann\" \"secret\"\n\"bc\" \"md5900150983cd24fb0d6963f7d28e17f72\"\n\"root\" \"r\"\n";

const CATALOGUE: &[u8] =
    b"version\t16.0\ndatabase\tshop\ntable\tcity\tname\tcountry\nrow\tBern\tCH\nrow\tOslo\tNO\nrow\tNuuk\t\\N\n";

/// The standing settings.
pub(crate) fn settings(alloc: Global) -> Result<Settings, AllocError>
    ensures { IfOk result (λ s. s ≡ standing_settings) }
{
    match read_settings(alloc, SETTINGS) {
        Ok(settings) => Ok(settings),
        Err(_) => Err(AllocError),
    }
}

/// The standing users. Nobody is asked for SCRAM, so the key of the salts is any.
pub(crate) fn users(alloc: Global) -> Result<Users, AllocError>
    ensures { IfOk result (λ u. u ≡ standing_users) }
{
    match read_users(alloc, USERS) {
        Ok(table) => Ok(Users::new(table, [0; 32])),
        Err(_) => Err(AllocError),
    }
}

/// The standing catalogue.
pub(crate) fn catalogue(alloc: Global) -> Result<Catalogue, AllocError>
    ensures { IfOk result (λ c. c ≡ standing_catalogue) }
{
    match Catalogue::read(alloc, CATALOGUE) {
        Ok(catalogue) => Ok(catalogue),
        Err(_) => Err(AllocError),
    }
}
