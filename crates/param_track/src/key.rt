//! The start key of a StartupMessage.
ghost use Rattle.std.specs.Prelude.{◌≡◌, IfOk};
ghost use Rattle.message_view.specs.Left.{pairs_left};
ghost use Rattle.param_track.specs.StartKeys as spec;

use crate::StartKeyError;
use crate::uses::{Use, has_use, use_of};
use ini_config::Settings;
use message_view::StartupView;
use start_keys::pairs::{database_of, next_pair, put_pair, user_of};
use start_keys::text::Text;
use start_keys::{StartKey, StartParameter};
use std::alloc::{AllocError, Global};

/// The followed parameters, by name.
fn parameters_of(
    alloc: Global,
    settings: &Settings,
    start: &StartupView<'_>,
) -> Result<Vec<StartParameter>, AllocError>
    ensures { IfOk result (λ v. v.items ≡ spec.parameters_in (spec.names_of settings.now) (pairs_left start.now.pairs)) }
{
    let mut parameters = Vec::new(alloc);
    let mut pairs = start.pairs();
    while let Some((name, value)) = next_pair(&mut pairs) {
        if use_of(settings, name) == Use::Followed {
            put_pair(alloc, &mut parameters, name, value)?;
        }
    }
    Ok(parameters)
}

/// The key of a message that the settings don't refuse.
fn wanted_key(
    alloc: Global,
    settings: &Settings,
    start: &StartupView<'_>,
) -> Result<StartKey, AllocError>
    ensures { IfOk result (λ k. k ≡ spec.wanted_key settings.now (pairs_left start.now.pairs)) }
{
    let database = database_of(start);
    let parameters = parameters_of(alloc, settings, start)?;
    let user = Text::from_slice(alloc, user_of(start))?;
    match settings.row(database) {
        Some(row) => Ok(StartKey {
            row: Text::from_slice(alloc, database)?,
            host: Some(*row.host),
            port: row.port,
            dbname: Text::from_slice(alloc, row.dbname)?,
            user,
            parameters,
        }),
        None => Ok(StartKey {
            row: Text::from_slice(alloc, database)?,
            host: None,
            port: 0,
            dbname: Text::from_slice(alloc, b"")?,
            user,
            parameters,
        }),
    }
}

/// The first reason for which the settings refuse the message.
fn refusal(settings: &Settings, start: &StartupView<'_>) -> Option<StartKeyError>
    ensures { result ≡ spec.refusal (spec.names_of settings.now) (pairs_left start.now.pairs) }
{
    if user_of(start).is_empty() {
        return Some(StartKeyError::NoUser);
    }
    if has_use(settings, start, Use::Unsupported) {
        return Some(StartKeyError::UnsupportedParameter);
    }
    if has_use(settings, start, Use::Replication) {
        return Some(StartKeyError::Replication);
    }
    None
}

/// The start key that a StartupMessage gives under the settings.
///
/// Names of parameters are folded to lower case (ASCII), and of equal names the last counts. Followed are `client_encoding`,
/// `datestyle`, `timezone`, `standard_conforming_strings` and `application_name`, but those that `untrack_parameters` names, and
/// all that `track_extra_parameters` names; others are dropped where `ignore_startup_parameters` names them. `user` and `database`
/// are matched exactly, and no name that folds to one of them is followed. A database that is missing or empty is that of the
/// user's name.
///
/// [`StartKeyError::NoUser`], [`StartKeyError::UnsupportedParameter`] and [`StartKeyError::Replication`], the first that holds in this
/// order; [`StartKeyError::Memory`] only where none of them does.
pub fn start_key(
    alloc: Global,
    settings: &Settings,
    start: &StartupView<'_>,
) -> Result<StartKey, StartKeyError>
    ensures { spec.Answers result (spec.start_key_under settings.now (pairs_left start.now.pairs)) }
{
    if let Some(fault) = refusal(settings, start) {
        return Err(fault);
    }
    Ok(wanted_key(alloc, settings, start)?)
}
