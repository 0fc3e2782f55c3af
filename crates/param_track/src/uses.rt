//! What becomes of each pair of a StartupMessage.
ghost use Rattle.std.specs.Prelude.{◌≡◌, option_map};
ghost use Rattle.ini_config.specs.OptionValues.{has_folded};
ghost use Rattle.message_view.specs.Left.{pairs_left};
ghost use Rattle.param_track.specs.StartKeys as spec;

use ini_config::{Settings, is_always_followed};
use message_view::StartupView;
use start_keys::pairs::{is_identity, next_pair};

/// What a pair's name makes of it.
#[derive(Clone, Copy, PartialEq, Eq)]
pub(crate) enum Use {
    /// `user` or `database`, which are no parameters.
    Identity,
    /// A part of the key.
    Followed,
    /// Left out of the key.
    Dropped,
    Unsupported,
    Replication,
}

/// Whether the name is `user` or `database`, without regard to the case of ASCII letters.
fn folds_to_identity(name: &[u8]) -> bool
    ensures { result ≡ spec.folds_to_identity name.now }
{
    name.eq_ignore_ascii_case(b"user") || name.eq_ignore_ascii_case(b"database")
}

/// Whether the parameter is followed where nothing is said of it, and the settings don't untrack it.
#[tactic(auto, using(crate::proofs::Untracking::still_named))]
fn is_still_followed(settings: &Settings, name: &[u8]) -> bool
    ensures { result ≡ has_folded (spec.still_followed settings.now) name.now }
{
    is_always_followed(name) && !settings.untracks(name)
}

/// Whether it is the parameter `replication`, and not ignored.
fn is_replication(settings: &Settings, name: &[u8]) -> bool
    ensures { result ≡ spec.is_replication (spec.names_of settings.now) name.now }
{
    name.eq_ignore_ascii_case(b"replication") && !settings.ignores(name)
}

#[tactic(auto, using(crate::proofs::Untracking::followed_named))]
fn is_followed(settings: &Settings, name: &[u8]) -> bool
    ensures { result ≡ spec.is_followed (spec.names_of settings.now) name.now }
{
    !folds_to_identity(name) && (is_still_followed(settings, name) || settings.tracks(name))
}

/// What the settings make of a pair of this name.
pub(crate) fn use_of(settings: &Settings, name: &[u8]) -> Use
    ensures { result ≡ spec.use_of (spec.names_of settings.now) name.now }
{
    if is_identity(name) {
        return Use::Identity;
    }
    if is_replication(settings, name) {
        return Use::Replication;
    }
    if is_followed(settings, name) {
        return Use::Followed;
    }
    if settings.ignores(name) {
        return Use::Dropped;
    }
    Use::Unsupported
}

/// Whether the settings make this of one of the pairs.
pub(crate) fn has_use(settings: &Settings, start: &StartupView<'_>, wanted: Use) -> bool
    ensures { result ≡ spec.has_use (spec.names_of settings.now) wanted (pairs_left start.now.pairs) }
{
    let mut pairs = start.pairs();
    while let Some((name, _)) = next_pair(&mut pairs) {
        if use_of(settings, name) == wanted {
            return true;
        }
    }
    false
}

/// The name of the first pair of which the settings make this.
fn first_name<'a>(settings: &Settings, start: &StartupView<'a>, wanted: Use) -> Option<&'a [u8]>
    ensures { option_map (λ n. n.now) result ≡ spec.first_name (spec.names_of settings.now) wanted (pairs_left start.now.pairs) }
{
    let mut pairs = start.pairs();
    while let Some((name, _)) = next_pair(&mut pairs) {
        if use_of(settings, name) == wanted {
            return Some(name);
        }
    }
    None
}

/// The name, as it was sent, of the parameter for which a message is refused as unsupported: the first that is neither followed
/// nor ignored; where there is none, `replication`, unless the settings ignore it. It takes no memory.
pub fn unsupported_name<'a>(settings: &Settings, start: &StartupView<'a>) -> Option<&'a [u8]>
    ensures { option_map (λ n. n.now) result ≡ spec.unsupported_name (spec.names_of settings.now) (pairs_left start.now.pairs) }
{
    match first_name(settings, start, Use::Unsupported) {
        Some(name) => Some(name),
        None => first_name(settings, start, Use::Replication),
    }
}
