//! The startup parameters that are followed, unless they are untracked.
ghost use Rattle.std.specs.Prelude.{◌≡◌, option_map};
ghost use Rattle.std.specs.List.{list_all, list_any};
ghost use Rattle.std.specs.Str.{str_eq_ignore_ascii_case};
ghost use Rattle.ini_config.specs.OptionValues as spec;
ghost use Rattle.ini_config.specs.Values.{names};

use bstr::ByteSlice;
use text_lines::trimmed;

static ALWAYS_FOLLOWED: [&str; 5] = [
    "client_encoding",
    "datestyle",
    "timezone",
    "standard_conforming_strings",
    "application_name",
];

/// Whether the name is in the list, without regard to the case of ASCII letters.
fn has_name(list: &[&str], name: &[u8]) -> bool
    ensures { result ≡ list_any (λ n. str_eq_ignore_ascii_case n.now name.now) list.now }
{
    list.iter().any(|candidate| candidate.as_bytes().eq_ignore_ascii_case(name))
}

/// Whether a startup parameter of this name is followed, unless the settings untrack it: `client_encoding`, `datestyle`, `timezone`,
/// `standard_conforming_strings` and `application_name`. The case of ASCII letters doesn't count.
pub fn is_always_followed(name: &[u8]) -> bool
    ensures { result ≡ spec.has_folded spec.always_followed name.now }
{
    has_name(ALWAYS_FOLLOWED.as_slice(), name)
}

/// Whether each name of a list is one of those.
#[tactic(auto, unfolding(crate::specs::Values::names))]
fn are_always_followed(text: &[u8]) -> bool
    ensures { result ≡ list_all (spec.has_folded spec.always_followed) (names text.now) }
{
    for part in text.split_str(b",") {
        let name = trimmed(part);
        if !name.is_empty() && !is_always_followed(name) {
            return false;
        }
    }
    true
}

/// A list of parameters to untrack. None where another name is in it.
#[tactic(auto, unfolding(crate::specs::OptionValues::untracked))]
pub(crate) fn untracked(text: &[u8]) -> Option<&[u8]>
    ensures { option_map (λ t. names t.now) result ≡ spec.untracked text.now }
{
    if !are_always_followed(text) {
        return None;
    }
    Some(text)
}
