//! What the pairs of a StartupMessage ask for (PostgreSQL manual, "StartupMessage").
ghost use Rattle.std.specs.Prelude.{◌≡◌, ◌≤◌, length, OnOk};
ghost use Rattle.std.specs.Iterator.{YieldsFirstBy};
ghost use Rattle.session_values.specs.Left.{pairs_left};
ghost use Rattle.session_values.specs.Views.{texts_of};
ghost use Rattle.session_values.specs.Lawful as lawful;
ghost use Rattle.start_keys.specs.Places.{is_at, place_in};
ghost use Rattle.start_keys.specs.StartPairs as spec;

use crate::key::StartParameter;
use session_values::text::Text;
use session_values::{Pairs, StartupView};
use std::alloc::{AllocError, Global};
use std::cmp::Ordering;

/// The next pair of a StartupMessage: its name and its value.
pub fn next_pair<'a>(pairs: &mut Pairs<'a>) -> Option<(&'a [u8], &'a [u8])>
    ensures { YieldsFirstBy texts_of pairs_left pairs.old result pairs.new }
{
    pairs.next()
}

/// Whether the name is `user` or `database`, which are no parameters.
pub fn is_identity(name: &[u8]) -> bool
    ensures { result ≡ lawful.is_identity name.now }
{
    name == b"user".as_slice() || name == b"database".as_slice()
}

/// The value of the last pair of this name, byte for byte; empty where there is none.
pub fn value_of<'a>(start: &StartupView<'a>, name: &[u8]) -> &'a [u8]
    ensures { result.now ≡ spec.value_of name.now (pairs_left start.now.pairs) }
{
    let mut found: &'a [u8] = b"";
    let mut pairs = start.pairs();
    while let Some((candidate, value)) = next_pair(&mut pairs) {
        if candidate == name {
            found = value;
        }
    }
    found
}

/// The user that is asked for; empty where there is none.
pub fn user_of<'a>(start: &StartupView<'a>) -> &'a [u8]
    ensures { result.now ≡ spec.user_in (pairs_left start.now.pairs) }
{
    value_of(start, b"user")
}

/// The database that is asked for: where it is missing or empty, that of the user's name.
pub fn database_of<'a>(start: &StartupView<'a>) -> &'a [u8]
    ensures { result.now ≡ spec.database_in (pairs_left start.now.pairs) }
{
    let database = value_of(start, b"database");
    if database.is_empty() {
        return user_of(start);
    }
    database
}

fn is_before(left: &[u8], right: &[u8]) -> bool
    ensures { result ≡ lawful.is_before left.now right.now }
{
    left.cmp(right) == Ordering::Less
}

/// How many of the first parameters come before the name.
fn place_of(parameters: &[StartParameter], name: &[u8]) -> usize
    ensures place { result ≡ place_in name.now parameters.now }
    ensures bound { result ≤ length parameters.now }
{
    let mut place = 0;
    while place < parameters.len() && is_before(parameters[place].0.as_slice(), name) {
        place += 1;
    }
    place
}

/// Whether the parameter at the place has the name.
fn is_at(parameters: &[StartParameter], place: usize, name: &[u8]) -> bool
    ensures { result ≡ is_at place name.now parameters.now }
{
    place < parameters.len() && parameters[place].0.is(name)
}

/// Puts a parameter at the place of its name, in the stead of one of the same name.
#[tactic(auto, using(crate::proofs::Putting::put_set, crate::proofs::Putting::put_new))]
fn put_parameter(
    parameters: &mut Vec<StartParameter>,
    parameter: StartParameter,
) -> Result<(), AllocError>
    ensures { OnOk result (parameters.new.items ≡ spec.put parameter parameters.old.items) }
{
    let place = place_of(parameters.as_slice(), parameter.0.as_slice());
    if is_at(parameters.as_slice(), place, parameter.0.as_slice()) {
        parameters[place] = parameter;
        return Ok(());
    }
    parameters.insert(place, parameter)?;
    Ok(())
}

/// Puts a pair as a parameter: its name in lower case (ASCII), in the stead of a parameter of that name.
pub fn put_pair(
    alloc: Global,
    parameters: &mut Vec<StartParameter>,
    name: &[u8],
    value: &[u8],
) -> Result<(), AllocError>
    ensures { OnOk result (parameters.new.items ≡ spec.put (spec.folded (name.now, value.now)) parameters.old.items) }
{
    let parameter = (Text::folded(alloc, name)?, Text::from_slice(alloc, value)?);
    put_parameter(parameters, parameter)
}
