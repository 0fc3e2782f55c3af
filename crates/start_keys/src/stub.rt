//! The start key of a stand-in server's own session.
ghost use Rattle.std.specs.Prelude.{◌≡◌, IfOk};
ghost use Rattle.session_values.specs.Left.{pairs_left};
ghost use Rattle.session_values.specs.Answers.{Finds};
ghost use Rattle.start_keys.specs.StubKeys as spec;

use crate::key::{StartKey, StartParameter};
use crate::pairs::{database_of, is_identity, next_pair, put_pair, user_of};
use server_host::Host;
use session_values::StartupView;
use session_values::cause::Cause;
use session_values::stop::Stop;
use session_values::text::Text;
use std::alloc::{AllocError, Global};

/// Every pair but user and database, by name.
fn stub_parameters(
    alloc: Global,
    start: &StartupView<'_>,
) -> Result<Vec<StartParameter>, AllocError>
    ensures { IfOk result (λ v. v.items ≡ spec.stub_parameters (pairs_left start.now.pairs)) }
{
    let mut parameters = Vec::new(alloc);
    let mut pairs = start.pairs();
    while let Some((name, value)) = next_pair(&mut pairs) {
        if !is_identity(name) {
            put_pair(alloc, &mut parameters, name, value)?;
        }
    }
    Ok(parameters)
}

/// The start key by which a stand-in server starts the session that a StartupMessage asks it for.
///
/// The row and the database are what is asked for (the user's name, where that is missing or empty), at 127.0.0.1 and
/// port 0. Every other pair is a parameter: names are folded to lower case (ASCII), and of equal names the last counts.
///
/// [`Cause::MalformedMessage`] without a user or with an empty one, which the caller tells as a FATAL error and closes;
/// [`Stop::OutOfMemory`] only where there is one.
pub fn stub_key(alloc: Global, start: &StartupView<'_>) -> Result<StartKey, Stop>
    ensures { Finds result (spec.stub_key (pairs_left start.now.pairs)) }
{
    let user = user_of(start);
    if user.is_empty() {
        return Err(Stop::Refused(Cause::MalformedMessage));
    }
    let database = database_of(start);
    Ok(StartKey {
        row: Text::from_slice(alloc, database)?,
        host: Some(Host::local()),
        port: 0,
        dbname: Text::from_slice(alloc, database)?,
        user: Text::from_slice(alloc, user)?,
        parameters: stub_parameters(alloc, start)?,
    })
}
