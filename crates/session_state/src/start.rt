//! The start of a session (PostgreSQL manual, "Start-up").
ghost use Rattle.session_values.specs.Answers.{Finds};
ghost use Rattle.session_values.specs.State.{fresh, set_all, started, started_over};

use crate::session::SessionState;
use session_catalogue::Catalogue;
use session_values::cause::Cause;
use session_values::setting::set_all;
use session_values::stop::Stop;
use session_values::text::has_text;
use session_values::values::Values;
use start_keys::key::{StartKey, StartParameter};
use std::alloc::Global;

/// A session at its start, with these defaults changed by the parameters of a key.
fn started(
    alloc: Global,
    defaults: &Values,
    parameters: &[StartParameter],
) -> Result<SessionState, Stop>
    ensures { Finds result (started (set_all defaults.now defaults.now parameters.now)) }
{
    let values = set_all(alloc, defaults, parameters)?;
    Ok(SessionState::begun(alloc, values)?)
}

fn started_over(alloc: Global, catalogue: &Catalogue, key: &StartKey) -> Result<SessionState, Stop>
    ensures { Finds result (started_over catalogue.now key.now) }
{
    let defaults = Values::defaults(alloc, catalogue.version().as_slice())?;
    started(alloc, &defaults, &key.parameters)
}

impl SessionState {
    /// A fresh session of a start key over a catalogue, or why there is none: no such database, or the first parameter of the
    /// key that can't be set; or an allocation failed.
    pub fn start(alloc: Global, catalogue: &Catalogue, key: &StartKey) -> Result<SessionState, Stop>
        ensures { Finds result (fresh catalogue.now key.now) }
    {
        if !has_text(catalogue.databases().as_slice(), key.dbname.as_slice()) {
            return Err(Stop::Refused(Cause::NoDatabase));
        }
        started_over(alloc, catalogue, key)
    }
}
