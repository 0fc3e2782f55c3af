//! SET, SET LOCAL and RESET (PostgreSQL manual, "SQL Commands").
ghost use Rattle.std.specs.Prelude.{Ok, None, codes};
ghost use Rattle.mini_sql.specs.Meanings.{setting_value};
ghost use Rattle.session_values.specs.State.{set_parameter};
ghost use Rattle.session_values.specs.Parameters.{parameters};
ghost use Rattle.session_values.specs.Runs.{reset_from, set_current, set_local_run, set_run};
ghost use Rattle.session_statements.specs.Rans.{Runs};

use crate::ran::{Notice, Ran};
use mini_sql::Setting;
use session_state::session::SessionState;
use session_values::block::Block;
use session_values::setting::{set_parameter, setting_text};
use session_values::stop::Stop;
use session_values::text::Text;
use std::alloc::Global;

fn set_text(
    alloc: Global,
    session: &mut SessionState,
    name: &[u8],
    text: &Option<Text>,
    tag: &'static [u8],
) -> Result<Ran, Stop>
    ensures { Runs result session.old session.new (set_run session.old tag.now (set_parameter session.old.defaults session.old.current name.now text.now) (set_parameter session.old.defaults session.old.lasting name.now text.now)) }
{
    let values = set_parameter(alloc, session.defaults(), session.values(), name, text)?;
    let lasting = match session.lasting() {
        Some(before) => Some(set_parameter(alloc, session.defaults(), before, name, text)?),
        None => None,
    };
    session.put_values(values, lasting)?;
    Ok(Ran::done(tag))
}

/// SET LOCAL inside a block.
fn set_current(
    alloc: Global,
    session: &mut SessionState,
    name: &[u8],
    setting: &Setting<'_>,
) -> Result<Ran, Stop>
    ensures { Runs result session.old session.new (set_current session.old (set_parameter session.old.defaults session.old.current name.now (setting_value setting.now))) }
{
    let text = setting_text(alloc, setting)?;
    let values = set_parameter(alloc, session.defaults(), session.values(), name, &text)?;
    session.put_local_values(values)?;
    Ok(Ran::done(b"SET"))
}

/// SET LOCAL of a parameter. Outside a block it is warned of, and nothing is looked at.
pub fn set_local(
    alloc: Global,
    session: &mut SessionState,
    name: &[u8],
    setting: &Setting<'_>,
) -> Result<Ran, Stop>
    ensures { Runs result session.old session.new (set_local_run session.old session.old.block (set_parameter session.old.defaults session.old.current name.now (setting_value setting.now))) }
{
    match session.block() {
        Block::Outside => Ok(Ran::warned(Notice::NoTransaction, b"SET")),
        Block::Inside => set_current(alloc, session, name, setting),
        Block::Failed => set_current(alloc, session, name, setting),
    }
}

/// SET of a parameter.
pub fn set(
    alloc: Global,
    session: &mut SessionState,
    name: &[u8],
    setting: &Setting<'_>,
) -> Result<Ran, Stop>
    ensures { Runs result session.old session.new (set_run session.old (codes "SET") (set_parameter session.old.defaults session.old.current name.now (setting_value setting.now)) (set_parameter session.old.defaults session.old.lasting name.now (setting_value setting.now))) }
{
    let text = setting_text(alloc, setting)?;
    set_text(alloc, session, name, &text, b"SET")
}

/// RESET of a parameter to its value at the session's start.
pub fn reset(alloc: Global, session: &mut SessionState, name: &[u8]) -> Result<Ran, Stop>
    ensures { Runs result session.old session.new (set_run session.old (codes "RESET") (set_parameter session.old.defaults session.old.current name.now None) (set_parameter session.old.defaults session.old.lasting name.now None)) }
{
    set_text(alloc, session, name, &None, b"RESET")
}

/// RESET ALL.
pub fn reset_all(alloc: Global, session: &mut SessionState) -> Result<Ran, Stop>
    ensures { Runs result session.old session.new (set_run session.old (codes "RESET") (Ok (reset_from parameters session.old.current session.old.defaults)) (Ok (reset_from parameters session.old.lasting session.old.defaults))) }
{
    let values = session.values().reset(alloc, session.defaults())?;
    let lasting = match session.lasting() {
        Some(before) => Some(before.reset(alloc, session.defaults())?),
        None => None,
    };
    session.put_values(values, lasting)?;
    Ok(Ran::done(b"RESET"))
}
