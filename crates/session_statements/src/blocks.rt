//! BEGIN, COMMIT and ROLLBACK, and DISCARD ALL (PostgreSQL manual, "SQL Commands").
ghost use Rattle.std.specs.Prelude.{◌≡◌, Ok, [], codes};
ghost use Rattle.session_values.specs.Runs.{begin_run, commit_run, discard_run, in_block, ran, rollback_run};
ghost use Rattle.session_values.specs.State.{roll_back};
ghost use Rattle.session_values.specs.declared.block.Block.TheVariants.{Outside};
ghost use Rattle.session_statements.specs.Rans.{Runs, ran_of};

use crate::ran::{Notice, Ran};
use session_state::session::SessionState;
use session_values::block::Block;
use session_values::cause::Cause;
use session_values::stop::Stop;
use std::alloc::Global;

/// BEGIN, which is warned of inside a block.
pub fn begin(session: &mut SessionState) -> Ran
    ensures { begin_run session.old session.old.block ≡ Ok (ran_of session.new result) }
{
    match session.block() {
        Block::Outside => {
            session.put_block(Block::Inside);
            Ran::done(b"BEGIN")
        }
        Block::Inside => Ran::warned(Notice::AlreadyInTransaction, b"BEGIN"),
        Block::Failed => Ran::done(b"BEGIN"),
    }
}

/// COMMIT, which ends a failed block with the tag ROLLBACK, and is warned of outside a block.
pub fn commit_block(alloc: Global, session: &mut SessionState) -> Result<Ran, Stop>
    ensures { Runs result session.old session.new (commit_run session.old session.old.block) }
{
    match session.block() {
        Block::Outside => {
            session.commit(alloc)?;
            Ok(Ran::warned(Notice::NoTransaction, b"COMMIT"))
        }
        Block::Inside => {
            session.commit(alloc)?;
            session.put_block(Block::Outside);
            Ok(Ran::done(b"COMMIT"))
        }
        Block::Failed => {
            session.put_block(Block::Outside);
            Ok(Ran::done(b"ROLLBACK"))
        }
    }
}

/// ROLLBACK, which is warned of outside a block.
pub fn roll_back_block(alloc: Global, session: &mut SessionState) -> Result<Ran, Stop>
    ensures { Runs result session.old session.new (rollback_run session.old session.old.block) }
{
    match session.block() {
        Block::Outside => {
            session.roll_back(alloc)?;
            Ok(Ran::warned(Notice::NoTransaction, b"ROLLBACK"))
        }
        Block::Inside => roll_back_out(alloc, session),
        Block::Failed => roll_back_out(alloc, session),
    }
}

/// Rolls back and leaves the block.
fn roll_back_out(alloc: Global, session: &mut SessionState) -> Result<Ran, Stop>
    ensures { Runs result session.old session.new (ran (in_block (roll_back session.old) Outside) [] (codes "ROLLBACK")) }
{
    session.roll_back(alloc)?;
    session.put_block(Block::Outside);
    Ok(Ran::done(b"ROLLBACK"))
}

/// DISCARD ALL, which can't run inside a block.
pub fn discard(alloc: Global, session: &mut SessionState) -> Result<Ran, Stop>
    ensures { Runs result session.old session.new (discard_run session.old session.old.block) }
{
    match session.block() {
        Block::Outside => {
            session.discard(alloc)?;
            Ok(Ran::done(b"DISCARD ALL"))
        }
        Block::Inside => Err(Stop::Refused(Cause::InTransaction)),
        Block::Failed => Err(Stop::Refused(Cause::InTransaction)),
    }
}
