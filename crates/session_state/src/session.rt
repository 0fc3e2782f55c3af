//! The state of a session, and what a transaction keeps and gives back (PostgreSQL manual, "BEGIN", "ROLLBACK").
ghost use Rattle.std.specs.Prelude.{◌≡◌, ◌<◌, [], None, filter, length, map, OnOk, IfOk, true};
ghost use Rattle.std.specs.Option.{option_copied};
ghost use Rattle.session_values.specs.Runs.{discarded};
ghost use Rattle.session_values.specs.State.{failing, held, is_held, restored, save_unless};
ghost use Rattle.session_state.specs.Kept.{lasting_of};

use crate::cursor::{Cursor, all_held, held_ones};
use crate::kept::SessionObjects;
use crate::portal::{Portal, Prepared};
use crate::work::{Saved, Work};
use session_values::block::Block;
use session_values::table::Table;
use session_values::text::Text;
use session_values::values::Values;
use shared_list::Shared;
use std::alloc::{AllocError, Global};
use std::marker::Model;
use std::mem;

/// A session of the stand-in server. Its copies share what they hold.
pub struct SessionState {
    pub(crate) defaults: Values,
    pub(crate) reported: Shared<Text>,
    /// The reported values are known to be the current ones, so that no report is due.
    pub(crate) is_reported: bool,
    pub(crate) work: Work,
    /// The values that a commit leaves, where a SET LOCAL has changed those of now.
    pub(crate) lasting: Option<Values>,
    pub(crate) saved: Saved,
    pub(crate) block: Block,
    pub(crate) is_skipping: bool,
    pub(crate) has_ended: bool,
    pub(crate) kept: SessionObjects,
}

impl Drop for SessionState {
    fn drop(self) {
        let SessionState {
            defaults: _,
            reported: _,
            is_reported: _,
            work: _,
            lasting: _,
            saved: _,
            block: _,
            is_skipping: _,
            has_ended: _,
            kept: _,
        } = self;
    }
}

impl Model for SessionState {
    ghost use Rattle.std.specs.Prelude.{◌≡◌, length};
    ghost use Rattle.session_values.specs.State.{State};
    ghost use Rattle.session_values.specs.declared.values.TheConstants.{REPORTED};
    ghost use Rattle.session_state.specs.Kept.{lasting_of, saved_of};
    ghost use Rattle.session_state.specs.Known.{AreNamedUnless, AreReportedIf};

    ghost Value = { State };

    ghost view = { λ s. record {
      defaults = s.defaults;
      current = s.work.values;
      lasting = lasting_of s.lasting s.work.values;
      reported = s.reported;
      saved = saved_of s.saved s.work;
      block = s.block;
      skipping = s.is_skipping;
      ended = s.has_ended;
      statements = s.kept.statements;
      portals = s.kept.portals;
      cursors = s.kept.cursors;
      tables = s.work.tables;
    } };

    ghost invariant = { λ s. (length s.reported ≡ REPORTED) × AreReportedIf s.is_reported s.work.values s.reported × AreNamedUnless s.kept.may_have_unnamed s.kept.statements };
}

impl SessionState {
    ghost use Rattle.session_values.specs.State.{begun, commit, commit_outside, failed, roll_back, save};

    /// A session at its start, with these values.
    pub fn begun(alloc: Global, values: Values) -> Result<SessionState, AllocError>
        ensures { IfOk result (λ s. s ≡ begun values) }
    {
        Ok(SessionState {
            reported: values.reported(alloc)?,
            is_reported: true,
            work: Work::begun(alloc, &values)?,
            lasting: None,
            kept: SessionObjects::none(alloc)?,
            defaults: values,
            saved: Saved::Nothing,
            block: Block::Outside,
            is_skipping: false,
            has_ended: false,
        })
    }

    /// The same session.
    pub fn copied(&self) -> Result<SessionState, AllocError>
        ensures { IfOk result (λ s. s ≡ self.now) }
    {
        Ok(SessionState {
            defaults: self.defaults.copied()?,
            reported: self.reported.copied()?,
            is_reported: self.is_reported,
            work: self.work.copied()?,
            lasting: copied(&self.lasting)?,
            saved: self.saved.copied()?,
            block: self.block,
            is_skipping: self.is_skipping,
            has_ended: self.has_ended,
            kept: self.kept.copied()?,
        })
    }

    /// Outside a block, keeps the values and temporary tables for a roll back, unless some are kept.
    pub fn save(&mut self)
        ensures { self.new ≡ save self.old self.old.block }
    {
        match self.block {
            Block::Outside => self.save_unless(),
            Block::Inside => {}
            Block::Failed => {}
        }
    }

    fn save_unless(&mut self)
        ensures { self.new ≡ save_unless self.old self.old.saved }
    {
        match self.saved {
            Saved::Nothing => self.saved = Saved::Standing,
            Saved::Standing => {}
            Saved::Changed(_) => {}
        }
    }

    /// Drops all portals; a list without any is kept.
    fn drop_portals(&mut self, alloc: Global) -> Result<(), AllocError>
        ensures { OnOk result (self.new ≡ record self.old { portals = [] }) }
    {
        if self.kept.portals.len() == 0 {
            return Ok(());
        }
        self.kept.portals = Shared::new(alloc)?;
        Ok(())
    }

    /// Gives back what SET LOCAL changed, which is to be reported.
    fn give_back(&mut self)
        requires { self.old.saved ≡ None }
        ensures { self.new ≡ record self.old { current = self.old.lasting } }
    {
        if let Some(values) = mem::replace(&mut self.lasting, None) {
            (self.work.values, self.is_reported) = (values, false);
        }
    }

    /// All cursors stay from now on.
    fn hold_cursors(&mut self, alloc: Global) -> Result<(), AllocError>
        ensures { OnOk result (self.new ≡ record self.old { cursors = map held self.old.cursors }) }
    {
        if self.kept.cursors.len() == 0 {
            return Ok(());
        }
        let cursors = all_held(alloc, self.kept.cursors.as_slice())?;
        self.kept.cursors = Shared::from_shared(alloc, cursors)?;
        Ok(())
    }

    /// Cursors of this transaction go.
    fn drop_cursors(&mut self, alloc: Global) -> Result<(), AllocError>
        ensures { OnOk result (self.new ≡ record self.old { cursors = filter is_held self.old.cursors }) }
    {
        if self.kept.cursors.len() == 0 {
            return Ok(());
        }
        let cursors = held_ones(alloc, self.kept.cursors.as_slice())?;
        self.kept.cursors = Shared::from_shared(alloc, cursors)?;
        Ok(())
    }

    /// Keeps what was done, but for what SET LOCAL changed: nothing is kept for a roll back any more, all portals go, and all cursors
    /// stay.
    pub fn commit(&mut self, alloc: Global) -> Result<(), AllocError>
        ensures { OnOk result (self.new ≡ commit self.old) }
    {
        self.saved = Saved::Nothing;
        self.give_back();
        self.hold_cursors(alloc)?;
        self.drop_portals(alloc)
    }

    /// Commits, unless the session stands in a transaction block.
    pub fn commit_outside(&mut self, alloc: Global) -> Result<(), AllocError>
        ensures { OnOk result (self.new ≡ commit_outside self.old self.old.block) }
    {
        match self.block {
            Block::Outside => self.commit(alloc),
            Block::Inside => Ok(()),
            Block::Failed => Ok(()),
        }
    }

    /// Gives back the values and temporary tables that are kept, if some are; what SET LOCAL changed is changed no more.
    fn restore(&mut self)
        ensures { self.new ≡ record (restored self.old self.old.saved) { lasting = (restored self.old self.old.saved).current; saved = None } }
    {
        self.lasting = None;
        if let Saved::Changed(saved) = mem::replace(&mut self.saved, Saved::Nothing) {
            self.work = saved;
            self.is_reported = false;
        }
    }

    /// These values from now on, which are to be reported, and the values that a commit leaves: `lasting`, or without it the same.
    pub fn put_values(&mut self, values: Values, lasting: Option<Values>) -> Result<(), AllocError>
        ensures { OnOk result (self.new ≡ record self.old { current = values; lasting = lasting_of lasting values }) }
    {
        if let Saved::Standing = self.saved {
            self.saved = Saved::Changed(self.work.copied()?);
        }
        self.work.values = values;
        self.lasting = lasting;
        self.is_reported = false;
        Ok(())
    }

    /// These values until the transaction ends, which are to be reported.
    pub fn put_local_values(&mut self, values: Values) -> Result<(), AllocError>
        ensures { OnOk result (self.new ≡ record self.old { current = values }) }
    {
        let lasting = match &self.lasting {
            Some(before) => before.copied()?,
            None => self.work.values.copied()?,
        };
        self.put_values(values, Some(lasting))
    }

    /// These cursors from now on.
    pub fn put_cursors(&mut self, cursors: Shared<Cursor>)
        ensures { self.new ≡ record self.old { cursors = cursors } }
    {
        self.kept.cursors = cursors;
    }

    /// These temporary tables from now on.
    pub fn put_tables(&mut self, tables: Shared<Table>) -> Result<(), AllocError>
        ensures { OnOk result (self.new ≡ record self.old { tables = tables }) }
    {
        if let Saved::Standing = self.saved {
            self.saved = Saved::Changed(self.work.copied()?);
        }
        self.work.tables = tables;
        Ok(())
    }

    /// Gives back the values and temporary tables that are kept, if some are; all portals go, and the cursors of this transaction.
    pub fn roll_back(&mut self, alloc: Global) -> Result<(), AllocError>
        ensures { OnOk result (self.new ≡ roll_back self.old) }
    {
        self.restore();
        self.drop_cursors(alloc)?;
        self.drop_portals(alloc)
    }

    /// After an error: rolled back, and a block has failed.
    pub fn fail(&mut self, alloc: Global) -> Result<(), AllocError>
        ensures { OnOk result (self.new ≡ failed self.old) }
    {
        self.roll_back(alloc)?;
        self.block = failing(self.block);
        Ok(())
    }

    /// Gives everything back as it was at the start, but for what was reported: what DISCARD ALL does.
    pub fn discard(&mut self, alloc: Global) -> Result<(), AllocError>
        ensures { OnOk result (self.new ≡ discarded self.old) }
    {
        self.work = Work::begun(alloc, &self.defaults)?;
        self.lasting = None;
        self.is_reported = false;
        self.saved = Saved::Nothing;
        self.kept = SessionObjects::none(alloc)?;
        Ok(())
    }

    /// From now on the session stands so to a transaction block.
    pub fn put_block(&mut self, block: Block)
        ensures { self.new ≡ record self.old { block = block } }
    {
        self.block = block;
    }

    /// Everything is skipped until the next Sync, or nothing is any more.
    pub fn put_skipping(&mut self, is_skipping: bool)
        ensures { self.new ≡ record self.old { skipping = is_skipping } }
    {
        self.is_skipping = is_skipping;
    }

    /// The session has ended.
    pub fn end(&mut self)
        ensures { self.new ≡ record self.old { ended = true } }
    {
        self.has_ended = true;
    }

    /// What RESET gives: the values at the session's start.
    pub fn defaults(&self) -> &Values
        ensures { result.now ≡ self.now.defaults }
    {
        &self.defaults
    }

    /// The values of all parameters.
    pub fn values(&self) -> &Values
        ensures { result.now ≡ self.now.current }
    {
        &self.work.values
    }

    /// The values that a commit leaves; without any, those of now.
    pub fn lasting(&self) -> Option<&Values>
        ensures { lasting_of (option_copied result) self.now.current ≡ self.now.lasting }
    {
        self.lasting.as_ref()
    }

    /// The cursors.
    pub fn cursors(&self) -> &Shared<Cursor>
        ensures { result.now ≡ self.now.cursors }
    {
        &self.kept.cursors
    }

    /// The temporary tables.
    pub fn tables(&self) -> &Shared<Table>
        ensures { result.now ≡ self.now.tables }
    {
        &self.work.tables
    }

    /// How it stands to a transaction block.
    pub fn block(&self) -> Block
        ensures { result ≡ self.now.block }
    {
        self.block
    }

    /// Whether everything is skipped until the next Sync.
    pub fn is_skipping(&self) -> bool
        ensures { result ≡ self.now.skipping }
    {
        self.is_skipping
    }

    /// Whether it has ended.
    pub fn has_ended(&self) -> bool
        ensures { result ≡ self.now.ended }
    {
        self.has_ended
    }

    /// The prepared statements.
    pub fn statements(&self) -> &Shared<Prepared>
        ensures { result.now ≡ self.now.statements }
    {
        &self.kept.statements
    }

    /// The portals.
    pub fn portals(&self) -> &Shared<Portal>
        ensures { result.now ≡ self.now.portals }
    {
        &self.kept.portals
    }
}

fn copied(values: &Option<Values>) -> Result<Option<Values>, AllocError>
    ensures { IfOk result (λ v. v ≡ values.now) }
{
    match values {
        Some(values) => Ok(Some(values.copied()?)),
        None => Ok(None),
    }
}

fn failing(block: Block) -> Block
    ensures { result ≡ failing block }
{
    match block {
        Block::Outside => Block::Outside,
        Block::Inside => Block::Failed,
        Block::Failed => Block::Failed,
    }
}
