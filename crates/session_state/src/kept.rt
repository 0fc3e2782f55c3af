//! The prepared statements, portals and cursors of a session (PostgreSQL manual, "Extended Query", "DECLARE").
ghost use Rattle.std.specs.Prelude.{◌≡◌, [], false, filter, map, OnOk, IfOk};
ghost use Rattle.std.specs.Arc.{arc_value};
ghost use Rattle.message_view.specs.Bodies.{OfPortal, OfStatement};
ghost use Rattle.session_values.specs.Extended.{at_progress, close, is_of_other, orphaned, progressed, with_portal, with_statement, without_statement};
ghost use Rattle.session_values.specs.Named.{without};
ghost use Rattle.session_values.specs.State.{portal_name};
ghost use Rattle.session_values.specs.Step.{without_unnamed};
ghost use Rattle.session_state.specs.Portals.{progress_of};

use crate::cursor::Cursor;
use crate::portal::{Portal, Prepared, Progress, are_of_others};
use crate::session::SessionState;
use session_values::naming::{HasName, without_named};
use shared_list::Shared;
use std::alloc::{AllocError, Global};
use std::sync::Arc;

/// The portals without their statement, if that is the one of this name.
fn orphaned(
    alloc: Global,
    portals: &[Arc<Portal>],
    name: &[u8],
) -> Result<Vec<Arc<Portal>>, AllocError>
    ensures { IfOk result (λ v. map arc_value v.items ≡ map (orphaned name.now) (map arc_value portals.now)) }
{
    let mut list = Vec::with_capacity(alloc, portals.len())?;
    for portal in portals {
        list.push(Arc::new(alloc, portal.orphaned(name)?)?)?;
    }
    Ok(list)
}

/// The portals that weren't made from the statement of this name.
fn portals_of_others(
    alloc: Global,
    portals: &[Arc<Portal>],
    name: &[u8],
) -> Result<Vec<Arc<Portal>>, AllocError>
    ensures { IfOk result (λ v. map arc_value v.items ≡ filter (is_of_other name.now) (map arc_value portals.now)) }
{
    let mut list = Vec::new(alloc);
    for portal in portals {
        if !portal.is_of(name) {
            list.push(Arc::try_clone(portal)?)?;
        }
    }
    Ok(list)
}

/// A portal at this progress, if it has this name.
fn at_progress(
    portal: &Arc<Portal>,
    alloc: Global,
    name: &[u8],
    progress: &Progress,
) -> Result<Arc<Portal>, AllocError>
    ensures { IfOk result (λ p. arc_value p ≡ at_progress name.now (progress_of progress.now) (arc_value portal.now)) }
{
    if portal.name().is(name) {
        Ok(Arc::new(alloc, portal.at(progress.copied()?)?)?)
    } else {
        Arc::try_clone(portal)
    }
}

fn all_at_progress(
    alloc: Global,
    portals: &[Arc<Portal>],
    name: &[u8],
    progress: &Progress,
) -> Result<Vec<Arc<Portal>>, AllocError>
    ensures { IfOk result (λ v. map arc_value v.items ≡ map (at_progress name.now (progress_of progress.now)) (map arc_value portals.now)) }
{
    let mut list = Vec::with_capacity(alloc, portals.len())?;
    for portal in portals {
        list.push(at_progress(portal, alloc, name, progress)?)?;
    }
    Ok(list)
}

/// The prepared statements, portals and cursors of a session. What copies hold is shared.
pub(crate) struct SessionObjects {
    pub statements: Shared<Prepared>,
    /// Where this is false, a Query has no unnamed statement to look for.
    pub may_have_unnamed: bool,
    pub portals: Shared<Portal>,
    pub cursors: Shared<Cursor>,
}

impl Drop for SessionObjects {
    fn drop(self) {
        let SessionObjects {
            statements: _,
            may_have_unnamed: _,
            portals: _,
            cursors: _,
        } = self;
    }
}

impl SessionObjects {
    /// None.
    pub(crate) fn none(alloc: Global) -> Result<SessionObjects, AllocError>
        ensures statements { IfOk result (λ k. k.statements ≡ []) }
        ensures named { IfOk result (λ k. k.may_have_unnamed ≡ false) }
        ensures portals { IfOk result (λ k. k.portals ≡ []) }
        ensures cursors { IfOk result (λ k. k.cursors ≡ []) }
    {
        Ok(SessionObjects {
            statements: Shared::new(alloc)?,
            may_have_unnamed: false,
            portals: Shared::new(alloc)?,
            cursors: Shared::new(alloc)?,
        })
    }

    /// The same.
    pub(crate) fn copied(&self) -> Result<SessionObjects, AllocError>
        ensures { IfOk result (λ k. k ≡ self.now) }
    {
        Ok(SessionObjects {
            statements: self.statements.copied()?,
            may_have_unnamed: self.may_have_unnamed,
            portals: self.portals.copied()?,
            cursors: self.cursors.copied()?,
        })
    }
}

impl SessionState {
    /// Keeps a prepared statement after the others.
    pub fn put_statement(&mut self, alloc: Global, prepared: Prepared) -> Result<(), AllocError>
        ensures { OnOk result (self.new ≡ with_statement self.old prepared) }
    {
        self.kept.may_have_unnamed = true;
        self.kept.statements = self.kept.statements.pushed(alloc, prepared)?;
        Ok(())
    }

    /// Keeps a portal, in the stead of one of its name.
    pub fn put_portal(&mut self, alloc: Global, portal: Portal) -> Result<(), AllocError>
        ensures { OnOk result (self.new ≡ with_portal self.old portal) }
    {
        let others = without_named(alloc, &self.kept.portals, portal.name().as_slice())?;
        self.kept.portals = others.pushed(alloc, portal)?;
        Ok(())
    }

    /// Drops the prepared statement of this name; its portals stay.
    #[tactic(auto, using(crate::proofs::Known::named_without))]
    pub fn drop_statement(&mut self, alloc: Global, name: &[u8]) -> Result<(), AllocError>
        ensures { OnOk result (self.new ≡ without_statement self.old name.now) }
    {
        self.kept.statements = without_named(alloc, &self.kept.statements, name)?;
        self.orphan(alloc, name)
    }

    /// The portals of the statement of this name belong to none from now on.
    #[tactic(auto, using(crate::proofs::Known::none_orphaned))]
    fn orphan(&mut self, alloc: Global, name: &[u8]) -> Result<(), AllocError>
        ensures { OnOk result (self.new ≡ record self.old { portals = map (orphaned name.now) self.old.portals }) }
    {
        if are_of_others(self.kept.portals.as_slice(), name) {
            return Ok(());
        }
        let portals = orphaned(alloc, self.kept.portals.as_slice(), name)?;
        self.kept.portals = Shared::from_shared(alloc, portals)?;
        Ok(())
    }

    /// Drops the unnamed statement, which is looked for only where there may be one.
    #[tactic(auto, using(crate::proofs::Known::nothing_unnamed, crate::proofs::Known::all_named_without))]
    fn drop_unnamed_statement(&mut self, alloc: Global) -> Result<(), AllocError>
        ensures { OnOk result (self.new ≡ without_statement self.old []) }
    {
        if !self.kept.may_have_unnamed {
            return self.orphan(alloc, b"");
        }
        self.kept.statements = without_named(alloc, &self.kept.statements, b"")?;
        self.kept.may_have_unnamed = false;
        self.orphan(alloc, b"")
    }

    fn drop_unnamed_portal(&mut self, alloc: Global) -> Result<(), AllocError>
        ensures { OnOk result (self.new ≡ record self.old { portals = without portal_name self.old.portals [] }) }
    {
        if self.kept.portals.len() == 0 {
            return Ok(());
        }
        self.kept.portals = without_named(alloc, &self.kept.portals, b"")?;
        Ok(())
    }

    /// Drops the unnamed statement and the unnamed portal.
    pub fn drop_unnamed(&mut self, alloc: Global) -> Result<(), AllocError>
        ensures { OnOk result (self.new ≡ without_unnamed self.old) }
    {
        self.drop_unnamed_statement(alloc)?;
        self.drop_unnamed_portal(alloc)
    }

    /// Drops the prepared statement of this name, with its portals.
    #[tactic(auto, using(crate::proofs::Known::named_without, crate::proofs::Known::others_stay))]
    pub fn close_statement(&mut self, alloc: Global, name: &[u8]) -> Result<(), AllocError>
        ensures { OnOk result (self.new ≡ (close self.old (OfStatement name.now)).next) }
    {
        self.kept.statements = without_named(alloc, &self.kept.statements, name)?;
        if are_of_others(self.kept.portals.as_slice(), name) {
            return Ok(());
        }
        let portals = portals_of_others(alloc, self.kept.portals.as_slice(), name)?;
        self.kept.portals = Shared::from_shared(alloc, portals)?;
        Ok(())
    }

    /// Drops the portal of this name.
    pub fn close_portal(&mut self, alloc: Global, name: &[u8]) -> Result<(), AllocError>
        ensures { OnOk result (self.new ≡ (close self.old (OfPortal name.now)).next) }
    {
        self.kept.portals = without_named(alloc, &self.kept.portals, name)?;
        Ok(())
    }

    /// The portal of this name has come so far.
    pub fn put_progress(
        &mut self,
        alloc: Global,
        name: &[u8],
        progress: &Progress,
    ) -> Result<(), AllocError>
        ensures { OnOk result (self.new ≡ progressed self.old name.now (progress_of progress.now)) }
    {
        let portals = all_at_progress(alloc, self.kept.portals.as_slice(), name, progress)?;
        self.kept.portals = Shared::from_shared(alloc, portals)?;
        Ok(())
    }
}
