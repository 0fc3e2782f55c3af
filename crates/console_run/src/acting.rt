//! What the console does at its desk.
ghost use Rattle.std.specs.Prelude.{◌≡◌};
ghost use Rattle.console_core.specs.declared.commands.Action.TheVariants.{Reload};
ghost use Rattle.console_run.specs.Passing.{pass_of};
ghost use Rattle.console_run.specs.Turns.{HasActed, acted_of};

use console_core::commands::Action;
use link_desk::answers::Changed;
use link_desk::desk::LinkDesk;

/// What an action came to.
#[derive(Clone, Copy, Drop)]
pub(crate) enum Acted {
    Done,
    /// A file has a fault, or there was no memory for what it holds; nothing has changed.
    Faulty,
    /// The book has made its last decision.
    Last,
}

fn came_to(changed: Changed) -> Acted
    ensures { result ≡ acted_of changed }
{
    match changed {
        Changed::Done => Acted::Done,
        Changed::Last => Acted::Last,
    }
}

/// Reads the files again, and keeps the book to their limits; only where the book does so the files hold.
fn reload<D: LinkDesk>(desk: &D, pass: &mut D::Pass) -> Acted
    ensures { HasActed result Reload (pass_of (D.counted pass.old) (D.holder pass.old)) (pass_of (D.counted pass.new) (D.holder pass.new)) }
{
    let Some(limits) = desk.reload() else {
        return Acted::Faulty;
    };
    let changed = desk.limits(pass, limits);
    desk.settle(pass, changed);
    came_to(changed)
}

/// Does what the console was asked to.
pub(crate) fn act<D: LinkDesk>(desk: &D, pass: &mut D::Pass, action: Action) -> Acted
    ensures { HasActed result action (pass_of (D.counted pass.old) (D.holder pass.old)) (pass_of (D.counted pass.new) (D.holder pass.new)) }
{
    match action {
        Action::Pause => came_to(desk.pause(pass)),
        Action::Resume => came_to(desk.resume(pass)),
        Action::Reload => reload(desk, pass),
        Action::Reconnect => came_to(desk.reconnect(pass)),
        Action::Shutdown => came_to(desk.shutdown(pass)),
    }
}
