//! Laws of logins over clients' ends, each the contract of a function that does nothing: a caller that needs a law calls its function.
ghost use Rattle.login_run.specs.Laws.{CancellingRunsHaveAsked, PassedRunsAreLetIn, PassedRunsHavePassed, RunsAreAllowed, RunsStandAtPieces};

use login_core::laws::login_is_of_its_row;

/// What a client was given in its login is allowed, at every point, and a refusal is the login's own or of memory.
pub fn runs_are_allowed()
    ensures { RunsAreAllowed }
{
    login_is_of_its_row();
}

/// Where all was given that was said, and it is no refusal, whole pieces were.
pub fn runs_stand_at_pieces()
    ensures { RunsStandAtPieces }
{
    login_is_of_its_row();
}

/// The login of a client that was let in has passed, whatever comes, and the client is owed the service of what comes.
pub fn passed_runs_are_let_in()
    ensures { PassedRunsAreLetIn }
{
    login_is_of_its_row();
}

/// The login passed with the key of a client that was let in, whether its end tells or not.
pub fn passed_runs_have_passed()
    ensures { PassedRunsHavePassed }
{}

/// The login of a client that asks to cancel has heard a CancelRequest with this key, whether its end tells or not, and nothing was
/// said to it.
pub fn cancelling_runs_have_asked()
    ensures { CancellingRunsHaveAsked }
{}
