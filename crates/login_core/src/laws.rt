//! Laws of the login, each the contract of a function that does nothing: a caller that needs a law calls its function.
ghost use Rattle.login_core.specs.Laws.{LoginIsOfItsRow, LoginsGrow, NewTells, NothingForNothing, PacketsGrow, ServiceIsItsPieces, StepsSay, StepsTell};

use frame_view::laws::{first_grows, front_grows};

/// When more bytes come a whole packet and a fault stay, and what an unfinished packet lacks is its own.
pub fn packets_grow()
    ensures { PacketsGrow }
{
    first_grows();
    front_grows();
}

/// What is said to a beginning of a client's bytes begins what is said to them all; a login that has passed or stopped has done so.
pub fn logins_grow()
    ensures { LoginsGrow }
{
    packets_grow();
}

/// Nothing is said to no bytes.
pub fn nothing_for_nothing()
    ensures { NothingForNothing }
{}

/// The login under settings and users is the login of the row that the StartupMessage names.
pub fn login_is_of_its_row()
    ensures { LoginIsOfItsRow }
{}

/// A login that has taken no byte tells that nothing was taken, and nothing given.
pub fn new_tells()
    ensures { NewTells }
{}

/// Where a login goes on, it tells the bytes that a call took and the pieces that the call gave.
pub fn steps_tell()
    ensures { StepsTell }
{}

/// At each step the whole login says what was given and what the step says, whatever comes.
pub fn steps_say()
    ensures { StepsSay }
{}

/// The pieces of a service are, joined, its bytes.
pub fn service_is_its_pieces()
    ensures { ServiceIsItsPieces }
{}
