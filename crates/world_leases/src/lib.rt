//! Laws of the worlds: what the relation is after the book's events, and after starts, returns and resets of links.
//!
//! Public to `world_model`. Its functions do nothing: each is a law.
#![tactic(auto)]

ghost use Rattle.world_steps.specs.Laws.{BookStepsKeep, LinkStepsKeep};

use book_model::book_laws;
use session_laws::starts::start_error_is_frame;

/// Events of the book, the clock and its limits keep the relation.
pub fn book_steps_keep()
    ensures { BookStepsKeep }
{
    book_laws();
}

/// So do starts, returns and ends of resets.
pub fn link_steps_keep()
    ensures { LinkStepsKeep }
{
    book_laws();
    start_error_is_frame();
}
