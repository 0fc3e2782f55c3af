//! A list of steps that the pooler's world can take, computed: what is said of every world is said of this one.
//!
//! Its functions do nothing: each is a law that a list of steps can be taken, or that a spoiled one would be seen, so that the others
//! aren't said of nothing.
#![tactic(auto)]

ghost use Rattle.world_story.specs.Cancelled.{Cancelled, StrikesAnother};
ghost use Rattle.world_story.specs.Others.{Others};
ghost use Rattle.world_story.specs.Slips.{AsksAgain, DiesLying, Hurries, Misnames, PassesSomehow, RepeatsKey, ReturnsMarked, SkipsReset, Spoils, SpoilsRefusal};
ghost use Rattle.world_story.specs.Story.{Story};

use world_model::every_world;

/// A second client is served over the link that a first one gave back.
pub fn two_clients_one_link()
    ensures { Story }
{
    every_world();
}

/// The steps that the story doesn't take can be taken too.
pub fn other_steps_are_taken()
    ensures { Others }
{}

/// Were a settled link given back without a reset, a second client would be given what no server of its own answers.
pub fn no_reset_leaks()
    ensures { Spoils SkipsReset 2 }
{}

/// Were a link reset before it is settled, a second client would be given the answer to the reset.
pub fn haste_leaks()
    ensures { Spoils Hurries 2 }
{}

/// Were a server's death to leave bytes that it never gave, its client would be given them.
pub fn lies_are_given()
    ensures { Spoils DiesLying 1 }
{}

/// Were a client welcomed with another key word, it would be told another's.
pub fn misnaming_shows()
    ensures { Spoils Misnames 1 }
{}

/// Were a login to pass with any key, its client would get a session of another start.
pub fn any_key_shows()
    ensures { Spoils PassesSomehow 1 }
{}

/// Were a client to ask for another link that was welcomed over one, it would be welcomed twice.
pub fn asking_again_shows()
    ensures { Spoils AsksAgain 1 }
{}

/// Were a client refused inside a message, it would be given what no answer of a server of its own allows.
pub fn abruptness_shows()
    ensures { SpoilsRefusal }
{}

/// A statement is cancelled by another connection, the next one is answered, and the link is thrown away.
pub fn a_statement_is_cancelled()
    ensures { Cancelled }
{
    every_world();
}

/// Were a link returned whose lease a cancel found, the cancel would strike the next client's statement.
pub fn late_cancels_strike()
    ensures { StrikesAnother ReturnsMarked }
{}

/// Or it would strike the link's DISCARD ALL, and a second client would be given what no server of its own answers.
pub fn struck_resets_leak()
    ensures { Spoils ReturnsMarked 2 }
{}

/// Were a server to tell the key word of one that has ended, a cancel for the one would strike the other's client.
pub fn repeated_keys_strike()
    ensures { StrikesAnother RepeatsKey }
{}
