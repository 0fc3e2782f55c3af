//! What holds in every world of clients, links and the book, whatever happens in it: the sentence that a pool is there for.
//!
//! Public: `every_world`, `two_worlds` and `every_cancel`, which do nothing: each is a law. HEADLINE says which functions of the program
//! they speak of.
#![tactic(auto)]

ghost use Rattle.world_model.specs.Cancels.{OpenCancelsAreOwn, OpenCancelsStay, UnaskedAreUnstruck};
ghost use Rattle.world_model.specs.Headline.{EveryWorld, IdleLinksAreFresh, LeasesAreExact, LinksServeOne, OutsBegin, QuietLeasesAreWhole, RefusalsStandApart, TwoWorlds};

use world_leases::{book_steps_keep, link_steps_keep};
use world_steps::{byte_steps_keep, client_steps_keep, end_steps_keep};

/// Over every list of steps, what a client is given is allowed by what a server of its own answers.
///
/// Beside it: what it was given before a refusal begins that answer; no link serves two clients, or waits for one while it serves another; the book's idle links that live are fresh;
/// what was given, what is held and what is still to come over a living link are the whole answer; and where nothing is under
/// way, all of it was given.
pub fn every_world()
    ensures allowed { EveryWorld }
    ensures outs { OutsBegin }
    ensures apart { RefusalsStandApart }
    ensures one_client { LinksServeOne }
    ensures idle_fresh { IdleLinksAreFresh }
    ensures exact { LeasesAreExact }
    ensures whole { QuietLeasesAreWhole }
{
    book_steps_keep();
    client_steps_keep();
    byte_steps_keep();
    link_steps_keep();
    end_steps_keep();
}

/// Of two worlds that agree on a client, one's bytes before any refusal begin the other's.
pub fn two_worlds()
    ensures { TwoWorlds }
{
    every_world();
}

/// Over every list of steps, a cancel strikes the client alone for which it was asked, and no client for which none was.
///
/// A cancel that is on its way to a link's server, or came to it and struck nothing yet, was asked for the client that has the link; and
/// a link with such a cancel is lent or thrown away: it comes to no other client.
pub fn every_cancel()
    ensures unasked { UnaskedAreUnstruck }
    ensures own { OpenCancelsAreOwn }
    ensures open { OpenCancelsStay }
{
    book_steps_keep();
    client_steps_keep();
    byte_steps_keep();
    link_steps_keep();
    end_steps_keep();
}
