//! One client of the console.
ghost use Rattle.std.specs.Prelude.{◌≡◌};
ghost use Rattle.console_run.specs.Exchanges.{asker};
ghost use Rattle.console_run.specs.Passing.{IsSameHolder, Manages, pass_of};
ghost use Rattle.console_run.specs.Talks.{IsServed};
ghost use Rattle.console_run.specs.Turns.{HasEnded};

use crate::answering::Console;
use crate::talk::{Talk, Turn};
use ini_config::Settings;
use link_desk::desk::LinkDesk;
use log_lines::notes::Client;
use message_view::{KeyWord, Refusal};
use server_end::gate::Gate;
use server_end::{ClientEnd, ServerEnd};
use std::alloc::Global;
use time_limits::MAX_TURNS;

/// Greets the client and answers its messages; by what it is refused, if it is.
fn drive_console<C: ClientEnd, D: LinkDesk, G: Gate<D::End>>(
    console: &Console<'_, D>,
    pass: &mut D::Pass,
    talk: &mut Talk<C>,
    gate: &mut G,
) -> Option<Refusal>
    ensures { HasEnded (asker console.now.settings.now console.now.who.now.user.now) talk.old talk.new (pass_of (D.counted pass.old) (D.holder pass.old)) (pass_of (D.counted pass.new) (D.holder pass.new)) result }
{
    for _ in 0..MAX_TURNS {
        match talk.turn(console, pass) {
            Turn::Again => {}
            Turn::Wait => {
                gate.turn();
            }
            // between two looks at the book, while an answer is for later
            Turn::Rest => gate.turn_of_client(),
            Turn::Over(last) => return last,
        }
    }
    None
}

/// Serves a client of the console, which is through its login and wasn't given AuthenticationOk yet, to its end: its greeting, and the
/// answer to each of its messages, as `settings` are at its arrival. Answers the client's end, and by what the client is to be refused,
/// which it isn't told here: then all that it was told before is given. A turn of the gate is taken where nothing moved.
///
/// It is refused where its message can't be one or is above the limit, where there was no memory, and where the book has made its last
/// decision. An action of the console is a decision made through the pass, answered once it is made; what couldn't be answered for want of
/// memory isn't done. `who` is logged beside them.
///
/// WAIT_CLOSE is answered once no link is stale any more that was there at the last RECONNECT, of its database, where it names one; by an
/// error, where the book is shut down before that. Until then the book is looked at each second, and nothing else of the client's is
/// answered.
///
/// Where `who` isn't one of the settings' admin users it may but look: those commands are answered by an error, and nothing is done.
pub fn serve_console<C: ClientEnd, D: LinkDesk, G: Gate<D::End>>(
    alloc: Global,
    desk: &D,
    pass: &mut D::Pass,
    client: C,
    settings: &Settings,
    word: KeyWord,
    gate: &mut G,
    who: &Client<'_>,
) -> (C, Option<Refusal>)
    ensures tells { (C.facts result.0).tells ≡ (C.facts client).tells }
    ensures served { IsServed (asker settings.now who.now.user.now) word (C.facts client) (C.facts result.0) (pass_of (D.counted pass.old) (D.holder pass.old)) (pass_of (D.counted pass.new) (D.holder pass.new)) result.1 }
    ensures share { Manages (D.counted pass.old) (D.counted pass.new) }
    ensures holder { IsSameHolder (D.holder pass.old) (D.holder pass.new) }
{
    let mut talk = match Talk::new(alloc, settings.console_style(), client, word) {
        Ok(talk) => talk,
        Err(client) => return (client, Some(Refusal::OutOfMemory)),
    };
    let console = Console {
        alloc,
        desk,
        settings,
        who,
    };
    let last = drive_console(&console, pass, &mut talk, gate);
    (talk.finish(), last)
}
