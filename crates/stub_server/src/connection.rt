//! The stand-in server over one client's end.
ghost use Rattle.std.specs.Prelude.{◌≡◌, ◌<◌, [], length};
ghost use Rattle.std.specs.Arc.{arc_value};
ghost use Rattle.session_values.specs.Extended.{is_there};
ghost use Rattle.stub_server.specs.Talks.{HasEnded, IsNew, Turns};

use crate::talk::{Ending, Talk};
use message_view::KeyWord;
use server_end::gate::Gate;
use server_end::{ClientEnd, ServerEnd};
use session_catalogue::Catalogue;
use std::alloc::Global;
use std::sync::Arc;
use std::sync::atomic::AtomicBool;
use time_limits::MAX_TURNS;

/// As many bytes as one read takes at most.
const ROOM: usize = 8192;

/// What a turn of a connection came to.
#[derive(Clone, Copy, Drop)]
pub enum Progress {
    /// Bytes were moved.
    Moved,
    /// None could be at this time.
    Still,
    Ends(Ending),
}

/// Gives the client some of what is held for it.
fn give<C: ClientEnd>(talk: &mut Talk, client: &mut C) -> Progress
    requires { 0 < length talk.old.outbox }
    ensures { Turns (C.facts client.old) (C.facts client.new) talk.old talk.new result }
{
    match client.write_some(talk.outbox()) {
        server_end::Moved::Count(count) => {
            talk.gave(count);
            Progress::Moved
        }
        server_end::Moved::NotNow => Progress::Still,
        server_end::Moved::Ended | server_end::Moved::Fault => Progress::Ends(Ending::Left),
    }
}

/// Takes bytes of the client, and answers every packet that came whole.
fn hear<C: ClientEnd>(talk: &mut Talk, client: &mut C, room: &mut [u8]) -> Progress
    requires { 0 < length room.old }
    ensures { Turns (C.facts client.old) (C.facts client.new) talk.old talk.new result }
{
    match client.read_some(room) {
        server_end::Moved::Count(count) => match talk.hear(&room[..count]) {
            Ok(()) => Progress::Moved,
            Err(_) => Progress::Ends(Ending::OutOfMemory),
        },
        server_end::Moved::NotNow => Progress::Still,
        server_end::Moved::Ended | server_end::Moved::Fault => Progress::Ends(Ending::Left),
    }
}

/// One turn: what is held for the client goes first, and nothing more is taken of it before.
fn turn<C: ClientEnd>(talk: &mut Talk, client: &mut C, room: &mut [u8]) -> Progress
    requires { 0 < length room.old }
    ensures { Turns (C.facts client.old) (C.facts client.new) talk.old talk.new result }
{
    if !talk.outbox().is_empty() {
        return give(talk, client);
    }
    match talk.ending() {
        Some(ending) => Progress::Ends(ending),
        None => hear(talk, client, room),
    }
}

/// Serves one client from its first byte to its end, as the stand-in server of this catalogue whose BackendKeyData has the words of
/// `own`: what the client is given, and why it ended. Requests for encryption are answered by `N`, and everybody is let in. A
/// CancelRequest is answered by nothing: it is for the caller to strike what it names.
///
/// Where the flag is raised, the next Query or Execute that isn't skipped takes it down, and is struck. Without a flag none is.
///
/// What is held for the client is written before more of it is read. The gate is waited at where nothing could be moved.
pub fn serve_client<C: ClientEnd, E: ServerEnd, G: Gate<E>>(
    alloc: Global,
    catalogue: Arc<Catalogue>,
    own: KeyWord,
    flag: Option<Arc<AtomicBool>>,
    client: C,
    gate: &mut G,
) -> (C, Ending)
    requires { IsNew (C.facts client) }
    ensures { HasEnded (record { catalogue = arc_value catalogue; pid = own.pid; secret = own.secret; strikable = is_there flag }) (C.facts result.0) result.1 }
{
    let mut client = client;
    let mut talk = Talk::new(alloc, catalogue, own, flag);
    let mut room = [0u8; ROOM];
    for _ in 0..MAX_TURNS {
        match turn(&mut talk, &mut client, &mut room) {
            Progress::Moved => {}
            Progress::Still => {
                let _ = gate.turn();
            }
            Progress::Ends(ending) => return (client, ending),
        }
    }
    (client, Ending::Left)
}
