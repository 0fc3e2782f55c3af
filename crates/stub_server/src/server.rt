//! The stand-in server for all connections that a listener has.
ghost use Rattle.std.specs.Prelude.{◌≡◌, [], ◌∷◌};

use crate::connection::serve_client;
use crate::strikers::Strikers;
use crate::talk::Ending;
use memory_ends::striker::Striker;
use message_view::{KeyView, KeyWord};
use session_catalogue::Catalogue;
use std::alloc::{AllocError, Global};
use std::net::Net;
use std::rt::Clock;
use std::sync::atomic::AtomicBool;
use std::sync::{Arc, Mutex, Wait};
use std::thread::Threads;
use std::{io, net};
use tcp_end::connection::TcpEnd;
use tcp_end::gate::{GatePoll, TcpGate};
use tcp_listen::acceptor::{Acceptor, Turn};
use tcp_listen::listener::Listener;
use worker_threads::Workers;

/// What the connections of a listener share.
#[derive(Drop)]
struct Stub {
    catalogue: Arc<Catalogue>,
    strikers: Mutex<Strikers>,
}

impl Stub {
    /// The flag of a connection with this key, which cancels find from now on.
    fn open<R: Wait>(
        &self,
        rt: &R,
        alloc: Global,
        own: KeyWord,
    ) -> Result<Arc<AtomicBool>, AllocError> {
        let flag = Arc::new(alloc, AtomicBool::new(false))?;
        let striker = Striker::new(Arc::try_clone(&flag)?, own);
        self.strikers.lock(rt).add(striker)?;
        Ok(flag)
    }

    /// The connection with this key has ended: no cancel finds it any more.
    fn close<R: Wait>(&self, rt: &R, own: KeyWord) {
        let KeyWord { pid, secret, .. } = own;
        self.strikers.lock(rt).remove(KeyView { pid, secret });
    }
}

/// Serves one connection to its end, and strikes the connection that it asks to cancel, if one is served with that key. One that
/// can't be watched, since the system has no more polls, is closed, and so is one for which there is no memory.
fn serve_connection<R: Net + Clock + Wait + Copy + Drop>(
    rt: R,
    alloc: Global,
    stub: Arc<Stub>,
    own: KeyWord,
    client: TcpEnd,
    kept: &mut Option<GatePoll>,
) {
    let mut client = client;
    let Ok(poll) = GatePoll::of_thread(&rt, alloc, kept) else {
        return;
    };
    let Ok(mut gate) = TcpGate::new(rt, poll, &mut client) else {
        return;
    };
    let Ok(catalogue) = Arc::try_clone(&stub.catalogue) else {
        return;
    };
    let Ok(flag) = stub.open(&rt, alloc, own) else {
        return;
    };
    let (client, ending) = serve_client::<TcpEnd, TcpEnd, TcpGate<'_, R>>(
        alloc,
        catalogue,
        own,
        Some(flag),
        client,
        &mut gate,
    );
    stub.close(&rt, own);
    if let Ending::Asked(key) = ending {
        stub.strikers.lock(&rt).cancel(key);
    }
    // only now: who sees that it is closed may rely on the strike
    drop(client);
}

/// A connection that is to be served, and what its thread needs for that.
#[derive(Drop)]
struct Connection<R: Drop> {
    rt: R,
    alloc: Global,
    stub: Arc<Stub>,
    own: KeyWord,
    client: TcpEnd,
}

impl<R: Net + Clock + Wait + Copy + Drop> Connection<R> {
    /// Serves it to its end, with the poll that its thread keeps.
    fn serve(self, kept: &mut Option<GatePoll>) {
        let Connection {
            rt,
            alloc,
            stub,
            own,
            client,
        } = self;
        serve_connection(rt, alloc, stub, own, client, kept);
    }
}

/// The key word of a connection: its number as pid and secret. Numbers count from 1.
pub fn key_word(number: u32) -> KeyWord
    ensures { result ≡ record { pid = number; secret = number; salt = 0 ∷ 0 ∷ 0 ∷ 0 ∷ [] } }
{
    KeyWord {
        pid: number,
        secret: number,
        salt: [0; 4],
    }
}

/// Serves the connections of this listener, each on a thread of its own: as many as `count` says, and then no more, or for ever. It
/// returns when the last is done. A CancelRequest with the key of one that is served strikes its next Query or Execute.
///
/// A connection for which there is no thread or no memory is closed, and the others go on. The error is that the system has no poll
/// for the listener, or that an allocation failed before the first connection.
pub fn stub_on<
    R: Threads
        + Wait
        + Clock
        + Net<Listener = net::TcpListener, Stream = net::TcpStream>
        + Copy
        + Send
        + 'static,
>(
    rt: R,
    alloc: Global,
    listener: Listener,
    catalogue: Catalogue,
    count: Option<u32>,
) -> io::Result<()> {
    let stub = Stub {
        catalogue: Arc::new(alloc, catalogue)?,
        strikers: Mutex::new(Strikers::new(alloc)),
    };
    let stub = Arc::new(alloc, stub)?;
    let mut listeners = Vec::new(alloc);
    listeners.push(listener)?;
    let mut acceptor = Acceptor::new(&rt, alloc, listeners)?;
    let mut workers = Workers::<Connection<R>>::new(alloc)?;
    let mut accepted: u32 = 0;
    for _ in rt.forever() {
        if count == Some(accepted) {
            break;
        }
        let (Turn::Client(client, _), Ok(stub)) = (acceptor.turn(), Arc::try_clone(&stub)) else {
            continue;
        };
        accepted = accepted.wrapping_add(1);
        let own = key_word(accepted);
        // a thread that can't be started closes this connection alone
        let _ = workers.start(
            rt,
            Connection {
                rt,
                alloc,
                stub,
                own,
                client,
            },
            |kept: &mut Option<GatePoll>, connection: Connection<R>| connection.serve(kept),
        );
    }
    workers.join_all(&rt);
    Ok(())
}
