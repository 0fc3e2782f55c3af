//! Stand-in servers in memory that cancels reach.
ghost use Rattle.std.specs.Prelude.{◌≡◌, ◌<◌, IfSome, true};
ghost use Rattle.std.specs.Arc.{arc_value};
ghost use Rattle.session_values.specs.State.{StartKeyOf};
ghost use Rattle.credentials.specs.Credentials.{CredentialOf};
ghost use Rattle.link_desk.specs.Homes.{IsDialled};
ghost use Rattle.memory_dial.specs.Homes.{IsEverywhere, strikable_home};

use crate::Naming;
use credentials::Credential;
use memory_ends::memory_server::{MemoryServer, ServerAuth};
use memory_ends::striker::Striker;
use memory_start_laws::memory_servers_can_start;
use message_view::KeyWord;
use pool_desk::answers::Strike;
use pool_desk::outside::Outside;
use session_catalogue::Catalogue;
use start_keys::StartKey;
use std::alloc::Global;
use std::marker::{Model, PhantomData};
use std::sync::{Arc, Mutex, Wait};

/// Reaches new servers of one catalogue, whatever the key, which let everybody in. Each has a key word of its own, the nth that of pid
/// and secret n, and a cancel with that strikes it.
#[derive(Drop)]
pub struct StrikableDial<R: Wait + Drop, N: Naming> {
    rt: R,
    alloc: Global,
    catalogue: Arc<Catalogue>,
    /// The greatest number of bytes that a call moves.
    cut: usize,
    strikers: Mutex<Vec<Striker>>,
    naming: PhantomData<N>,
}

impl<R: Wait + Drop, N: Naming> Model for StrikableDial<R, N> {
    ghost use Rattle.std.specs.Arc.{arc_value};
    ghost use Rattle.std.specs.Prelude.{◌<◌};
    ghost use Rattle.memory_dial.specs.Homes.{IsEverywhere};
    ghost use Rattle.session_values.specs.State.{CatalogueOf};

    ghost Value = { CatalogueOf };

    ghost view = { λ d. arc_value d.catalogue };

    ghost invariant = { λ d. (0 < d.cut) × IsEverywhere N.catalogue (arc_value d.catalogue) };
}

/// The key word of the next server, where so many were dialled.
fn next_word(dialled: usize) -> Option<KeyWord> {
    let number = u32::try_from(dialled).ok()?.checked_add(1)?;
    Some(KeyWord {
        pid: number,
        secret: number,
        salt: [0; 4],
    })
}

impl<R: Wait + Drop, N: Naming> StrikableDial<R, N> {
    /// Servers of this catalogue, of which a call moves at most `cut` bytes.
    pub fn new(rt: R, alloc: Global, catalogue: Arc<Catalogue>, cut: usize) -> StrikableDial<R, N>
        requires cut { 0 < cut }
        requires everywhere { IsEverywhere N.catalogue (arc_value catalogue) }
        ensures { result ≡ arc_value catalogue }
    {
        StrikableDial {
            rt,
            alloc,
            catalogue,
            cut,
            strikers: Mutex::new(Vec::new(alloc)),
            naming: PhantomData,
        }
    }

    /// A new server with this key word, which cancels reach.
    fn server(&self, own: KeyWord) -> Option<MemoryServer>
        ensures reached { IfSome result (λ e. e.standing.server.strikable ≡ true) }
        ensures dialled { IfSome result (λ e. (key : StartKeyOf) (credential : CredentialOf) → IsDialled (strikable_home N.catalogue) key credential e.standing) }
    {
        memory_servers_can_start();
        self.catalogue.is_lawful();
        let catalogue = Arc::try_clone(&self.catalogue).ok()?;
        MemoryServer::new(
            self.alloc,
            catalogue,
            ServerAuth::Trust,
            own,
            self.cut,
            None,
        )
        .ok()
    }
}

impl<R: Wait + Drop, N: Naming> Outside for StrikableDial<R, N> {
    ghost use Rattle.memory_dial.specs.Homes.{strikable_home};

    type End = MemoryServer;

    ghost home = { strikable_home N.catalogue };

    fn dial(
        &self,
        _number: u64,
        _key: &StartKey,
        _credential: &Credential<'_>,
        _seconds: u32,
    ) -> Option<MemoryServer> {
        let mut strikers = self.strikers.lock(&self.rt);
        let server = self.server(next_word(strikers.len())?)?;
        strikers.push(server.striker().ok()?).ok()?;
        Some(server)
    }

    fn strike(&self, strike: &Strike) {
        for striker in self.strikers.lock(&self.rt).iter() {
            striker.cancel(strike.server.pid, strike.server.secret);
        }
    }
}
