//! Stand-in servers in memory, as a desk's workers reach them.
//!
//! Public: `MemoryDial` and its servers that a cancel reaches, for tests and `oom_probe`; the program has none of it.
#![tactic(auto)]

ghost use Rattle.std.specs.Prelude.{◌≡◌, ◌<◌, IfSome};
ghost use Rattle.std.specs.Arc.{arc_value};
ghost use Rattle.link_desk.specs.Homes.{IsDialled};
ghost use Rattle.memory_dial.specs.Homes.{IsEverywhere};

pub mod strikable;

use credentials::Credential;
use memory_ends::memory_server::{MemoryServer, ServerAuth};
use memory_start_laws::memory_servers_can_start;
use message_view::KeyWord;
use pool_desk::answers::Strike;
use pool_desk::outside::Outside;
use session_catalogue::Catalogue;
use start_keys::StartKey;
use std::alloc::Global;
use std::marker::{Brand, Model, PhantomData};
use std::sync::Arc;

/// Which catalogue stands behind each address. Who calls at [`Brand`] picks it.
pub trait Naming {
    ghost use Rattle.session_values.specs.State.{Address, CatalogueOf};

    ghost catalogue: { Address → CatalogueOf };
}

impl Naming for Brand {
    ghost use Rattle.link_desk.specs.Homes.{unknown_home};

    ghost catalogue = { unknown_home.catalogue };
}

/// Reaches new servers of one catalogue and key word, whatever the key, which let everybody in, and which no cancel reaches.
#[derive(Drop)]
pub struct MemoryDial<N: Naming> {
    alloc: Global,
    catalogue: Arc<Catalogue>,
    own: KeyWord,
    /// The greatest number of bytes that a call moves.
    cut: usize,
    naming: PhantomData<N>,
}

impl<N: Naming> Model for MemoryDial<N> {
    ghost use Rattle.std.specs.Arc.{arc_value};
    ghost use Rattle.std.specs.Prelude.{◌<◌};
    ghost use Rattle.memory_dial.specs.Homes.{IsEverywhere};
    ghost use Rattle.session_values.specs.State.{CatalogueOf};

    ghost Value = { CatalogueOf };

    ghost view = { λ d. arc_value d.catalogue };

    ghost invariant = { λ d. (0 < d.cut) × IsEverywhere N.catalogue (arc_value d.catalogue) };
}

impl<N: Naming> MemoryDial<N> {
    /// Servers of this catalogue and key word, of which a call moves at most `cut` bytes.
    pub fn new(alloc: Global, catalogue: Arc<Catalogue>, own: KeyWord, cut: usize) -> MemoryDial<N>
        requires cut { 0 < cut }
        requires everywhere { IsEverywhere N.catalogue (arc_value catalogue) }
        ensures { result ≡ arc_value catalogue }
    {
        MemoryDial {
            alloc,
            catalogue,
            own,
            cut,
            naming: PhantomData,
        }
    }
}

impl<N: Naming> Outside for MemoryDial<N> {
    ghost use Rattle.memory_dial.specs.Homes.{open_home};

    type End = MemoryServer;

    ghost home = { open_home N.catalogue };

    fn dial(
        &self,
        _number: u64,
        _key: &StartKey,
        _credential: &Credential<'_>,
        _seconds: u32,
    ) -> Option<MemoryServer> {
        memory_servers_can_start();
        self.catalogue.is_lawful();
        let catalogue = Arc::try_clone(&self.catalogue).ok()?;
        MemoryServer::spared(
            self.alloc,
            catalogue,
            ServerAuth::Trust,
            self.own,
            self.cut,
            None,
        )
        .ok()
    }

    fn strike(&self, _strike: &Strike) {}
}
