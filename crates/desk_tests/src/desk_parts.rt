//! The desk of the tests.
use credentials::Credential;
use memory_ends::gone_end::GoneEnd;
use pool_desk::answers::Strike;
use pool_desk::desk::Desk;
use pool_desk::outside::Outside;
use start_keys::StartKey;
use std::alloc::{AllocError, Global};
use std::rt::Clock;
use std::sync::atomic::{AtomicU64, Ordering};
use std::sync::{Arc, Wait};
use std::thread::Threads;

/// How many links were to be minded, and how many no more.
#[derive(Drop)]
pub(crate) struct Minded {
    minded: AtomicU64,
    released: AtomicU64,
}

impl Minded {
    /// How many were to be minded, and how many no more, until now.
    pub(crate) fn counts(&self) -> (u64, u64) {
        let minded = self.minded.load(Ordering::SeqCst);
        (minded, self.released.load(Ordering::SeqCst))
    }
}

/// Reaches servers that are gone, and that no cancel reaches. It counts the links that it is to mind.
#[derive(Drop)]
pub(crate) struct Nowhere {
    links: Arc<Minded>,
}

impl Nowhere {
    /// None were minded yet.
    pub(crate) fn new(alloc: Global) -> Result<Nowhere, AllocError> {
        let links = Minded {
            minded: AtomicU64::new(0),
            released: AtomicU64::new(0),
        };
        let links = Arc::new(alloc, links)?;
        Ok(Nowhere { links })
    }

    /// The links that it is to mind.
    pub(crate) fn links(&self) -> Result<Arc<Minded>, AllocError> {
        Arc::try_clone(&self.links)
    }
}

impl Outside for Nowhere {
    ghost use Rattle.link_desk.specs.Homes.{unknown_home};

    type End = GoneEnd;

    ghost home = { unknown_home };

    fn dial(
        &self,
        _number: u64,
        _key: &StartKey,
        _credential: &Credential<'_>,
        _seconds: u32,
    ) -> Option<GoneEnd> {
        Some(GoneEnd::new())
    }

    fn mind(&self, _number: u64, _end: &mut GoneEnd) {
        self.links.minded.fetch_add(1, Ordering::SeqCst);
    }

    fn release(&self, _end: &mut GoneEnd) {
        self.links.released.fetch_add(1, Ordering::SeqCst);
    }

    fn strike(&self, _strike: &Strike) {}
}

/// A desk that lends links to servers that are gone.
pub(crate) type TestDesk<R, K> = Desk<R, Nowhere, K>;

/// What clients that wait at a desk ask of their runtime: threads that wait, each with a copy of it, and a clock.
pub(crate) trait TestRuntime: Threads + Wait + Clock + Copy + Send + Sync {}

impl<R: Threads + Wait + Clock + Copy + Send + Sync> TestRuntime for R {}
