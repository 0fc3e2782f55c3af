//! A worker.

use crate::noting::named;
use link_desk::desk::LinkDesk;
use log_lines::notes::{Note, Visit};
use relay_flow::buffers::Buffers;
use start_keys::StartKey;
use std::alloc::Global;
use std::sync::Arc;

/// What serves a client at a desk: the client's pass, the gate where it waits for bytes, the buffers that its thread keeps, and what the
/// log knows it by.
pub(crate) struct Worker<'a, D: LinkDesk, G> {
    pub alloc: Global,
    pub desk: &'a D,
    pub pass: D::Pass,
    pub gate: G,
    pub kept: &'a mut Option<Buffers>,
    pub visit: Visit,
    /// In the lease book, once it has arrived.
    pub number: Option<u64>,
    /// Its own start key, once it has arrived: that of its link may be another user's.
    pub own: Option<Arc<StartKey>>,
}

impl<'a, D: LinkDesk, G> Worker<'a, D, G> {
    /// Logs a note of its client.
    pub(crate) fn note(&self, note: &Note<'_>) {
        let client = named(self.visit, self.number, self.own.as_ref());
        self.desk.note(&client, note);
    }
}
