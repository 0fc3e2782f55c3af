//! A pool's figures, for whoever scrapes them.

use crate::keeping::Source;
use crate::listening::Metrics;
use crate::pool::Pool;
use crate::runtime::PoolRuntime;
use desk_tallies::ledgers::Ledgers;
use link_desk::desk::LinkDesk;
use metrics_http::serving::MetricsServer;
use metrics_text::text::put_metrics;
use std::alloc::{AllocError, Global};
use std::sync::atomic::Ordering;

impl<R: PoolRuntime, F: Source, K: Ledgers> Pool<R, F, K> {
    /// The figures as they are now, in OpenMetrics' text format. The error is that there is no pass to look, or that an allocation failed.
    fn metrics(&self, alloc: Global) -> Result<Vec<u8>, AllocError> {
        let (settings, users) = self.keeper.share()?;
        let Some(mut pass) = self.pass(&self.rt) else {
            return Err(AllocError);
        };
        let view = self.desk.view(alloc, &mut pass.pass);
        self.give_back(&self.rt, pass);
        let seen = self.watch.seen(Some(users), Vec::new(alloc))?;
        let mut text = Vec::new(alloc);
        put_metrics(alloc, &view?, &seen, &settings, &mut text)?;
        Ok(text)
    }

    /// Answers who asks for the figures, until no clients are waited for any more. Without listeners, or where the system has no poll for
    /// them, it returns at once.
    pub(crate) fn serve_metrics(&self, rt: &R, alloc: Global, metrics: Metrics) {
        let Metrics {
            listeners,
            is_local,
        } = metrics;
        if listeners.is_empty() {
            return;
        }
        let Ok(mut server) = MetricsServer::new(rt, alloc, listeners, is_local) else {
            return;
        };
        for _ in rt.forever() {
            if self.is_closed.load(Ordering::SeqCst) {
                return;
            }
            if server.is_asked(rt) {
                match self.metrics(alloc) {
                    Ok(text) => server.answer(Some(text.as_slice())),
                    Err(_) => server.answer(None),
                }
            }
        }
    }
}
