//! A server that says what it is told to, and a link over it.
ghost use Rattle.std.specs.Prelude.{◌≡◌, [], IfOk};
ghost use Rattle.std.specs.Arc.{arc_value};
ghost use Rattle.link_start.specs.Starts.{CanStartAll};
ghost use Rattle.link_tests.specs.Saying.{saying};

use crate::making::key;
use link_run::links::{CleanLink, LinkParts};
use memory_start_laws::unfollowed_starts_are_clean;
use param_track::Reported;
use server_end::transcript::Transcript;
use server_end::{Moved, ServerEnd};
use start_keys::StartKey;
use std::alloc::{AllocError, Global};
use std::sync::Arc;
use std::test::Fail;

/// A server that says these words, so many bytes a call at most, whatever it is sent, and then ends. It follows no session, and tells
/// that one of its key was started on it before.
pub struct SayingEnd {
    key: Arc<StartKey>,
    words: &'static [u8],
    cut: usize,
    accepted: Transcript,
    given: Transcript,
}

impl Drop for SayingEnd {
    fn drop(self) {
        let SayingEnd {
            key: _,
            words: _,
            cut: _,
            accepted: _,
            given: _,
        } = self;
    }
}

impl SayingEnd {
    fn new(key: &Arc<StartKey>, words: &'static [u8], cut: usize) -> Result<SayingEnd, AllocError>
        ensures key { IfOk result (λ s. arc_value s.key ≡ arc_value key.now) }
        ensures accepted { IfOk result (λ s. s.accepted.bytes ≡ []) }
        ensures given { IfOk result (λ s. s.given.bytes ≡ []) }
    {
        Ok(SayingEnd {
            key: Arc::try_clone(key)?,
            words,
            cut,
            accepted: Transcript::new(),
            given: Transcript::new(),
        })
    }
}

impl ServerEnd for SayingEnd {
    ghost use Rattle.std.specs.Arc.{arc_value};
    ghost use Rattle.link_tests.specs.Saying.{saying};

    ghost standing = { λ s. saying (arc_value s.key) s.words.now s.accepted.bytes s.given.bytes };

    fn read_some(&mut self, into: &mut [u8]) -> Moved {
        let count = self.cut.min(into.len()).min(self.words.len());
        if count == 0 {
            self.words = &[];
            return Moved::Ended;
        }
        into[..count].copy_from_slice(&self.words[..count]);
        self.given.note(&into[..count]);
        self.words = &self.words[count..];
        Moved::Count(count)
    }

    fn write_some(&mut self, from: &[u8]) -> Moved {
        if self.words.is_empty() {
            return Moved::Ended;
        }
        self.accepted.note(from);
        Moved::Count(from.len())
    }

    fn faults(&self) -> u64 {
        0
    }

    fn waits(&self) -> (u64, u64) {
        (0, 0)
    }
}

/// A server that says these words, so many bytes a call at most. A link can be started over it, since it follows no session.
pub fn saying_end(alloc: Global, words: &'static [u8], cut: usize) -> Result<SayingEnd, Fail>
    ensures { IfOk result (λ s. CanStartAll (saying (arc_value s.key) s.words.now s.accepted.bytes s.given.bytes)) }
{
    let key = key(alloc, true)?;
    Ok(SayingEnd::new(&key, words, cut)?)
}

/// A link over a server that says these words, so many bytes a call at most.
pub fn saying_link(
    alloc: Global,
    words: &'static [u8],
    cut: usize,
) -> Result<CleanLink<SayingEnd>, Fail> {
    unfollowed_starts_are_clean();
    let key = key(alloc, true)?;
    let parts = LinkParts {
        end: SayingEnd::new(&key, words, cut)?,
        key,
        number: 1,
        started_at: 0,
        server_key: None,
        reported: Reported::new(alloc),
    };
    Ok(parts.clean())
}
