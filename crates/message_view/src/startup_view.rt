//! The view of a StartupMessage.
ghost use Rattle.std.specs.Prelude.{◌≡◌, ℕ, ◌+◌, ◌<◌, length, IfOk, IfSome, ⊤};
ghost use Rattle.std.specs.Iterator.{MakesProgress, YieldsFirstBy, item_count};
ghost use Rattle.frame_view.specs.Answers.{LiesAt};
ghost use Rattle.message_view.specs.Left.{pairs_left};
ghost use Rattle.message_view.specs.Reading.{ended_at, pair_at, rest_of, startup_of};
ghost use Rattle.message_view.specs.Views.{Shows, texts_of};

use crate::parts::take_pair;
use crate::{Pairs, ViewError};

/// A client's StartupMessage.
#[derive(Clone, Copy, Drop)]
pub struct StartupView<'a> {
    pub pairs: Pairs<'a>,
}

impl<'a> Iterator for Pairs<'a> {
    ghost use Rattle.std.specs.Iterator.{YieldsFirstBy, item_count};
    ghost use Rattle.message_view.specs.Left.{pairs_left};
    ghost use Rattle.message_view.specs.Views.{texts_of};

    type Item = (&'a [u8], &'a [u8]);

    ghost next_gives = { YieldsFirstBy texts_of pairs_left };

    ghost remaining = { item_count pairs_left };

    #[tactic(auto, using(crate::proofs::Pairings::pair_shrinks, crate::proofs::Pairings::no_more_pairs, crate::proofs::Ended::no_item, crate::proofs::Ended::item_is_first, crate::proofs::Ended::rest_is_list))]
    fn next(&mut self) -> Option<(&'a [u8], &'a [u8])>
        ensures steps { YieldsFirstBy texts_of pairs_left self.old result self.new }
        ensures goes { MakesProgress (λ _. ⊤) (item_count pairs_left) self.old result self.new }
        ensures name { IfSome result (λ p. LiesAt p.0 self.old.rest 0) }
        ensures value { IfSome result (λ p. LiesAt p.1 self.old.rest (1 + length p.0.now)) }
        ensures after { IfSome result (λ p. LiesAt self.new.rest self.old.rest (2 + length p.0.now + length p.1.now)) }
    {
        let (pair, rest) = take_pair(self.rest).ok()?;
        let pair = pair?;
        *self = Pairs { rest };
        Some(pair)
    }
}

/// What follows the zero byte that ends the pairs.
#[tactic(auto, using(crate::proofs::Pairings::pair_shrinks, crate::proofs::Pairings::pairs_end, crate::proofs::Ended::list_goes_on, crate::proofs::Ended::list_breaks))]
fn skip_pairs(bytes: &[u8]) -> Result<&[u8], ViewError>
    ensures { Shows (λ r. r.now) result (rest_of (ended_at pair_at bytes.now)) }
{
    let mut rest = bytes;
    loop {
        let (pair, after) = take_pair(rest)?;
        if pair.is_none() {
            return Ok(after);
        }
        rest = after;
    }
}

impl<'a> StartupView<'a> {
    /// Reads what follows the code of a StartupMessage: pairs of texts, and the zero byte that ends
    /// them. [`ViewError::NoZero`]: a text without its end, or the pairs without theirs.
    /// [`ViewError::LeftOver`]: bytes after them.
    #[tactic(auto, using(crate::proofs::Ended::ended_found, crate::proofs::Ended::ended_there, crate::proofs::Ended::ended_broken), unfolding(crate::specs::Reading::startup_of))]
    pub fn read(body: &'a [u8]) -> Result<StartupView<'a>, ViewError>
        ensures parts { Shows (λ v. pairs_left v.pairs) result (startup_of body.now) }
        ensures place { IfOk result (λ v. LiesAt v.pairs.rest body.entry 0) }
    {
        if !skip_pairs(body)?.is_empty() {
            return Err(ViewError::LeftOver);
        }
        let pairs = Pairs { rest: body };
        Ok(StartupView { pairs })
    }

    /// The pairs of a parameter's name and its value, from the first on.
    pub fn pairs(&self) -> Pairs<'a>
        ensures { result ≡ self.now.pairs }
    {
        self.pairs
    }
}
