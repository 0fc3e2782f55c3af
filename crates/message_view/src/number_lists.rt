//! Format codes and type oids.
ghost use Rattle.std.specs.Prelude.{◌≡◌, ℕ, ◌+◌, ◌-◌, ◌*◌, ◌^◌, ◌<◌, ◌≤◌, [], length, IfOk};
ghost use Rattle.frame_view.specs.Answers.{LiesAt};
ghost use Rattle.message_view.specs.Left.{codes_left, oids_left};
ghost use Rattle.message_view.specs.Reading.{counted_at, int16_at, int32_at};
ghost use Rattle.message_view.specs.Views.{Gives};

use crate::parts::{bytes_after, take_u16, take_u32};
use crate::{Codes, Oids, ViewError};

impl<'a> Iterator for Codes<'a> {
    ghost use Rattle.std.specs.Iterator.{YieldsFirst, item_count};
    ghost use Rattle.message_view.specs.Left.{codes_left};

    type Item = u16;

    ghost next_gives = { YieldsFirst codes_left };

    ghost remaining = { item_count codes_left };

    #[tactic(auto, using(crate::proofs::Counted::broken_is_empty, crate::proofs::Counted::item_is_first, crate::proofs::Counted::rest_is_list, crate::proofs::Counted::none_is_left))]
    fn next(&mut self) -> Option<u16> {
        let left = self.left.checked_sub(1)?;
        let (code, rest) = take_u16(self.rest).ok()?;
        *self = Codes { rest, left };
        Some(code)
    }
}

impl<'a> Iterator for Oids<'a> {
    ghost use Rattle.std.specs.Iterator.{YieldsFirst, item_count};
    ghost use Rattle.message_view.specs.Left.{oids_left};

    type Item = u32;

    ghost next_gives = { YieldsFirst oids_left };

    ghost remaining = { item_count oids_left };

    #[tactic(auto, using(crate::proofs::Counted::broken_is_empty, crate::proofs::Counted::item_is_first, crate::proofs::Counted::rest_is_list, crate::proofs::Counted::none_is_left))]
    fn next(&mut self) -> Option<u32> {
        let left = self.left.checked_sub(1)?;
        let (oid, rest) = take_u32(self.rest).ok()?;
        *self = Oids { rest, left };
        Some(oid)
    }
}

/// A count and as many format codes.
#[tactic(auto, using(crate::proofs::NumberLists::codes_there, crate::proofs::NumberLists::codes_ok, crate::proofs::NumberLists::codes_short, crate::proofs::Counted::items_count))]
pub(crate) fn take_codes(bytes: &[u8]) -> Result<(Codes<'_>, &[u8]), ViewError>
    ensures part { Gives codes_left result (counted_at int16_at bytes.now) }
    ensures place { IfOk result (λ x. LiesAt x.1 bytes.entry (2 + 2 * length (codes_left x.0))) }
{
    let (left, rest) = take_u16(bytes)?;
    let after = bytes_after(rest, usize::from(left) * 2)?;
    Ok((Codes { rest, left }, after))
}

/// A count and as many type oids.
#[tactic(auto, using(crate::proofs::NumberLists::oids_there, crate::proofs::NumberLists::oids_ok, crate::proofs::NumberLists::oids_short))]
pub(crate) fn take_oids(bytes: &[u8]) -> Result<(Oids<'_>, &[u8]), ViewError>
    ensures { Gives oids_left result (counted_at int32_at bytes.now) }
{
    let (left, rest) = take_u16(bytes)?;
    let after = bytes_after(rest, usize::from(left) * 4)?;
    Ok((Oids { rest, left }, after))
}

impl Codes<'_> {
    /// How many codes are left.
    #[tactic(auto, using(crate::proofs::Counted::items_count))]
    pub fn len(&self) -> usize
        ensures count { result ≡ length (codes_left self.now) }
        ensures short { result < 2 ^ 16 }
    {
        usize::from(self.left)
    }
}

impl Oids<'_> {
    /// How many oids are left.
    #[tactic(auto, using(crate::proofs::Counted::items_count))]
    pub fn len(&self) -> usize
        ensures count { result ≡ length (oids_left self.now) }
        ensures short { result < 2 ^ 16 }
    {
        self.left as usize
    }
}
