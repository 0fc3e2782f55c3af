//! The values of a Bind or a DataRow.
ghost use Rattle.std.specs.Prelude.{◌≡◌, ℕ, ◌+◌, ◌-◌, ◌*◌, ◌^◌, ◌<◌, ◌≤◌, [], length, take, drop, IfOk, IfSome, is_ok, slice_get, option_map, true, ⊤};
ghost use Rattle.std.specs.List.{flat_map};
ghost use Rattle.std.specs.Iterator.{MakesProgress, YieldsFirstBy, item_count};
ghost use Rattle.frame_view.specs.Answers.{LiesAt};
ghost use Rattle.message_view.specs.Bodies.{value as spelled_value};
ghost use Rattle.message_view.specs.Left.{values_left};
ghost use Rattle.message_view.specs.Parts.{shown_value};
ghost use Rattle.message_view.specs.Reading.{counted_at, int16_at, list_at, rest_of, value_at};
ghost use Rattle.message_view.specs.Views.{Gives, LiesIfAny, Shows, value_place};

use crate::parts::{take_u16, take_value};
use crate::{Values, ViewError};

impl<'a> Iterator for Values<'a> {
    ghost use Rattle.std.specs.Iterator.{YieldsFirstBy, item_count};
    ghost use Rattle.message_view.specs.Left.{values_left};
    ghost use Rattle.message_view.specs.Parts.{shown_value};

    type Item = Option<&'a [u8]>;

    ghost next_gives = { YieldsFirstBy shown_value values_left };

    ghost remaining = { item_count values_left };

    /// The next value: `None` after the last, `Some(None)` for null.
    #[tactic(auto, using(crate::proofs::Counted::broken_is_empty, crate::proofs::Counted::item_is_first, crate::proofs::Counted::rest_is_list, crate::proofs::Counted::none_is_left))]
    fn next(&mut self) -> Option<Option<&'a [u8]>>
        ensures steps { YieldsFirstBy shown_value values_left self.old result self.new }
        ensures goes { MakesProgress (λ _. ⊤) (item_count values_left) self.old result self.new }
        ensures place { IfSome result (λ v. LiesIfAny v self.old.rest 4) }
        ensures after { IfSome result (λ v. LiesAt self.new.rest self.old.rest (length (spelled_value (shown_value v)))) }
    {
        let left = self.left.checked_sub(1)?;
        let (value, rest) = take_value(self.rest).ok()?;
        *self = Values { rest, left };
        Some(value)
    }
}

/// What follows this many values.
#[tactic(auto, using(crate::proofs::Counted::list_ends, crate::proofs::Counted::list_goes_on, crate::proofs::Counted::list_breaks))]
fn skip_values(bytes: &[u8], count: u16) -> Result<&[u8], ViewError>
    ensures { Shows (λ r. r.now) result (rest_of (list_at value_at count bytes.now)) }
{
    let mut rest = bytes;
    for done in 0..count {
        rest = take_value(rest)?.1;
    }
    Ok(rest)
}

/// A count and as many values.
#[tactic(auto, using(crate::proofs::Counted::list_found, crate::proofs::Counted::list_there, crate::proofs::Counted::list_fault))]
pub(crate) fn take_values(bytes: &[u8]) -> Result<(Values<'_>, &[u8]), ViewError>
    ensures part { Gives values_left result (counted_at value_at bytes.now) }
    ensures place { IfOk result (λ x. LiesAt x.0.rest bytes.entry 2) }
{
    let (left, rest) = take_u16(bytes)?;
    let after = skip_values(rest, left)?;
    Ok((Values { rest, left }, after))
}

impl<'a> Values<'a> {
    #[tactic(auto, using(crate::proofs::Places::got_past, crate::proofs::Places::got_here, crate::proofs::Places::left_after, crate::proofs::Places::passed_after))]
    /// The value with this index from the next one on; the outer `None` where there is none, the
    /// inner one for null.
    pub fn value(self, index: usize) -> Option<Option<&'a [u8]>>
        ensures value { option_map shown_value result ≡ slice_get (values_left self.entry) index }
        ensures place { IfSome result (λ v. LiesIfAny v self.entry.rest (value_place (values_left self.entry) index)) }
    {
        let mut left = self;
        for _ in 0..index {
            left.next()?;
        }
        left.next()
    }
}

impl Values<'_> {
    /// How many values are left.
    #[tactic(auto, using(crate::proofs::Counted::items_count))]
    pub fn len(&self) -> usize
        ensures count { result ≡ length (values_left self.now) }
        ensures short { result < 2 ^ 16 }
    {
        self.left as usize
    }
}
