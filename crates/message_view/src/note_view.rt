//! The view of an ErrorResponse or a NoticeResponse.
ghost use Rattle.std.specs.Prelude.{◌≡◌, ℕ, ◌+◌, ◌<◌, length, IfOk, IfSome, ⊤};
ghost use Rattle.std.specs.Iterator.{MakesProgress, YieldsFirstBy, item_count};
ghost use Rattle.frame_view.specs.Answers.{LiesAt};
ghost use Rattle.message_view.specs.Left.{fields_left};
ghost use Rattle.message_view.specs.Reading.{ended_at, field_at, rest_of, note_of};
ghost use Rattle.message_view.specs.Views.{Shows, code_and_text_of};

use crate::parts::take_field;
use crate::{Fields, ViewError};

/// A server's ErrorResponse or NoticeResponse.
#[derive(Clone, Copy, Drop)]
pub struct NoteView<'a> {
    pub fields: Fields<'a>,
}

impl<'a> Iterator for Fields<'a> {
    ghost use Rattle.std.specs.Iterator.{YieldsFirstBy, item_count};
    ghost use Rattle.message_view.specs.Left.{fields_left};
    ghost use Rattle.message_view.specs.Views.{code_and_text_of};

    type Item = (u8, &'a [u8]);

    ghost next_gives = { YieldsFirstBy code_and_text_of fields_left };

    ghost remaining = { item_count fields_left };

    #[tactic(auto, using(crate::proofs::Fieldings::field_shrinks, crate::proofs::Fieldings::no_more_fields, crate::proofs::Ended::no_item, crate::proofs::Ended::item_is_first, crate::proofs::Ended::rest_is_list))]
    fn next(&mut self) -> Option<(u8, &'a [u8])>
        ensures steps { YieldsFirstBy code_and_text_of fields_left self.old result self.new }
        ensures goes { MakesProgress (λ _. ⊤) (item_count fields_left) self.old result self.new }
        ensures text { IfSome result (λ f. LiesAt f.1 self.old.rest 1) }
        ensures after { IfSome result (λ f. LiesAt self.new.rest self.old.rest (2 + length f.1.now)) }
    {
        let (field, rest) = take_field(self.rest).ok()?;
        let field = field?;
        *self = Fields { rest };
        Some(field)
    }
}

/// What follows the zero byte that ends the fields.
#[tactic(auto, using(crate::proofs::Fieldings::field_shrinks, crate::proofs::Fieldings::fields_end, crate::proofs::Ended::list_goes_on, crate::proofs::Ended::list_breaks))]
fn skip_fields(bytes: &[u8]) -> Result<&[u8], ViewError>
    ensures { Shows (λ r. r.now) result (rest_of (ended_at field_at bytes.now)) }
{
    let mut rest = bytes;
    loop {
        let (field, after) = take_field(rest)?;
        if field.is_none() {
            return Ok(after);
        }
        rest = after;
    }
}

impl<'a> NoteView<'a> {
    /// Reads the body of an ErrorResponse or a NoticeResponse: fields of a code and a text, and
    /// the zero byte that ends them. [`ViewError::TooShort`]: neither a code nor that byte. [`ViewError::NoZero`]: a
    /// text without its end. [`ViewError::LeftOver`]: bytes after the fields.
    #[tactic(auto, using(crate::proofs::Ended::ended_found, crate::proofs::Ended::ended_there, crate::proofs::Ended::ended_broken), unfolding(crate::specs::Reading::note_of))]
    pub fn read(body: &'a [u8]) -> Result<NoteView<'a>, ViewError>
        ensures parts { Shows (λ v. fields_left v.fields) result (note_of body.now) }
        ensures place { IfOk result (λ v. LiesAt v.fields.rest body.entry 0) }
    {
        if !skip_fields(body)?.is_empty() {
            return Err(ViewError::LeftOver);
        }
        let fields = Fields { rest: body };
        Ok(NoteView { fields })
    }

    /// The fields, a code and its text, from the first on.
    pub fn fields(&self) -> Fields<'a>
        ensures { result ≡ self.now.fields }
    {
        self.fields
    }
}
