//! Views of Parse and Bind.
ghost use Rattle.std.specs.Prelude.{◌≡◌, ℕ, ◌+◌, ◌*◌, length, IfOk, IfSome, option_map, slice_get};
ghost use Rattle.frame_view.specs.Answers.{LiesAt};
ghost use Rattle.message_view.specs.Left.{codes_left, values_left};
ghost use Rattle.message_view.specs.Parts.{shown_value};
ghost use Rattle.message_view.specs.Reading.{bind_of, parse_of};
ghost use Rattle.message_view.specs.Shown.{shown_bind, shown_parse};
ghost use Rattle.message_view.specs.Views.{LiesIfAny, Shows, value_place};

use crate::number_lists::{take_codes, take_oids};
use crate::parts::take_text;
use crate::values::take_values;
use crate::{Codes, Oids, Values, ViewError};

/// A client's Parse: the statement's name, its text, and the type oids of its parameters.
#[derive(Clone, Copy, Drop)]
pub struct ParseView<'a> {
    pub name: &'a [u8],
    pub query: &'a [u8],
    pub oids: Oids<'a>,
}

/// A client's Bind: the portal's name, the statement's, the format codes of the values, the
/// values, and the format codes of the results.
#[derive(Clone, Copy, Drop)]
pub struct BindView<'a> {
    pub portal: &'a [u8],
    pub statement: &'a [u8],
    pub formats: Codes<'a>,
    pub given: Values<'a>,
    pub results: Codes<'a>,
}

impl<'a> ParseView<'a> {
    /// Reads the body of a Parse: two texts, a count and its oids. [`ViewError::NoZero`]: a text without
    /// its end. [`ViewError::TooShort`]: fewer bytes than the count asks for. [`ViewError::LeftOver`]: bytes
    /// after the oids.
    #[tactic(auto, unfolding(crate::specs::Reading::parse_of))]
    pub fn read(body: &'a [u8]) -> Result<ParseView<'a>, ViewError>
        ensures parts { Shows shown_parse result (parse_of body.now) }
        ensures name { IfOk result (λ v. LiesAt v.name body.entry 0) }
        ensures query { IfOk result (λ v. LiesAt v.query body.entry (1 + length v.name.now)) }
    {
        let (name, rest) = take_text(body)?;
        let (query, rest) = take_text(rest)?;
        let (oids, rest) = take_oids(rest)?;
        if !rest.is_empty() {
            return Err(ViewError::LeftOver);
        }
        Ok(ParseView { name, query, oids })
    }
}

impl<'a> BindView<'a> {
    /// Reads the body of a Bind: two texts, the formats, the values and the formats of the
    /// results. [`ViewError::NoZero`]: a text without its end. [`ViewError::TooShort`]: fewer bytes than a
    /// count or a length asks for. [`ViewError::BadLength`]: a length below -1.
    /// [`ViewError::LeftOver`]: bytes after the last part.
    #[tactic(auto, unfolding(crate::specs::Reading::bind_of))]
    pub fn read(body: &'a [u8]) -> Result<BindView<'a>, ViewError>
        ensures parts { Shows shown_bind result (bind_of body.now) }
        ensures portal { IfOk result (λ v. LiesAt v.portal body.entry 0) }
        ensures statement { IfOk result (λ v. LiesAt v.statement body.entry (1 + length v.portal.now)) }
        ensures given { IfOk result (λ v. LiesAt v.given.rest body.entry (6 + length v.portal.now + length v.statement.now + 2 * length (codes_left v.formats))) }
    {
        let (portal, rest) = take_text(body)?;
        let (statement, rest) = take_text(rest)?;
        let (formats, rest) = take_codes(rest)?;
        let (given, rest) = take_values(rest)?;
        let (results, rest) = take_codes(rest)?;
        if !rest.is_empty() {
            return Err(ViewError::LeftOver);
        }
        Ok(BindView {
            portal,
            statement,
            formats,
            given,
            results,
        })
    }

    /// The value with this index; the outer `None` where there is none, the inner one for null.
    pub fn value(&self, index: usize) -> Option<Option<&'a [u8]>>
        ensures value { option_map shown_value result ≡ slice_get (values_left self.now.given) index }
        ensures place { IfSome result (λ v. LiesIfAny v self.now.given.rest (value_place (values_left self.now.given) index)) }
    {
        self.values().value(index)
    }

    /// The values from the first on.
    pub fn values(&self) -> Values<'a>
        ensures { result ≡ self.now.given }
    {
        self.given
    }
}
