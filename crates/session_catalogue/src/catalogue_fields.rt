//! The fields of a line of a catalogue file.
ghost use Rattle.std.specs.Prelude.{◌≡◌, nat_le, map, length, Option, Some, None, if◌then◌else◌, IfOk};
ghost use Rattle.std.specs.Arc.{arc_value};
ghost use Rattle.std.specs.List.{list_all};
ghost use Rattle.session_catalogue.specs.Catalogues.{fields, is_in_lower_name, is_lower_name, is_value, starts_lower_name, value_of};
ghost use Rattle.session_catalogue.specs.FieldsLeft.{fields_left};
ghost use Rattle.session_values.specs.Runs.{are_distinct};
ghost use Rattle.session_values.specs.State.{has_text};

use memchr::memchr;
use session_values::text::Text;
use std::alloc::{AllocError, Global};
use std::sync::Arc;

/// Fields that are still to come, which stand in their line.
#[derive(Clone, Copy, Drop)]
pub(crate) struct Fields<'a> {
    rest: Option<&'a [u8]>,
}

impl<'a> Fields<'a> {
    /// The fields of a line.
    pub(crate) fn of(line: &'a [u8]) -> Fields<'a>
        ensures { fields_left result ≡ fields line.now }
    {
        Fields { rest: Some(line) }
    }

    /// How many fields there are, unless there are more than `most`.
    pub(crate) fn count_up_to(self, most: usize) -> Option<usize>
        ensures { result ≡ if nat_le (length (fields_left self.entry)) most then Some (length (fields_left self.entry)) else None }
    {
        let mut count = 0usize;
        for _field in self {
            if count == most {
                return None;
            }
            count += 1;
        }
        Some(count)
    }

    /// Whether a field has just these bytes.
    pub(crate) fn has(self, text: &[u8]) -> bool
        ensures { result ≡ has_text (fields_left self.entry) text.now }
    {
        for field in self {
            if field == text {
                return true;
            }
        }
        false
    }

    /// Whether no two fields have the same bytes.
    pub(crate) fn are_distinct(self) -> bool
        ensures { result ≡ are_distinct (fields_left self.entry) }
    {
        let mut rest = self;
        while let Some(field) = rest.next() {
            if rest.has(field) {
                return false;
            }
        }
        true
    }

    /// A copy of each field.
    pub(crate) fn texts(self, alloc: Global) -> Result<Vec<Arc<Text>>, AllocError>
        ensures { IfOk result (λ v. map arc_value v.items ≡ fields_left self.entry) }
    {
        let mut texts = Vec::new(alloc);
        for field in self {
            texts.push(Arc::new(alloc, Text::from_slice(alloc, field)?)?)?;
        }
        Ok(texts)
    }

    /// The values that the fields spell.
    pub(crate) fn values(self, alloc: Global) -> Result<Vec<Option<Text>>, AllocError>
        ensures { IfOk result (λ v. v.items ≡ map value_of (fields_left self.entry)) }
    {
        let mut values = Vec::new(alloc);
        for field in self {
            values.push(value(alloc, field)?)?;
        }
        Ok(values)
    }

    /// Whether each field is a name in lower case.
    pub(crate) fn are_names(self) -> bool
        ensures { result ≡ list_all is_lower_name (fields_left self.entry) }
    {
        for field in self {
            if !is_lower_name(field) {
                return false;
            }
        }
        true
    }

    /// Whether each field is short enough for a value.
    pub(crate) fn are_values(self) -> bool
        ensures { result ≡ list_all is_value (fields_left self.entry) }
    {
        for field in self {
            if field.len() > MAX_VALUE {
                return false;
            }
        }
        true
    }
}

impl<'a> Iterator for Fields<'a> {
    ghost use Rattle.std.specs.Iterator.{YieldsFirstBy, item_count};
    ghost use Rattle.session_catalogue.specs.FieldsLeft.{fields_left};

    type Item = &'a [u8];

    ghost next_gives = { YieldsFirstBy (λ f. f.now) fields_left };

    ghost remaining = { item_count fields_left };

    fn next(&mut self) -> Option<&'a [u8]> {
        let text = self.rest?;
        match memchr(b'\t', text) {
            Some(end) => {
                self.rest = Some(&text[end + 1..]);
                Some(&text[..end])
            }
            None => {
                self.rest = None;
                Some(text)
            }
        }
    }
}

/// The most bytes of a value.
const MAX_VALUE: usize = 1_048_576;

/// The most bytes of a name.
const MAX_NAME: usize = 63;

fn starts_lower_name(byte: u8) -> bool
    ensures { result ≡ starts_lower_name byte }
{
    (byte >= b'a' && byte <= b'z') || byte == b'_'
}

fn is_in_lower_name(byte: u8) -> bool
    ensures { result ≡ is_in_lower_name byte }
{
    starts_lower_name(byte) || (byte >= b'0' && byte <= b'9')
}

/// Whether each byte may stand in a name.
fn has_name_bytes(text: &[u8]) -> bool
    ensures { result ≡ list_all is_in_lower_name text.now }
{
    text.iter().all(|byte| is_in_lower_name(*byte))
}

/// Whether a text is a name in lower case: letters, digits and underscores, the first of them no
/// digit, 63 bytes at most.
pub(crate) fn is_lower_name(text: &[u8]) -> bool
    ensures { result ≡ is_lower_name text.now }
{
    if text.is_empty() || text.len() > MAX_NAME {
        return false;
    }
    starts_lower_name(text[0]) && has_name_bytes(text)
}

/// The value that a field spells: `\N` is null.
fn value(alloc: Global, field: &[u8]) -> Result<Option<Text>, AllocError>
    ensures { IfOk result (λ v. v ≡ value_of field.now) }
{
    if field == b"\\N".as_slice() {
        return Ok(None);
    }
    Ok(Some(Text::from_slice(alloc, field)?))
}
