//! Views of a RowDescription and a DataRow.
ghost use Rattle.std.specs.Prelude.{◌≡◌, ℕ, ◌+◌, length, IfOk, IfSome, option_map, slice_get, ⊤, ◌<◌, ◌^◌};
ghost use Rattle.std.specs.Iterator.{MakesProgress, YieldsFirstBy, item_count};
ghost use Rattle.frame_view.specs.Answers.{LiesAt};
ghost use Rattle.message_view.specs.Left.{columns_left, shown_column, values_left};
ghost use Rattle.message_view.specs.Parts.{shown_value};
ghost use Rattle.message_view.specs.Reading.{column_at, counted_at, data_row_of, list_at, rest_of, row_description_of};
ghost use Rattle.message_view.specs.Views.{Gives, LiesIfAny, Shows, value_place};

use crate::parts::{take_text, take_u16, take_u32};
use crate::values::take_values;
use crate::{ColumnView, Columns, Values, ViewError};

/// A server's DataRow.
#[derive(Clone, Copy, Drop)]
pub struct DataRowView<'a> {
    pub row: Values<'a>,
}

impl<'a> DataRowView<'a> {
    /// Reads the body of a DataRow: a count and its values. [`ViewError::TooShort`]: fewer bytes than
    /// the count or a length asks for. [`ViewError::BadLength`]: a length below -1.
    /// [`ViewError::LeftOver`]: bytes after the last.
    #[tactic(auto, unfolding(crate::specs::Reading::data_row_of))]
    pub fn read(body: &'a [u8]) -> Result<DataRowView<'a>, ViewError>
        ensures parts { Shows (λ v. values_left v.row) result (data_row_of body.now) }
        ensures place { IfOk result (λ v. LiesAt v.row.rest body.entry 2) }
    {
        let (row, rest) = take_values(body)?;
        if !rest.is_empty() {
            return Err(ViewError::LeftOver);
        }
        Ok(DataRowView { row })
    }

    /// The value with this index; the outer `None` where there is none, the inner one for null.
    pub fn value(&self, index: usize) -> Option<Option<&'a [u8]>>
        ensures value { option_map shown_value result ≡ slice_get (values_left self.now.row) index }
        ensures place { IfSome result (λ v. LiesIfAny v self.now.row.rest (value_place (values_left self.now.row) index)) }
    {
        self.values().value(index)
    }

    /// The values from the first on.
    pub fn values(&self) -> Values<'a>
        ensures { result ≡ self.now.row }
    {
        self.row
    }
}

/// A column.
#[tactic(auto, using(crate::proofs::Ints::signed_back, crate::proofs::Ints::signed_back_16), unfolding(crate::specs::Reading::column_at))]
fn take_column(bytes: &[u8]) -> Result<(ColumnView<'_>, &[u8]), ViewError>
    ensures part { Gives shown_column result (column_at bytes.now) }
    ensures place { IfOk result (λ x. LiesAt x.0.name bytes.entry 0 × LiesAt x.1 bytes.entry (19 + length x.0.name.now)) }
{
    let (name, rest) = take_text(bytes)?;
    let (table, rest) = take_u32(rest)?;
    let (number, rest) = take_u16(rest)?;
    let (type_oid, rest) = take_u32(rest)?;
    let (size, rest) = take_u16(rest)?;
    let (modifier, rest) = take_u32(rest)?;
    let (format, rest) = take_u16(rest)?;
    let column = ColumnView {
        name,
        table,
        number,
        type_oid,
        size: size.cast_signed(),
        modifier: modifier.cast_signed(),
        format,
    };
    Ok((column, rest))
}

impl<'a> Iterator for Columns<'a> {
    ghost use Rattle.std.specs.Iterator.{YieldsFirstBy, item_count};
    ghost use Rattle.message_view.specs.Left.{columns_left, shown_column};

    type Item = ColumnView<'a>;

    ghost next_gives = { YieldsFirstBy shown_column columns_left };

    ghost remaining = { item_count columns_left };

    #[tactic(auto, using(crate::proofs::Counted::broken_is_empty, crate::proofs::Counted::item_is_first, crate::proofs::Counted::rest_is_list, crate::proofs::Counted::none_is_left))]
    fn next(&mut self) -> Option<ColumnView<'a>>
        ensures steps { YieldsFirstBy shown_column columns_left self.old result self.new }
        ensures goes { MakesProgress (λ _. ⊤) (item_count columns_left) self.old result self.new }
        ensures place { IfSome result (λ v. LiesAt v.name self.old.rest 0) }
        ensures after { IfSome result (λ v. LiesAt self.new.rest self.old.rest (19 + length v.name.now)) }
    {
        let left = self.left.checked_sub(1)?;
        let (column, rest) = take_column(self.rest).ok()?;
        *self = Columns { rest, left };
        Some(column)
    }
}

/// What follows this many columns.
#[tactic(auto, using(crate::proofs::Counted::list_ends, crate::proofs::Counted::list_goes_on, crate::proofs::Counted::list_breaks))]
fn skip_columns(bytes: &[u8], count: u16) -> Result<&[u8], ViewError>
    ensures { Shows (λ r. r.now) result (rest_of (list_at column_at count bytes.now)) }
{
    let mut rest = bytes;
    for done in 0..count {
        rest = take_column(rest)?.1;
    }
    Ok(rest)
}

/// A server's RowDescription.
#[derive(Clone, Copy, Drop)]
pub struct RowDescView<'a> {
    pub columns: Columns<'a>,
}

impl<'a> RowDescView<'a> {
    /// Reads the body of a RowDescription: a count and its columns. [`ViewError::NoZero`]: a name
    /// without its end. [`ViewError::TooShort`]: fewer bytes than the count asks for.
    /// [`ViewError::LeftOver`]: bytes after the last.
    #[tactic(auto, using(crate::proofs::Counted::list_found, crate::proofs::Counted::list_there, crate::proofs::Counted::list_fault), unfolding(crate::specs::Reading::row_description_of))]
    pub fn read(body: &'a [u8]) -> Result<RowDescView<'a>, ViewError>
        ensures parts { Shows (λ v. columns_left v.columns) result (row_description_of body.now) }
        ensures place { IfOk result (λ v. LiesAt v.columns.rest body.entry 2) }
    {
        let (left, rest) = take_u16(body)?;
        if !skip_columns(rest, left)?.is_empty() {
            return Err(ViewError::LeftOver);
        }
        let columns = Columns { rest, left };
        Ok(RowDescView { columns })
    }

    /// The columns from the first on.
    pub fn columns(&self) -> Columns<'a>
        ensures { result ≡ self.now.columns }
    {
        self.columns
    }
}

impl Columns<'_> {
    /// How many columns are left.
    #[tactic(auto, using(crate::proofs::Counted::items_count))]
    pub fn len(&self) -> usize
        ensures count { result ≡ length (columns_left self.now) }
        ensures short { result < 2 ^ 16 }
    {
        self.left as usize
    }
}
