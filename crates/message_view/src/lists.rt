//! Lists that views hand out one by one: what is left of them, and how many.
ghost use Rattle.std.specs.Prelude.{◌≡◌, is_ok, true};
ghost use Rattle.message_view.specs.Reading.{column_at, ended_at, field_at, int16_at, int32_at, list_at, pair_at, value_at};

/// Format codes (0 text, 1 binary), from the first.
#[derive(Clone, Copy, Drop)]
pub struct Codes<'a> {
    pub(crate) rest: &'a [u8],
    pub(crate) left: u16,
    pub ghost is_list: { is_ok (list_at int16_at left rest.now) ≡ true },
}

/// Type oids, from the first.
#[derive(Clone, Copy, Drop)]
pub struct Oids<'a> {
    pub(crate) rest: &'a [u8],
    pub(crate) left: u16,
    pub ghost is_list: { is_ok (list_at int32_at left rest.now) ≡ true },
}

/// The values of a Bind or a DataRow, from the first; `None` is null.
#[derive(Clone, Copy, Drop)]
pub struct Values<'a> {
    pub(crate) rest: &'a [u8],
    pub(crate) left: u16,
    pub ghost is_list: { is_ok (list_at value_at left rest.now) ≡ true },
}

/// A column as a RowDescription tells it.
#[derive(Clone, Copy, Drop)]
pub struct ColumnView<'a> {
    pub name: &'a [u8],
    /// The oid of the column's table, or 0.
    pub table: u32,
    /// The column's number in its table, or 0.
    pub number: u16,
    pub type_oid: u32,
    /// The size of the type; below 0 where it varies.
    pub size: i16,
    pub modifier: i32,
    /// 0 text, 1 binary.
    pub format: u16,
}

/// The columns of a RowDescription, from the first.
#[derive(Clone, Copy, Drop)]
pub struct Columns<'a> {
    pub(crate) rest: &'a [u8],
    pub(crate) left: u16,
    pub ghost is_list: { is_ok (list_at column_at left rest.now) ≡ true },
}

/// The pairs of a StartupMessage, a name and its value, from the first.
#[derive(Clone, Copy, Drop)]
pub struct Pairs<'a> {
    pub(crate) rest: &'a [u8],
    pub ghost is_list: { is_ok (ended_at pair_at rest.now) ≡ true },
}

/// The fields of an ErrorResponse or a NoticeResponse, a code and its text, from the first.
#[derive(Clone, Copy, Drop)]
pub struct Fields<'a> {
    pub(crate) rest: &'a [u8],
    pub ghost is_list: { is_ok (ended_at field_at rest.now) ≡ true },
}
