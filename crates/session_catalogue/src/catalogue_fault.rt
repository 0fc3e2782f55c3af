//! Why a catalogue file is refused.
ghost use Rattle.std.specs.Prelude.{◌≡◌};

use thiserror::Error;

/// What is wrong with a line. Where one line has several faults, the first of this list is told.
#[derive(Clone, Copy, Debug, PartialEq, Eq, Error)]
pub enum CatalogueCause {
    /// No line of a catalogue, or one that cannot stand there. Told of line 1 where every line is
    /// one but the file has no version or no database.
    #[error("K1")]
    NotALine,
    /// A database, a table or a column of one table for the second time.
    #[error("K2")]
    NameTwice,
    /// A row with more or fewer values than the table above it has columns.
    #[error("K3")]
    WrongNumberOfValues,
    /// No memory was left to keep what the line says.
    #[error("K4")]
    Memory,
}

impl CatalogueCause {
    ghost use Rattle.session_catalogue.specs.CatalogueCodes.{code_of};

    /// Its code, as it is shown.
    pub fn code(self) -> &'static str
        ensures { result.now ≡ code_of self }
    {
        match self {
            CatalogueCause::NotALine => "K1",
            CatalogueCause::NameTwice => "K2",
            CatalogueCause::WrongNumberOfValues => "K3",
            CatalogueCause::Memory => "K4",
        }
    }
}

/// The first faulty line of a catalogue file.
///
/// It shows as the code and the line, as in `K3 line 7`.
#[derive(Clone, Copy, Debug, PartialEq, Eq, Error)]
#[error("{cause} line {line}")]
pub struct CatalogueError {
    pub cause: CatalogueCause,
    /// Counted from 1.
    pub line: usize,
}
