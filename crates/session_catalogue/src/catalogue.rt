//! The catalogue, and the reading of its file.
ghost use Rattle.std.specs.Prelude.{◌≡◌, map, IfOk};
ghost use Rattle.std.specs.Arc.{arc_value};
ghost use Rattle.text_lines.specs.Lines.{raw_lines};
ghost use Rattle.session_catalogue.specs.Catalogues.{IsReadOf};
ghost use Rattle.session_values.specs.Lawful.{IsLawfulCatalogue};

use crate::catalogue_draft::Draft;
use crate::catalogue_fault::CatalogueError;
use bstr::ByteSlice;
use session_values::table::Table;
use session_values::text::Text;
use shared_list::Shared;
use std::alloc::{AllocError, Global};
use std::marker::Model;
use std::sync::Arc;

/// What the lines of a file spell together.
pub(crate) struct Whole {
    version: Text,
    databases: Shared<Text>,
    tables: Shared<Table>,
}

impl Drop for Whole {
    fn drop(self) {
        let Whole {
            version: _,
            databases: _,
            tables: _,
        } = self;
    }
}

impl Model for Whole {
    ghost use Rattle.session_values.specs.State.{CatalogueOf};

    ghost Value = { CatalogueOf };

    ghost view = { λ c. record { version = c.version; databases = c.databases; tables = c.tables } };
}

impl Whole {
    /// The whole of these parts.
    pub(crate) fn new(
        alloc: Global,
        version: Text,
        databases: Vec<Arc<Text>>,
        tables: Vec<Arc<Table>>,
    ) -> Result<Whole, AllocError>
        ensures { IfOk result (λ c. c ≡ record { version = version; databases = map arc_value databases.items; tables = map arc_value tables.items }) }
    {
        Ok(Whole {
            version,
            databases: Shared::from_shared(alloc, databases)?,
            tables: Shared::from_shared(alloc, tables)?,
        })
    }
}

/// What the lines of a file spell together, which is a lawful catalogue, or its first faulty line.
fn read_whole(alloc: Global, text: &[u8]) -> Result<Whole, CatalogueError>
    ensures grammar { IsReadOf (raw_lines text.now) result }
    ensures lawful { IfOk result (λ c. IsLawfulCatalogue c) }
{
    let mut draft = Draft::new(alloc);
    let mut number = 0usize;
    for line in text.lines() {
        number += 1;
        if let Err(cause) = draft.take_line(alloc, line) {
            return Err(CatalogueError {
                cause,
                line: number,
            });
        }
    }
    draft.finished(alloc, number)
}

/// What the stand-in server serves: its version, the names of its databases, and tables, which all
/// databases have. Its texts have no zero byte where a message holds them, and its tables at most 64 columns: whatever it
/// serves can be sent.
pub struct Catalogue {
    whole: Whole,
}

impl Drop for Catalogue {
    fn drop(self) {
        let Catalogue { whole: _ } = self;
    }
}

impl Model for Catalogue {
    ghost use Rattle.session_values.specs.State.{CatalogueOf};
    ghost use Rattle.session_values.specs.Lawful.{IsLawfulCatalogue};

    ghost Value = { CatalogueOf };

    ghost view = { λ c. c.whole };

    ghost invariant = { λ c. IsLawfulCatalogue c.whole };
}

impl Catalogue {
    /// The catalogue of a file, or its first faulty line.
    ///
    /// A line ends with LF or CR LF or the end of the file; its fields are parted by one tab each,
    /// and nothing is trimmed. Empty lines are ignored. The first other line is `version` and a
    /// text of at most 63 bytes, none of them 0. `database` and a name come once or more, anywhere
    /// after it, and so may tables: `table`, a name and 1 to 64 columns, and then `row` and a value
    /// for each column, of at most 1,048,576 bytes; `\N` is null. Names of tables and columns are
    /// in lower case. A file without a faulty line that has no version or no database is refused at
    /// line 1.
    ///
    /// Of several faults on one line the one with the lowest number is told. Want of memory is told
    /// with the line that was read then, and neither that line nor one before it has a fault.
    pub fn read(alloc: Global, text: &[u8]) -> Result<Catalogue, CatalogueError>
        ensures { IsReadOf (raw_lines text.now) result }
    {
        Ok(Catalogue {
            whole: read_whole(alloc, text)?,
        })
    }

    /// Every catalogue is lawful.
    pub fn is_lawful(&self)
        ensures { IsLawfulCatalogue self.now }
    {
        let _ = &self.whole;
    }

    /// The version that it reports.
    pub fn version(&self) -> &Text
        ensures { result.now ≡ self.now.version }
    {
        &self.whole.version
    }

    /// The names of its databases.
    pub fn databases(&self) -> &Shared<Text>
        ensures { result.now ≡ self.now.databases }
    {
        &self.whole.databases
    }

    /// Its tables.
    pub fn tables(&self) -> &Shared<Table>
        ensures { result.now ≡ self.now.tables }
    {
        &self.whole.tables
    }
}
