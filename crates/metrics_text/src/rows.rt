//! The rows of the tables.
ghost use Rattle.std.specs.Prelude.{◌≡◌, ◌++◌, [], map, slice_index, IfOk};
ghost use Rattle.metrics_text.specs.Labels.{labels_text};
ghost use Rattle.metrics_text.specs.Views.{label_view};

use crate::labels::{Label, put_labels};
use std::alloc::{AllocError, Global};
use std::marker::Model;

/// A row of a table: the text of its labels, and a figure for each column.
#[derive(Drop)]
pub(crate) struct Row {
    labels: Vec<u8>,
    figures: Vec<u64>,
}

impl Model for Row {
    ghost use Rattle.metrics_text.specs.Families.{RowOf};

    ghost Value = { RowOf };

    ghost view = { λ r. record { labels = r.labels.items; figures = r.figures.items } };
}

impl Row {
    /// A row without labels and without figures.
    pub(crate) fn bare(alloc: Global) -> Row
        ensures { result ≡ record { labels = []; figures = [] } }
    {
        Row {
            labels: Vec::new(alloc),
            figures: Vec::new(alloc),
        }
    }

    /// A row with these labels, and without figures.
    pub(crate) fn labelled(alloc: Global, labels: &[Label<'_>]) -> Result<Row, AllocError>
        ensures { IfOk result (λ r. r ≡ record { labels = labels_text (map label_view labels.now); figures = [] }) }
    {
        let mut text = Vec::new(alloc);
        put_labels(&mut text, labels)?;
        Ok(Row {
            labels: text,
            figures: Vec::new(alloc),
        })
    }

    /// With these figures more.
    pub(crate) fn with(self, more: &[u64]) -> Result<Row, AllocError>
        ensures { IfOk result (λ r. r ≡ record { labels = self.labels; figures = self.figures ++ more.now }) }
    {
        let Row { labels, figures } = self;
        let mut figures = figures;
        figures.extend_from_slice(more)?;
        Ok(Row { labels, figures })
    }

    /// The text of its labels.
    pub(crate) fn labels(&self) -> &[u8]
        ensures { result.now ≡ self.now.labels }
    {
        self.labels.as_slice()
    }

    /// The figure at this place; 0 where it has none.
    pub(crate) fn figure(&self, place: usize) -> u64
        ensures { result ≡ slice_index self.now.figures place }
    {
        match self.figures.get(place) {
            Some(figure) => *figure,
            None => 0,
        }
    }
}
