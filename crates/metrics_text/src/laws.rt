//! The law of labels, as the contract of a function that does nothing.
ghost use Rattle.metrics_text.specs.Laws.{LabelsTell};

/// Two lists of labels with the same names, of any bytes, are told by the same text only where they are the same list.
pub fn labels_tell()
    ensures { LabelsTell }
{}
