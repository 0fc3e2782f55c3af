//! The faults of a settings file, all of them.
ghost use Rattle.std.specs.Prelude.{◌≡◌, IfOk, map};
ghost use Rattle.text_lines.specs.Lines.{lines as lines_of_file};
ghost use Rattle.ini_config.specs.Reading.{fault_of};
ghost use Rattle.settings_check.specs.Faults as spec;

use bstr::ByteSlice;
use ini_config::{IniCause, Reading, Section};
use std::alloc::{AllocError, Global};
use text_lines::trimmed;

/// A faulty line of a settings file.
#[derive(Clone, Copy)]
pub struct FaultyLine<'a> {
    pub cause: IniCause,
    /// Counted from 1.
    pub number: usize,
    /// The section that it stands in.
    pub section: Section,
    /// The line, trimmed.
    pub text: &'a [u8],
}

/// The fault of the next line, which adds to the reading what it says where it has none. The only error is out of memory.
fn judge<'a>(
    reading: &mut Reading<'a>,
    alloc: Global,
    line: &'a [u8],
) -> Result<Option<IniCause>, AllocError>
    ensures fault { IfOk result (λ fault. fault ≡ fault_of reading.old line.entry.now) }
    ensures after { IfOk result (λ fault. reading.new ≡ spec.after reading.old line.entry.now fault) }
{
    match reading.take_line(alloc, line) {
        Ok(()) => Ok(None),
        Err(IniCause::Memory) => Err(AllocError),
        Err(cause) => Ok(Some(cause)),
    }
}

/// Every faulty line of a file, each judged after the lines above it that have no fault. The only error is out of memory.
pub fn faulty_lines<'a>(alloc: Global, text: &'a [u8]) -> Result<Vec<FaultyLine<'a>>, AllocError>
    ensures { IfOk result (λ v. map spec.found v.items ≡ spec.faults (lines_of_file text.entry.now)) }
{
    let mut reading = Reading::empty(alloc)?;
    let mut faulty = Vec::new(alloc);
    let mut number = 0usize;
    for raw in text.lines() {
        number += 1;
        let text = trimmed(raw);
        let section = reading.section();
        if let Some(cause) = judge(&mut reading, alloc, text)? {
            faulty.push(FaultyLine {
                cause,
                number,
                section,
                text,
            })?;
        }
    }
    Ok(faulty)
}
