//! The reading of a settings file, line by line.
ghost use Rattle.std.specs.Prelude.{◌≡◌, ◌+◌, ◌⊎◌, IfErr, IfOk};
ghost use Rattle.text_lines.specs.Files.{Took, TookLine};
ghost use Rattle.text_lines.specs.Lines.{lines as lines_of_file};
ghost use Rattle.ini_config.specs.Reading as spec;

use crate::database_values::read_row;
use crate::faults::{IniCause, IniError};
use crate::lines::{Line, Section, read_line};
use crate::option_keys::{key_of, read_setting, refusal};
use crate::option_values::Settings;
use crate::seen_keys::SeenKeys;
use bstr::ByteSlice;
use std::alloc::{AllocError, Global};
use text_lines::trimmed;

/// What some lines of a settings file say that have no fault.
#[derive(Drop)]
pub struct Reading<'a> {
    section: Section,
    keys: SeenKeys<'a>,
    settings: Settings,
}

impl<'a> Reading<'a> {
    /// Before the first line. The only error is out of memory.
    pub fn empty(alloc: Global) -> Result<Reading<'a>, AllocError>
        ensures { IfOk result (λ r. r ≡ spec.empty_file) }
    {
        Ok(Reading {
            section: Section::Preamble,
            keys: SeenKeys::new(alloc),
            settings: Settings::defaults(alloc)?,
        })
    }

    /// The section that the last header opened.
    pub fn section(&self) -> Section
        ensures { result ≡ self.now.section }
    {
        self.section
    }

    /// Takes a line of the section `[databases]`.
    #[tactic(auto, unfolding(crate::specs::Reading::row_fault, crate::specs::Reading::with_row))]
    fn take_row(&mut self, alloc: Global, name: &'a [u8], value: &'a [u8]) -> Result<(), IniCause>
        ensures took { Took IniCause.Memory (spec.row_fault self.old name.entry.now value.entry.now) (spec.with_row self.old name.entry.now value.entry.now) self.new result }
        ensures kept { IfErr result (λ cause. (cause ≡ IniCause.Memory) ⊎ (self.new ≡ self.old)) }
    {
        let Some(row) = read_row(name, value) else {
            return Err(IniCause::BadValue);
        };
        if self.settings.rows.get(name).is_some() {
            return Err(IniCause::KeyTwice);
        }
        let row = row.copy(alloc).map_err(|_| IniCause::Memory)?;
        self.settings
            .rows
            .add(alloc, row)
            .map_err(|_| IniCause::Memory)
    }

    /// Takes a line of the section `[pgbouncer]`.
    #[tactic(auto, unfolding(crate::specs::Reading::option_fault, crate::specs::Reading::with_option))]
    fn take_option(
        &mut self,
        alloc: Global,
        name: &'a [u8],
        value: &'a [u8],
    ) -> Result<(), IniCause>
        ensures took { Took IniCause.Memory (spec.option_fault self.old name.entry.now value.entry.now) (spec.with_option self.old name.entry.now value.entry.now) self.new result }
        ensures kept { IfErr result (λ cause. (cause ≡ IniCause.Memory) ⊎ (self.new ≡ self.old)) }
    {
        let Some(key) = key_of(name, value) else {
            return Err(IniCause::UnknownKey);
        };
        let Some(setting) = read_setting(key, value) else {
            return Err(IniCause::BadValue);
        };
        if self.keys.has(name) {
            return Err(IniCause::KeyTwice);
        }
        if let Some(cause) = refusal(key, value) {
            return Err(cause);
        }
        self.keys.add(name).map_err(|_| IniCause::Memory)?;
        self.settings
            .apply(alloc, setting)
            .map_err(|_| IniCause::Memory)
    }

    /// Takes a key and its value.
    fn take_pair(&mut self, alloc: Global, name: &'a [u8], value: &'a [u8]) -> Result<(), IniCause>
        ensures took { Took IniCause.Memory (spec.pair_fault self.old name.entry.now value.entry.now) (spec.with_pair self.old name.entry.now value.entry.now) self.new result }
        ensures kept { IfErr result (λ cause. (cause ≡ IniCause.Memory) ⊎ (self.new ≡ self.old)) }
    {
        match self.section {
            Section::Databases => self.take_row(alloc, name, value),
            Section::Pgbouncer => self.take_option(alloc, name, value),
            Section::Preamble => Err(IniCause::NotALine),
            Section::Users | Section::Peers => Err(IniCause::UnknownSection),
        }
    }

    /// Takes a trimmed line, or reports its first fault. Out of memory comes after all others; at every other fault the reading is as it
    /// was, and can go on with the next line.
    pub fn take_line(&mut self, alloc: Global, line: &'a [u8]) -> Result<(), IniCause>
        ensures took { TookLine IniCause.Memory (spec.keeps line.entry.now) (spec.fault_of self.old line.entry.now) (spec.with_line self.old line.entry.now) self.new result }
        ensures kept { IfErr result (λ cause. (cause ≡ IniCause.Memory) ⊎ (self.new ≡ self.old)) }
    {
        match read_line(line) {
            Line::Ignored => Ok(()),
            Line::Header(section) => {
                self.section = section;
                Ok(())
            }
            Line::UnknownHeader => Err(IniCause::UnknownSection),
            Line::Pair(name, value) => self.take_pair(alloc, name, value),
            Line::Other => Err(other_fault(self.section)),
        }
    }
}

/// The fault of a line that is neither a header nor a pair.
fn other_fault(section: Section) -> IniCause
    ensures { result ≡ spec.other_fault section }
{
    match section {
        Section::Users | Section::Peers => IniCause::UnknownSection,
        _ => IniCause::NotALine,
    }
}

/// The settings of a file, or its first faulty line.
///
/// A line ends with LF or CR LF or the end of the file; spaces and tabs at its ends are dropped. Of several faults on one line the
/// one with the lowest number is reported. Out of memory is reported with a line that has a key and a value (0: there was none for the
/// defaults), and neither that line nor one before it has another fault.
pub fn read_settings(alloc: Global, text: &[u8]) -> Result<Settings, IniError>
    ensures { spec.IsReadOf (lines_of_file text.now) result }
{
    let mut reading = match Reading::empty(alloc) {
        Ok(reading) => reading,
        Err(_) => {
            return Err(IniError {
                cause: IniCause::Memory,
                line: 0,
            });
        }
    };
    let mut number = 0usize;
    for line in text.lines() {
        number += 1;
        if let Err(cause) = reading.take_line(alloc, trimmed(line)) {
            return Err(IniError {
                cause,
                line: number,
            });
        }
    }
    Ok(reading.settings)
}
