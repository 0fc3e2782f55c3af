//! The lines of a report on the files of a pool.
ghost use Rattle.std.specs.Prelude.{◌≡◌, ◌∷◌, [], ◌++◌, ◌==◌, not, length, IfOk, OnOk, decimal, map};
ghost use Rattle.log_lines.specs.Shown as log;
ghost use Rattle.settings_check.specs.Faults as faults;
ghost use Rattle.settings_check.specs.Report as spec;
ghost use Rattle.settings_check.specs.Users as users;

use crate::codes::ini_code;
use crate::faults::{FaultyLine, faulty_lines};
use crate::notices::{differences, notices};
use crate::shown::put_pair_in;
use crate::users::{FaultyUser, faulty_users};
use crate::words::put_words;
use ini_config::read_line;
use itoa::Buffer;
use log_lines::shown::{put_quoted, put_text};
use std::alloc::{AllocError, Global};
use text_lines::Text;
use user_file::UserCause;

/// The user file of a report.
#[derive(Clone, Copy)]
pub enum UserFile<'a> {
    /// Its path and its text.
    Read(&'a [u8], &'a [u8]),
    /// The path of one that can't be read.
    Unread(&'a [u8]),
    /// Nobody names one.
    Unnamed,
}

/// A report.
pub struct Report {
    pub lines: Vec<Text>,
    /// Whether there is a fault among them.
    pub is_faulty: bool,
}

impl Drop for Report {
    fn drop(self) {
        let Report {
            lines: _,
            is_faulty: _,
        } = self;
    }
}

/// The file and the line.
fn put_place(line: &mut Vec<u8>, file: &[u8], number: usize) -> Result<(), AllocError>
    ensures { OnOk result (line.new.items ≡ line.old.items ++ spec.place file.now number) }
{
    put_text(line, file)?;
    line.extend_from_slice(b" line ")?;
    let mut digits = Buffer::new();
    line.extend_from_slice(digits.format(number).as_bytes())?;
    line.extend_from_slice(b": ")
}

/// The line that tells a fault of the settings.
fn ini_line(alloc: Global, file: &[u8], faulty: &FaultyLine<'_>) -> Result<Text, AllocError>
    ensures { IfOk result (λ t. t ≡ spec.ini_line file.now (faults.found faulty.now)) }
{
    let mut line = Vec::new(alloc);
    put_place(&mut line, file, faulty.number)?;
    put_pair_in(&mut line, alloc, faulty.section, read_line(faulty.text))?;
    line.extend_from_slice(ini_code(faulty.cause).as_bytes())?;
    line.extend_from_slice(b": ")?;
    put_words(&mut line, faulty)?;
    Ok(Text::from_vec(line))
}

/// Why a user's line is faulty. Nothing but the name is told of it, and that where it is there twice.
fn put_user_words(line: &mut Vec<u8>, cause: UserCause, name: &[u8]) -> Result<(), AllocError>
    ensures { OnOk result (line.new.items ≡ line.old.items ++ spec.user_words cause name.now) }
{
    match cause {
        UserCause::NameTwice => {
            put_quoted(line, name)?;
            line.extend_from_slice(b": U2: given above already")
        }
        UserCause::BadQuoting => line.extend_from_slice(
            b"U1: not a name that is not empty and a secret, each in double quotes",
        ),
        UserCause::Memory => Ok(()),
    }
}

/// The line that tells a fault of the users.
fn user_line(alloc: Global, file: &[u8], faulty: &FaultyUser) -> Result<Text, AllocError>
    ensures { IfOk result (λ t. t ≡ spec.user_line file.now (users.found faulty.now)) }
{
    let mut line = Vec::new(alloc);
    put_place(&mut line, file, faulty.number)?;
    put_user_words(&mut line, faulty.cause, faulty.name.as_bytes())?;
    Ok(Text::from_vec(line))
}

/// A line for each fault of the settings in this file, in their order. The only error is out of memory.
fn ini_faults(alloc: Global, file: &[u8], text: &[u8]) -> Result<Vec<Text>, AllocError>
    ensures { IfOk result (λ v. v.items ≡ spec.ini_faults file.now text.now) }
{
    let mut lines = Vec::new(alloc);
    for faulty in faulty_lines(alloc, text)?.as_slice() {
        lines.push(ini_line(alloc, file, faulty)?)?;
    }
    Ok(lines)
}

/// A line for each fault of the users in this file, in their order. The only error is out of memory.
fn user_faults(alloc: Global, file: &[u8], text: &[u8]) -> Result<Vec<Text>, AllocError>
    ensures { IfOk result (λ v. v.items ≡ spec.user_faults file.now text.now) }
{
    let mut lines = Vec::new(alloc);
    for faulty in faulty_users(alloc, text)?.as_slice() {
        lines.push(user_line(alloc, file, faulty)?)?;
    }
    Ok(lines)
}

/// A line about the whole file.
fn remark(alloc: Global, file: &[u8], mark: &[u8], words: &[u8]) -> Result<Text, AllocError>
    ensures { IfOk result (λ t. t ≡ log.shown_text file.now ++ mark.now ++ words.now) }
{
    let mut line = Vec::new(alloc);
    put_text(&mut line, file)?;
    line.extend_from_slice(mark)?;
    line.extend_from_slice(words)?;
    Ok(Text::from_vec(line))
}

/// Adds a line for each remark.
fn add_remarks(
    lines: &mut Vec<Text>,
    alloc: Global,
    file: &[u8],
    mark: &[u8],
    remarks: &[Text],
) -> Result<(), AllocError>
    ensures { OnOk result (lines.new.items ≡ lines.old.items ++ map (λ words. log.shown_text file.now ++ mark.now ++ words) remarks.now) }
{
    for words in remarks {
        lines.push(remark(alloc, file, mark, words.as_bytes())?)?;
    }
    Ok(())
}

/// What is read over of the settings in this file, and what differs from PgBouncer.
fn remarks(
    alloc: Global,
    file: &[u8],
    text: &[u8],
    uses_auth_file: bool,
) -> Result<Vec<Text>, AllocError>
    ensures { IfOk result (λ v. v.items ≡ spec.remarks uses_auth_file file.now text.now) }
{
    let mut lines = Vec::new(alloc);
    let notices = notices(alloc, uses_auth_file, text)?;
    add_remarks(&mut lines, alloc, file, b": ", notices.as_slice())?;
    let differences = differences(alloc, text)?;
    add_remarks(
        &mut lines,
        alloc,
        file,
        b": unlike PgBouncer: ",
        differences.as_slice(),
    )?;
    Ok(lines)
}

/// One line.
fn only(alloc: Global, line: Text) -> Result<Vec<Text>, AllocError>
    ensures { IfOk result (λ v. v.items ≡ line ∷ []) }
{
    let mut lines = Vec::new(alloc);
    lines.push(line)?;
    Ok(lines)
}

/// A line for each fault of the users.
fn faults_of_users(alloc: Global, users: UserFile<'_>) -> Result<Vec<Text>, AllocError>
    ensures { IfOk result (λ v. v.items ≡ spec.faults_of_users users.entry) }
{
    match users {
        UserFile::Read(path, text) => user_faults(alloc, path, text),
        UserFile::Unread(path) => {
            let unread = remark(alloc, path, b": ", b"the user file can't be read")?;
            only(alloc, unread)
        }
        UserFile::Unnamed => {
            let words = b"no user file: neither --users nor auth_file names one";
            only(alloc, Text::copy(alloc, words)?)
        }
    }
}

/// The report on the settings in this file and on the users: each fault, in the order of the lines, then what is read over
/// (`auth_file` isn't where it names the user file), then what differs from PgBouncer. The only error is out of memory.
pub fn report_on(
    alloc: Global,
    file: &[u8],
    text: &[u8],
    users: UserFile<'_>,
    uses_auth_file: bool,
) -> Result<Report, AllocError>
    ensures lines { IfOk result (λ r. r.lines.items ≡ spec.report file.now text.now users.entry uses_auth_file) }
    ensures faulty { IfOk result (λ r. r.is_faulty ≡ not (length (spec.all_faults file.now text.now users.entry) == 0)) }
{
    let mut lines = ini_faults(alloc, file, text)?;
    lines.append(&mut faults_of_users(alloc, users)?)?;
    let is_faulty = !lines.is_empty();
    lines.append(&mut remarks(alloc, file, text, uses_auth_file)?)?;
    Ok(Report { lines, is_faulty })
}
