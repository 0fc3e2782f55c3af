//! The reading of a user file, line by line.
ghost use Rattle.std.specs.Prelude.{◌≡◌, ◌+◌, IfOk};
ghost use Rattle.text_lines.specs.Files.{TookLine};
ghost use Rattle.text_lines.specs.Lines.{lines as lines_of_file};
ghost use Rattle.user_file.specs.Fields as fields_spec;
ghost use Rattle.user_file.specs.Secrets as secrets_spec;
ghost use Rattle.user_file.specs.Users as spec;

use crate::faults::{UserCause, UserError};
use crate::fields::{fields, unquoted};
use crate::secrets::Secret;
use crate::user_table::{UserRow, UserTable};
use bstr::ByteSlice;
use std::alloc::{AllocError, Global};
use text_lines::{Text, is_ignored, trimmed};

/// The text of a name's field, if no user has that name yet. Where there is no memory for it, the field is compared with each name.
fn new_name(users: &UserTable, alloc: Global, field: &[u8]) -> Result<Text, UserCause>
    ensures { spec.IsNewName users.now field.now result }
{
    let Ok(name) = unquoted(alloc, field) else {
        return Err(if users.has_field(field) {
            UserCause::NameTwice
        } else {
            UserCause::Memory
        });
    };
    if users.row(name.as_slice()).is_some() {
        return Err(UserCause::NameTwice);
    }
    Ok(Text::from_vec(name))
}

/// The secret of a field.
fn secret_of(alloc: Global, field: &[u8]) -> Result<Secret, AllocError>
    ensures { IfOk result (λ s. s ≡ secrets_spec.secret_of (fields_spec.unquoted field.now)) }
{
    let text = unquoted(alloc, field)?;
    Secret::read(alloc, text.as_slice())
}

/// Takes a trimmed line, or reports its first fault. Out of memory comes after all others.
#[tactic(auto, unfolding(crate::specs::Users::user_of))]
fn take_line(users: &mut UserTable, alloc: Global, line: &[u8]) -> Result<(), UserCause>
    ensures { TookLine UserCause.Memory (spec.keeps line.now) (spec.fault_of users.old line.now) (spec.with_line users.old line.now) users.new result }
{
    if is_ignored(line) {
        return Ok(());
    }
    let Some((name, secret)) = fields(line) else {
        return Err(UserCause::BadQuoting);
    };
    let name = new_name(users, alloc, name)?;
    let secret = secret_of(alloc, secret).map_err(|_| UserCause::Memory)?;
    users
        .add(alloc, UserRow { name, secret })
        .map_err(|_| UserCause::Memory)
}

/// The users of a file, or its first faulty line.
///
/// A line ends with LF or CR LF or the end of the file; spaces and tabs at its ends are dropped. Of several faults on one line the
/// one with the lowest number is reported. Out of memory is reported with a line that names a user, and neither that line nor one
/// before it has another fault.
pub fn read_users(alloc: Global, text: &[u8]) -> Result<UserTable, UserError>
    ensures { spec.IsReadOf (lines_of_file text.now) result }
{
    let mut users = UserTable::new(alloc);
    let mut number = 0usize;
    for line in text.lines() {
        number += 1;
        if let Err(cause) = take_line(&mut users, alloc, trimmed(line)) {
            return Err(UserError {
                cause,
                line: number,
            });
        }
    }
    Ok(users)
}
