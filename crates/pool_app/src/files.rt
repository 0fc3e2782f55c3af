//! The files that a command line names.
ghost use Rattle.std.specs.Prelude.{◌≡◌, ◌<◌, ◌≤◌, ◌^◌, None, IfErr, IfOk, IfSome, length};
ghost use Rattle.ini_config.specs.Bounds.{AreWithinBounds};
ghost use Rattle.text_lines.specs.Lines.{lines, raw_lines};
ghost use Rattle.pool_app.specs.Files as spec;

use crate::fault::AppError;
use bstr::ByteSlice;
use ini_config::laws::read_settings_are_within_bounds;
use ini_config::{Settings, read_settings};
use session_catalogue::Catalogue;
use settings_check::notices::notices;
use settings_check::options::value_given;
use settings_check::report::{Report, UserFile, report_on};
use std::alloc::Global;
use std::io::{ErrorKind, Read};
use std::rt::Files;
use std::{fs, io};
use text_lines::Text;
use user_file::{UserTable, read_users};

/// How many bytes a file, or standard input, may have.
pub const MAX_BYTES: u64 = 16_777_216;

/// Where the system's random bytes are had, without an end.
const SYSTEM_SEED: &str = "/dev/urandom";

/// What a whole read came to: more bytes than allowed, or a fault of the reader.
#[derive(Drop)]
pub enum ReadError {
    TooLong,
    Io(io::Error),
}

/// Everything that the pooler reads before it listens.
#[derive(Drop)]
pub struct Inputs {
    pub settings: Settings,
    pub users: UserTable,
    pub seed: [u8; 32],
    /// What is to be said of the settings, a line each.
    pub notices: Vec<Text>,
}

/// All bytes of a reader, of which there are at most `most`.
pub fn read_all<R: Read + Drop>(alloc: Global, input: R, most: u64) -> Result<Vec<u8>, ReadError>
    requires { most < 2 ^ 63 }
    ensures all { IfOk result (λ v. IfSome (R.remaining input) (λ xs. v.items ≡ xs)) }
    ensures bound { IfOk result (λ v. length v.items ≤ most) }
    ensures refused { IfErr result (λ fault. spec.IsReadFaultOf (R.remaining input) most fault) }
{
    let mut all = Vec::new(alloc);
    let mut limited = input.take(most + 1);
    match limited.read_to_end(&mut all) {
        Ok(_) => {}
        Err(error) => return Err(ReadError::Io(error)),
    }
    if all.len() as u64 > most {
        return Err(ReadError::TooLong);
    }
    Ok(all)
}

/// The fault of a file that wasn't read.
fn unread<'a>(path: &'a str, fault: ReadError) -> AppError<'a>
    ensures { spec.IsUnread path.entry result }
{
    match fault {
        ReadError::Io(error) if error.kind() == ErrorKind::OutOfMemory => AppError::Memory,
        _ => AppError::File(path),
    }
}

/// What is to be said of the settings in this text. Memory may be refused.
fn notices_of<'a>(
    alloc: Global,
    uses_auth_file: bool,
    text: &[u8],
) -> Result<Vec<Text>, AppError<'a>>
    ensures { IfErr result (λ fault. fault ≡ AppError.Memory) }
{
    match notices(alloc, uses_auth_file, text) {
        Ok(notices) => Ok(notices),
        Err(_) => Err(AppError::Memory),
    }
}

/// A path as faults show it: what isn't UTF-8 is replaced. Memory may be refused.
fn shown_path<'a>(alloc: Global, path: &[u8]) -> Result<String, AppError<'a>>
    ensures { IfErr result (λ fault. fault ≡ AppError.Memory) }
{
    let mut shown = String::new(alloc);
    match path.to_str_lossy_into(&mut shown) {
        Ok(()) => Ok(shown),
        Err(_) => Err(AppError::Memory),
    }
}

/// The bytes of a file. One that can't be read is named, unless memory was refused.
pub fn read_file<'a, R: Files>(
    rt: &R,
    alloc: Global,
    path: &'a str,
) -> Result<Vec<u8>, AppError<'a>>
    ensures { IfErr result (spec.IsUnread path.entry) }
{
    let file = match fs::open(rt, path) {
        Ok(file) => file,
        Err(error) => return Err(unread(path, ReadError::Io(error))),
    };
    match read_all(alloc, file, MAX_BYTES) {
        Ok(bytes) => Ok(bytes),
        Err(fault) => Err(unread(path, fault)),
    }
}

/// The bytes of the file at this path, none where it can't be read. Memory may be refused.
fn bytes_at<'a, R: Files>(
    rt: &R,
    alloc: Global,
    path: &[u8],
) -> Result<Option<Vec<u8>>, AppError<'a>>
    ensures { IfErr result (λ fault. fault ≡ AppError.Memory) }
{
    let Ok(path) = std::str::from_utf8(path) else {
        return Ok(None);
    };
    match read_file(rt, alloc, path) {
        Ok(bytes) => Ok(Some(bytes)),
        Err(AppError::Memory) => Err(AppError::Memory),
        Err(_) => Ok(None),
    }
}

/// The key seed of a file's bytes.
pub fn seed_of<'a>(path: &'a str, bytes: &[u8]) -> Result<[u8; 32], AppError<'a>>
    ensures { spec.IsSeedOf path.entry bytes.now result }
{
    if bytes.len() != 32 {
        return Err(AppError::File(path));
    }
    let mut seed = [0u8; 32];
    seed.copy_from_slice(bytes);
    Ok(seed)
}

/// The settings of a file's text.
pub fn settings_of<'a>(alloc: Global, text: &[u8]) -> Result<Settings, AppError<'a>>
    ensures { spec.IsSettingsOf (lines text.now) result }
{
    match read_settings(alloc, text) {
        Ok(settings) => Ok(settings),
        Err(fault) => Err(AppError::Ini(fault)),
    }
}

/// The users of a file's text.
pub fn users_of<'a>(alloc: Global, text: &[u8]) -> Result<UserTable, AppError<'a>>
    ensures { spec.IsUsersOf (lines text.now) result }
{
    match read_users(alloc, text) {
        Ok(users) => Ok(users),
        Err(fault) => Err(AppError::Users(fault)),
    }
}

/// The settings of a file's text, which are within their bounds.
fn settings_within<'a>(alloc: Global, text: &[u8]) -> Result<Settings, AppError<'a>>
    ensures bounds { IfOk result (λ settings. AreWithinBounds settings) }
    ensures fault { spec.IsSettingsOf (lines text.now) result }
{
    read_settings_are_within_bounds();
    // named, since the proof of their bounds cites them
    let settings = settings_of(alloc, text)?;
    Ok(settings)
}

/// The users in the file at this path.
fn users_at<'a, R: Files>(rt: &R, alloc: Global, path: &'a str) -> Result<UserTable, AppError<'a>>
    ensures { IfErr result (spec.IsUsersFault path.entry) }
{
    let text = read_file(rt, alloc, path)?;
    users_of(alloc, text.as_slice())
}

/// The path of the user file that the settings in this text name. None where they name none.
fn auth_file(text: &[u8]) -> Option<&[u8]>
    ensures named { IfSome result (λ path. spec.IsNamed (spec.auth_file (lines text.now))) }
    ensures none { result ≡ None → spec.IsNamed (spec.auth_file (lines text.now)) → ⊥ }
{
    let path = value_given(text, b"auth_file")?;
    if path.is_empty() {
        return None;
    }
    Some(path)
}

/// The users in the file that the settings in this text name; a relative path is one from the current folder.
fn users_by_settings<'a, R: Files>(
    rt: &R,
    alloc: Global,
    text: &[u8],
) -> Result<UserTable, AppError<'a>>
    ensures { IfErr result (spec.IsAuthFileFault (lines text.now)) }
{
    let Some(path) = auth_file(text) else {
        return Err(AppError::NoUserFile);
    };
    let shown = shown_path(alloc, path)?;
    let Ok(path) = std::str::from_utf8(path) else {
        return Err(AppError::AuthFile(shown));
    };
    match users_at(rt, alloc, path) {
        Ok(users) => Ok(users),
        Err(AppError::Users(fault)) => Err(AppError::Users(fault)),
        Err(AppError::File(_)) => Err(AppError::AuthFile(shown)),
        Err(_) => Err(AppError::Memory),
    }
}

/// The users: those in the file at this path, else those in the file that the settings in this text name.
fn users_named<'a, R: Files>(
    rt: &R,
    alloc: Global,
    users: Option<&'a str>,
    text: &[u8],
) -> Result<UserTable, AppError<'a>>
    ensures { IfErr result (spec.IsUserFileFault users.entry (lines text.now)) }
{
    match users {
        Some(path) => users_at(rt, alloc, path),
        None => users_by_settings(rt, alloc, text),
    }
}

/// The key seed in the file at this path.
fn seed_at<'a, R: Files>(rt: &R, alloc: Global, path: &'a str) -> Result<[u8; 32], AppError<'a>>
    ensures { IfErr result (spec.IsUnread path.entry) }
{
    let bytes = read_file(rt, alloc, path)?;
    seed_of(path, bytes.as_slice())
}

/// A key seed that the system makes.
fn seed_of_system<'a, R: Files>(rt: &R, alloc: Global) -> Result<[u8; 32], AppError<'a>>
    ensures { IfErr result spec.IsSystemFault }
{
    let file = match fs::open(rt, SYSTEM_SEED) {
        Ok(file) => file,
        Err(error) => return Err(unread(SYSTEM_SEED, ReadError::Io(error))),
    };
    match read_all(alloc, file.take(32), 32) {
        Ok(bytes) => seed_of(SYSTEM_SEED, bytes.as_slice()),
        Err(fault) => Err(unread(SYSTEM_SEED, fault)),
    }
}

/// The key seed in the file at this path, or the system's where there is none.
fn seed_named<'a, R: Files>(
    rt: &R,
    alloc: Global,
    path: Option<&'a str>,
) -> Result<[u8; 32], AppError<'a>>
    ensures { IfErr result (spec.IsSeedFault path.entry) }
{
    match path {
        Some(path) => seed_at(rt, alloc, path),
        None => seed_of_system(rt, alloc),
    }
}

/// The files of the pooler. Each is read and checked before the next: settings, users, key seed. Where no file is named for the users,
/// the settings name it, and where none is named for the seed, the system makes it. The settings are within their bounds. A fault is
/// one of a file's lines, or names the file, or that nobody names a user file; or memory was refused.
pub fn read_inputs<'a, R: Files>(
    rt: &R,
    alloc: Global,
    ini: &'a str,
    users: Option<&'a str>,
    key_seed: Option<&'a str>,
) -> Result<Inputs, AppError<'a>>
    ensures bounds { IfOk result (λ inputs. AreWithinBounds inputs.settings) }
    ensures fault { IfErr result (spec.IsInputsFault ini.entry users.entry key_seed.entry) }
{
    let text = read_file(rt, alloc, ini)?;
    let settings = settings_within(alloc, text.as_slice())?;
    let table = users_named(rt, alloc, users, text.as_slice())?;
    let seed = seed_named(rt, alloc, key_seed)?;
    let notices = notices_of(alloc, users.is_none(), text.as_slice())?;
    Ok(Inputs {
        settings,
        users: table,
        seed,
        notices,
    })
}

/// The settings and the users, read again while the pooler serves: first the settings, which are within their bounds. A fault is as
/// in [`read_inputs`].
pub fn read_again<'a, R: Files>(
    rt: &R,
    alloc: Global,
    ini: &'a str,
    users: Option<&'a str>,
) -> Result<(Settings, UserTable), AppError<'a>>
    ensures bounds { IfOk result (λ read. AreWithinBounds read.0) }
    ensures fault { IfErr result (spec.IsAgainFault ini.entry users.entry) }
{
    let text = read_file(rt, alloc, ini)?;
    let settings = settings_within(alloc, text.as_slice())?;
    let table = users_named(rt, alloc, users, text.as_slice())?;
    Ok((settings, table))
}

/// The report on these settings and users. Memory may be refused.
fn reported<'a>(
    alloc: Global,
    ini: &str,
    text: &[u8],
    users: UserFile<'_>,
    uses_auth_file: bool,
) -> Result<Report, AppError<'a>>
    ensures { IfErr result (λ fault. fault ≡ AppError.Memory) }
{
    match report_on(alloc, ini.as_bytes(), text, users, uses_auth_file) {
        Ok(report) => Ok(report),
        Err(_) => Err(AppError::Memory),
    }
}

/// The report on these settings, and on the users in the file at this path. Memory may be refused.
fn report_with<'a, R: Files>(
    rt: &R,
    alloc: Global,
    ini: &str,
    text: &[u8],
    path: &[u8],
    uses_auth_file: bool,
) -> Result<Report, AppError<'a>>
    ensures { IfErr result (λ fault. fault ≡ AppError.Memory) }
{
    match bytes_at(rt, alloc, path)? {
        Some(users) => {
            let file = UserFile::Read(path, users.as_slice());
            reported(alloc, ini, text, file, uses_auth_file)
        }
        None => reported(alloc, ini, text, UserFile::Unread(path), uses_auth_file),
    }
}

/// The report on the settings in this file, and on the users: those in the file at the other path, else those in the file that the
/// settings name. Settings that can't be read are a fault that names their file; of users that is a line of the report.
pub fn check<'a, R: Files>(
    rt: &R,
    alloc: Global,
    ini: &'a str,
    users: Option<&'a str>,
) -> Result<Report, AppError<'a>>
    ensures { IfErr result (spec.IsUnread ini.entry) }
{
    let text = read_file(rt, alloc, ini)?;
    if let Some(path) = users {
        return report_with(rt, alloc, ini, text.as_slice(), path.as_bytes(), false);
    }
    match auth_file(text.as_slice()) {
        Some(path) => report_with(rt, alloc, ini, text.as_slice(), path, true),
        None => reported(alloc, ini, text.as_slice(), UserFile::Unnamed, true),
    }
}

/// The catalogue of a file's text.
pub fn catalogue_of<'a>(alloc: Global, text: &[u8]) -> Result<Catalogue, AppError<'a>>
    ensures { spec.IsCatalogueOf (raw_lines text.now) result }
{
    match Catalogue::read(alloc, text) {
        Ok(catalogue) => Ok(catalogue),
        Err(fault) => Err(AppError::Catalogue(fault)),
    }
}

/// The stand-in server's catalogue. A fault is one of its lines, or names the file; or memory was refused.
pub fn read_catalogue<'a, R: Files>(
    rt: &R,
    alloc: Global,
    path: &'a str,
) -> Result<Catalogue, AppError<'a>>
    ensures { IfErr result (spec.IsCatalogueFault path.entry) }
{
    let text = read_file(rt, alloc, path)?;
    catalogue_of(alloc, text.as_slice())
}
