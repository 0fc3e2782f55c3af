//! What is said of a settings file without a fault: what is read over, and where it differs from PgBouncer.
ghost use Rattle.std.specs.Prelude.{◌≡◌, ◌∷◌, ◌++◌, [], codes, is_none, if◌then◌else◌, IfOk, OnOk, option_map};
ghost use Rattle.std.specs.List.{flat_map};
ghost use Rattle.text_lines.specs.Lines.{lines as lines_of_file};
ghost use Rattle.settings_check.specs.Notices as spec;
ghost use Rattle.settings_check.specs.Options.{value_given as given};

use crate::options::{read_over, value_given};
use std::alloc::{AllocError, Global};
use text_lines::Text;

/// The keys whose default isn't PgBouncer's, and what is said where a file doesn't set them.
static UNLIKE: [(&str, &str); 5] = [
    (
        "listen_addr",
        "listen_addr is not set: it is 127.0.0.1; PgBouncer listens on no address then",
    ),
    (
        "unix_socket_dir",
        "unix_socket_dir is not set: there is no Unix socket; PgBouncer's is in /tmp then",
    ),
    (
        "log_connections",
        "log_connections is not set: it is 0; PgBouncer's is 1 then",
    ),
    (
        "log_disconnections",
        "log_disconnections is not set: it is 0; PgBouncer's is 1 then",
    ),
    (
        "server_tls_sslmode",
        "server_tls_sslmode is not set: there is no TLS to servers; PgBouncer has it where they do",
    ),
];

/// The names that follow the first one.
fn put_others(line: &mut Vec<u8>, names: &[Text]) -> Result<(), AllocError>
    ensures { OnOk result (line.new.items ≡ line.old.items ++ flat_map (λ n. codes ", " ++ n) names.now) }
{
    for name in names {
        line.extend_from_slice(b", ")?;
        line.extend_from_slice(name.as_bytes())?;
    }
    Ok(())
}

/// What is said of the keys that are read over: a first one, and others.
fn over_line(alloc: Global, first: &Text, others: &[Text]) -> Result<Text, AllocError>
    ensures { IfOk result (λ t. t ≡ codes "read over: " ++ spec.listed (first.now ∷ others.now)) }
{
    let mut line = Vec::from_slice(alloc, b"read over: ")?;
    line.extend_from_slice(first.as_bytes())?;
    put_others(&mut line, others)?;
    Ok(Text::from_vec(line))
}

/// Adds what is said of the keys that are read over, if there are any.
fn add_over(notices: &mut Vec<Text>, alloc: Global, names: &[Text]) -> Result<(), AllocError>
    ensures { OnOk result (notices.new.items ≡ notices.old.items ++ spec.over_notice names.now) }
{
    if let Some((first, others)) = names.split_first() {
        notices.push(over_line(alloc, first, others)?)?;
    }
    Ok(())
}

/// Adds what is said where the file would have TLS to servers that have it.
fn add_tls(notices: &mut Vec<Text>, alloc: Global, mode: Option<&[u8]>) -> Result<(), AllocError>
    ensures { OnOk result (notices.new.items ≡ notices.old.items ++ spec.tls_notice (option_map (λ v. v.now) mode.entry)) }
{
    let Some(mode) = mode else {
        return Ok(());
    };
    if mode != b"allow".as_slice() && mode != b"prefer".as_slice() {
        return Ok(());
    }
    let mut line = Vec::from_slice(alloc, b"no TLS to servers (server_tls_sslmode = ")?;
    line.extend_from_slice(mode)?;
    line.extend_from_slice(b")")?;
    notices.push(Text::from_vec(line))?;
    Ok(())
}

/// What the start of the pool says of a file: which keys are read over (`auth_file` isn't where it names the user file), and that there
/// is no TLS to servers where the file would have it. The only error is out of memory.
pub fn notices(alloc: Global, uses_auth_file: bool, text: &[u8]) -> Result<Vec<Text>, AllocError>
    ensures { IfOk result (λ v. v.items ≡ spec.notices uses_auth_file (lines_of_file text.now)) }
{
    let mut notices = Vec::new(alloc);
    let names = read_over(alloc, uses_auth_file, text)?;
    add_over(&mut notices, alloc, names.as_slice())?;
    add_tls(
        &mut notices,
        alloc,
        value_given(text, b"server_tls_sslmode"),
    )?;
    Ok(notices)
}

/// Of a table of keys, what is said of those that the file doesn't set.
fn unset(alloc: Global, table: &[(&str, &str)], text: &[u8]) -> Result<Vec<Text>, AllocError>
    ensures { IfOk result (λ v. v.items ≡ flat_map (λ u. if is_none (given u.0.now (lines_of_file text.now)) then u.1.now ∷ [] else []) table.now) }
{
    let mut said = Vec::new(alloc);
    for (key, words) in table {
        if value_given(text, key.as_bytes()).is_none() {
            said.push(Text::copy(alloc, words.as_bytes())?)?;
        }
    }
    Ok(said)
}

/// In what a file's defaults differ from PgBouncer's. The only error is out of memory.
pub fn differences(alloc: Global, text: &[u8]) -> Result<Vec<Text>, AllocError>
    ensures { IfOk result (λ v. v.items ≡ spec.differences (lines_of_file text.now)) }
{
    unset(alloc, UNLIKE.as_slice(), text)
}
