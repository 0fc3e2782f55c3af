//! Logins. One whose growth is refused tells P9, and is over then, whatever comes.

use crate::KEY_WORD;
use crate::files::{settings, users};
use crate::told::{put_bytes, put_unless};
use ini_config::Settings;
use login_core::{Login, LoginStep};
use message_view::Refusal;
use std::alloc::{AllocError, Global};
use std::sync::Arc;
use user_file::Users;

/// The StartupMessage of Ann for the database shop, with a name of her own, and her password.
const PASSES: &[u8] =
    b"\0\0\0\x37\0\x03\0\0user\0ann\0database\0shop\0application_name\0books\0\0p\0\0\0\x0bsecret\0";

/// One with a parameter that isn't supported.
const UNSUPPORTED: &[u8] = b"\0\0\0\x29\0\x03\0\0user\0ann\0database\0shop\0geqo\0off\0\0";

fn login(alloc: Global, settings: &Arc<Settings>, users: &Arc<Users>) -> Result<Login, AllocError> {
    let settings = Arc::try_clone(settings)?;
    let users = Arc::try_clone(users)?;
    Login::new(alloc, settings, users, KEY_WORD)
}

/// The step by which a login ends that is fed with these bytes; or More, where it doesn't end.
fn fed(alloc: Global, login: &mut Login, bytes: &[u8]) -> LoginStep {
    let mut rest = bytes;
    for _ in 0..10 {
        let (used, step) = login.on_bytes(alloc, rest);
        rest = &rest[used..];
        match step {
            LoginStep::More | LoginStep::Ask(_) | LoginStep::Arrived(_) => {}
            step => return step,
        }
    }
    LoginStep::More
}

/// Whether it takes no byte and answers Left.
fn is_left(alloc: Global, login: &mut Login, bytes: &[u8]) -> bool {
    matches!(login.on_bytes(alloc, bytes), (0, LoginStep::Left))
}

/// Whether it waits for nothing, and stays so whatever comes.
fn is_over(alloc: Global, login: &mut Login) -> bool {
    login.wants() == 0
        && (is_left(alloc, login, PASSES) && is_left(alloc, login, b""))
        && (is_left(alloc, login, PASSES) && login.wants() == 0)
}

/// Appends how a login ended.
fn put_step(
    alloc: Global,
    login: &Login,
    step: &LoginStep,
    out: &mut Vec<u8>,
) -> Result<(), AllocError> {
    match step {
        LoginStep::Passed(key, _) => {
            put_bytes(alloc, b"user", key.user.as_slice(), out)?;
            for (name, value) in &key.parameters {
                put_bytes(alloc, b"name", name.as_slice(), out)?;
                put_bytes(alloc, b"value", value.as_slice(), out)?;
            }
            Ok(())
        }
        LoginStep::Refused(refusal) => {
            let name = login.unsupported_parameter().unwrap_or(b"");
            put_bytes(alloc, refusal.code(), name, out)
        }
        _ => put_unless(false, b"the login doesn't end", out),
    }
}

/// Whether the step tells that memory was refused; or it would tell a name, for which there was none.
fn is_short(login: &Login, step: &LoginStep) -> bool {
    match step {
        LoginStep::Refused(Refusal::OutOfMemory) => true,
        LoginStep::Refused(Refusal::UnsupportedParameter) => login
            .unsupported_parameter()
            .is_none(),
        _ => false,
    }
}

/// Feeds a login with these bytes, and where memory is refused another one.
fn put_login(
    alloc: Global,
    settings: &Arc<Settings>,
    users: &Arc<Users>,
    bytes: &[u8],
    out: &mut Vec<u8>,
) -> Result<(), AllocError> {
    let mut first = login(alloc, settings, users)?;
    let step = fed(alloc, &mut first, bytes);
    put_unless(is_over(alloc, &mut first), b"a login goes on", out)?;
    if !is_short(&first, &step) {
        return put_step(alloc, &first, &step, out);
    }
    let mut second = login(alloc, settings, users)?;
    let step = fed(alloc, &mut second, bytes);
    put_step(alloc, &second, &step, out)
}

/// Logins that pass and that are refused.
pub fn told(alloc: Global, out: &mut Vec<u8>) -> Result<(), AllocError> {
    let settings = settings(alloc)?;
    let users = users(alloc)?;
    put_login(alloc, &settings, &users, PASSES, out)?;
    put_login(alloc, &settings, &users, UNSUPPORTED, out)
}
