//! What is sent to a server that is started.
ghost use Rattle.std.specs.Prelude.{◌≡◌, ◌+◌, ◌^◌, ◌<◌, IfOk, length};
ghost use Rattle.frame_view.specs.Frames.{Start, first_spelling};
ghost use Rattle.link_model.specs.Starts.{start_body};
ghost use Rattle.link_start.specs.Questions as spec;
ghost use Rattle.link_start.specs.Questions.{PutsAnswer, answer_to};
ghost use Rattle.link_start.specs.Starts.{shown};

use crate::start_reply::ServerQuestion;
use bytes::BytesMut;
use credentials::Credential;
use memchr::memchr;
use message_view::{put_password_message, put_startup_message};
use start_keys::StartKey;
use std::alloc::{AllocError, Global};
use user_file::Secret;

/// The StartupMessage that starts a server for a key: its user, its database, and its parameters in their order.
///
/// `AllocError` where memory is refused, or the message is above the greatest length of a frame.
pub(crate) fn startup_message(alloc: Global, key: &StartKey) -> Result<BytesMut, AllocError>
    ensures bytes { IfOk result (λ out. out.items ≡ first_spelling (Start (start_body key.now))) }
    ensures fits { IfOk result (λ _. 8 + length (start_body key.now) < 2 ^ 32) }
{
    let mut pairs: Vec<(&[u8], &[u8])> = Vec::new(alloc);
    pairs.push((b"user", key.user.as_slice()))?;
    pairs.push((b"database", key.dbname.as_slice()))?;
    for (name, value) in &key.parameters {
        pairs.push((name.as_slice(), value.as_slice()))?;
    }
    let mut out = BytesMut::new(alloc);
    put_startup_message(&mut out, pairs.as_slice())?;
    Ok(out)
}

/// The password itself, where the secret keeps it and a message can spell it.
#[tactic(auto, using(crate::proofs::Reading::no_zero))]
pub(crate) fn password_of(secret: &Secret) -> Option<&[u8]>
    ensures { shown result ≡ spec.password_of secret.now }
{
    match secret {
        Secret::Plain(password) => match memchr(0, password.as_bytes()) {
            Some(_) => None,
            None => Some(password.as_bytes()),
        },
        Secret::Md5(_) | Secret::Scram(_) | Secret::Unusable => None,
    }
}

/// Puts the answer of this user to a server's question; or doesn't, where there is none. The only error is out of memory.
pub(crate) fn put_answer(
    out: &mut BytesMut,
    question: &ServerQuestion,
    credential: &Credential<'_>,
    user: &[u8],
) -> Result<bool, AllocError>
    ensures { PutsAnswer result out.old out.new (answer_to credential.now user.now question.now) }
{
    match question {
        ServerQuestion::Cleartext => {
            let Some(password) = password_of(credential.secret()) else {
                return Ok(false);
            };
            put_password_message(out, password)?;
        }
        ServerQuestion::Md5(salt) => {
            let Some(digest) = credential.secret().answer(user, *salt) else {
                return Ok(false);
            };
            put_password_message(out, &digest)?;
        }
        ServerQuestion::Scram => {
            if !credential.answers_scram() {
                return Ok(false);
            }
            credential.put_first(out)?;
        }
        ServerQuestion::Challenge(exchange) => exchange.put_last(out)?,
        ServerQuestion::Unknown(_) => return Ok(false),
    }
    Ok(true)
}
