//! A client's login.
ghost use Rattle.std.specs.Prelude.{◌≡◌, ◌<◌, [], IfOk};
ghost use Rattle.std.specs.Arc.{arc_value};
ghost use Rattle.login_core.specs.Logins.{authenticated_bytes, missing};
ghost use Rattle.play.specs.Players.{IsAt, IsLetIn, LogsIn, Steps};

use crate::stage::{Stage, leave, refuse};
use act_client::ActClient;
use login_core::laws::{login_is_of_its_row, steps_say, steps_tell};
use login_core::{Authenticated, Login, LoginStep};
use memory_pool::MemoryPool;
use memory_pool::answers::Answer;
use message_view::{KeyWord, Refusal};
use server_end::Moved;
use start_keys::StartKey;
use std::alloc::{AllocError, Global};
use std::sync::Arc;

/// The bytes that a turn reads at most.
const CHUNK: usize = 256;

/// A turn of a client's login: it reads once of the packet that the login waits for.
#[tactic(auto, using(crate::proofs::Logins::logs_in_piece, crate::proofs::Pieces::piece_done, crate::proofs::Logins::takes))]
pub(crate) fn log_in<'a>(
    alloc: Global,
    pool: &mut MemoryPool,
    word: KeyWord,
    mut client: ActClient<'a>,
    mut login: Login,
    number: Option<u64>,
) -> Result<(Stage<'a>, bool), AllocError>
    requires logs_in { LogsIn pool.old word client login }
    requires missing { 0 < missing login.awaiting login.held }
    ensures same { pool.new ≡ pool.old }
    ensures at { IfOk result (λ r. IsAt pool.old word client.entry.input r.0) }
{
    let mut chunk = [0u8; CHUNK];
    let wanted = login.wants().min(CHUNK);
    match client.read(&mut chunk[..wanted]) {
        Moved::Count(count) => {
            let (_, step) = login.on_bytes(alloc, &chunk[..count]);
            let stage = on_step(alloc, pool, word, client, login, number, step)?;
            Ok((stage, true))
        }
        Moved::NotNow => Ok((
            Stage::LoggingIn {
                client,
                login,
                number,
            },
            false,
        )),
        Moved::Ended | Moved::Fault => Ok((leave(pool, word, client, number), true)),
    }
}

/// A step of the login. The client that arrives is let go on by the book, or turned away.
#[tactic(auto, using(crate::proofs::Logins::steps_piece, crate::proofs::Pieces::piece_done, crate::proofs::Logins::goes_arrived, crate::proofs::Logins::takes))]
fn on_step<'a>(
    alloc: Global,
    pool: &mut MemoryPool,
    word: KeyWord,
    client: ActClient<'a>,
    mut login: Login,
    number: Option<u64>,
    step: LoginStep,
) -> Result<Stage<'a>, AllocError>
    requires { Steps pool.old word client step login }
    ensures same { pool.new ≡ pool.old }
    ensures at { IfOk result (IsAt pool.old word client.entry.input) }
{
    match step {
        LoginStep::Arrived(_) => match pool.arrive() {
            Answer::Number(number) => {
                let (_, step) = login.on_bytes(alloc, b"");
                follow(pool, word, client, login, Some(number), step)
            }
            Answer::Refused(refusal) => refuse(pool, word, client, None, refusal),
            Answer::Strange => Ok(leave(pool, word, client, None)),
        },
        step => follow(pool, word, client, login, number, step),
    }
}

/// Any other step of the login. A client that asks to cancel is closed without a byte: no cancel reaches a play's servers.
#[tactic(auto, using(crate::proofs::Logins::steps_piece, crate::proofs::Pieces::piece_done, crate::proofs::Logins::goes_more, crate::proofs::Logins::goes_asked, crate::proofs::Logins::passes, crate::proofs::Logins::to_console, crate::proofs::Logins::fails))]
fn follow<'a>(
    pool: &mut MemoryPool,
    word: KeyWord,
    mut client: ActClient<'a>,
    login: Login,
    number: Option<u64>,
    step: LoginStep,
) -> Result<Stage<'a>, AllocError>
    requires { Steps pool.old word client step login }
    ensures same { pool.new ≡ pool.old }
    ensures at { IfOk result (IsAt pool.old word client.entry.input) }
{
    match step {
        LoginStep::More => {}
        LoginStep::Ask(question) => client.give(question.as_bytes())?,
        LoginStep::Passed(key, told) => return ask(pool, word, client, key, told, number),
        LoginStep::Refused(Refusal::OutOfMemory) => return Err(AllocError),
        LoginStep::Refused(refusal) => return refuse(pool, word, client, number, refusal),
        LoginStep::Failed(failure) => {
            client.give(failure.as_bytes())?;
            return Ok(leave(pool, word, client, number));
        }
        LoginStep::Console(told) => {
            client.give(told.as_bytes())?;
            return Ok(leave(pool, word, client, number));
        }
        LoginStep::Arrived(_) | LoginStep::Cancel { .. } | LoginStep::Left => {
            return Ok(leave(pool, word, client, number));
        }
    }
    Ok(Stage::LoggingIn {
        client,
        login,
        number,
    })
}

/// The client is let in, is told so, and asks for a link of this key.
#[tactic(auto, using(crate::proofs::Logins::let_in_waits, crate::proofs::Logins::waits_piece, crate::proofs::Pieces::piece_done, crate::proofs::Logins::let_in_piece))]
fn ask<'a>(
    pool: &mut MemoryPool,
    word: KeyWord,
    mut client: ActClient<'a>,
    key: Arc<StartKey>,
    told: Authenticated,
    number: Option<u64>,
) -> Result<Stage<'a>, AllocError>
    requires { IsLetIn pool.old word client (arc_value key) (authenticated_bytes told) }
    ensures same { pool.new ≡ pool.old }
    ensures at { IfOk result (IsAt pool.old word client.entry.input) }
{
    client.give(told.as_bytes())?;
    let Some(asks) = number else {
        return Ok(leave(pool, word, client, None));
    };
    match pool.ask(asks, &key)? {
        Answer::Number(_) => Ok(Stage::Waiting {
            client,
            key,
            number: asks,
        }),
        Answer::Refused(refusal) => refuse(pool, word, client, number, refusal),
        Answer::Strange => Ok(leave(pool, word, client, number)),
    }
}
