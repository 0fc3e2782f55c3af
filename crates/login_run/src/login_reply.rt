//! What a client is given in its login.
ghost use Rattle.std.specs.Prelude.{◌≡◌};
ghost use Rattle.login_run.specs.Runs as spec;

use login_core::{Authenticated, LoginRefusal, Question};
use message_view::{Refusal, refusal_bytes};

/// What a client is given at a step of its login.
#[derive(Drop)]
pub enum LoginReply {
    Nothing,
    Question(Question),
    /// AuthenticationOk, behind the server's proof where the client was asked for SCRAM.
    LetIn(Authenticated),
    /// The server's proof, before the console's AuthenticationOk; nothing where the client wasn't asked for SCRAM.
    Proof(Authenticated),
    Failure(LoginRefusal),
    Refusal(Refusal),
}

impl LoginReply {
    /// The bytes for the client.
    pub fn as_bytes(&self) -> &[u8]
        ensures { result.now ≡ spec.said_bytes self.now }
    {
        match self {
            LoginReply::Nothing => b"",
            LoginReply::Question(question) => question.as_bytes(),
            LoginReply::LetIn(told) => told.as_bytes(),
            LoginReply::Proof(told) => told.as_bytes(),
            LoginReply::Failure(failure) => failure.as_bytes(),
            LoginReply::Refusal(refusal) => refusal_bytes(*refusal),
        }
    }
}
