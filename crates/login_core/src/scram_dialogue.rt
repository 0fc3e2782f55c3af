//! The messages of SCRAM-SHA-256 in a login (RFC 5802; PostgreSQL manual, "SASL Authentication").
ghost use Rattle.std.specs.Prelude.{◌≡◌, ◌≤◌, ◌+◌, IfOk, IfSome, None, Some, if◌then◌else◌, length, option_map, true};
ghost use Rattle.std.specs.Arc.{arc_value};
ghost use Rattle.frame_view.specs.Frames.{spelling};
ghost use Rattle.message_view.specs.Messages.{authentication};
ghost use Rattle.scram.specs.Keys.{auth_message, is_client_key};
ghost use Rattle.scram.specs.Messages.{first_view};
ghost use Rattle.scram.specs.Short.{text_of};
ghost use Rattle.scram.specs.declared.client_messages.TheConstants.{MAX_JOINT_NONCE, MAX_NONCE};
ghost use Rattle.user_file.specs.Salts.{judged_by};
ghost use Rattle.login_core.specs.Dialogue as login;
ghost use Rattle.login_core.specs.Dialogue.{ForFirst, ForLast, proof_by};
ghost use Rattle.login_core.specs.Logins.{Answers, Reveals, revealed_of, rows_under, told_of};

use crate::dialogue::{Answered, Asking, MALFORMED, Place, Rules, refused};
use crate::steps::{LoginRefusal, LoginStep, Question};
use message_view::Refusal;
use scram::client_messages::{First, Last};
use scram::server_messages::{challenge_message, final_message, nonce};
use scram::{Message, initial_response};
use start_keys::StartKey;
use start_keys::text::Text;
use std::alloc::{AllocError, Global};
use std::sync::Arc;
use user_file::{Judging, Salting};

/// An Authentication message with a text of SCRAM.
fn sasl_message(kind: u32, text: &[u8]) -> Message
    requires { length text.now ≤ 328 }
    ensures value { text_of result ≡ spelling (authentication kind text.now) }
    ensures short { length (text_of result) ≤ 9 + length text.now }
{
    let mut frame = Message::new();
    frame.push(b"R");
    frame.push(&(8 + text.len() as u32).to_be_bytes());
    frame.push(&kind.to_be_bytes());
    frame.push(text);
    frame
}

/// What a right proof leads to.
#[derive(Drop)]
struct Proved {
    /// The server's proof.
    told: Message,
    /// The client key that it reveals.
    client: [u8; 32],
}

/// What a client's proof leads to, where it is right. One that can't be right is compared too, so that it takes as long.
fn judge_proof(
    judging: &Judging,
    first: &First<'_>,
    challenge: &[u8],
    message: &Last<'_>,
) -> Option<Proved>
    ensures value { option_map told_of result ≡ proof_by (judged_by judging.now) (auth_message first.now.bare.now challenge.now message.now.unproved.now) message.now.proof }
    ensures short { IfSome result (λ p. length (text_of p.told) ≤ 337) }
    ensures client { IfSome result (λ p. IfSome (judged_by judging.now) (λ k. is_client_key k.stored p.client ≡ true)) }
{
    let keys = judging.keys;
    let client = keys.revealed(first.bare, challenge, message.unproved, &message.proof)?;
    if !judging.counts {
        return None;
    }
    let text = final_message(&keys.server, first.bare, challenge, message.unproved);
    Some(Proved {
        told: sasl_message(12, text.as_bytes()),
        client,
    })
}

impl Rules {
    /// How the user's password is salted, be there such a user or not.
    #[tactic(auto, unfolding(crate::specs::Dialogue::row_in))]
    fn salting(&self, key: &StartKey) -> Salting
        ensures { result ≡ login.salting (rows_under self.now key.now.row key.now.user) key.now }
    {
        self.users.salting(key.user.as_slice())
    }

    /// The keys by which the user's proof is judged.
    #[tactic(auto, unfolding(crate::specs::Dialogue::row_in))]
    fn judging(&self, alloc: Global, key: &StartKey) -> Result<Judging, AllocError>
        ensures { IfOk result (λ j. judged_by j ≡ login.keys (rows_under self.now key.now.row key.now.user) key.now) }
    {
        self.users.judging(alloc, key.user.as_slice())
    }

    /// The server's part of the nonce.
    fn own_nonce(&self) -> [u8; 24]
        ensures { result ≡ login.own_nonce self.now.word }
    {
        let mut secret = [0u8; 12];
        secret[..4].copy_from_slice(&self.word.pid.to_be_bytes());
        secret[4..8].copy_from_slice(&self.word.secret.to_be_bytes());
        secret[8..].copy_from_slice(&self.word.salt);
        nonce(&secret)
    }

    fn joint_nonce(&self, first: &First<'_>) -> Message
        requires { length first.now.nonce.now ≤ MAX_NONCE }
        ensures value { text_of result ≡ login.joint_nonce self.now.word (first_view first.now) }
        ensures short { length (text_of result) ≤ MAX_JOINT_NONCE }
    {
        let mut joint = Message::new();
        joint.push(first.nonce);
        joint.push(&self.own_nonce());
        joint
    }

    fn challenge(&self, key: &StartKey, first: &First<'_>) -> Message
        requires { length first.now.nonce.now ≤ MAX_NONCE }
        ensures value { text_of result ≡ login.challenge_to (rows_under self.now key.now.row key.now.user) self.now.word key.now (first_view first.now) }
        ensures short { length (text_of result) ≤ 328 }
    {
        let salting = self.salting(key);
        challenge_message(
            first.nonce,
            &self.own_nonce(),
            &salting.salt,
            salting.rounds,
        )
    }

    /// What a client reveals of its user's secret by a proof from which this client key came: of a verifier the key.
    #[tactic(auto, unfolding(crate::specs::Dialogue::row_in))]
    fn revealed(&self, key: &StartKey, client: [u8; 32]) -> Option<[u8; 32]>
        ensures { result ≡ (if login.has_verifier (rows_under self.now key.now.row key.now.user).user then Some client else None) }
    {
        if self.has_verifier(key) {
            Some(client)
        } else {
            None
        }
    }

    /// A SASLInitialResponse.
    pub(crate) fn on_first(&self, alloc: Global, key: Arc<StartKey>, body: &[u8]) -> Answered
        ensures answers { Answers (rows_under self.now) self.now.word (arc_value key) ForFirst body.now result }
        ensures reveals { Reveals (rows_under self.now) result.0 (revealed_of result.1) }
    {
        let Some(text) = initial_response(body) else {
            return refused(MALFORMED);
        };
        let Some(first) = First::read(text) else {
            return refused(MALFORMED);
        };
        let Ok(copy) = Text::from_slice(alloc, text) else {
            return refused(Refusal::OutOfMemory);
        };
        let challenge = self.challenge(&key, &first);
        let Ok(frame) = Box::new(alloc, sasl_message(11, challenge.as_bytes())) else {
            return refused(Refusal::OutOfMemory);
        };
        (
            LoginStep::Ask(Question::Challenge(frame)),
            Place::Asked(Asking::Last(copy), key),
        )
    }

    /// A SASLResponse, where the client's first message was this.
    pub(crate) fn on_last(
        &self,
        alloc: Global,
        key: Arc<StartKey>,
        first: &[u8],
        body: &[u8],
    ) -> Answered
        ensures answers { Answers (rows_under self.now) self.now.word (arc_value key) (ForLast first.now) body.now result }
        ensures reveals { Reveals (rows_under self.now) result.0 (revealed_of result.1) }
    {
        let Some(first) = First::read(first) else {
            return refused(MALFORMED);
        };
        let nonce = self.joint_nonce(&first);
        let Ok(read) = Last::read(alloc, first.header, nonce.as_bytes(), body) else {
            return refused(Refusal::OutOfMemory);
        };
        let Some(message) = read else {
            return refused(MALFORMED);
        };
        let Ok(judging) = self.judging(alloc, &key) else {
            return refused(Refusal::OutOfMemory);
        };
        let challenge = self.challenge(&key, &first);
        match judge_proof(&judging, &first, challenge.as_bytes(), &message) {
            Some(proved) => {
                let Ok(told) = Box::new(alloc, proved.told) else {
                    return refused(Refusal::OutOfMemory);
                };
                let verdict = self.admit(&key);
                let revealed = self.revealed(&key, proved.client);
                match self.last_step(alloc, verdict, key, Some(told), revealed) {
                    Ok(answered) => answered,
                    Err(_) => refused(Refusal::OutOfMemory),
                }
            }
            None => (
                LoginStep::Failed(LoginRefusal::WrongPassword),
                Place::Over(None),
            ),
        }
    }
}
