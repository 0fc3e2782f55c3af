//! What a password makes of a challenge.
ghost use Rattle.std.specs.Prelude.{◌≡◌, ◌≤◌, bytes_eq, length};
ghost use Rattle.message_view.specs.Messages.{message};
ghost use Rattle.message_view.specs.Parts.{Puts};
ghost use Rattle.frame_view.specs.declared.client.TheConstants.{PASSWORD_MESSAGE};
ghost use Rattle.scram.specs.declared.client_messages.TheConstants.{MAX_JOINT_NONCE, MAX_NONCE};
ghost use Rattle.credentials.specs.Exchanges.{exchange_by};

use bytes::BytesMut;
use frame_view::client::PASSWORD_MESSAGE;
use message_view::put_message;
use scram::client_messages::{first_message, last_message, last_unproved};
use scram::server_messages::final_message;
use scram::{ClientKeys, Message};
use std::alloc::AllocError;
use std::marker::Model;

/// The answer to a server's challenge, and the server's own proof, which has to follow. Contracts see both texts.
pub struct Exchange {
    last: Message,
    proof: Message,
}

impl Drop for Exchange {
    fn drop(self) {
        let Exchange { last: _, proof: _ } = self;
    }
}

impl Model for Exchange {
    ghost use Rattle.scram.specs.Short.{text_of};
    ghost use Rattle.credentials.specs.Exchanges.{ExchangeOf};

    ghost Value = { ExchangeOf };

    ghost view = { λ e. record { last = text_of e.last; proof = text_of e.proof } };
}

impl Exchange {
    /// That of these keys, of a client with this nonce, over this challenge, whose nonce is that of both.
    pub(crate) fn of(
        keys: &ClientKeys,
        nonce: &[u8; 24],
        challenge: &[u8],
        joint: &[u8],
    ) -> Exchange
        requires { length joint.now ≤ MAX_JOINT_NONCE }
        ensures { result ≡ exchange_by keys.now nonce.now challenge.now joint.now }
    {
        let first = first_message(nonce);
        let bare = &first.as_bytes()[3..];
        let unproved = last_unproved(joint);
        let proof = keys.proof(bare, challenge, unproved.as_bytes());
        Exchange {
            last: last_message(joint, &proof),
            proof: final_message(&keys.server, bare, challenge, unproved.as_bytes()),
        }
    }

    /// The same once more.
    pub(crate) fn copy(&self) -> Exchange
        ensures { result ≡ self.now }
    {
        Exchange {
            last: self.last,
            proof: self.proof,
        }
    }

    /// Puts the SASLResponse with the client's last message.
    ///
    /// `AllocError` where a growth is refused; then `out` is unchanged.
    pub fn put_last(&self, out: &mut BytesMut) -> Result<(), AllocError>
        ensures { Puts result out.old out.new (message PASSWORD_MESSAGE self.now.last) }
    {
        put_message(out, PASSWORD_MESSAGE, &[self.last.as_bytes()])
    }

    /// Whether this text is the server's proof that it knows the password too.
    pub fn is_proved_by(&self, text: &[u8]) -> bool
        ensures { result ≡ bytes_eq text.now self.now.proof }
    {
        text == self.proof.as_bytes()
    }
}
