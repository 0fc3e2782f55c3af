//! What the calls of a login answer.
ghost use Rattle.std.specs.Prelude.{◌≡◌};
ghost use Rattle.login_core.specs.Logins as spec;

use message_view::{AUTHENTICATION_OK, Refusal};
use scram::Message;
use start_keys::StartKey;
use std::sync::Arc;

/// What a client is asked, or told of its request for encryption.
#[derive(Drop)]
pub enum Question {
    /// The byte `N`: there is no encryption, so the client goes on without it or leaves.
    Encryption,
    /// AuthenticationCleartextPassword.
    Cleartext,
    /// This AuthenticationMD5Password, with its salt.
    Md5([u8; 13]),
    /// AuthenticationSASL, which offers SCRAM-SHA-256.
    Scram,
    /// This AuthenticationSASLContinue, with SCRAM's challenge.
    Challenge(Box<Message>),
}

impl Question {
    /// The bytes for the client.
    pub fn as_bytes(&self) -> &[u8]
        ensures { result.now ≡ spec.question_bytes self.now }
    {
        match self {
            Question::Encryption => b"N",
            Question::Cleartext => b"R\0\0\0\x08\0\0\0\x03",
            Question::Md5(frame) => frame.as_slice(),
            Question::Scram => b"R\0\0\0\x17\0\0\0\x0aSCRAM-SHA-256\0\0",
            Question::Challenge(frame) => frame.as_bytes(),
        }
    }
}

/// The Authentication messages that a client is told once it is let in (PostgreSQL manual, "Start-up").
#[derive(Drop)]
pub enum Authenticated {
    /// None.
    Nothing,
    /// AuthenticationOk.
    Ok,
    /// These, of which AuthenticationSASLFinal is the first.
    WithProof(Box<Message>),
}

impl Authenticated {
    /// The bytes for the client.
    pub fn as_bytes(&self) -> &[u8]
        ensures { result.now ≡ spec.authenticated_bytes self.now }
    {
        match self {
            Authenticated::Nothing => b"",
            Authenticated::Ok => &AUTHENTICATION_OK[..],
            Authenticated::WithProof(frames) => frames.as_bytes(),
        }
    }
}

/// Why a client isn't admitted, as a server of its own would say.
#[derive(Clone, Copy, Drop)]
pub enum LoginRefusal {
    /// 28P01: an unknown user, or not its password.
    WrongPassword,
    /// 3D000: the settings have no row of the database.
    NoDatabase,
}

impl LoginRefusal {
    /// One ErrorResponse of severity FATAL.
    pub fn as_bytes(&self) -> &'static [u8]
        ensures { result.now ≡ spec.failure_bytes self.now }
    {
        match self {
            LoginRefusal::WrongPassword =>
                b"E\0\0\0\x3aSFATAL\0VFATAL\0C28P01\0Mpassword authentication failed\0\0",
            LoginRefusal::NoDatabase =>
                b"E\0\0\0\x33SFATAL\0VFATAL\0C3D000\0Mdatabase does not exist\0\0",
        }
    }
}

/// What a call of a login answers.
#[derive(Drop)]
pub enum LoginStep {
    /// Bytes are missing from the packet that it waits for.
    More,
    /// The client is told or asked this, and its next packet is waited for.
    Ask(Question),
    /// The client has arrived, with this start key. The login goes on at the next call, which takes no byte.
    Arrived(Arc<StartKey>),
    /// The client is let in with this start key. The caller gives it this: AuthenticationOk, behind AuthenticationSASLFinal where the
    /// client was asked for SCRAM.
    Passed(Arc<StartKey>, Authenticated),
    /// The client is let in to the console. The caller gives it this, which is AuthenticationSASLFinal where the client was asked for SCRAM
    /// and else nothing, and then AuthenticationOk.
    Console(Authenticated),
    /// The client is given this refusal and closed.
    Refused(Refusal),
    /// The client is given this error and closed.
    Failed(LoginRefusal),
    /// A CancelRequest came, with these words of the BackendKeyData that it names. The client is closed without a byte, whatever
    /// comes of it.
    Cancel { pid: u32, secret: u32 },
    /// The client is closed without a byte.
    Left,
}

impl LoginStep {
    pub(crate) fn is_more(&self) -> bool
        ensures { spec.IsMore result self.now }
    {
        matches!(self, LoginStep::More)
    }

    /// Whether it refuses a startup parameter.
    pub(crate) fn is_unsupported(&self) -> bool {
        matches!(self, LoginStep::Refused(Refusal::UnsupportedParameter))
    }
}
