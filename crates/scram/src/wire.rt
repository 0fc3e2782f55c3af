//! The message by which a client names its mechanism.
ghost use Rattle.std.specs.Prelude.{◌≡◌, option_map};
ghost use Rattle.scram.specs.Wire as spec;

use crate::texts::behind;
use byteorder::{BigEndian, ByteOrder};

/// The client's first message of SCRAM, out of the body of a SASLInitialResponse: the mechanism's name and a zero byte, the length of
/// what follows in four bytes, and the message.
///
/// None where the body names another mechanism than SCRAM-SHA-256 (SCRAM-SHA-256-PLUS too), has no message, or one of another length.
#[tactic(auto, unfolding(crate::specs::Wire::initial_response_of))]
pub fn initial_response(body: &[u8]) -> Option<&[u8]>
    ensures { option_map (λ t. t.now) result ≡ spec.initial_response_of body.now }
{
    let rest = behind(b"SCRAM-SHA-256\0", body)?;
    if rest.len() < 4 {
        return None;
    }
    let message = &rest[4..];
    if BigEndian::read_u32(rest) as usize != message.len() {
        return None;
    }
    Some(message)
}
