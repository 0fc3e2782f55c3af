//! A client's first packet: a length, a code, and what the code asks for.

ghost use Rattle.std.specs.Prelude.{◌≡◌, ◌≤◌, length, drop};
ghost use Rattle.frame_view.specs.Answers.{LiesInFirst, TellsFirst};
ghost use Rattle.frame_view.specs.Frames.{after_code, at_code, cancel_of, first_front, of_code, Start};

use crate::numbers::number_at;
use crate::{FirstStep, FrameError};

/// The code of a StartupMessage: protocol 3.0, its major and minor number in two bytes each.
pub const PROTOCOL_3_0: u32 = 196_608;
/// The code of a CancelRequest.
pub const CANCEL_REQUEST: u32 = 80_877_102;
/// The code of an SSLRequest.
pub const SSL_REQUEST: u32 = 80_877_103;
/// The code of a GSSENCRequest.
pub const GSSENC_REQUEST: u32 = 80_877_104;

/// The greatest length of a first packet.
pub const MAX_FIRST_PACKET: u32 = 10_000;
/// The length of a packet that is a length and a code alone.
const LEAST_FIRST_PACKET: u32 = 8;
/// The length of a CancelRequest.
const CANCEL_LENGTH: u32 = 16;

/// The bytes of a length, and those of a code.
const NUMBER: usize = 4;
/// The bytes of a length and a code.
const HEAD: usize = 8;
/// The bytes of a CancelRequest's process number and secret.
const CANCEL_WORDS: usize = 8;

fn startup_of(size: usize, rest: &[u8]) -> FirstStep<'_>
    ensures tells { TellsFirst result (after_code size Start rest.now) }
    ensures place { LiesInFirst result rest.entry 0 }
{
    if rest.len() < size {
        return FirstStep::Need(size - rest.len());
    }
    FirstStep::Startup(&rest[..size])
}

fn cancel_at(rest: &[u8]) -> FirstStep<'_>
    ensures tells { TellsFirst result (after_code 8 cancel_of rest.now) }
    ensures place { LiesInFirst result rest.entry 0 }
{
    if rest.len() < CANCEL_WORDS {
        return FirstStep::Need(CANCEL_WORDS - rest.len());
    }
    FirstStep::Cancel {
        pid: number_at(rest, 0),
        secret: number_at(rest, NUMBER),
    }
}

fn code_at(length: u32, code: u32, rest: &[u8]) -> FirstStep<'_>
    requires { 8 ≤ length }
    ensures tells { TellsFirst result (of_code length code rest.now) }
    ensures place { LiesInFirst result rest.entry 0 }
{
    match code {
        PROTOCOL_3_0 => startup_of(length as usize - HEAD, rest),
        CANCEL_REQUEST if length == CANCEL_LENGTH => cancel_at(rest),
        SSL_REQUEST if length == LEAST_FIRST_PACKET => FirstStep::Tls,
        GSSENC_REQUEST if length == LEAST_FIRST_PACKET => FirstStep::Gss,
        CANCEL_REQUEST | SSL_REQUEST | GSSENC_REQUEST => FirstStep::Bad(FrameError::TooShort),
        _ => FirstStep::Bad(FrameError::UnknownCode),
    }
}

fn length_at(length: u32, rest: &[u8]) -> FirstStep<'_>
    requires { 8 ≤ length }
    ensures tells { TellsFirst result (at_code length rest.now) }
    ensures place { LiesInFirst result rest.entry 4 }
{
    if rest.len() < NUMBER {
        return FirstStep::Need(NUMBER - rest.len());
    }
    code_at(length, number_at(rest, 0), &rest[NUMBER..])
}

/// Reads a client's first packet from the front of `buf`.
///
/// A StartupMessage's slice is that of `buf`, from its ninth byte on. A length below 8
/// ([`FrameError::TooShort`]) or above [`MAX_FIRST_PACKET`] ([`FrameError::TooLong`]) is told once
/// four bytes are there. Once eight are there, so is [`FrameError::UnknownCode`], and
/// [`FrameError::TooShort`] for a CancelRequest whose length isn't 16 and an SSLRequest or
/// GSSENCRequest whose length isn't 8. Takes no memory.
pub fn first_packet(buf: &[u8]) -> FirstStep<'_>
    ensures tells { TellsFirst result (first_front buf.now) }
    ensures place { LiesInFirst result buf.entry 8 }
{
    if buf.len() < NUMBER {
        return FirstStep::Need(HEAD - buf.len());
    }
    let length = number_at(buf, 0);
    if length < LEAST_FIRST_PACKET {
        return FirstStep::Bad(FrameError::TooShort);
    }
    if length > MAX_FIRST_PACKET {
        return FirstStep::Bad(FrameError::TooLong);
    }
    length_at(length, &buf[NUMBER..])
}
