//! Numbers of four bytes, the highest byte first.

ghost use Rattle.std.specs.Prelude.{◌≡◌, ◌+◌, ◌≤◌, length, slice_index};
ghost use Rattle.frame_view.specs.Frames.{number};

use byteorder::{BigEndian, ByteOrder};

/// The number that begins at this place.
pub(crate) fn number_at(bytes: &[u8], at: usize) -> u32
    requires { at + 4 ≤ length bytes.now }
    ensures { result ≡ number (slice_index bytes.now at) (slice_index bytes.now (at + 1))
        (slice_index bytes.now (at + 2)) (slice_index bytes.now (at + 3)) }
{
    BigEndian::read_u32(&bytes[at..])
}
