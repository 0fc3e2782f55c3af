//! Where the bytes of a lease stand on their way.
ghost use Rattle.std.specs.Prelude.{◌≡◌, IfSome, None, Ok, length};

use crate::flow::ROOM;
use std::alloc::{AllocError, Global};
use std::marker::Model;

/// The buffer of one direction, of [`ROOM`] bytes. What an earlier lease left in it nobody sees, since a flow begins with none of its
/// bytes; so it isn't cleared from one lease to the next.
pub struct Buffer {
    bytes: Vec<u8>,
}

impl Drop for Buffer {
    fn drop(self) {
        let Buffer { bytes: _ } = self;
    }
}

impl Model for Buffer {
    ghost use Rattle.std.specs.Prelude.{◌≡◌, List, ℕ, length};
    ghost use Rattle.relay_flow.specs.declared.flow.TheConstants.{ROOM};

    ghost Value = { List ℕ };

    ghost view = { λ b. b.bytes.items };

    ghost invariant = { λ b. length b.bytes.items ≡ ROOM };
}

impl Buffer {
    /// A new one. AllocError where there is no memory.
    fn new(alloc: Global) -> Result<Buffer, AllocError> {
        Ok(Buffer {
            bytes: vec![in alloc; 0u8; ROOM]?,
        })
    }

    /// That of these bytes.
    pub(crate) fn of(bytes: Vec<u8>) -> Buffer
        requires { length bytes.items ≡ ROOM }
        ensures { result ≡ bytes.items }
    {
        Buffer { bytes }
    }

    /// Its bytes.
    pub(crate) fn into_bytes(self) -> Vec<u8>
        ensures items { result.items ≡ self }
        ensures room { length result.items ≡ ROOM }
    {
        let Buffer { bytes } = self;
        bytes
    }
}

/// The buffers of a lease, which a thread may keep for the next one.
#[derive(Drop)]
pub struct Buffers {
    pub to_link: Buffer,
    pub to_client: Buffer,
}

impl Buffers {
    /// New ones. AllocError where there is no memory.
    fn new(alloc: Global) -> Result<Buffers, AllocError> {
        Ok(Buffers {
            to_link: Buffer::new(alloc)?,
            to_client: Buffer::new(alloc)?,
        })
    }

    /// Those that are kept, if any are, or new ones; none are kept any more. AllocError where none are, and there is no memory.
    pub fn take_or_new(alloc: Global, kept: &mut Option<Buffers>) -> Result<Buffers, AllocError>
        ensures kept { kept.new ≡ None }
        ensures taken { IfSome kept.old (λ b. result ≡ Ok b) }
    {
        match kept.take() {
            Some(buffers) => Ok(buffers),
            None => Buffers::new(alloc),
        }
    }
}
