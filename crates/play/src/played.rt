//! What a play comes to.
use bytes::BytesMut;

/// What one client was given, and the numbers of the links that it had, in turn.
pub struct Given {
    pub bytes: BytesMut,
    pub links: Vec<u64>,
}

impl Drop for Given {
    fn drop(self) {
        let Given { bytes: _, links: _ } = self;
    }
}

/// The clients of a play, in the order in which they came.
pub struct Played {
    pub clients: Vec<Given>,
}

impl Drop for Played {
    fn drop(self) {
        let Played { clients: _ } = self;
    }
}
