//! The decisions that a lease book made last.

/// A decision of the book, without the secrets of keys: its number, the pass through which its event came, the event and the number that it
/// names (a client's, a link's, a second), and the reply with the number that that names. A number of 0 is none.
#[derive(Clone, Copy, Drop)]
pub struct DecisionSeen {
    pub number: u64,
    pub pass: u64,
    pub event: &'static str,
    pub of: u64,
    pub reply: &'static str,
    pub to: u64,
}
