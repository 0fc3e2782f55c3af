//! Where a session stands to a transaction block.
/// Where a session stands to a transaction block (PostgreSQL manual, "BEGIN").
#[derive(Clone, Copy, PartialEq, Eq, Drop)]
pub enum Block {
    Outside,
    Inside,
    /// Inside, after an error.
    Failed,
}
