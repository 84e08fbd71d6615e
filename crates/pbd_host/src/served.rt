//! What became of a tagged line.

/// What became of a tagged line.
#[derive(Clone, Copy, Debug, PartialEq, Eq)]
pub enum Served {
    /// It has no words, or is a comment.
    Blank,
    /// The session did its command.
    Accepted { session: u32 },
    /// The session refused its command.
    Refused { session: u32 },
    /// Its first word is the number of no session.
    BadTag,
}
