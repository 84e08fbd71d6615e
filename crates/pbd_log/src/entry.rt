// The entries of a log: a command, what was answered, and the sums of a frame.
use pbd_world::{Command, FrameSums};

/// What a session answered: a number from 0 to 12, and what 11 and 12 carry. Absent fields are 0.
#[derive(Clone, Copy, Debug, PartialEq, Eq)]
pub struct Answer {
    /// 0 where the command was done, or the refusal's number.
    pub number: u8,
    /// The step that was refused, for 11 and 12.
    pub step: u64,
    /// The part of that step, for 11: 1 predict, 2 link, 3 contact, 4 shape.
    pub phase: u8,
    /// What left the range, for 11: the number of a particle or a link, or a position in the list of contacts.
    pub element: u32,
}

/// A command, what the session answered, and after a step that was done the sums of its frame.
#[derive(Clone, Copy, Debug, PartialEq, Eq)]
pub struct Entry {
    pub command: Command,
    pub answer: Answer,
    pub sums: Option<FrameSums>,
}

/// Bytes that are no log.
#[derive(Clone, Copy, Debug, PartialEq, Eq)]
pub struct LogFault {
    /// How many bytes stand before the part that can't be read.
    pub offset: u64,
}
