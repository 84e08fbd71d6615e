// The commands of a marks script, and why a mark is refused.
use pbd_world::Command;

/// What a line of a marks script asks for.
#[derive(Clone, Copy, Debug, PartialEq, Eq)]
pub enum MarkCommand {
    /// A command to the world.
    Plain(Command),
    /// Keep the world as mark k.
    Mark(u64),
    /// Go back to mark k.
    Rewind(u64),
}

/// Why a mark is refused.
#[derive(Clone, Copy, Debug, PartialEq, Eq)]
pub enum MarkRefusal {
    /// 13: there are marks 0 to 7 alone.
    BadMark,
    /// 14: nothing was kept as this mark.
    MarkEmpty,
}
