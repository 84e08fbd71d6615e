//! The library's answers beside the numbers of refusals: its own, and statuses of the program's, each with 32 added, so that no
//! refusal has its number.

/// The handle is closed.
pub(crate) const CLOSED: i32 = 64;

/// The handle is open.
pub(crate) const IN_USE: i32 = 65;

/// There is no such slot, or open was asked for more than 16.
pub(crate) const NO_SLOT: i32 = 66;

/// The caller's memory is too short for all.
pub(crate) const NO_ROOM: i32 = 67;

/// The bytes are no state of the scene.
pub(crate) const NO_STATE: i32 = 68;

/// No link has this number, as a refusal tells it.
pub(crate) const NO_LINK: i32 = 3;

/// The caller's memory is too short for a log or a text.
pub(crate) const NO_LOG_ROOM: i32 = 35;

/// What a run was given is longer than it may be.
pub(crate) const TOO_LONG: i32 = 36;

/// The scene is no UTF-8.
pub(crate) const SCENE_NOT_TEXT: i32 = 38;

/// The scene is no TOML, or deeper or longer than is read.
pub(crate) const SCENE_NOT_TOML: i32 = 39;

/// The scene breaks a rule.
pub(crate) const SCENE_REFUSED: i32 = 40;

/// The bytes are no log.
pub(crate) const LOG_REFUSED: i32 = 41;

/// An entry of a log differs.
pub(crate) const MISMATCH: i32 = 42;

/// All went well, but a command was refused.
pub(crate) const SOME_REFUSED: i32 = 43;

/// There was no memory.
pub(crate) const OUT_OF_MEMORY: i32 = 44;

/// A mesh or its settings are refused.
pub(crate) const MESH_REFUSED: i32 = 46;
