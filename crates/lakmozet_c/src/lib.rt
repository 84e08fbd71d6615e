//! The solver for programs in C: each call is total, and one that takes a handle says what that holds afterwards.
#![tactic(auto)]

mod commands;
mod cuts;
mod drawing;
mod handle;
mod lists;
mod meshes;
mod numbers;
mod open;
mod opening;
mod plain;
mod reads;
mod recording;
mod replaying;
mod room_sink;
mod runs;
mod slots;
mod state;
mod version;

pub use handle::Handle;
pub use plain::{Book, Counts, Fault, Hash, Left, MeshEntry, MeshFault, Stop, Sums, Version, Wide};
