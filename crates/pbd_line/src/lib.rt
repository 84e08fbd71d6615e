//! One line of bytes, which is filled piece by piece, so that one call can write it.
#![tactic(auto)]

mod line;

pub use line::Line;
