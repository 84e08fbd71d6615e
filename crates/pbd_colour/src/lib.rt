//! Greedy colours of pairs, so that the live pairs of one colour below 63 share no particle.
#![tactic(auto)]

mod colouring;
mod gather;
mod held;
mod laws;
mod lists;
mod marks;
mod mend;
mod neighbours;
mod paint;
mod toward;

pub use colouring::Colouring;
pub use laws::{batches_are_apart, batches_are_live, batches_make_order};
