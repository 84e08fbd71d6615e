//! The broad phase: the near pairs of many places, found by the cells of a uniform grid.
#![tactic(auto)]

mod laws;
mod lookup;
mod near;
mod pairs;
mod rows;

pub use laws::searches_read_eight_chains_a_particle;
pub use pairs::{Grid, PairFilter};
