//! A list of particles, read and written one by one, in lanes, by many pairs at once, or all at once.
#![tactic(auto)]

mod columns;
mod flight;
mod fly;
mod lanes3;
mod laws;
mod pairs;
mod pulling;
mod reach;
mod rows;
mod span;
mod steps;
mod store;

pub use columns::effective_weight_of;
pub use flight::{Flown, Forces};
pub use lanes3::{Block, Ends, Lanes3};
pub use laws::valid_particles_are_inside;
pub use pairs::{Between, EndMoves, Pairs};
pub use span::Span;
pub use steps::Steps;
pub use store::Store;
