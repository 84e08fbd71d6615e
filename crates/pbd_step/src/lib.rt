//! A world that steps: each command is its meaning, at every lane width and for every projector.
#![tactic(auto)]

mod again;
mod assume;
mod bonds;
mod commands;
mod lay;
mod leaving;
mod open;
mod pass;
mod predict;
mod rub_and_tear;
mod snapshot;
mod solver;
mod state;
mod step;
mod views;

pub use snapshot::Snapshot;
pub use solver::Solver;
pub use views::Shown;
