//! The tests, of steps, of what they may cost and of random bonds.
mod accesses;
mod both;
mod random_bonds;
mod step;
mod step_rows;
