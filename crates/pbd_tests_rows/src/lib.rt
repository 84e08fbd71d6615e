//! What crates of tests share: places, particles, planes and links, whether a vector is within a bound, what is told of a row of
//! a table, and bytes of logs.
#![tactic(auto)]

pub mod logs;
mod places;
mod told;
mod within;

pub use places::{axes, squared_distance};
pub use told::{WIDTHS, WrongRows, all_hold, wrong_row};
pub use within::is_within;
