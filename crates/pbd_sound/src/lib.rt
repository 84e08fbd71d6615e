//! Whether a world that is described item by item is sound, and the first of it that is not.
#![tactic(auto)]

mod described;
mod judging;
mod laws;
mod ledger;
mod particles;
mod writing;

pub use described::{Described, Unsound};
pub use judging::{Numbers, judge};
pub use laws::{described_worlds_are_of_one_scene, soundness_is_tested};
pub use writing::{write_links, write_particles};
