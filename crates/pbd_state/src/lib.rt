//! A world as bytes: written, read and hashed.
#![tactic(auto)]

mod fields;
mod hashing;
mod laws;
mod naming;
mod reading;
mod summing;
mod writing;

pub use hashing::digest;
pub use laws::{
    equal_worlds_have_equal_digests, one_word_shows, sound_worlds_differ, states_alone_are_taken,
    what_was_written_is_read,
};
pub use naming::scene_name;
pub use reading::read_state;
pub use summing::checksum;
pub use writing::{NoRoom, state_size, write_state};
