//! A session for an engine: one width, and slots in which whole worlds are kept and gone back to.
#![tactic(auto)]

mod cloth;
mod copying;
mod counted;
mod cuts;
mod entry;
mod laws;
mod naming;
mod place;
mod reads;
mod state;

pub use cloth::{Cloth, LANES, MOST_SLOTS};
pub use entry::LinkEntry;
pub use laws::{
    a_restore_changes_no_slot, a_save_changes_no_other_slot, commands_change_no_slot,
    what_was_played_since_a_save_is_taken_back,
};
pub use place::Place;
pub use reads::Balance;
