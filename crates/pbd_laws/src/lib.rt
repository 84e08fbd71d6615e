//! Laws of whole sessions, on which games in lock step rest, of one projection and of shapes: each the contract of a function that
//! does nothing.
#![tactic(auto)]

mod bonds;
mod commuting;
mod costs;
mod rollback;
mod shapes;
mod staying;
mod steps;

pub use bonds::one_projection_comes_to_the_rest_length;
pub use commuting::{commands_that_name_different_things_commute, reading_changes_nothing};
pub use costs::{logs_have_the_commands_of_their_script, sessions_cost_a_sum_of_the_scene};
pub use rollback::{a_slot_keeps_its_world, late_inputs_come_to_the_same_world};
pub use shapes::shapes_leave_particles_outside;
pub use staying::{
    gone_links_stay_gone, held_particles_keep_their_places, sessions_keep_their_scene,
};
pub use steps::steps_add_up;
