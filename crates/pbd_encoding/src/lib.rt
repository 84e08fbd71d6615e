//! The bytes of a world: what they are, what bytes tell, and where bytes go wrong that have no form of a state. And those of
//! its scene.
#![tactic(auto)]

mod form;
mod laws;
mod pieces;
mod scene;
mod view;

pub use form::{Counts, StateFault, check_form};
pub use laws::{
    refusals_are_exact, scene_bytes_tell_scenes_apart, sizes_are_known, states_tell_worlds_apart,
    what_is_told_is_written, what_is_written_is_told,
};
pub use pieces::{first_totals, flag, header, last_totals, vector};
pub use scene::{ScenePiece, Settings, feed_all, feed_shapes, number, scene_head};
pub use view::StateView;
