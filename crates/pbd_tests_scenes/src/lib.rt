//! What the crates of tests of steps, sessions, states and marks share: scenes, and the particles, links and keys with which they
//! are drawn.
#![tactic(auto)]

mod entries;
mod scenes;

pub use pbd_tests_rows::place;
pub use scenes::{
    AT_THE_EDGE, Drawing, EMPTY, FLIES, LED, NEAR_THE_EDGE, ON_A_SPHERE, PULLS,
    PULLS_AT_A_HELD_ONE, PUSHES, TEARS, in_a_row, parts_of, scene, scene_of,
};
