//! The plain types of a scene and a session, and in `specs/` what they mean.
#![tactic(auto)]

mod bond;
mod command;
mod joined;
mod laws;
mod limits;
mod list;
mod neighbours;
mod parts;
mod room_list;
mod scene;
mod single;
mod totals;
mod valid;

pub use bond::{Bond, Correction, End, Shift};
pub use command::{
    Command, FrameSums, Left, OperandKind, Operands, Phase, Refusal, Reply, Verb, VerbRow, Width,
};
pub use laws::{
    colours_are_determined, colours_are_greedy, commands_are_their_parts,
    commands_keep_the_balance, commands_keep_worlds_sound, contacts_are_the_touching_pairs,
    equal_weights_keep_momentum, links_are_never_serial, opened_worlds_are_sound, orders_ascend,
    orders_hold_each_live_pair_once, refused_commands_change_nothing, sessions_stay_sound,
    steps_cost_a_sum, totals_with_room_take_moves, twice_the_lanes_halve_the_links,
    valid_links_are_facts, verbs_are_told_apart, wider_steps_cost_no_more,
    without_thickness_contacts_are_free,
};
pub use limits::{
    LAST_STEP, MOST_AT_PARTICLE, MOST_CONTACTS, MOST_LINKS, MOST_PARTICLES, MOST_STEPS,
    MOST_THICKNESS, MOST_TRACKS, OLD_RANGE,
};
pub use list::List;
pub use neighbours::NeighbourLists;
pub use parts::{Key, Kind, Link, Particle, Parts, Plane, ShapeLists, Sphere, Track};
pub use room_list::{Full, RoomList};
pub use scene::{PartsFault, Scene};
pub use totals::{Class, Totals};
