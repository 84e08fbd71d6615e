//! The slots of a cloth and the marks of a script are the machine of slots of `pbd_laws`, so that its law of rollback holds for
//! both.
#![tactic(auto)]

mod kept;

pub use kept::{cloths_are_a_machine_of_slots, marks_are_a_machine_of_slots};
