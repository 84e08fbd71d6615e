//! The log of a session, written and read.
#![tactic(auto)]

mod answer;
mod entry;
mod laws;
mod pushes;
mod reading;
mod view;
mod writer;

pub use answer::answer_of;
pub use entry::{Answer, Entry, LogFault};
pub use laws::{
    different_bytes_differ, field_is_its_reading, logged_entries_are_grammatical,
    no_entry_begins_another, one_fault, one_reading, parts_spell_their_log,
};
pub use pushes::{push_byte, push_u32, push_u64, push_vector};
pub use view::{LogView, read_log};
pub use writer::LogWriter;
