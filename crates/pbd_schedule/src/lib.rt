//! A batch of bonds whose reads and writes are mixed, as they are given or as they are drawn.
#![tactic(auto)]

mod check;
mod draw;
mod event;
mod laws;
mod lists;
mod mix;
mod notes;
mod scramble;

pub use event::{Event, EventFault};
pub use laws::{
    drawn_events_are_legal, legal_interleavings_agree,
    legal_interleavings_agree_with_the_drawn_one, reads_then_writes_are_legal,
};
pub use notes::{Notes, run_events};
pub use scramble::ScrambleProjector;
