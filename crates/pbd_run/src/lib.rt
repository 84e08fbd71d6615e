//! What the program's forms do, from the job to the status.
#![tactic(auto)]

mod ending;
mod form;
mod forms;
mod generated;
mod halves;
mod host;
mod inputs;
mod large;
mod line;
mod marked;
mod marks;
mod obj_text;
mod reading;
mod scene;
mod scenes;
mod serving;
mod split;
mod task;
mod thirds;

pub use form::{AtWidth, Counted, Form, Settled, with_counter};
pub use forms::perform;
