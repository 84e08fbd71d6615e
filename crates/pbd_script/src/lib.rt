//! The commands of a script, line by line.
#![tactic(auto)]

mod command;
mod laws;
pub mod lines;
mod script;

pub use command::line_command;
pub use laws::{
    counts_are_read_back, lines_that_are_not_ascii_are_bad, numbers_are_read_back,
    scripts_are_read_line_by_line,
};
pub use script::{CommandLines, LineCommand, Script};
