//! Eight marked worlds to which a run can go back, and the script that sets them.
#![tactic(auto)]

mod command;
mod laws;
mod marks;
mod script;

pub use command::{MarkCommand, MarkRefusal};
pub use laws::{
    a_rewind_changes_no_mark, a_rewind_takes_back_all_since_its_mark,
    setting_a_mark_changes_no_other,
};
pub use marks::Marks;
pub use script::MarkScript;
