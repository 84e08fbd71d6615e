//! Sessions: commands one after another, their printed replies, and logs that are recorded and replayed.
#![tactic(auto)]

mod ending;
mod entry;
mod laws;
mod line;
mod printing;
mod record;
mod replay;
mod script;
mod session;
mod sums;

pub use ending::{Compared, Field, ReplayEnd, RunEnd};
pub use laws::{nothing_before_lines_is_the_text, recorded_sessions_replay_alike};
pub use record::run_record;
pub use replay::run_replay;
pub use script::run_script;
pub use session::Session;
