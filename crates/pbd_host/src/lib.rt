//! Up to sixteen sessions side by side: each tagged line is a command for one of them, and changes no other.
#![tactic(auto)]

mod host;
mod laws;
mod request;
mod served;

pub use host::Host;
pub use laws::{a_line_changes_its_own_world_alone, hosted_sessions_are_apart};
pub use request::Request;
pub use served::Served;
