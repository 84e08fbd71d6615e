//! What a run comes to, by its words and its input: the job, the status, the outcome, and the laws of outcomes.
#![tactic(auto)]

mod job;
mod laws;
mod status;

pub use job::{Job, job_of};
pub use laws::{
    a_recorded_log_is_accepted, a_recorded_log_replays_alike,
    a_refused_command_changes_nothing_later, a_scrambled_run_comes_to_what_simulate_does,
    an_old_log_replays_with_its_own_limit, each_input_has_an_outcome, each_input_has_one_outcome,
};
pub use status::{Status, ends_as, replay_status, status_line};
