//! What the text of a host tells of its sessions.
#![tactic(auto)]

mod splitting;

pub use splitting::the_text_of_a_host_splits_in_one_way;
