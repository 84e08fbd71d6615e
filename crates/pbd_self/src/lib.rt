//! The contacts of a step: the pairs of particles that touch each other.
#![tactic(auto)]

mod apart;
mod contacts;
mod laws;
mod places;

pub use contacts::SelfContacts;
pub use laws::touching_pairs_are_contacts;
