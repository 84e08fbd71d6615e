//! Doubly linked lists by index, in rooms that are made once.
#![tactic(auto)]

mod chains;
mod laws;
mod links;
mod targets;

pub use chains::Chains;
pub use laws::{
    chains_link_their_items, items_of_no_chain_are_free, linking_adds_one, unlinking_takes_one,
    walked_items_are_in, walks_end,
};
