//! Tests of lists and scenes, of chains, colours, cells and contacts, and of boxes taken apart.
#![tactic(auto)]

#[cfg(test)]
mod tests;
