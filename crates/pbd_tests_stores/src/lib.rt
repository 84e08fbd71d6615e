//! Tests of stores, of tracks and tears in one, and of the momentum.
#![tactic(auto)]

#[cfg(test)]
mod tests;
