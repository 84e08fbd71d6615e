//! Tests of steps and commands at each width and with both projectors, and of random bonds.
#![tactic(auto)]

#[cfg(test)]
mod tests;
