//! Tests of numbers and vectors, of the moves of pairs, exact, guessed and many at a time, and of lanes.
#![tactic(auto)]

#[cfg(test)]
mod tests;
