//! Tests of sessions at each width and with both projectors, and of a cloth.
#![tactic(auto)]

#[cfg(test)]
mod tests;
