//! Tests of what the passes of a step do to a store: bonds, pairs of particles that are parted, and shapes; and of friction.
#![tactic(auto)]

#[cfg(test)]
mod tests;
