//! Tests of batches whose reads and writes are mixed.
#![tactic(auto)]

#[cfg(test)]
mod tests;
