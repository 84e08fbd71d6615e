//! Tests of marks and their scripts.
#![tactic(auto)]

#[cfg(test)]
mod tests;
