//! Tests of states: where wrong bytes are refused, and that a refusal leaves the world as it was; what one width writes another
//! reads; names of scenes, digests and checksums.
#![tactic(auto)]

#[cfg(test)]
mod tests;
