//! Tests of what reads and writes bytes: sources and sinks, lines, scripts and logs.
#![tactic(auto)]

#[cfg(test)]
mod tests;
