//! Tests of whole runs, from the words to the status and the bytes: tables of inputs, logs, meshes, marks and hosts, tagged
//! lines, sixteen sessions in a hundred drawn orders, cloths, and sources and sinks that fail.
#![tactic(auto)]

#[cfg(test)]
mod tests;
