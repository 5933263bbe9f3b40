//! Tests that cross crates: inputs, outputs and runs over devices that are interrupted or fail, and
//! the order of what a run does. Whole runs have rows in `row_tests`, and the program has transcripts.
#![tactic(auto)]

#[cfg(test)]
mod memory;
#[cfg(test)]
mod order;
#[cfg(test)]
mod troubles;
#[cfg(test)]
mod whole;
