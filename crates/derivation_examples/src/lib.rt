//! Worked examples of derivations: such as refute the rules of small programs, and the same with one thing altered, as tables.
//!
//! This crate has only tests. What they expect is worked out by hand from the rules and the faults that docs/ describes, and never
//! copied from what the program prints. The examples of the front and of runs are in `worked_examples`.
#![tactic(auto)]

#[cfg(test)]
mod derivations;
#[cfg(test)]
mod programs;
