//! Worked examples of certificates: such as are good for small programs, the same with some lines altered, and runs under a good one.
//!
//! This crate has only tests. What they expect is worked out by hand from the rules and the faults that docs/ describes, and never
//! copied from what the program prints. Examples of derivations are in `derivation_examples`.
#![tactic(auto)]

#[cfg(test)]
mod certificates;
#[cfg(test)]
mod programs;
#[cfg(test)]
mod runs;
#[cfg(test)]
mod texts;
