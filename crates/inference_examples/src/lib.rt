//! Worked examples of inference in a scope of names and over lines that are known.
//!
//! This crate has only tests. What they expect is worked out by hand from the rules that docs/ describes, and never copied from
//! what the program prints.
#![tactic(auto)]

#[cfg(test)]
mod answers;
#[cfg(test)]
mod sources;
#[cfg(test)]
mod tests;
