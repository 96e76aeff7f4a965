//! Worked examples of what propagation alone gives: literals that are forced, contradictions, and refutations under budgets.
//!
//! This crate has only tests. What they expect is worked out by hand from the rules that docs/ describes, and never copied from
//! what the program prints.
#![tactic(auto)]

#[cfg(test)]
mod contradictions;
#[cfg(test)]
mod programs;
#[cfg(test)]
mod refutations;
#[cfg(test)]
mod sets;
#[cfg(test)]
mod sources;
