//! Worked examples of what stands below the top call, from tokens to the unknowns of a program, as tables.
//!
//! This crate has only tests. What they expect is worked out by hand from the rules and the texts that
//! docs/ describes, and never copied from what the program prints. Whole runs are in `verdict_examples`.
#![tactic(auto)]

#[cfg(test)]
mod facts;
#[cfg(test)]
mod graphs;
#[cfg(test)]
mod groups;
#[cfg(test)]
mod harness;
#[cfg(test)]
mod large;
#[cfg(test)]
mod places;
#[cfg(test)]
mod prefixes;
#[cfg(test)]
mod refusals;
#[cfg(test)]
mod run_table;
#[cfg(test)]
mod runs;
#[cfg(test)]
mod shapes;
#[cfg(test)]
mod trees;
#[cfg(test)]
mod type_rules;
#[cfg(test)]
mod unknowns;
#[cfg(test)]
mod value_table;
