//! Worked examples of the rules of ownership: the constraints of small programs, their clauses, and what a scope leaves of them.
//!
//! This crate has only tests. What they expect is worked out by hand from the rules that docs/ describes, and never copied from
//! what the program prints. A name is written as its numbers: procedure, place, edge, rule, slot, field and other.
#![tactic(auto)]

#[cfg(test)]
mod listings;
#[cfg(test)]
mod lookups;
#[cfg(test)]
mod programs;
#[cfg(test)]
mod scopes;
#[cfg(test)]
mod sources;
#[cfg(test)]
mod texts;
