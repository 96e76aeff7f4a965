//! Worked examples of the texts of verdicts, as tables: the annotations of certificates, the lines of conflicts, and what slots
//! are called.
//!
//! This crate has only tests. What they expect is worked out by hand from the formats that docs/ describes, and never copied from
//! what the program prints. Certificates and names of constraints are given as texts, which `own_cert` and `conflict_proof` read.
#![tactic(auto)]

#[cfg(test)]
mod annotations;
#[cfg(test)]
mod conflicts;
#[cfg(test)]
mod programs;
