//! The refutation that propagation alone gives, spelled out as lines of a derivation.
//!
//! Where propagation reaches an unknown in both signs, in some call group or in the root, a program's constraints cannot be met.
//! [`refutation`] writes the lines that show it: only those on which the first such contradiction stands, each clause once in its
//! group, down to the empty line of the root. They cost at most 16 * (G + 1) * (N + 2) words, where G is the number of groups and
//! none of them, nor the root, has more than N unknowns. Where they cost more than the budget, the answer is the lines up to the
//! first one at which they do.
//!
//! The steps on which a contradiction stands are collected from the last literal found to the first, one group's clauses at a
//! time; then their lines are written from the first to the last. Stands on `unit_answers` for what propagation found, on
//! `transfer_rules` for clauses, on `conflict_proof` for lines and on `verdict_meaning` for what they mean.
#![tactic(auto)]

mod answering;
mod collecting;
mod numbers;
mod program;
mod refuting;
mod spelling;
mod steps;
mod tables;
mod writing;

pub use answering::refutation;
pub use refuting::Refutation;
