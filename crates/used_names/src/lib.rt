//! The names of the constraints on which a derivation stands.
//!
//! [`used_names`] goes back from the last line over all lines on which it stands, and gives the names of those that are
//! clauses of constraints: ascending, each once, without those of the rule that is always in force. [`needed_lines`] tells for
//! each line whether the last one stands on it. Stands on
//! `conflict_proof` for derivations and on `verdict_meaning`, whose `specs/UsedNames` says which names these are.
#![tactic(auto)]

mod names;
mod needed;

pub use names::used_names;
pub use needed::needed_lines;
