//! Whether a derivation is valid and refutes a program, and else its first faulty line.
//!
//! [`check_derivation`] decides it with all constraints of the program, [`check_derivation_in`] with those of a scope. Both
//! have one body over the trait `Constraints`, which says what is asked of a program: Ok comes exactly where each line is a
//! clause of a constraint that counts, a resolvent or an instance, and the last one is an empty clause of the root. It shares
//! no code with what makes derivations but the rules. Stands on `transfer_rules` for the clauses of a name, on `owner_vars`
//! for the numbers of unknowns and for sites, on `conflict_proof` for derivations and on `verdict_meaning` for what they mean.
#![tactic(auto)]

mod axioms;
mod callees;
mod check;
mod constraints;
mod counting;
mod faults;
mod groups;
mod in_scope;
mod instances;
mod lines;
mod literals;
mod ranges;
mod resolvents;

pub use check::{check_derivation, check_derivation_in};
