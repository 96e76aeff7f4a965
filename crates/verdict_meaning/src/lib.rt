//! What the verdicts on a program mean: solutions of its constraints, certificates, derivations, their faults and their
//! cost, and what propagation alone gives.
//!
//! The constraints are those of a `System` (`specs/Systems`), a plain record. The laws are the contracts of functions that
//! do nothing: a line of a valid derivation is true wherever the constraints hold on which it stands, a good certificate
//! shows that they can be met, a refuting derivation that those it uses cannot, and a derivation without a clause twice in
//! a group has a greatest cost. Stands on `conflict_proof` and `own_cert` for derivations and certificates, and on
//! `zo_core` for clauses.
#![tactic(auto)]

mod callee;
mod laws;

pub use callee::Callee;
pub use laws::{
    accepted_is_not_refuted, budget_suffices, cost_is_bounded, faultless_is_good,
    faultless_is_valid, faulty_is_not_good, faulty_is_not_valid, fewer_are_satisfiable,
    good_is_satisfiable, lines_are_true, local_lines_are_true, more_are_valid, names_are_apart,
    plain_is_satisfiable, refuted_is_unsatisfiable, selected_are_valid, system_is_of_graph,
    unit_refuted_is_unsatisfiable, used_are_unsatisfiable, used_names_are_one, valid_in_whole,
};
