//! The verdict on a program's constraints: a certificate, a refutation, or a derivation that shows that the budget is spent.
//!
//! [`infer`] decides under a budget of words whether the constraints can be met; [`infer_in`] does so with those of a scope, and
//! [`infer_with`] where lines are known, which cost nothing. What an answer says is `specs/Inferences`, and `specs/Knowing`
//! where lines are known.
//!
//! Propagation is asked first: where it reaches an unknown in both signs, it refutes. Then it is asked for a certificate. The search
//! is asked last. Of a refutation only the lines are left on which its last one stands, besides those that were known.
//!
//! Stands on `unit_answers`, `unit_refutation` and `plain_answers` for what propagation gives, on `call_search` for the search and on
//! `group_solver` for its solver, on `used_names` for the names of a refutation, and on `verdict_meaning` for what answers mean.
#![tactic(auto)]

mod inferred;
mod inferring;
mod joining;
mod knowing;
mod laws;
mod trimming;

pub use inferred::{Inferred, Known};
pub use inferring::{infer, infer_in};
pub use knowing::infer_with;
