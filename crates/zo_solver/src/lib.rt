//! A search for zero-one values that meet clauses, which keeps what it derives.
//!
//! A [`Solver`] stands over given clauses, and has a budget of words for its lines, of which one of k literals costs
//! k + 1. `solve` takes literals as true and answers Sat, with values; or Conflict, with a line that holds only
//! negations of these literals; or Spent, with the line for which there are too few words. Each line is a given
//! clause, a lemma that `add` put there, or the resolvent of two lines before it. `new` reserves all memory, and no
//! later call takes any.
//!
//! The search takes what follows by a clause whose other literals are denied, and else guesses that the lowest free
//! unknown is 0. From a denied clause it goes back over what was taken, with a resolvent for each step, to a guess,
//! which is turned, or to the assumptions. Learnt lines are used as clauses are. `solve` takes at least the time of
//! the unknowns, `new` that of the clauses and of the unknowns and none for the budget.
//!
//! Contracts see a solver as the record `Account` of its specs: clauses, lines, origins, words left and values. It
//! stands on `lit_region` for the literals' memory.
#![tactic(auto)]

mod answers;
mod backward;
mod forward;
mod lines;
mod looks;
mod making;
mod occurrences;
mod running;
mod search;
mod solver;
mod store;

pub use answers::{Answer, Origin};
pub use solver::Solver;

#[cfg(test)]
mod tests;
