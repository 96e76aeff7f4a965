//! The solver of a program's call groups behind the search for a verdict.
//!
//! [`GroupSolver`] is what [`judge`](call_search::judge) asks: the shapes of a program, and for one group at a time values of its
//! unknowns that meet its constraints in a scope, what is given, and the lines of the group; or a line that refutes what is
//! given; or the line for which the words don't suffice.
//!
//! A solve makes one solver, over the clauses of the group that are in force, with room for the words that are left. The
//! group's lines go in as lemmas, so that none is made a second time. Of the lines that the solver learns those go into the
//! ledger on which its conflict stands, and all of them where the words are spent. The solver takes its memory when it is made:
//! its `solve` is passed no allocator. A solve takes the time of the group's clauses, of all lines of the ledger, and of the
//! search itself.
//!
//! Stands on `zo_solver` for the search of one group, on `transfer_rules` for clauses, on `program_shapes` for numbers, and on
//! `call_search` for what is asked.
#![tactic(auto)]

mod clauses;
mod copying;
mod groups;
mod lemmas;
mod marking;
mod solving;
mod values;

pub use groups::{GroupSolver, group_solver};
