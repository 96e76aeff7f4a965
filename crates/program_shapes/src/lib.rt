//! What there is in the call groups of a program, in tables that are made once.
//!
//! [`ProgramShapes`] is the search's [`Shapes`](call_search::Shapes) for a program: its groups and the root, the numbers of
//! their unknowns, and whom their sites call, as the program's system in verdict_meaning's `specs/Programs` has them. Each
//! getter takes constant time. The tables take memory linear in the procedures and the sites. Stands on `unit_answers` for the
//! layout of a program, and on `transfer_rules` for its numberings.
#![tactic(auto)]

mod groups;
mod procs;
mod shapes;

pub use shapes::{ProgramShapes, program_shapes};
