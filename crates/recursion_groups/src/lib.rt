//! The call groups of a program: the procedures with bodies, grouped by which call one another, directly or
//! through others.
//!
//! [`groups`] gives them in an order in which a called group stands before its caller's. `specs/Grouping`
//! defines the groups and their order, of a flow graph alone, and [`grouping_laws`] says that a graph has one grouping
//! alone. Stands on `flow_graph`, and on `c_tree` for want
//! of memory.
#![tactic(auto)]

mod build;
mod calls;
mod laws;
mod list;
mod members;
mod queue;
mod walk;

pub use build::groups;
pub use laws::grouping_laws;
pub use list::Groups;
