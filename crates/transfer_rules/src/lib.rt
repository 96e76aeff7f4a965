//! The rules of ownership, as constraints on the unknowns of each call group.
//!
//! `specs/Rules` lists all constraints of a group in the order of their names, by cases over the actions of edges and over
//! places; names, meaning and clauses all follow from that one list (`specs/Names`). [`program`] puts the parts of a typed
//! tree together; [`names_of`] gives the names of a group's constraints, [`clauses_of`] the clauses of one name, and
//! [`group_clauses`] those of all names in a [`Scope`], as a flat [`ClauseTable`], and [`place_clauses`] those of one place.
//! `specs/Holds` says what the rules ask of an assignment on an edge and at a place, and [`rule_laws`] that the clauses ask
//! exactly that; [`scope_laws`] says what those in a scope ask, [`order_laws`] that names ascend. Stands on `field_rules` for
//! the rules on fields.
#![tactic(auto)]

mod action;
mod args;
mod body;
mod build;
mod candidates;
mod constraint;
mod find;
mod group;
mod index;
mod laws;
mod listing;
mod parts;
mod place;
mod same;
mod scene;
mod scope;
mod single;
mod table;

pub use args::PassedArg;
pub use build::program;
pub use constraint::{Condition, Constraint};
pub use laws::{body_laws, name_laws, order_laws, rule_laws, scope_laws};
pub use listing::{clauses_of, group_clauses, names_of, place_clauses};
pub use parts::{Numberings, Program};
pub use scope::Scope;
pub use table::ClauseTable;
