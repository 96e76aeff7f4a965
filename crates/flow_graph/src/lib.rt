//! The flow graph of a program: plain data, in which nothing of the syntax is left but the places.
//!
//! A [`Graph`] has, for each procedure, its slots, its places and the edges between them, each with one
//! [`Action`]. Contracts see it as a `FlowGraph` (`specs/FlowGraph`), of which all that stands on this crate is
//! defined; `specs/Fits` says what every graph keeps. Stands on `c_tree` and `c_types`.
#![tactic(auto)]

mod action;
mod exprs;
mod flows;
mod graph;
mod keys;
mod lowering;
mod nodes;
mod numbering;
mod numbers;
mod raw;
mod stmts;
mod strings;
mod table;
mod whole;

pub use action::{Action, Count, Edge, NewKind};
pub use graph::Graph;
pub use numbers::Numbers;
pub use whole::build;
