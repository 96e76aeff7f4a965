//! The unknowns of the call groups of a program, and their numbers.
//!
//! [`number`] numbers the unknowns of one group and [`number_root`] those of the root, which ties the groups
//! together. Contracts see a [`Numbering`] as the list of its unknowns (`specs/Unknowns`); the number of an
//! unknown is its place in that list, from 1. [`fields`] numbers the pointer fields of a graph once for all groups,
//! and [`sites`] finds the calls that leave a group. Stands on `flow_graph`, on `zo_core` for the unknowns of clauses,
//! and on `c_tree` and `c_types` for refusals.
#![tactic(auto)]

mod build;
mod error;
mod field_table;
mod field_walk;
mod index;
mod laws;
mod numbering;
mod site;
mod site_table;
mod site_walk;
mod tables;

pub use build::{number, number_root, number_root_with, number_with};
pub use error::NumberError;
pub use field_table::Fields;
pub use field_walk::fields;
pub use laws::{field_laws, site_laws, unknown_laws};
pub use numbering::Numbering;
pub use site::Site;
pub use site_table::Sites;
pub use site_walk::sites;
