//! The two texts of a verdict: who owns, by a certificate, and which constraints are in conflict.
//!
//! - [`annotation`] gives the annotation of a certificate (`specs/Annotation`, line by line): who owns among the pointer
//!   fields, and among the parameters, results and locals of each procedure in each instance of its call group; and which
//!   owning fields lead back to their own struct (`specs/Keeps`, by a path of owning fields).
//! - [`conflict_text`] gives the text of a conflict (`specs/Conflict`), one line for each name of a constraint.
//! - [`slot_text`] gives what a slot is called in these texts.
//!
//! Procedures, slots, structs and fields are called as their declarations call them, and places stand where their nodes do
//! (`specs/Names`, `specs/Fields`, `specs/Positions`). The definitions are total, so no call has a condition on the
//! certificate or the names. Stands on `transfer_rules` for programs, on `own_cert` for certificates, on `conflict_proof`
//! for names of constraints, on `owner_vars` for the numbers of fields and bits, and on `itoa`.
#![tactic(auto)]

mod backwards;
mod conflict;
mod fields;
mod heads;
mod kinds;
mod leads;
mod lists;
mod locals;
mod names;
mod order;
mod paint;
mod passes;
mod positions;
mod procs;
mod rings;
mod seats;
mod source;
mod spans;
mod walk;
mod whole;

pub use conflict::{conflict_text, slot_text};
pub use whole::annotation;
