//! Derivations: how constraints are refuted, line by line, and their text.
//!
//! A derivation is a list of clauses, each of which is a clause of a named constraint, a resolvent of two
//! earlier lines, or an earlier line of another call group carried to a call. This crate has the types, the
//! names of constraints with their order, and the text:
//! - [`print`] gives a derivation's text, which `derivation_text` of `specs/Text` says line by line.
//! - [`read`] gives the one derivation whose text the bytes are, and else names the first line that can't be
//!   continued to such a text.
//! - [`decimal`] and [`literals`] read the numbers and the clauses of such texts; [`after_word`], [`field`] and
//!   [`fill`] read words and numbers at the front of bytes, [`put_numbers`] and [`put_decimal`] write numbers, and
//!   [`form_at`] is the fault of a line.
//!
//! Reading and printing take time and memory in proportion to the text. The crate stands on `zo_core` for
//! clauses, on `line_texts` for what texts of lines have in common, on `c_tree` for want of memory and on `itoa`.
#![tactic(auto)]

mod clauses;
mod derivation;
mod faults;
mod names;
mod numbers;
mod printer;
mod reader;

pub use clauses::literals;
pub use derivation::{Derivation, How, Line, Lines};
pub use faults::{BadLine, CheckError, Reason, TextError};
pub use names::{ConstraintName, Names};
pub use numbers::{after_word, decimal, field, fill};
pub use printer::{print, put_decimal, put_numbers};
pub use reader::{form_at, read};

#[cfg(test)]
mod tests;
