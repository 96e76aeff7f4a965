//! Certificates: which pointers own, at every place, in every instance of every call group, and their two texts.
//!
//! A certificate is what an accepted program comes with: one bit for each pointer field of the
//! program, and instances of its call groups with one bit for each unknown at each place. This crate has the types
//! and the texts:
//! - [`print`] gives a certificate's text, which `certificate_text` of `specs/Text` says line by line: the one with
//!   a line for each run of places that have the same bits, where the certificate isn't too large for it, and else
//!   the one with a line for each place.
//! - [`read`] gives the one certificate that has the bytes as either of its texts, and else names the first line
//!   that can't be continued to such a text.
//! - [`version`] tells the two texts apart, and [`line_in_2`] finds a line of the one in the other.
//!
//! Reading takes time and memory in proportion to the text and the certificate, printing in proportion to the
//! certificate. The crate stands on `line_texts` and `conflict_proof` for what such texts have in common, on `c_tree`
//! for want of memory and on `itoa`.
#![tactic(auto)]

mod certificate;
mod draft;
mod line_reader;
mod lines;
mod lists;
mod printer;
mod reader;
mod runs;
mod versions;

pub use certificate::{Certificate, Instance, PlaceBits};
pub use lists::{Bits, Instances, Numbers, Rows};
pub use printer::print;
pub use reader::read;
pub use versions::{line_in_2, version};

#[cfg(test)]
mod tests;
