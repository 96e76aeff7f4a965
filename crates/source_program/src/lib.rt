//! From the bytes of a source to its program, with every refusal of a source.
//!
//! [`typed_source`] gives the typed tree of the bytes, [`load_source`] their program as the rules of ownership see it, and
//! [`load`] the program of a source that lies under a name. A refusal names the first place or number that `specs/Sources`
//! defines, and [`refusal_line`] says it in a line. Stands on `io_edge` for files, on `c_token`, `c_parser` and `c_types` for
//! the typed tree, and on `owner_vars` and `transfer_rules` for the program.
#![tactic(auto)]

mod failure;
mod lines;
mod loading;
mod place;
mod refusal;
mod source;

pub use failure::Failure;
pub use lines::{line_on, refusal_line};
pub use loading::{LoadError, load};
pub use refusal::Refusal;
pub use source::{MOST_BYTES, load_source, typed_source};
