//! The parser: from tokens to the one tree that they spell.
//!
//! `c_grammar` says which tokens spell which tree, and has functions on lists that read it. [`parse`] gives what these
//! read: the one tree of a depth of at most 200, or the place of the first token after which there is none. It looks one
//! token ahead, reads lists by loops and what is nested by recursion, so its stack is bounded whatever comes. Stands on
//! `c_tree`, `c_token`, `c_grammar`, `sqlite_items` and `thiserror`.
#![tactic(auto)]

mod error;
mod exprs;
mod file;
mod items;
mod locals;
mod operators;
mod parts;
mod simple;
mod statement_parts;
mod statements;
mod tokens;
mod types;
mod units;

pub use error::ParseError;
pub use file::parse;
