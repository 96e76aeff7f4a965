//! The lexer: any bytes as tokens of C.
//!
//! `tokens` reads bytes as C11 6.4 says, for the tokens that the grammar knows: the longest form at each place, with
//! white space, comments and include lines skipped between them. `specs/Reading` defines the reading, `IsTokenReading`,
//! and the place where none goes on, `IsStuck`, by the forms of a token and of a blank alone. `tokens` gives the one or
//! names the other, and `reading_laws` carries the proof that bytes never have two readings, nor one beside a stuck
//! place. Stands on `c_tree` for names and spans, and on the kit's `bstr` and `thiserror`.
#![tactic(auto)]

mod blanks;
mod forms;
mod lexer;
mod position;
mod quotes;
mod token;

pub use lexer::{reading_laws, tokens};
pub use token::{LexError, Token, TokenKind};

#[cfg(test)]
mod tests;
