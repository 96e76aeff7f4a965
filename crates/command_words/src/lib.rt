//! The words of a command line, the command that they mean, and the text of a sample.
//!
//! `specs/Asked` says which words are a command, and which: [`asked`] answers that command, and none where there is none. `specs/Sample`
//! is the text of a sample by its lines, which [`sample_source`] gives. The words are read with `clap`; `specs/Program` is the command
//! line that it is given. Stands on `c_tree` for want of memory, and on `clap` and `itoa`.
#![tactic(auto)]

mod command;
mod numbers;
mod sample;
mod words;

pub use command::{Command, Work};
pub use sample::sample_source;
pub use words::{Words, asked};

#[cfg(test)]
mod tests;
