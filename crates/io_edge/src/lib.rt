//! The edge between a program and the outside: files to read and sinks to write.
//!
//! Two traits say what files and sinks do: which bytes they hold, have left or were given, where
//! they tell it, and that a call fails only where a count of faults rose. [`read_file`] and
//! [`write_all`] are proved over any of them, with exact bytes and the cause of every failure.
//!
//! [`MemFiles`] and [`MemSink`] are exact models in memory, with chosen piece sizes and chosen
//! failing calls. [`StdFiles`] and [`StdSink`] are thin adapters over the real system: they keep
//! the traits and tell no bytes, so what they read and write stands on std and on a test each.
#![tactic(auto)]

mod calls;
mod edges;
mod errors;
mod lists;
mod memory_files;
mod memory_sink;
mod system;
mod transfer;

pub use edges::{Files, Sink};
pub use errors::{Failed, ReadError};
pub use lists::{Bytes, NamedFile, NamedFiles, Numbers};
pub use memory_files::MemFiles;
pub use memory_sink::MemSink;
pub use system::{StdFiles, StdSink};
pub use transfer::{read_file, write_all};

#[cfg(test)]
mod tests;
