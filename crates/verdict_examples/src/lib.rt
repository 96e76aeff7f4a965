//! Worked examples: whole runs of the program over files in memory, as tables.
//!
//! This crate has only tests. What they expect is worked out by hand from the rules and the texts that
//! docs/ describes, and never copied from what the program prints. The examples of the parts below the
//! top call are in `worked_examples` and the other crates of examples.
#![tactic(auto)]

#[cfg(test)]
mod accepted;
#[cfg(test)]
mod commands;
#[cfg(test)]
mod conflicts;
#[cfg(test)]
mod cuts;
#[cfg(test)]
mod derivations;
#[cfg(test)]
mod devices;
#[cfg(test)]
mod harness;
#[cfg(test)]
mod inferred;
#[cfg(test)]
mod limits;
#[cfg(test)]
mod proved;
#[cfg(test)]
mod refused;
#[cfg(test)]
mod reports;
#[cfg(test)]
mod samples;
#[cfg(test)]
mod texts;
#[cfg(test)]
mod verified;
