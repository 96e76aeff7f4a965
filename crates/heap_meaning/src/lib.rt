//! What a program does: the steps of its runs.
//!
//! A run goes along the edges of a flow graph. Its [`State`] has the frames of the calls that have begun and not ended,
//! and the objects that strings, `malloc` and `calloc` have made. [`first_state`] is where every run begins, and [`step`]
//! takes one edge, or returns from one call, as a [`Choice`] decides where the program itself does not: whether an
//! allocation succeeds, and what an external procedure answers and writes.
//!
//! `specs/Run` has one step as a function of state and choice, and runs as lists of states. `specs/Shape` has what every
//! state of a graph's runs looks like. Stands on `flow_graph`, on `c_types` for types and on `c_tree` for want of memory.
#![tactic(auto)]

mod choices;
mod deeds;
mod frames;
mod kinds;
mod laws;
mod makes;
mod numbers;
mod reads;
mod states;
mod steps;
mod values;

pub use choices::{Choice, Stepped, Stop, Write, Writes};
pub use laws::run_laws;
pub use states::{Frame, Frames, Kind, Object, Objects, State};
pub use steps::{first_state, step};
pub use values::{Value, Values};
