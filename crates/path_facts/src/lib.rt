//! The facts Empty and Fresh of a flow graph: what holds at the end of every path.
//!
//! [`facts`] has, for each procedure with a body, place and slot, two facts. A slot is Empty where it has no value or is
//! null, and Fresh where it has the answer of an allocation that was neither freed, copied, stored nor passed since.
//! `specs/Columns` says what each action makes of them, `specs/Paths` folds that along paths: a fact holds at a place
//! where it holds at the end of every path from the entry. Contracts see [`Facts`] as tables (`specs/Tables`), which say
//! exactly that. [`path_laws`] has what the facts keep along edges. Stands on `flow_graph`.
#![tactic(auto)]

mod columns;
mod known;
mod laws;
mod order;
mod row;
mod solve;
mod start;
mod table;
mod tracks;
mod worklist;

pub use known::Facts;
pub use laws::path_laws;
pub use solve::facts;
