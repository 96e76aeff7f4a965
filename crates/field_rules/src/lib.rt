//! The rules of ownership on fields, over any view of the unknowns.
//!
//! There is one type for each of the seven rules, over plain unknowns; each is a `Rule` of `zo_core`: an assignment makes
//! its clauses true exactly where its condition holds (`specs/Meaning`). A [`View`] names the unknowns of one procedure and
//! tells what is known at its places. [`edge_rules`] lists the rules of an edge and [`place_rules`] those of a place, exactly
//! as `specs/Lines` says, in order of rule, slot, field and other; [`call_rules`], [`bound_rules`] and [`one_base_rules`] list
//! those of one slot alone. Stands on `zo_core`, and on `c_tree` for want of memory.
#![tactic(auto)]

mod bases;
mod edge_lines;
mod edges;
mod lists;
mod place_lines;
mod rules;
mod view;

pub use edge_lines::{call_rules, edge_rules};
pub use edges::{CallArg, FieldEdge, FieldLine};
pub use lists::{CallArgs, FieldLines, Sigmas, Vars};
pub use place_lines::{bound_rules, one_base_rules, place_rules};
pub use rules::{
    Bound, CallClosed, FieldRule, FreeField, Load, OneBase, Store, StoreOpen, clauses_of_forms,
};
pub use view::View;
