//! Names and types: the tree of one source, checked against the nineteen rules of types.
//!
//! `check_types` gives a tree back as `Typed` with its tables: structs, procedures, slots and nodes by their numbers.
//! Else it names the first rule that is broken, or says that there is no `main`, or which limit is passed. `specs/`
//! defines each rule as a test of what it speaks of, and which rules belong to each node (`Types`, `Exprs`, `Stmts`,
//! `Items`), over scopes (`Scopes`) and over what the declarations of the file say (`Declarations`). The tables of a
//! typed tree are functions of the tree: `struct_infos`, `proc_infos`, `slots_of`, `nodes_of`. Stands on `c_tree`, and
//! on the kit's `indexmap`, which numbers names, `sqlite_items` and `thiserror`.
#![tactic(auto)]

mod check;
mod declarations;
mod error;
mod exprs;
mod infos;
mod items;
mod kinds;
mod limits;
mod meanings;
mod mentions;
mod names;
mod rules;
mod scope;
mod stmts;
mod tables;
mod typed;

pub use check::check_types;
pub use error::{LimitKind, TypeError};
pub use infos::{
    MemberInfo, MemberInfos, NodeInfo, NodeInfos, ProcInfo, ProcInfos, SlotInfo, SlotInfos,
    StructInfo, StructInfos,
};
pub use kinds::SlotType;
pub use typed::Typed;
