//! What propagation alone gives of a program's constraints, without search.
//!
//! A literal is forced where a clause of a constraint in force holds it and its other literals are denied, and where it stands
//! at a site for one that is forced in the group that is called there. [`closures`] gives for each call group, and for the root,
//! the least set of literals that holds these (`Closed` in verdict_meaning's `specs/Closures`), and each literal's reason;
//! [`Closures::closed`] the least set where some literals are given, and [`closed_over`] the same over a table and an [`Index`]
//! that are made once for many lists of them. [`contradiction`] finds the first set that holds an unknown
//! in both signs: such constraints cannot be met. [`layout`] gives the numbers of a program's groups: which unknowns stand for
//! one another at sites.
//!
//! Groups are worked off callees first, one clause table at a time, so nothing depends on how many groups there are. Stands on
//! `transfer_rules` for clauses, on `owner_vars` for numbers, and on `verdict_meaning` for what sets mean.
#![tactic(auto)]

mod bit_row;
mod carry;
mod clash;
mod closing;
mod contradicting;
mod faces;
mod findings;
mod groups;
mod homes;
mod index;
mod laying;
mod layouts;
mod propagate;
mod reopening;
mod sets;
mod trail;

pub use clash::Contradiction;
pub use contradicting::contradiction;
pub use findings::{Finding, Reason};
pub use groups::closures;
pub use index::Index;
pub use laying::layout;
pub use layouts::{Call, GroupLayout, Layout};
pub use reopening::closed_over;
pub use sets::{Closures, UnitSet};
