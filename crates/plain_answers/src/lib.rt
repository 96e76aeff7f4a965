//! The plain answer: where propagation alone solves a program's constraints, its certificate, without search.
//!
//! The root's unknowns are 1 exactly where the positive literal is forced; this tells which fields own, and which interface
//! is asked for in each group. An instance of a group has 1 exactly where the positive literal is forced by the owning fields
//! and its interface. Where each of these assignments says what was given and meets its group's constraints, and each
//! interface that a site asks for has such an instance, the constraints are solved (`IsPlainSat` in verdict_meaning's
//! `specs/Plain`), and the instances make a certificate.
//!
//! [`plain_certificate`] gives it, and none exactly where there is none. Groups are worked off from the highest down, each once:
//! what the sites ask for is put in order, so the instances stand by group, entry and interface. Stands on `unit_answers` for
//! what is forced, on `call_search` for the certificate that instances make, and on `program_shapes` for the numbers of groups.
#![tactic(auto)]

mod assigning;
mod filling;
mod groups;
mod program;
mod wants;

pub use program::{plain_certificate, plain_certificate_by};
