//! Whether a certificate is good for a program, and else its first faulty line.
//!
//! [`check_certificate`] answers Ok exactly where the certificate is good with all constraints of the program; then in every
//! run of the program each live object has one owner. [`check_certificate_in`] does the same in a scope of names. Both are
//! [`check`] over the trait [`Groups`], which says what the call groups of a program are. [`owned_first`] and [`owned_step`]
//! take the steps of a run under a good certificate, none of which is a double free. Nothing is shared with what makes
//! certificates but the rules. Stands on `own_cert` for certificates, on `transfer_rules` for programs and the clauses of
//! their groups, on `verdict_meaning` for what is good and which fault is first, and on `heap_law` for runs.
#![tactic(auto)]

mod bits;
mod broken;
mod faults;
mod grouped;
mod groups;
mod keys;
mod lines;
mod marks;
mod missing;
mod owned;
mod places;
mod program;
mod runs;
mod shapes;
mod sites;
mod twice;

pub use faults::check;
pub use groups::{Face, Groups};
pub use owned::{Owned, owned_first, owned_step};
pub use program::{check_certificate, check_certificate_in};
