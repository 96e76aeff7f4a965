//! The search for a verdict on the constraints of a program, call group by call group.
//!
//! [`judge`] answers with a certificate, with a refutation, or with a derivation that shows that the budget is spent; what
//! each of them is `specs/Verdicts` says, in the words of `verdict_meaning`. It stands over the trait [`Groups`], which solves
//! one group under literals that are given; what the groups of a program are its supertrait [`Shapes`] says.
//!
//! The root is solved first. A descent then looks up or solves what its values ask for, one instance after the other, with a
//! stack of those that wait, so that nothing is recursive: an instance of a group is asked for by higher groups alone. Where a
//! group has no solution, the line that says so is carried to the site of the one who asked, by whose values it is false; so it
//! is a new line and costs a word, and the search ends with the words. The one who asked goes on with its other sites and is
//! given up at the end of them; then the site that asked for it asks again, and it is solved anew with all the lines. So the
//! lines of all sites cost one solve more. Where a line speaks of fields alone, an instance is given up at once; the root is told
//! one such line for each first field before it is solved anew. What the descent kept is gathered at last, the highest groups
//! first, and makes the certificate.
//!
//! All lines stand in one [`Ledger`]. Instances that a new line doesn't refute are kept, until other fields own. An instance need
//! only meet the lines that were carried to its group, as all others follow.
//!
//! Stands on `zo_core` for clauses, on `conflict_proof` and `own_cert` for what is answered, on `verdict_meaning` for what
//! it means and on `c_tree` for want of memory.
#![tactic(auto)]

mod certify;
mod descending;
mod entries;
mod fill;
mod given;
mod groups;
mod judging;
mod keeping;
mod ledger;
mod search;
mod site;

pub use certify::certificate;
pub use entries::{Entries, Entry, asked_face, find, is_there, own_face, put};
pub use fill::given_for;
pub use groups::{Groups, Outcome, Shapes};
pub use judging::{Judged, judge};
pub use keeping::is_true;
pub use ledger::Ledger;
