//! The top call: from the words of a command line to one text, a verdict and a status.
//!
//! [`clouseau`] does what the words ask for and writes one text. Its contract says of each verdict what it means and why it came,
//! and what each output holds afterwards. Where a source is accepted, then in every run of it each live object that was allocated
//! has exactly one owner by the certificate that is returned, nothing is freed twice, and where `main` returned only the kept
//! objects are left (`specs/Judged`). Where it is in conflict, no assignment meets the constraints that are returned, and the
//! derivation shows it. `specs/Answers` has every other answer with its cause.
//!
//! A certificate is tested before Accepted is answered, and a derivation before Conflict is, by checkers that share no code with
//! what makes them but the rules. Stands on `command_words` for what words mean, on `source_program` for programs of sources, on
//! `call_summary` for their verdicts, on `cert_checker`, `proof_checker` and `text_checker` for the tests, on `annotate`,
//! `own_cert` and `conflict_proof` for texts, and on `io_edge` for files and outputs.
#![tactic(auto)]

mod answers;
mod call;
mod giving;
mod judging;
mod report;
mod sampling;
mod sources;
mod texts;
mod verifying;
mod way;

pub use call::clouseau;
pub use command_words::{Words, sample_source as sample};
pub use report::{Conflict, Conflicts, Report, Verdict};
pub use source_program::{LoadError, Refusal, load};
pub use texts::verdict_text;
