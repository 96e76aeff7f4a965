//! Whether a text shows a verdict on a program, by the two checkers alone.
//!
//! [`verify`] reads a text as a derivation or as a certificate, by its first line, and checks it against a program. `specs/Verified`
//! says what a valid text shows and which line of another is its first faulty one. Nothing is shared with what finds verdicts but
//! the rules. Stands on `conflict_proof` and `own_cert` for the texts, and on `proof_checker` and `cert_checker`.
#![tactic(auto)]

mod check;

pub use check::verify;
