//! Texts that are read line by line.
//!
//! `specs/Texts` says what a kind of such texts is: what a line says, where reading stands, and which line leads where. For a kind
//! that is readable, `proofs/Reading` has what reading its lines one after the other says of the bytes: which value they are the
//! text of, that there is no other, and else the first line that no text goes on with. [`next_line`] cuts a line off.
#![tactic(auto)]

mod lines;

pub use lines::next_line;
