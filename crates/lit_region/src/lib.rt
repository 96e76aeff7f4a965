//! Memory for the literals of clauses, reserved once.
//!
//! A [`Region`] has a fixed number of words, and a literal takes one. A clause is put after the others, and is
//! read through its [`Ref`]; what was put after a [`Mark`] is given up again by `release`, and `compact` keeps
//! chosen clauses and frees the words of all others. After `reserve` no call takes memory, and a live reference
//! reads the same literals after every call.
//!
//! Contracts see a region as its size and the list of its live clauses, a reference as the number of its clause in
//! that list, and a mark as the number of clauses when it was taken. So a reference or a mark of another
//! region, or one that is dead, can be used only where that number is one of this region's, and it then means the
//! live clause, or the clauses, of that number.
//!
//! It stands on `zo_core` for the literals, and on `c_tree` for want of memory.
#![tactic(auto)]

mod region;

pub use region::{Mark, Ref, Region};

#[cfg(test)]
mod tests;
