//! The grammar: which tokens spell which tree.
//!
//! `specs/Items` defines it, `Spells`, by one case for each alternative of each line of the grammar, with every span and the
//! depth of the spelling; `Types`, `Exprs` and `Stmts` have the lines below. The `Read` files have functions that read tokens
//! with one token of look-ahead, and `proofs/Whole` that these find the tree wherever the tokens spell one, and none
//! elsewhere. `spelling_laws` carries the law that tokens never spell two trees. Stands on `c_tree` and `c_token`.
#![tactic(auto)]

mod laws;

pub use laws::spelling_laws;
