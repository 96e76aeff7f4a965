//! Literals and clauses at the front of bytes.

ghost use Rattle.std.specs.Prelude.{◌≡◌, ◌≤◌, ◌+◌, ◌++◌, length, drop, IfOk, IfSome, MatchOption};
ghost use Rattle.conflict_proof.specs.Text.{clause_text};
ghost use Rattle.conflict_proof.specs.Fronts.{NoClause, IsClauseLine, NoLiteral, IsSpaced, NoSigned, IsSigned, NoUnknown, IsUnknown};

use crate::numbers::{after_word, number_below};
use c_tree::Memory;
use std::alloc::Global;
use zo_core::{Clause, Lit, Var};

/// The clause whose literals, each after a space, stand from `at` up to a line feed, and the line feed's place.
/// None where there is no such clause; an empty one begins at its line feed.
pub fn literals(alloc: Global, text: &[u8], at: usize) -> Result<Option<(Clause, usize)>, Memory>
    requires { at ≤ length text.now }
    ensures clause { IfOk result (λ o. MatchOption o (NoClause (drop at text.now))
        (λ found. IsClauseLine (drop at text.now) found.0 (drop (found.1 + 1) text.now))) }
    ensures end { IfOk result (λ o. IfSome o (λ found. found.1 ≡ at + length (clause_text found.0))) }
{
    match next_clause(alloc, text.split_at(at).1)? {
        Some((lits, rest)) => Ok(Some((lits, text.len() - rest.len() - 1))),
        None => Ok(None),
    }
}

/// The literal of a sign whose unknown is at the front.
fn unsigned(text: &[u8], sign: bool) -> Option<(Lit, &[u8])>
    ensures { MatchOption result (NoUnknown text.now) (λ found. IsUnknown text.now sign found.0 found.1.now) }
{
    let (n, rest) = number_below(text, 1 << 31)?;
    if n == 0 {
        return None;
    }
    Some((Var(n).literal(sign), rest))
}

/// A literal at the front.
fn signed(text: &[u8]) -> Option<(Lit, &[u8])>
    ensures { MatchOption result (NoSigned text.now) (λ found. IsSigned text.now found.0 found.1.now) }
{
    match after_word(text, b"-") {
        Some(rest) => unsigned(rest, false),
        None => unsigned(text, true),
    }
}

/// A space and a literal at the front.
fn literal(text: &[u8]) -> Option<(Lit, &[u8])>
    ensures { MatchOption result (NoLiteral text.now) (λ found. IsSpaced text.now found.0 found.1.now) }
{
    signed(after_word(text, b" ")?)
}

/// A clause and a line feed at the front, and the bytes after the line feed.
pub(crate) fn next_clause(alloc: Global, text: &[u8]) -> Result<Option<(Clause, &[u8])>, Memory>
    ensures { IfOk result (λ o. MatchOption o (NoClause text.now) (λ found. IsClauseLine text.now found.0 found.1.now)) }
{
    let mut lits = Vec::new(alloc);
    let mut last = 0;
    let mut rest = text;
    while let Some(found) = literal(rest) {
        let var = found.0.var().number();
        if var <= last {
            return Ok(None);
        }
        lits.push(found.0)?;
        last = var;
        rest = found.1;
    }
    match after_word(rest, b"\n") {
        Some(after) => Ok(Some((Clause::of(alloc, &lits)?, after))),
        None => Ok(None),
    }
}
