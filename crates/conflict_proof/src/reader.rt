ghost use Rattle.std.specs.Prelude.{◌≡◌, ◌∷◌, ◌++◌, IfOk, IfErr, MatchOption};
ghost use Rattle.conflict_proof.specs.declared.derivation.Derivation.{Derivation};
ghost use Rattle.conflict_proof.specs.Text.{derivation_text, end_text};
ghost use Rattle.conflict_proof.specs.Values.{IsDerivation};
ghost use Rattle.conflict_proof.specs.Fault.{Refuses, IsFormAt};
ghost use Rattle.conflict_proof.specs.Fronts.{NoHow, IsHowFront, NoLine, IsLineFront, AreLines, NoEnd};

use crate::clauses::next_clause;
use crate::derivation::{Derivation, How, Line, Lines};
use crate::faults::{BadLine, Reason, TextError};
use crate::names::ConstraintName;
use crate::numbers::{after_word, fill};
use c_tree::Memory;
use itoa::Buffer;
use std::alloc::Global;

/// The derivation whose text the bytes are; there is no other one. Where they are no derivation's text it is
/// Invalid with reason Form, at the first line, from 1, that can't be continued to such a text. What follows the
/// last line feed counts as a line that can't be continued, also where nothing follows it.
pub fn read(alloc: Global, text: &[u8]) -> Result<Derivation, TextError>
    ensures found { IfOk result (λ d. IsDerivation d × (text.now ≡ derivation_text d)) }
    ensures only { IfOk result (λ d. (e : Derivation) → IsDerivation e → text.now ≡ derivation_text e → e ≡ d) }
    ensures refused { IfErr result (Refuses text.now) }
{
    let Some(body) = after_word(text, b"clouseau derivation 1\n") else {
        return Err(form_at(1));
    };
    let Ok((items, rest)) = lines(alloc, body) else {
        return Err(TextError::Memory);
    };
    let count = items.len();
    let Some(more) = end(rest, count) else {
        return Err(form_at(count as u64 + 2));
    };
    if !more.is_empty() {
        return Err(form_at(count as u64 + 3));
    }
    Ok(Derivation {
        lines: Lines { items },
    })
}

/// The lines at the front, as many as there are, and what follows them.
fn lines(alloc: Global, text: &[u8]) -> Result<(Vec<Line>, &[u8]), Memory>
    ensures { IfOk result (λ found. AreLines text.now found.0.items found.1.now) }
{
    let mut items = Vec::new(alloc);
    let mut rest = text;
    while let Some((line, after)) = next_line(alloc, rest)? {
        items.push(line)?;
        rest = after;
    }
    Ok((items, rest))
}

/// The fault of a line that can't be continued to a text.
pub fn form_at(line: u64) -> TextError
    ensures { IsFormAt line result }
{
    TextError::Invalid(BadLine {
        line,
        reason: Reason::Form,
    })
}

/// What follows the last line, at the front, of a text of so many lines.
fn end(text: &[u8], count: usize) -> Option<&[u8]>
    ensures { MatchOption result (NoEnd count text.now) (λ rest. text.now ≡ end_text count ++ 10 ∷ rest.now) }
{
    let mut buffer = Buffer::new();
    let rest = after_word(text, b"end ")?;
    let rest = after_word(rest, buffer.format(count).as_bytes())?;
    after_word(rest, b"\n")
}

/// A line with its line feed at the front, and what follows it.
fn next_line(alloc: Global, text: &[u8]) -> Result<Option<(Line, &[u8])>, Memory>
    ensures { IfOk result (λ o. MatchOption o (NoLine text.now) (λ found. IsLineFront text.now found.0 found.1.now)) }
{
    let Some((group, how, rest)) = line_head(text) else {
        return Ok(None);
    };
    let Some(rest) = after_word(rest, b" :") else {
        return Ok(None);
    };
    let Some((lits, rest)) = next_clause(alloc, rest)? else {
        return Ok(None);
    };
    Ok(Some((Line { group, how, lits }, rest)))
}

/// The letter of a line, its group and where it comes from, and what follows them.
fn line_head(text: &[u8]) -> Option<(u32, How, &[u8])>
    ensures { MatchOption result (NoHow text.now) (λ found. IsHowFront text.now found.0 found.1 found.2.now) }
{
    let (letter, rest) = text.split_first()?;
    match *letter {
        b'a' => axiom(rest),
        b'r' => {
            let mut parts = [0; 3];
            let rest = fill(rest, &mut parts)?;
            Some((parts[0], How::Resolve(parts[1], parts[2]), rest))
        }
        b'i' => {
            let mut parts = [0; 3];
            let rest = fill(rest, &mut parts)?;
            Some((parts[0], How::Inst(parts[1], parts[2]), rest))
        }
        _ => None,
    }
}

/// The group and the name of a line that is an axiom, after its letter.
fn axiom(text: &[u8]) -> Option<(u32, How, &[u8])>
    ensures { MatchOption result (NoHow (97 ∷ text.now)) (λ found. IsHowFront (97 ∷ text.now) found.0 found.1 found.2.now) }
{
    let mut parts = [0; 8];
    let rest = fill(text, &mut parts)?;
    let [group, rule, proc, place, edge, slot, field, other] = parts;
    if rule > u8::MAX as u32 {
        return None;
    }
    if edge > u8::MAX as u32 {
        return None;
    }
    let name = ConstraintName {
        proc,
        place,
        edge: edge as u8,
        rule: rule as u8,
        slot,
        field,
        other,
    };
    Some((group, How::Axiom(name), rest))
}
