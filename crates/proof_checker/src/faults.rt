ghost use Rattle.std.specs.Prelude.{◌≡◌, IfOk, IfErr, OnOk, MatchBool};
ghost use Rattle.verdict_meaning.specs.Derivations.{Refutes};
ghost use Rattle.proof_checker.specs.Checking.{IsAccepted, IsRefused, IsVerdict};

use crate::constraints::Constraints;
use crate::lines::line_fault;
use c_tree::Memory;
use conflict_proof::{BadLine, CheckError, Derivation, Line, Reason};
use std::alloc::Global;
use verdict_meaning::{faulty_is_not_valid, used_are_unsatisfiable};

/// Decides whether a derivation is valid with the constraints that count, and refutes them. Invalid names the first faulty
/// line of its text, the header being line 1. It takes time in proportion to the derivation and to the clauses of the names
/// that it cites, and memory in proportion to the longest line and to the most clauses of one name.
///
/// # Errors
///
/// Invalid exactly where it is not valid or does not refute; Memory at any time.
pub(crate) fn check<C: Constraints>(
    alloc: Global,
    constraints: &C,
    derivation: &Derivation,
) -> Result<(), CheckError>
    ensures ok { OnOk result (IsAccepted (C.system constraints.now) (C.scope constraints.now) derivation.now.lines) }
    ensures err { IfErr result (IsRefused (C.system constraints.now) (C.scope constraints.now) derivation.now.lines) }
{
    faulty_is_not_valid();
    used_are_unsatisfiable();
    match first_fault(alloc, constraints, &derivation.lines.items) {
        Ok(None) => Ok(()),
        Ok(Some(bad)) => Err(CheckError::Invalid(bad)),
        Err(Memory) => Err(CheckError::Memory),
    }
}

/// The first faulty line; none where the derivation is valid and refutes.
fn first_fault<C: Constraints>(
    alloc: Global,
    constraints: &C,
    lines: &[Line],
) -> Result<Option<BadLine>, Memory>
    ensures { IfOk result (IsVerdict (C.system constraints.now) (C.scope constraints.now) lines.now) }
{
    let mut made = Vec::new(alloc);
    for k in 0..lines.len() {
        if let Some(reason) = line_fault(alloc, &mut made, constraints, lines, k)? {
            let line = k as u64 + 2;
            return Ok(Some(BadLine { line, reason }));
        }
    }
    if refutes(constraints, lines) {
        return Ok(None);
    }
    let line = lines.len() as u64 + 2;
    let reason = Reason::NoRefutation;
    Ok(Some(BadLine { line, reason }))
}

/// Whether the last line is an empty clause of the root.
fn refutes<C: Constraints>(constraints: &C, lines: &[Line]) -> bool
    ensures { MatchBool result (Refutes (C.system constraints.now) lines.now) (Refutes (C.system constraints.now) lines.now → ⊥) }
{
    let Some(last) = lines.last() else {
        return false;
    };
    if last.group != constraints.root() {
        return false;
    }
    last.lits.lits().is_empty()
}
