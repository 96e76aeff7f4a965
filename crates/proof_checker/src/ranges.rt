ghost use Rattle.std.specs.Prelude.{◌≡◌, ◌<◌, ◌≤◌, ◌+◌, Some, length, slice_get, MatchBool};
ghost use Rattle.std.specs.List.{All, Contains};
ghost use Rattle.zo_core.specs.Literals.{Literal};
ghost use Rattle.conflict_proof.specs.declared.faults.Reason.TheVariants.{Range};
ghost use Rattle.verdict_meaning.specs.DerivationFaults.{HasFault, text_line};
ghost use Rattle.proof_checker.specs.Checking.{AreEarlier, IsLaterNamed, IsInRange};

use crate::constraints::Constraints;
use conflict_proof::{How, Line};
use zo_core::Lit;

/// Whether the line after the first `k` names only what is there: a group, earlier lines, unknowns of the group.
pub(crate) fn is_in_range<C: Constraints>(
    constraints: &C,
    lines: &[Line],
    k: usize,
    line: &Line,
) -> bool
    requires { slice_get lines.now k ≡ Some line.now }
    ensures { MatchBool result (IsInRange (C.system constraints.now) (k + 1) line.now)
        (HasFault (C.system constraints.now) (C.scope constraints.now) lines.now Range (text_line (k + 1))) }
{
    if line.group > constraints.root() {
        return false;
    }
    if !are_earlier(line.how, k) {
        return false;
    }
    are_known(line.lits.lits(), constraints.count(line.group))
}

/// Whether the lines that are named are among the first `k`.
fn are_earlier(how: How, k: usize) -> bool
    ensures { MatchBool result (AreEarlier how (k + 1)) (IsLaterNamed how (k + 1)) }
{
    match how {
        How::Axiom(_) => true,
        How::Resolve(i, j) => is_earlier(i, k) && is_earlier(j, k),
        How::Inst(i, _) => is_earlier(i, k),
    }
}

/// Whether a line of this number is among the first `k`.
fn is_earlier(number: u32, k: usize) -> bool
    ensures { MatchBool result ((0 < number) × (number < k + 1)) (0 < number → number < k + 1 → ⊥) }
{
    number > 0 && number as usize <= k
}

/// Whether all unknowns are among the first `count`.
fn are_known(lits: &[Lit], count: u32) -> bool
    ensures { MatchBool result (All (λ (l : Literal). l.var ≤ count) lits.now) ((l : Literal) × Contains lits.now l × (l.var ≤ count → ⊥)) }
{
    for lit in lits {
        if lit.var().number() > count {
            return false;
        }
    }
    true
}
