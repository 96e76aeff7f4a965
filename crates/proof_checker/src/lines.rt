ghost use Rattle.std.specs.Prelude.{◌≡◌, ◌<◌, ◌≤◌, ◌+◌, Some, length, slice_get, IfOk, MatchBool};
ghost use Rattle.verdict_meaning.specs.Systems.{root};
ghost use Rattle.verdict_meaning.specs.Derivations.{IsRight, IsResolventLine, IsInstLine};
ghost use Rattle.proof_checker.specs.Checking.{AreEarlier, IsInRange, IsLineVerdict, reason_of};

use crate::axioms::is_axiom;
use crate::constraints::Constraints;
use crate::instances::are_carried;
use crate::ranges::is_in_range;
use crate::resolvents::is_resolvent;
use c_tree::Memory;
use conflict_proof::{How, Line, Reason};
use std::alloc::Global;
use zo_core::Lit;

/// What is wrong with the line after the first `k`: that it names what is not there, or else that it is not what it says it
/// is.
pub(crate) fn line_fault<C: Constraints>(
    alloc: Global,
    made: &mut Vec<Lit>,
    constraints: &C,
    lines: &[Line],
    k: usize,
) -> Result<Option<Reason>, Memory>
    requires { k < length lines.now }
    ensures { IfOk result (IsLineVerdict (C.system constraints.now) (C.scope constraints.now) lines.now (k + 1)) }
{
    let line = &lines[k];
    if !is_in_range(constraints, lines, k, line) {
        return Ok(Some(Reason::Range));
    }
    if !is_right(alloc, made, constraints, lines, k, line)? {
        return Ok(Some(reason_of(line.how)));
    }
    Ok(None)
}

/// The reason of a line that is not what it says it is.
fn reason_of(how: How) -> Reason
    ensures { result ≡ reason_of how }
{
    match how {
        How::Axiom(_) => Reason::Axiom,
        How::Resolve(_, _) => Reason::Resolvent,
        How::Inst(_, _) => Reason::Inst,
    }
}

/// Whether the line after the first `k` is what it says it is.
fn is_right<C: Constraints>(
    alloc: Global,
    made: &mut Vec<Lit>,
    constraints: &C,
    lines: &[Line],
    k: usize,
    line: &Line,
) -> Result<bool, Memory>
    requires group { line.now.group ≤ root (C.system constraints.now) }
    requires earlier { AreEarlier line.now.how (k + 1) }
    requires within { k < length lines.now }
    ensures { IfOk result (λ yes. MatchBool yes (IsRight (C.system constraints.now) (C.scope constraints.now) lines.now (k + 1) line.now.group line.now.how line.now.lits)
        (IsRight (C.system constraints.now) (C.scope constraints.now) lines.now (k + 1) line.now.group line.now.how line.now.lits → ⊥)) }
{
    match line.how {
        How::Axiom(name) => is_axiom(alloc, constraints, line.group, &name, line.lits.lits()),
        How::Resolve(i, j) => is_resolvent_line(made, lines, k, line, i, j),
        How::Inst(i, site) => Ok(is_inst_line(constraints, lines, k, line, i, site)),
    }
}

/// Whether the line is the resolvent of two lines of its group.
fn is_resolvent_line(
    made: &mut Vec<Lit>,
    lines: &[Line],
    k: usize,
    line: &Line,
    i: u32,
    j: u32,
) -> Result<bool, Memory>
    requires first { (0 < i) × (i < k + 1) }
    requires second { (0 < j) × (j < k + 1) }
    requires within { k < length lines.now }
    ensures { IfOk result (λ yes. MatchBool yes (IsResolventLine lines.now (k + 1) line.now.group i j line.now.lits)
        (IsResolventLine lines.now (k + 1) line.now.group i j line.now.lits → ⊥)) }
{
    let first = &lines[i as usize - 1];
    let second = &lines[j as usize - 1];
    if first.group != line.group {
        return Ok(false);
    }
    if second.group != line.group {
        return Ok(false);
    }
    is_resolvent(
        made,
        first.lits.lits(),
        second.lits.lits(),
        line.lits.lits(),
    )
}

/// Whether the line is another, of the group that a site calls, carried to the site. It stays in its order there, since
/// what stands at a site for unknowns that ascend ascends.
fn is_inst_line<C: Constraints>(
    constraints: &C,
    lines: &[Line],
    k: usize,
    line: &Line,
    i: u32,
    site: u32,
) -> bool
    requires group { line.now.group ≤ root (C.system constraints.now) }
    requires earlier { (0 < i) × (i < k + 1) }
    requires within { k < length lines.now }
    ensures { MatchBool result (IsInstLine (C.system constraints.now) lines.now (k + 1) line.now.group i site line.now.lits)
        (IsInstLine (C.system constraints.now) lines.now (k + 1) line.now.group i site line.now.lits → ⊥) }
{
    let Some(callee) = constraints.callee(line.group, site) else {
        return false;
    };
    let from = &lines[i as usize - 1];
    if from.group != callee.group {
        return false;
    }
    are_carried(
        constraints,
        line.group,
        site,
        from.lits.lits(),
        line.lits.lits(),
    )
}
