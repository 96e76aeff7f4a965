//! The inference, where lines are known.

ghost use Rattle.std.specs.Prelude.{◌≡◌, ◌<◌, ◌≤◌, ◌+◌, ◌++◌, ◌∷◌, ◌^◌, ℕ, Bool, [], Some, IfOk, MatchOption, length, map};
ghost use Rattle.conflict_proof.specs.declared.derivation.How.TheVariants.{Inst};
ghost use Rattle.conflict_proof.specs.declared.derivation.Line.{Line};
ghost use Rattle.conflict_proof.specs.declared.names.ConstraintName.{ConstraintName};
ghost use Rattle.transfer_rules.specs.Names.{in_scope};
ghost use Rattle.unit_answers.specs.Sets.{AreClosures, AreWithin};
ghost use Rattle.unit_refutation.specs.Refutations.{IsUnitRefutation, most_unit_cost};
ghost use Rattle.verdict_meaning.specs.Closures.{IsUnitRefuted};
ghost use Rattle.verdict_meaning.specs.Derivations.{HasAtMost, IsValidIn, cost_of, line_at};
ghost use Rattle.verdict_meaning.specs.Plain.{IsPlainSat};
ghost use Rattle.verdict_meaning.specs.Programs.{system_in};
ghost use Rattle.verdict_meaning.specs.Solutions.{all_names};
ghost use Rattle.verdict_meaning.specs.Systems.{System, root};
ghost use Rattle.call_search.specs.Verdicts.{AreKnown, BeginsWith, IsRefutation};
ghost use Rattle.call_summary.specs.Inferences.{IsAccepted};
ghost use Rattle.call_summary.specs.Joins.{HaveClauses};
ghost use Rattle.call_summary.specs.Knowing.{IsEmptyAt, KnownIs, NoneIsEmpty, shifted, shifted_how};

use crate::inferred::{Inferred, Known};
use crate::inferring::whole_scope;
use crate::joining::joined;
use crate::laws::laws;
use crate::trimming::{line_from, number, refuted};
use c_tree::Memory;
use call_search::{Groups, Judged, judge};
use conflict_proof::{Derivation, How, Line, Lines};
use group_solver::{GroupSolver, group_solver};
use own_cert::Certificate;
use plain_answers::plain_certificate_by;
use std::alloc::Global;
use transfer_rules::{Program, Scope};
use unit_answers::{Closures, closures};
use unit_refutation::{Refutation, refutation};
use zo_core::Clause;

/// The same as [`infer`](crate::infer) where lines are known, which cost nothing: the budget is for what comes after them. They
/// are valid, none of them is the root's, and no two of one group have one clause. A known line without literals refutes at once.
///
/// The answered derivation begins with the known lines. The lines that come with the answer begin with them too, and are such
/// lines again: they have the clause of each line of that derivation that is not the root's.
///
/// # Errors
///
/// Memory at any time.
pub fn infer_with(
    alloc: Global,
    program: &Program,
    budget: u64,
    known: &Derivation,
) -> Result<Known, Memory>
    requires known { AreKnown (system_in program.now) all_names known.now.lines }
    requires cost { cost_of known.now.lines ≤ 268435456 }
    requires some { 0 < budget }
    requires budget { budget ≤ 100000000 }
    ensures { IfOk result (KnownIs (system_in program.now) all_names known.now.lines budget) }
{
    let scope = whole_scope(alloc);
    let answer = infer_known(alloc, program, &scope, budget, known)?;
    Ok(answer)
}

/// The same with the constraints in a scope.
fn infer_known(
    alloc: Global,
    program: &Program,
    scope: &Scope,
    budget: u64,
    known: &Derivation,
) -> Result<Known, Memory>
    requires known { AreKnown (system_in program.now) (in_scope scope.now) known.now.lines }
    requires cost { cost_of known.now.lines ≤ 268435456 }
    requires some { 0 < budget }
    requires budget { budget ≤ 100000000 }
    ensures { IfOk result (KnownIs (system_in program.now) (in_scope scope.now) known.now.lines budget) }
{
    let groups = group_solver(alloc, program, scope)?;
    let lines = known.lines.items.as_slice();
    let answer = answered(alloc, &groups, budget, lines)?;
    Ok(answer)
}

/// The same for the program and the scope of a solver of groups.
fn answered(
    alloc: Global,
    groups: &GroupSolver<'_>,
    budget: u64,
    known: &[Line],
) -> Result<Known, Memory>
    requires known { AreKnown (system_in groups.now.shapes.program.now) (in_scope groups.now.scope.now) known.now }
    requires cost { cost_of known.now ≤ 268435456 }
    requires some { 0 < budget }
    requires budget { budget ≤ 100000000 }
    ensures { IfOk result (KnownIs (system_in groups.now.shapes.program.now) (in_scope groups.now.scope.now) known.now budget) }
{
    match first_empty(known)? {
        Some(at) => refuted_before(alloc, groups, budget, known, at),
        None => propagated(alloc, groups, budget, known),
    }
}

/// The answer where each known line has a literal.
fn propagated(
    alloc: Global,
    groups: &GroupSolver<'_>,
    budget: u64,
    known: &[Line],
) -> Result<Known, Memory>
    requires known { AreKnown (system_in groups.now.shapes.program.now) (in_scope groups.now.scope.now) known.now }
    requires none { NoneIsEmpty known.now }
    requires cost { cost_of known.now ≤ 268435456 }
    requires budget { budget ≤ 100000000 }
    ensures { IfOk result (KnownIs (system_in groups.now.shapes.program.now) (in_scope groups.now.scope.now) known.now budget) }
{
    laws();
    let program = groups.shapes.program;
    let scope = groups.scope;
    let sets = closures(alloc, program, scope)?;
    match refutation(alloc, program, scope, &sets, budget as u32)? {
        Some(Refutation::Whole(derivation)) => {
            refuted_by_units(alloc, groups, budget, known, &derivation)
        }
        Some(Refutation::Over(_)) => searched(alloc, groups, budget, known),
        None => unrefuted(alloc, groups, budget, known, &sets),
    }
}

/// The answer where besides propagation does not refute.
fn unrefuted(
    alloc: Global,
    groups: &GroupSolver<'_>,
    budget: u64,
    known: &[Line],
    sets: &Closures,
) -> Result<Known, Memory>
    requires known { AreKnown (system_in groups.now.shapes.program.now) (in_scope groups.now.scope.now) known.now }
    requires none { NoneIsEmpty known.now }
    requires cost { cost_of known.now ≤ 268435456 }
    requires budget { budget ≤ 100000000 }
    requires exact { AreClosures (system_in groups.now.shapes.program.now) (in_scope groups.now.scope.now) sets.now }
    requires within { AreWithin (system_in groups.now.shapes.program.now) sets.now }
    requires units { IsUnitRefuted (system_in groups.now.shapes.program.now) (in_scope groups.now.scope.now) → ⊥ }
    ensures { IfOk result (KnownIs (system_in groups.now.shapes.program.now) (in_scope groups.now.scope.now) known.now budget) }
{
    match plain_certificate_by(alloc, groups.shapes.program, groups.scope, sets)? {
        Some(certificate) => accepted_plainly(alloc, known, certificate),
        None => searched(alloc, groups, budget, known),
    }
}

/// The number of the first line without literals.
fn first_empty(lines: &[Line]) -> Result<Option<u32>, Memory>
    ensures { IfOk result (λ o. MatchOption o (NoneIsEmpty lines.now) (IsEmptyAt lines.now)) }
{
    for index in 0..lines.len() {
        if lines[index].lits.lits().is_empty() {
            let at = number(index + 1)?;
            return Ok(Some(at));
        }
    }
    Ok(None)
}

/// The answer where a known line has no literals: the root has such a line at once.
fn refuted_before<G: Groups>(
    alloc: Global,
    groups: &G,
    budget: u64,
    known: &[Line],
    at: u32,
) -> Result<Known, Memory>
    requires known { AreKnown (G.system groups.now) (G.counting groups.now) known.now }
    requires some { 0 < budget }
    requires empty { IsEmptyAt known.now at }
    ensures { IfOk result (KnownIs (G.system groups.now) (G.counting groups.now) known.now budget) }
{
    let derivation = carried_up(alloc, known, at, groups.root())?;
    let inferred = refuted(alloc, &derivation, known.len())?;
    let lines = copied(alloc, known)?;
    Ok(Known { inferred, lines })
}

/// The known lines, and one of them without literals carried to the root.
fn carried_up(alloc: Global, known: &[Line], at: u32, root: u32) -> Result<Derivation, Memory>
    requires { IsEmptyAt known.now at }
    ensures { IfOk result (λ d. (line : Line) → line_at known.now at ≡ Some line → d.lines ≡ known.now ++ record { group = root; how = Inst at line.group; lits = [] } ∷ []) }
{
    let site = known[at as usize - 1].group;
    let mut lines = copied(alloc, known)?.lines.items;
    lines.push(Line {
        group: root,
        how: How::Inst(at, site),
        lits: Clause::of(alloc, &[])?,
    })?;
    Ok(Derivation {
        lines: Lines { items: lines },
    })
}

/// A copy of some lines.
fn copied(alloc: Global, lines: &[Line]) -> Result<Derivation, Memory>
    ensures { IfOk result (λ d. d.lines ≡ lines.now) }
{
    let mut items = Vec::new(alloc);
    for line in lines.iter() {
        items.push(line_from(alloc, line, line.how)?)?;
    }
    Ok(Derivation {
        lines: Lines { items },
    })
}

/// The answer that a refutation by propagation gives, behind the known lines.
fn refuted_by_units<G: Groups>(
    alloc: Global,
    groups: &G,
    budget: u64,
    known: &[Line],
    derivation: &Derivation,
) -> Result<Known, Memory>
    requires known { AreKnown (G.system groups.now) (G.counting groups.now) known.now }
    requires units { IsUnitRefutation (G.system groups.now) (G.counting groups.now) budget derivation.now.lines }
    ensures { IfOk result (KnownIs (G.system groups.now) (G.counting groups.now) known.now budget) }
{
    let behind = behind(alloc, known, derivation.lines.items.as_slice())?;
    refuted_by(alloc, groups, budget, known, &behind)
}

/// The known lines, and a derivation behind them.
fn behind(alloc: Global, known: &[Line], more: &[Line]) -> Result<Derivation, Memory>
    ensures { IfOk result (λ d. d.lines ≡ known.now ++ map (shifted (length known.now)) more.now) }
{
    let mut items = copied(alloc, known)?.lines.items;
    for line in more.iter() {
        let how = shifted(line.how, known.len())?;
        items.push(line_from(alloc, line, how)?)?;
    }
    Ok(Derivation {
        lines: Lines { items },
    })
}

/// Where a line comes from, with so many lines before.
fn shifted(how: How, count: usize) -> Result<How, Memory>
    ensures { IfOk result (λ h. h ≡ shifted_how count how) }
{
    match how {
        How::Axiom(name) => Ok(How::Axiom(name)),
        How::Resolve(first, second) => {
            let first = after(first, count)?;
            let second = after(second, count)?;
            Ok(How::Resolve(first, second))
        }
        How::Inst(line, site) => {
            let line = after(line, count)?;
            Ok(How::Inst(line, site))
        }
    }
}

/// The number of a line with so many lines before. More lines than have numbers are want of memory.
fn after(line: u32, count: usize) -> Result<u32, Memory>
    ensures { IfOk result (λ n. n ≡ count + line) }
{
    if count > (u32::MAX - line) as usize {
        return Err(Memory);
    }
    Ok(count as u32 + line)
}

/// The answer that a refutation gives which begins with the known lines.
fn refuted_by<G: Groups>(
    alloc: Global,
    groups: &G,
    budget: u64,
    known: &[Line],
    derivation: &Derivation,
) -> Result<Known, Memory>
    requires known { AreKnown (G.system groups.now) (G.counting groups.now) known.now }
    requires refutation { IsRefutation (G.system groups.now) (G.counting groups.now) known.now budget derivation.now.lines }
    ensures { IfOk result (KnownIs (G.system groups.now) (G.counting groups.now) known.now budget) }
{
    let lines = group_lines(alloc, groups, known, &derivation.lines)?;
    let inferred = refuted(alloc, derivation, known.len())?;
    Ok(Known { inferred, lines })
}

/// The known lines, and those of a derivation that are of groups and whose clauses are not known.
fn group_lines<G: Groups>(
    alloc: Global,
    groups: &G,
    known: &[Line],
    more: &Lines,
) -> Result<Derivation, Memory>
    requires known { AreKnown (G.system groups.now) (G.counting groups.now) known.now }
    requires valid { IsValidIn (G.system groups.now) (G.counting groups.now) more.now }
    ensures known { IfOk result (λ d. AreKnown (G.system groups.now) (G.counting groups.now) d.lines) }
    ensures first { IfOk result (λ d. BeginsWith known.now d.lines) }
    ensures have { IfOk result (λ d. HaveClauses (root (G.system groups.now)) d.lines more.now) }
{
    let items = joined(alloc, groups.root(), known, more.items.as_slice())?;
    Ok(Derivation {
        lines: Lines { items },
    })
}

/// The answer where propagation alone gives a certificate.
fn accepted_plainly(
    alloc: Global,
    known: &[Line],
    certificate: Certificate,
) -> Result<Known, Memory>
    ensures { IfOk result (λ k. (s : System) → (U : ConstraintName → Bool) → (budget : ℕ) → AreKnown s U known.now → NoneIsEmpty known.now → IsAccepted s U certificate → KnownIs s U known.now budget k) }
{
    let lines = copied(alloc, known)?;
    Ok(Known {
        inferred: Inferred::Accepted(certificate),
        lines,
    })
}

/// The answer that the search gives.
fn searched<G: Groups>(
    alloc: Global,
    groups: &G,
    budget: u64,
    known: &[Line],
) -> Result<Known, Memory>
    requires known { AreKnown (G.system groups.now) (G.counting groups.now) known.now }
    requires none { NoneIsEmpty known.now }
    requires small { cost_of known.now + budget < 2 ^ 32 }
    requires units { IsUnitRefuted (G.system groups.now) (G.counting groups.now) → (most : ℕ) → HasAtMost (G.system groups.now) most → budget < most_unit_cost (root (G.system groups.now)) most }
    requires plain { IsPlainSat (G.system groups.now) (G.counting groups.now) → ⊥ }
    ensures { IfOk result (KnownIs (G.system groups.now) (G.counting groups.now) known.now budget) }
{
    laws();
    let first = copied(alloc, known)?;
    match judge(alloc, groups, budget, first.lines)? {
        Judged::Accepted(certificate, learnt) => {
            let lines = group_lines(alloc, groups, known, &learnt)?;
            Ok(Known {
                inferred: Inferred::Accepted(certificate),
                lines,
            })
        }
        Judged::Refuted(derivation) => refuted_by(alloc, groups, budget, known, &derivation),
        Judged::Undecided(derivation) => {
            let lines = group_lines(alloc, groups, known, &derivation.lines)?;
            Ok(Known {
                inferred: Inferred::Undecided(derivation),
                lines,
            })
        }
    }
}
