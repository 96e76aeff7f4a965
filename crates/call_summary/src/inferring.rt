//! The inference, where no lines are known.

ghost use Rattle.std.specs.Prelude.{◌≤◌, IfOk};
ghost use Rattle.transfer_rules.specs.Names.{in_scope};
ghost use Rattle.verdict_meaning.specs.Closures.{IsUnitRefuted};
ghost use Rattle.verdict_meaning.specs.Plain.{IsPlainSat};
ghost use Rattle.verdict_meaning.specs.Programs.{IsWhole, system_in};
ghost use Rattle.verdict_meaning.specs.Solutions.{all_names};
ghost use Rattle.call_summary.specs.Inferences.{InferredIs};
ghost use Rattle.unit_answers.specs.Sets.{AreClosures, AreWithin};

use crate::inferred::Inferred;
use crate::laws::laws;
use crate::trimming::refuted;
use c_tree::Memory;
use call_search::{Judged, judge};
use conflict_proof::{ConstraintName, Lines, Names};
use group_solver::group_solver;
use plain_answers::plain_certificate_by;
use std::alloc::Global;
use transfer_rules::{Program, Scope};
use unit_answers::{Closures, closures};
use unit_refutation::{Refutation, refutation};

/// Whether a program's constraints can be met, under a budget of words for the lines of a derivation: a good certificate,
/// or a derivation that refutes them and costs at most the budget, or one that shows that the budget is spent.
///
/// The budget is not spent where it is at least the bound on all derivations without a clause twice in a group, nor where
/// propagation refutes and the budget is at least the bound on such refutations, nor where propagation gives a certificate.
///
/// # Errors
///
/// Memory at any time.
pub fn infer(alloc: Global, program: &Program, budget: u64) -> Result<Inferred, Memory>
    requires { budget ≤ 100000000 }
    ensures { IfOk result (InferredIs (system_in program.now) all_names budget) }
{
    let scope = whole_scope(alloc);
    let inferred = infer_in(alloc, program, budget, &scope)?;
    Ok(inferred)
}

/// The scope of all names.
pub(crate) fn whole_scope(alloc: Global) -> Scope
    ensures { IsWhole result }
{
    Scope {
        keep: Names {
            items: Vec::new(alloc),
        },
        after: ConstraintName {
            proc: 0,
            place: 0,
            edge: 0,
            rule: 0,
            slot: 0,
            field: 0,
            other: 0,
        },
        without: Names {
            items: Vec::new(alloc),
        },
    }
}

/// The same as [`infer`] with the constraints whose names are in a scope, and those that are always in force.
///
/// # Errors
///
/// Memory at any time.
pub fn infer_in(
    alloc: Global,
    program: &Program,
    budget: u64,
    scope: &Scope,
) -> Result<Inferred, Memory>
    requires { budget ≤ 100000000 }
    ensures { IfOk result (InferredIs (system_in program.now) (in_scope scope.now) budget) }
{
    laws();
    let sets = closures(alloc, program, scope)?;
    match refutation(alloc, program, scope, &sets, budget as u32)? {
        Some(Refutation::Whole(derivation)) => refuted(alloc, &derivation, 0),
        Some(Refutation::Over(derivation)) => Ok(Inferred::Undecided(derivation)),
        None => unrefuted(alloc, program, budget, scope, &sets),
    }
}

/// What is inferred where propagation does not refute.
fn unrefuted(
    alloc: Global,
    program: &Program,
    budget: u64,
    scope: &Scope,
    sets: &Closures,
) -> Result<Inferred, Memory>
    requires budget { budget ≤ 100000000 }
    requires exact { AreClosures (system_in program.now) (in_scope scope.now) sets.now }
    requires within { AreWithin (system_in program.now) sets.now }
    requires units { IsUnitRefuted (system_in program.now) (in_scope scope.now) → ⊥ }
    ensures { IfOk result (InferredIs (system_in program.now) (in_scope scope.now) budget) }
{
    match plain_certificate_by(alloc, program, scope, sets)? {
        Some(certificate) => Ok(Inferred::Accepted(certificate)),
        None => searched(alloc, program, budget, scope),
    }
}

/// What is inferred where propagation does not decide.
fn searched(
    alloc: Global,
    program: &Program,
    budget: u64,
    scope: &Scope,
) -> Result<Inferred, Memory>
    requires budget { budget ≤ 100000000 }
    requires units { IsUnitRefuted (system_in program.now) (in_scope scope.now) → ⊥ }
    requires plain { IsPlainSat (system_in program.now) (in_scope scope.now) → ⊥ }
    ensures { IfOk result (InferredIs (system_in program.now) (in_scope scope.now) budget) }
{
    laws();
    let groups = group_solver(alloc, program, scope)?;
    let none = Lines {
        items: Vec::new(alloc),
    };
    match judge(alloc, &groups, budget, none)? {
        Judged::Accepted(certificate, _) => Ok(Inferred::Accepted(certificate)),
        Judged::Refuted(derivation) => refuted(alloc, &derivation, 0),
        Judged::Undecided(derivation) => Ok(Inferred::Undecided(derivation)),
    }
}
