ghost use Rattle.std.specs.Prelude.{◌≤◌, IfOk, MatchBool};
ghost use Rattle.verdict_meaning.specs.Systems.{root};
ghost use Rattle.verdict_meaning.specs.Derivations.{IsAxiomLine};

use crate::constraints::Constraints;
use crate::literals::has_clause;
use c_tree::Memory;
use conflict_proof::ConstraintName;
use std::alloc::Global;
use zo_core::Lit;

/// Whether it is a clause of a constraint of the group that counts. The root has no constraints.
pub(crate) fn is_axiom<C: Constraints>(
    alloc: Global,
    constraints: &C,
    group: u32,
    name: &ConstraintName,
    lits: &[Lit],
) -> Result<bool, Memory>
    requires { group ≤ root (C.system constraints.now) }
    ensures { IfOk result (λ yes. MatchBool yes (IsAxiomLine (C.system constraints.now) (C.scope constraints.now) group name.now lits.now)
        (IsAxiomLine (C.system constraints.now) (C.scope constraints.now) group name.now lits.now → ⊥)) }
{
    if group == constraints.root() {
        return Ok(false);
    }
    if !constraints.counts(name) {
        return Ok(false);
    }
    let Some(clauses) = constraints.clauses(alloc, group, name)? else {
        return Ok(false);
    };
    Ok(has_clause(&clauses, lits))
}
