ghost use Rattle.std.specs.Prelude.{◌≡◌, ◌<◌, Some, None, length, drop, option_map, slice_index_or, MatchOption, IfOk};
ghost use Rattle.transfer_rules.specs.Exist.{EdgesExist};
ghost use Rattle.transfer_rules.specs.Names.{condition_clauses, condition_in};
ghost use Rattle.transfer_rules.specs.Rules.{constraints_at};
ghost use Rattle.transfer_rules.specs.declared.constraint.Constraint.{Constraint as Plain};

use crate::candidates::push_named;
use crate::constraint::Constraint;
use crate::scene::Scene;
use crate::scope::is_name;
use c_tree::Memory;
use conflict_proof::ConstraintName;
use std::alloc::Global;
use zo_core::{Clause, Rule};

/// Where a constraint of this name stands among these.
fn find(found: &[Constraint], name: &ConstraintName) -> Option<usize>
    ensures { MatchOption result (condition_in found.now name.now ≡ None)
        (λ i. (i < length found.now) × ((d : Plain) → condition_in found.now name.now ≡ Some (slice_index_or found.now i d).condition)) }
{
    for i in 0..found.len() {
        if is_name(&found[i].name, name) {
            return Some(i);
        }
    }
    None
}

/// The clauses of the constraint of this name among these. None where there is none.
fn clauses_among(
    alloc: Global,
    found: &[Constraint],
    name: &ConstraintName,
) -> Result<Option<Vec<Clause>>, Memory>
    ensures { IfOk result (λ o. MatchOption o
        (option_map condition_clauses (condition_in found.now name.now) ≡ None)
        (λ cs. option_map condition_clauses (condition_in found.now name.now) ≡ Some cs.items)) }
{
    let Some(i) = find(found, name) else {
        return Ok(None);
    };
    let clauses = found[i].condition.clauses(alloc)?;
    Ok(Some(clauses))
}

/// The clauses of the constraint of this name, which is looked for among those that can have it. None where there is none.
pub(crate) fn clauses_at<S: Scene>(
    alloc: Global,
    scene: &S,
    name: &ConstraintName,
) -> Result<Option<Vec<Clause>>, Memory>
    requires { EdgesExist (S.sight scene.now) (S.setting scene.now) name.now.place }
    ensures { IfOk result (λ o. MatchOption o
        (option_map condition_clauses (condition_in (constraints_at (S.sight scene.now) (S.setting scene.now) name.now.place) name.now) ≡ None)
        (λ cs. option_map condition_clauses (condition_in (constraints_at (S.sight scene.now) (S.setting scene.now) name.now.place) name.now) ≡ Some cs.items)) }
{
    let mut found = Vec::new(alloc);
    push_named(alloc, &mut found, scene, name)?;
    clauses_among(alloc, &found, name)
}
