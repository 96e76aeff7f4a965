ghost use Rattle.std.specs.Prelude.{Bool};
ghost use Rattle.conflict_proof.specs.declared.names.ConstraintName.{ConstraintName};
ghost use Rattle.verdict_meaning.specs.Closures.{IsUnitRefuted};
ghost use Rattle.verdict_meaning.specs.Laws.{BudgetSuffices};
ghost use Rattle.verdict_meaning.specs.Plain.{IsPlainSat};
ghost use Rattle.verdict_meaning.specs.Selected.{SelectedAreValid};
ghost use Rattle.verdict_meaning.specs.Systems.{System};

use verdict_meaning::{
    budget_suffices, plain_is_satisfiable, selected_are_valid, unit_refuted_is_unsatisfiable,
};

/// What answers stand on: a budget of the bound on all derivations is never spent, lines are valid without others on which none
/// of them stands, and propagation does not both refute and give a certificate.
pub(crate) fn laws()
    ensures bound { BudgetSuffices }
    ensures trim { SelectedAreValid }
    ensures apart { (s : System) → (U : ConstraintName → Bool) → IsUnitRefuted s U → IsPlainSat s U → ⊥ }
{
    budget_suffices();
    selected_are_valid();
    plain_is_satisfiable();
    unit_refuted_is_unsatisfiable();
}
