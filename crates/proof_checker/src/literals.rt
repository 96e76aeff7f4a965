ghost use Rattle.std.specs.Prelude.{◌≡◌, MatchBool};
ghost use Rattle.std.specs.List.{Contains};

use zo_core::{Clause, Lit};

/// Whether two lists of literals are one.
pub(crate) fn same(a: &[Lit], b: &[Lit]) -> bool
    ensures { MatchBool result (a.now ≡ b.now) (a.now ≡ b.now → ⊥) }
{
    if a.len() != b.len() {
        return false;
    }
    for i in 0..a.len() {
        if a[i] != b[i] {
            return false;
        }
    }
    true
}

/// Whether the clause of these literals is among the clauses.
pub(crate) fn has_clause(clauses: &[Clause], lits: &[Lit]) -> bool
    ensures { MatchBool result (Contains clauses.now lits.now) (Contains clauses.now lits.now → ⊥) }
{
    for clause in clauses {
        if same(clause.lits(), lits) {
            return true;
        }
    }
    false
}
