ghost use Rattle.std.specs.Prelude.{◌≡◌, ◌<◌, ◌≤◌, ◌^◌, length, slice_index_or, IfOk, OnOk, MatchBool};
ghost use Rattle.std.specs.List.{All};
ghost use Rattle.transfer_rules.specs.Table.{no_clause};
ghost use Rattle.unit_answers.specs.Reasons.{AreDenied};
ghost use Rattle.unit_answers.specs.Trails.{known};
ghost use Rattle.unit_answers.specs.Propagation.{IsWithin, IsForceStep, IsVisited, IsSwept, Forces, AreClosed};

use crate::findings::Reason;
use crate::index::Index;
use crate::trail::Trail;
use c_tree::Memory;
use transfer_rules::ClauseTable;
use zo_core::Lit;

/// Whether each literal of a clause but for one is denied.
fn are_denied(trail: &Trail, clause: &[Lit], lit: Lit) -> bool
    requires { All (λ m. m.var ≤ trail.now.unknowns) clause.now }
    ensures { MatchBool result (AreDenied (known trail.now) clause.now lit) (AreDenied (known trail.now) clause.now lit → ⊥) }
{
    for other in clause {
        if *other != lit && !trail.has(other.negated()) {
            return false;
        }
    }
    true
}

/// Adds a literal of a clause where the clause's other literals are denied. Says whether it was added.
fn force(trail: &mut Trail, clause: &[Lit], number: u32, lit: Lit) -> Result<bool, Memory>
    requires clause { All (λ m. m.var ≤ trail.old.unknowns) clause.now }
    requires lit { lit.var ≤ trail.old.unknowns }
    ensures { IfOk result (λ changed. IsForceStep clause.now number lit trail.old trail.new changed) }
{
    if trail.has(lit) {
        return Ok(false);
    }
    if !are_denied(trail, clause, lit) {
        return Ok(false);
    }
    trail.add(lit, Reason::Clause(number))
}

/// Adds the literals of a clause whose other literals are denied. Says whether any was added.
fn visit(trail: &mut Trail, table: &ClauseTable, number: u32) -> Result<bool, Memory>
    requires number { number < length table.now }
    requires table { All (IsWithin trail.old.unknowns) table.now }
    ensures { IfOk result (λ changed. let c = (slice_index_or table.now number no_clause).lits in IsVisited table.now c (length c) trail.old trail.new changed) }
{
    let clause = table.lits(number as usize);
    let mut changed = false;
    'lits: for lit in clause {
        changed |= force(trail, clause, number, *lit)?;
    }
    Ok(changed)
}

/// Visits each clause once. Says whether any literal was added.
fn sweep(trail: &mut Trail, table: &ClauseTable) -> Result<bool, Memory>
    requires few { length table.now < 2 ^ 32 }
    requires table { All (IsWithin trail.old.unknowns) table.now }
    ensures { IfOk result (λ changed. IsSwept table.now (length table.now) trail.old trail.new changed) }
{
    let mut changed = false;
    'clauses: for number in 0..table.len() {
        changed |= visit(trail, table, number as u32)?;
    }
    Ok(changed)
}

/// Visits clauses by their numbers; a number that the table doesn't have is skipped.
fn visit_all(trail: &mut Trail, table: &ClauseTable, numbers: &[u32]) -> Result<(), Memory>
    requires { All (IsWithin trail.old.unknowns) table.now }
    ensures { OnOk result (Forces table.now trail.old trail.new) }
{
    'numbers: for number in numbers {
        if (*number as usize) < table.len() {
            visit(trail, table, *number)?;
        }
    }
    Ok(())
}

/// Visits the clauses that hold the opposite of a literal, for each literal from a place on.
fn follow(trail: &mut Trail, table: &ClauseTable, index: &Index, from: usize) -> Result<(), Memory>
    requires { All (IsWithin trail.old.unknowns) table.now }
    ensures { OnOk result (Forces table.now trail.old trail.new) }
{
    let end = 2 * trail.unknowns() as usize + 2;
    'places: for place in from..end {
        if place >= trail.len() {
            return Ok(());
        }
        let lit = trail.at(place);
        visit_all(trail, table, index.of(lit.negated()))?;
    }
    Ok(())
}

/// Adds every literal that the clauses force.
///
/// The literals from a place on are followed through the index, which is but a guide; what a sweep of the whole table then
/// adds is followed too. Where the index is right, the second sweep adds nothing; the last one shows that nothing is left.
pub(crate) fn settle(
    trail: &mut Trail,
    table: &ClauseTable,
    index: &Index,
    from: usize,
) -> Result<(), Memory>
    requires few { length table.now < 2 ^ 32 }
    requires table { All (IsWithin trail.old.unknowns) table.now }
    ensures forces { OnOk result (Forces table.now trail.old trail.new) }
    ensures closed { OnOk result (AreClosed (known trail.new) table.now) }
{
    follow(trail, table, index, from)?;
    let mut swept = trail.len();
    'turns: while sweep(trail, table)? {
        follow(trail, table, index, swept)?;
        swept = trail.len();
    }
    Ok(())
}
