//! The clauses of a group.

ghost use Rattle.std.specs.Prelude.{◌≡◌, ℕ, ◌<◌, ◌≤◌, length, IfOk, IsTrue, slice_index_or};
ghost use Rattle.transfer_rules.specs.Names.{lits_of};
ghost use Rattle.transfer_rules.specs.Table.{no_clause};
ghost use Rattle.zo_solver.specs.Clauses.{EachClause};
ghost use Rattle.zo_solver.specs.Trail.{IsClauseOver};
ghost use Rattle.group_solver.specs.Rows.{rows_in};

use c_tree::Memory;
use conflict_proof::ConstraintName;
use std::alloc::Global;
use transfer_rules::ClauseTable;
use zo_core::{Clause, Lit};

/// The clauses of a table, of unknowns up to a number. One that is no such clause is answered as want of memory.
pub(crate) fn clauses_of(
    alloc: Global,
    table: &Option<ClauseTable>,
    vars: u32,
) -> Result<Vec<Clause>, Memory>
    ensures clauses { IfOk result (λ cs. cs.items ≡ lits_of (rows_in table.now)) }
    ensures over { IfOk result (λ cs. EachClause (IsClauseOver vars) cs.items) }
{
    match table {
        None => Ok(Vec::new(alloc)),
        Some(table) => clauses_in(alloc, table, vars),
    }
}

/// The clauses of a table that is there.
fn clauses_in(alloc: Global, table: &ClauseTable, vars: u32) -> Result<Vec<Clause>, Memory>
    ensures clauses { IfOk result (λ cs. cs.items ≡ lits_of table.now) }
    ensures over { IfOk result (λ cs. EachClause (IsClauseOver vars) cs.items) }
{
    let mut clauses = Vec::new(alloc);
    for number in 0..table.len() {
        let clause = clause_of(alloc, table.lits(number), vars)?;
        clauses.push(clause)?;
    }
    Ok(clauses)
}

/// The clause of these literals, of unknowns up to a number. Where they are none, it is answered as want of memory.
pub(crate) fn clause_of(alloc: Global, lits: &[Lit], vars: u32) -> Result<Clause, Memory>
    ensures literals { IfOk result (λ c. c ≡ lits.now) }
    ensures clause { IfOk result (IsClauseOver vars) }
{
    if !is_clause(lits, vars) {
        return Err(Memory);
    }
    let clause = Clause::of(alloc, lits)?;
    Ok(clause)
}

/// Whether literals are a clause of unknowns up to a number.
fn is_clause(lits: &[Lit], vars: u32) -> bool
    ensures { IsTrue result → IsClauseOver vars lits.now }
{
    let mut last = 0;
    for lit in lits {
        let var = lit.var().number();
        if var <= last {
            return false;
        }
        if var > vars {
            return false;
        }
        last = var;
    }
    true
}

/// The name of the constraint of a clause, by the clause's number from 0.
pub(crate) fn name_of(table: &Option<ClauseTable>, number: u64) -> Result<ConstraintName, Memory>
    requires { number < length (rows_in table.now) }
    ensures { IfOk result (λ n. n ≡ (slice_index_or (rows_in table.now) number no_clause).name) }
{
    match table {
        None => Err(Memory),
        Some(table) => Ok(table.name(number as usize)),
    }
}
