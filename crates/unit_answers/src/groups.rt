ghost use Rattle.std.specs.Prelude.{◌≡◌, ◌<◌, ◌≤◌, ◌^◌, [], length, IfOk};
ghost use Rattle.std.specs.List.{Contains};
ghost use Rattle.zo_core.specs.Literals.{Literal};
ghost use Rattle.transfer_rules.specs.Names.{in_scope};
ghost use Rattle.verdict_meaning.specs.Systems.{count, root};
ghost use Rattle.unit_answers.specs.Layouts.{IsLayoutOf};
ghost use Rattle.unit_answers.specs.Reasons.{AreReasoned};
ghost use Rattle.unit_answers.specs.Sets.{AreClosures, AreWithin};
ghost use Rattle.unit_answers.specs.Settled.{AreLower, IsOrdered, IsSettled};
ghost use Rattle.verdict_meaning.specs.Programs.{system_in};
ghost use Rattle.unit_answers.specs.Tables.{table_in};

use crate::closing::{count_of, group_set, most_in, root_set};
use crate::laying::layout;
use crate::layouts::Layout;
use crate::sets::{Closures, UnitSet};
use c_tree::Memory;
use std::alloc::Global;
use transfer_rules::{ClauseTable, Program, Scope, group_clauses};
use verdict_meaning::names_are_apart;

/// The sets of all groups of a program and of the root: the literals that propagation forces with nothing given, by the
/// constraints in a scope and those that are always in force. Each literal comes with a reason that stands on literals that
/// were found before it, or on one of a lower group.
///
/// It takes time linear in the clauses of all groups, in their unknowns, and in what is carried to sites; one group's clauses
/// are in memory at a time. Its one refusal is want of memory; a clause that speaks of an unknown beyond those of its group would be
/// answered so too.
pub fn closures(alloc: Global, program: &Program, scope: &Scope) -> Result<Closures, Memory>
    ensures exact { IfOk result (AreClosures (system_in program.now) (in_scope scope.now)) }
    ensures within { IfOk result (AreWithin (system_in program.now)) }
    ensures reasons { IfOk result (AreReasoned (system_in program.now) (table_in program.now scope.now)) }
{
    program.law();
    names_are_apart();
    let layout = layout(alloc, program)?;
    let root = layout.groups.len() - 1;
    let mut sets = Vec::new(alloc);
    for group in 0..root {
        let set = set_of(alloc, program, scope, &layout, group, &sets)?;
        sets.push(set)?;
    }
    let set = root_set(alloc, &layout, root, &sets)?;
    sets.push(set)?;
    Ok(Closures { sets })
}

/// The set of a group, over those of the lower groups.
fn set_of(
    alloc: Global,
    program: &Program,
    scope: &Scope,
    layout: &Layout,
    group: usize,
    lower: &[UnitSet],
) -> Result<UnitSet, Memory>
    requires layout { IsLayoutOf (system_in program.now) layout.now }
    requires group { group < length program.now.groups }
    requires lower { AreLower group lower.now }
    ensures ordered { IfOk result IsOrdered }
    ensures within { IfOk result (λ set. (l : Literal) → Contains set.lits l → l.var ≤ count (system_in program.now) group) }
    ensures settled { IfOk result (IsSettled (system_in program.now) group (table_in program.now scope.now group) lower.now []) }
{
    let Ok(number) = u32::try_from(group) else {
        return Err(Memory);
    };
    let table = table_of(alloc, program, scope, number)?;
    let count = count_of(layout, group);
    if most_in(&table, count) > count {
        return Err(Memory);
    }
    let set = group_set(alloc, layout, group, &table, lower)?;
    Ok(set)
}

/// The table of a group's clauses that are in force in a scope. More than 4,294,967,295 clauses are answered as want of memory.
pub(crate) fn table_of(
    alloc: Global,
    program: &Program,
    scope: &Scope,
    group: u32,
) -> Result<ClauseTable, Memory>
    requires { group < length program.now.groups }
    ensures table { IfOk result (λ t. t ≡ table_in program.now scope.now group) }
    ensures few { IfOk result (λ t. length t < 2 ^ 32) }
{
    let table = group_clauses(alloc, program, group, scope)?;
    if table.len() >= 4294967296 {
        return Err(Memory);
    }
    Ok(table)
}
