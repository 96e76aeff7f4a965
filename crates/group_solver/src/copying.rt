//! Copying what a solver learnt into the ledger.

ghost use Rattle.std.specs.Prelude.{◌≡◌, ℕ, ◌+◌, ◌<◌, ◌≤◌, ◌++◌, ◌∷◌, [], List, length, Some, IfOk, OnOk};
ghost use Rattle.zo_core.specs.Literals.{Literal};
ghost use Rattle.transfer_rules.specs.Names.{lits_of};
ghost use Rattle.zo_solver.specs.Clauses.{numbered};
ghost use Rattle.group_solver.specs.Copies.{HasRow, HowIs, IsCopying, IsPut};
ghost use Rattle.group_solver.specs.Marks.{IsClosedFrom, PremisesAreBelow};
ghost use Rattle.group_solver.specs.Rows.{rows_in};

use crate::clauses::{clause_of, name_of};
use c_tree::Memory;
use call_search::Ledger;
use conflict_proof::{How, Line};
use std::alloc::Global;
use transfer_rules::ClauseTable;
use zo_solver::{Origin, Solver};

/// Copies the wanted lines of a group's solver into the ledger, from the first that has no place there yet; each gets its
/// place, and the others get none.
pub(crate) fn copy(
    alloc: Global,
    ledger: &mut Ledger,
    places: &mut Vec<u32>,
    solver: &Solver,
    table: &Option<ClauseTable>,
    group: u32,
    vars: u32,
    wanted: &[bool],
) -> Result<(), Memory>
    requires begun { IsCopying (rows_in table.now) group vars solver.now wanted.now ledger.old ledger.old places.old.items }
    requires there { length wanted.now ≤ length solver.now.lines }
    requires closed { IsClosedFrom (length places.old.items) solver.now.origins wanted.now }
    ensures copied { OnOk result (IsCopying (rows_in table.now) group vars solver.now wanted.now ledger.old ledger.new places.new.items) }
    ensures all { OnOk result (length wanted.now ≤ length places.new.items) }
{
    let _lines = solver.lines();
    for at in places.len()..wanted.len() {
        if !wanted[at] {
            places.push(0)?;
            continue;
        }
        let number = at as u32 + 1;
        let place = copy_line(alloc, ledger, places, solver, table, group, vars, number)?;
        places.push(place)?;
    }
    Ok(())
}

/// Copies a line of a group's solver into the ledger, and says which line it is there.
fn copy_line(
    alloc: Global,
    ledger: &mut Ledger,
    places: &[u32],
    solver: &Solver,
    table: &Option<ClauseTable>,
    group: u32,
    vars: u32,
    number: u32,
) -> Result<u32, Memory>
    requires given { solver.now.given ≡ lits_of (rows_in table.now) }
    requires some { 0 < number }
    requires there { number ≤ length solver.now.lines }
    requires places { number ≡ length places.now + 1 }
    requires room { (c : List Literal) → numbered solver.now.lines number ≡ Some c → length c + 1 ≤ ledger.old.words }
    ensures { IfOk result (IsPut (rows_in table.now) group vars solver.now places.now number ledger.old ledger.new) }
{
    let how = how_of(places, table, solver.origin(number))?;
    let lits = clause_of(alloc, solver.line(number), vars)?;
    let Ok(place) = u32::try_from(ledger.lines().len() + 1) else {
        return Err(Memory);
    };
    ledger.push(alloc, Line { group, how, lits })?;
    Ok(place)
}

/// Where a line of a group's solver comes from, by the places of the lines before it. A lemma has a place itself, and is
/// answered as want of memory.
pub(crate) fn how_of(
    places: &[u32],
    table: &Option<ClauseTable>,
    origin: Origin,
) -> Result<How, Memory>
    requires row { HasRow (rows_in table.now) origin }
    requires premises { PremisesAreBelow (length places.now + 1) origin }
    ensures { IfOk result (HowIs (rows_in table.now) places.now origin) }
{
    match origin {
        Origin::Given(clause) => {
            let name = name_of(table, clause)?;
            Ok(How::Axiom(name))
        }
        Origin::Lemma => Err(Memory),
        Origin::Resolved(first, second) => Ok(How::Resolve(
            places[first as usize - 1],
            places[second as usize - 1],
        )),
    }
}
