ghost use Rattle.std.specs.Prelude.{◌≡◌, ◌≢◌, ◌<◌, ◌≤◌, [], length, IfOk, OnOk, MatchOption};
ghost use Rattle.std.specs.List.{Contains};
ghost use Rattle.zo_core.specs.Literals.{Literal, opposite};
ghost use Rattle.verdict_meaning.specs.Systems.{root};
ghost use Rattle.unit_answers.specs.Reasons.{AreReasoned};
ghost use Rattle.unit_refutation.specs.Numbers.{HasRoom};
ghost use Rattle.unit_refutation.specs.Room.{found_in, HasRoomFor};
ghost use Rattle.unit_refutation.specs.Collecting.{AreTables, AreOfUnknowns, IsMarked, AddsMarks, EachPremise, AreCollected, lit_found, IsCauseFound, IsAsked};

use crate::numbers::LitNumbers;
use crate::steps::{Cause, Step};
use crate::tables::Tables;
use c_tree::Memory;
use std::alloc::Global;
use transfer_rules::ClauseTable;
use unit_answers::{Closures, Contradiction, Reason};
use zo_core::{Clause, Lit};

/// The steps on which a contradiction stands, each before those that it stands on itself. The marks, which have room for
/// each literal found, mark the literal of the contradiction and its opposite.
pub(crate) fn collect<T: Tables>(
    alloc: Global,
    tables: &T,
    closures: &Closures,
    clash: Contradiction,
    marks: &mut LitNumbers,
) -> Result<Vec<Step>, Memory>
    requires asked { IsAsked (T.system tables.now) (T.scope tables.now) (T.rows tables.now) closures.now clash }
    requires room { HasRoomFor closures.now clash.group marks.old }
    requires first { IsMarked marks.old clash.group (lit_found closures.now clash.group clash.place) }
    requires second { IsMarked marks.old clash.group (opposite (lit_found closures.now clash.group clash.place)) }
    ensures { IfOk result (λ steps. AreCollected (T.system tables.now) (T.scope tables.now) closures.now clash.group clash.place
        (lit_found closures.now clash.group clash.place) marks.new 0 0 steps.items) }
{
    let mut steps = Vec::new(alloc);
    let end = clash.place as usize + 1;
    collect_group(
        alloc,
        tables,
        closures,
        clash,
        clash.group,
        end,
        marks,
        &mut steps,
    )?;
    for group in (0..clash.group).rev() {
        let end = closures.findings(group).len();
        collect_group(
            alloc, tables, closures, clash, group, end, marks, &mut steps,
        )?;
    }
    Ok(steps)
}

/// Collects the steps of a group that were found before a place of it.
fn collect_group<T: Tables>(
    alloc: Global,
    tables: &T,
    closures: &Closures,
    clash: Contradiction,
    group: u32,
    end: usize,
    marks: &mut LitNumbers,
    steps: &mut Vec<Step>,
) -> Result<(), Memory>
    requires asked { IsAsked (T.system tables.now) (T.scope tables.now) (T.rows tables.now) closures.now clash }
    requires group { group ≤ clash.group }
    requires end { end ≤ length (found_in closures.now group) }
    requires collected { AreCollected (T.system tables.now) (T.scope tables.now) closures.now clash.group clash.place
        (lit_found closures.now clash.group clash.place) marks.old group end steps.old.items }
    ensures { OnOk result (AreCollected (T.system tables.now) (T.scope tables.now) closures.now clash.group clash.place
        (lit_found closures.now clash.group clash.place) marks.new group 0 steps.new.items) }
{
    let table = tables.table(alloc, group)?;
    collect_by(
        alloc, tables, &table, closures, clash, group, end, marks, steps,
    )
}

/// Collects them with the group's clauses.
fn collect_by<T: Tables>(
    alloc: Global,
    tables: &T,
    table: &Option<ClauseTable>,
    closures: &Closures,
    clash: Contradiction,
    group: u32,
    end: usize,
    marks: &mut LitNumbers,
    steps: &mut Vec<Step>,
) -> Result<(), Memory>
    requires asked { IsAsked (T.system tables.now) (T.scope tables.now) (T.rows tables.now) closures.now clash }
    requires table { MatchOption table.now (T.rows tables.now group ≡ []) (λ t. t ≡ T.rows tables.now group) }
    requires group { group ≤ clash.group }
    requires end { end ≤ length (found_in closures.now group) }
    requires collected { AreCollected (T.system tables.now) (T.scope tables.now) closures.now clash.group clash.place
        (lit_found closures.now clash.group clash.place) marks.old group end steps.old.items }
    ensures { OnOk result (AreCollected (T.system tables.now) (T.scope tables.now) closures.now clash.group clash.place
        (lit_found closures.now clash.group clash.place) marks.new group 0 steps.new.items) }
{
    for place in (0..end).rev() {
        let lit = lit_at(closures, group, place);
        let mark = marks.get(group, lit);
        if mark == 1 {
            let cause = cause_of(alloc, tables, table, closures, group, place)?;
            mark_premises(marks, group, lit, &cause);
            steps.push(Step { group, lit, cause })?;
        }
    }
    Ok(())
}

/// The literal that was found at a place of a group.
pub(crate) fn lit_at(closures: &Closures, group: u32, place: usize) -> Lit
    requires group { group < length closures.now }
    requires place { place < length (found_in closures.now group) }
    ensures { result ≡ lit_found closures.now group place }
{
    closures.findings(group)[place].lit
}

/// Why it was found.
fn cause_of<T: Tables>(
    alloc: Global,
    tables: &T,
    table: &Option<ClauseTable>,
    closures: &Closures,
    group: u32,
    place: usize,
) -> Result<Cause, Memory>
    requires reasoned { AreReasoned (T.system tables.now) (T.rows tables.now) closures.now }
    requires clauses { AreTables (T.system tables.now) (T.scope tables.now) (T.rows tables.now) }
    requires unknowns { AreOfUnknowns (T.system tables.now) closures.now }
    requires group { group ≤ root (T.system tables.now) }
    requires known { group < length closures.now }
    requires place { place < length (found_in closures.now group) }
    requires table { MatchOption table.now (T.rows tables.now group ≡ []) (λ t. t ≡ T.rows tables.now group) }
    ensures { IfOk result (IsCauseFound (T.system tables.now) (T.scope tables.now) closures.now group place) }
{
    let finding = &closures.findings(group)[place];
    match finding.reason {
        Reason::Given => unreachable!(),
        Reason::Clause(number) => match table {
            None => unreachable!(),
            Some(rows) => {
                let clause = Clause::of(alloc, rows.lits(number as usize))?;
                Ok(Cause::Clause(rows.name(number as usize), clause))
            }
        },
        Reason::Site(site, lit) => Ok(Cause::Site(site, tables.callee(group, site), lit)),
    }
}

/// Marks what a cause stands on.
fn mark_premises(marks: &mut LitNumbers, group: u32, lit: Lit, cause: &Cause)
    requires { EachPremise (HasRoom marks.old) group lit cause.now }
    ensures adds { AddsMarks marks.old marks.new }
    ensures marked { EachPremise (IsMarked marks.new) group lit cause.now }
{
    match cause {
        Cause::Clause(_, clause) => mark_denials(marks, group, lit, clause.lits()),
        Cause::Site(_, lower, m) => marks.set(*lower, *m, 1),
    }
}

/// Marks the opposites of the other literals of a clause.
fn mark_denials(marks: &mut LitNumbers, group: u32, lit: Lit, clause: &[Lit])
    requires { (m : Literal) → Contains clause.now m → m ≢ lit → HasRoom marks.old group (opposite m) }
    ensures adds { AddsMarks marks.old marks.new }
    ensures marked { (m : Literal) → Contains clause.now m → m ≢ lit → IsMarked marks.new group (opposite m) }
{
    for m in clause {
        if *m != lit {
            marks.set(group, m.negated(), 1);
        }
    }
}
