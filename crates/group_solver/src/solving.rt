//! A solve of one group.

ghost use Rattle.std.specs.Prelude.{◌≡◌, ℕ, Bool, ◌+◌, ◌<◌, ◌≤◌, ◌^◌, List, length, IfOk};
ghost use Rattle.std.specs.List.{All};
ghost use Rattle.zo_core.specs.Literals.{Literal};
ghost use Rattle.conflict_proof.specs.declared.names.ConstraintName.{ConstraintName};
ghost use Rattle.verdict_meaning.specs.Derivations.{cost_of, NoClauseTwice};
ghost use Rattle.verdict_meaning.specs.Systems.{System};
ghost use Rattle.zo_solver.specs.Accounts.{IsOver, IsRefuted};
ghost use Rattle.zo_solver.specs.Clauses.{AreWithin};
ghost use Rattle.zo_solver.specs.Runs.{AreConsistent};
ghost use Rattle.call_search.specs.Ledgers.{IsDenied};
ghost use Rattle.call_search.specs.Answers.{OutcomeIs};
ghost use Rattle.group_solver.specs.Copies.{IsCopied, IsNext, IsReady};
ghost use Rattle.group_solver.specs.Lemmas.{AreOver, IsBegun};
ghost use Rattle.group_solver.specs.Rows.{rows_in, IsSolvedFor};

use crate::clauses::{clause_of, clauses_of};
use crate::copying::{copy, how_of};
use crate::lemmas::{add_lemmas, own_cost};
use crate::marking::{all_marked, stood_on};
use crate::values::{are_numbered, values};
use c_tree::Memory;
use call_search::{Ledger, Outcome};
use conflict_proof::Line;
use std::alloc::Global;
use transfer_rules::ClauseTable;
use zo_core::Lit;
use zo_solver::{Answer, Solver};

/// A solver, and the number in the ledger of each of its lines.
#[derive(Drop)]
struct Begun {
    solver: Solver,
    places: Vec<u32>,
}

/// Solves a group of so many unknowns, whose clauses stand in a table, under what is given and the group's lines in the
/// ledger. What is learnt goes into the ledger, and is paid.
pub(crate) fn solve(
    alloc: Global,
    ledger: &mut Ledger,
    table: &Option<ClauseTable>,
    group: u32,
    vars: u32,
    given: &[Lit],
) -> Result<Outcome, Memory>
    requires once { NoClauseTwice ledger.old.lines }
    requires small { cost_of ledger.old.lines + ledger.old.words < 2 ^ 32 }
    requires over { AreOver vars group ledger.old.lines }
    requires few { vars < 2 ^ 31 }
    requires within { AreWithin vars given.now }
    requires consistent { AreConsistent given.now }
    ensures { IfOk result (λ o. (s : System) → (U : ConstraintName → Bool) → IsSolvedFor s U group vars (rows_in table.now) ledger.old
        → OutcomeIs s U group given.now ledger.old ledger.new o) }
{
    are_numbered(given);
    let mut begun = begin(alloc, ledger, table, group, vars)?;
    answer(
        alloc,
        ledger,
        &mut begun.solver,
        &mut begun.places,
        table,
        group,
        vars,
        given,
    )
}

/// Solves with a solver that has the group's lines.
fn answer(
    alloc: Global,
    ledger: &mut Ledger,
    solver: &mut Solver,
    places: &mut Vec<u32>,
    table: &Option<ClauseTable>,
    group: u32,
    vars: u32,
    given: &[Lit],
) -> Result<Outcome, Memory>
    requires begun { IsBegun (rows_in table.now) group vars ledger.old places.old.items solver.old }
    requires once { NoClauseTwice ledger.old.lines }
    requires few { vars < 2 ^ 31 }
    requires within { AreWithin vars given.now }
    requires consistent { AreConsistent given.now }
    requires some { All (λ (l : Literal). 0 < l.var) given.now }
    ensures { IfOk result (λ o. (s : System) → (U : ConstraintName → Bool) → IsSolvedFor s U group vars (rows_in table.now) ledger.old
        → OutcomeIs s U group given.now ledger.old ledger.new o) }
{
    match solver.solve(given) {
        Answer::Sat => {
            let bits = values(alloc, solver, vars)?;
            Ok(Outcome::Sat(bits))
        }
        Answer::Conflict(number) => {
            let place = refute(alloc, ledger, places, solver, table, group, vars, number)?;
            Ok(Outcome::Conflict(place))
        }
        Answer::Spent => {
            let line = spend(alloc, ledger, places, solver, table, group, vars)?;
            Ok(Outcome::Spent(line))
        }
    }
}

/// The solver of a group, with the group's lines as lemmas, and the words that are left.
fn begin(
    alloc: Global,
    ledger: &Ledger,
    table: &Option<ClauseTable>,
    group: u32,
    vars: u32,
) -> Result<Begun, Memory>
    requires once { NoClauseTwice ledger.now.lines }
    requires small { cost_of ledger.now.lines + ledger.now.words < 2 ^ 32 }
    requires over { AreOver vars group ledger.now.lines }
    ensures { IfOk result (λ b. IsBegun (rows_in table.now) group vars ledger.now b.places.items b.solver) }
{
    let lines = ledger.lines();
    let of_group = ledger.of_group(group);
    let clauses = clauses_of(alloc, table, vars)?;
    let words = ledger.words() + own_cost(lines, group, of_group);
    let mut solver = Solver::new(alloc, vars, &clauses, words)?;
    let places = add_lemmas(alloc, &mut solver, lines, group, of_group)?;
    Ok(Begun { solver, places })
}

/// Copies the lines on which one stands that denies what was given, and says which line of the ledger this one is.
fn refute(
    alloc: Global,
    ledger: &mut Ledger,
    places: &mut Vec<u32>,
    solver: &Solver,
    table: &Option<ClauseTable>,
    group: u32,
    vars: u32,
    number: u32,
) -> Result<u32, Memory>
    requires ready { IsReady (rows_in table.now) group vars solver.now ledger.old places.old.items }
    requires some { 0 < number }
    requires there { number ≤ length solver.now.lines }
    ensures copied { IfOk result (λ n. IsCopied (rows_in table.now) group vars ledger.old ledger.new) }
    ensures denied { IfOk result (λ n. (given : List Literal) → IsRefuted given solver.now number → IsDenied ledger.new.lines group given n) }
{
    let wanted = stood_on(alloc, solver, places.len(), number)?;
    copy(alloc, ledger, places, solver, table, group, vars, &wanted)?;
    Ok(places[number as usize - 1])
}

/// Copies all lines that were learnt, and gives the one for which the words don't suffice.
fn spend(
    alloc: Global,
    ledger: &mut Ledger,
    places: &mut Vec<u32>,
    solver: &Solver,
    table: &Option<ClauseTable>,
    group: u32,
    vars: u32,
) -> Result<Line, Memory>
    requires ready { IsReady (rows_in table.now) group vars solver.now ledger.old places.old.items }
    requires over { IsOver solver.now }
    ensures copied { IfOk result (λ line. IsCopied (rows_in table.now) group vars ledger.old ledger.new) }
    ensures next { IfOk result (IsNext (rows_in table.now) group vars ledger.new) }
{
    let wanted = all_marked(alloc, solver.lines())?;
    copy(alloc, ledger, places, solver, table, group, vars, &wanted)?;
    let how = how_of(places, table, solver.next_origin())?;
    let lits = clause_of(alloc, solver.next_line(), vars)?;
    Ok(Line { group, how, lits })
}
