//! The lines of a group as lemmas of its solver.

ghost use Rattle.std.specs.Prelude.{◌≡◌, ◌+◌, ◌<◌, ◌^◌, [], length, IfOk, OnOk};
ghost use Rattle.verdict_meaning.specs.Derivations.{cost_of, NoClauseTwice};
ghost use Rattle.zo_solver.specs.Accounts.{Account};
ghost use Rattle.call_search.specs.Indexes.{ArePlaces};
ghost use Rattle.group_solver.specs.Lemmas.{words_of, AreOver, HasLemmas};

use c_tree::Memory;
use conflict_proof::Line;
use std::alloc::Global;
use zo_solver::Solver;

/// The words that the lines of a group cost, which stand at these places.
pub(crate) fn own_cost(lines: &[Line], _group: u32, places: &[u32]) -> u64
    requires small { cost_of lines.now < 2 ^ 32 }
    requires places { ArePlaces lines.now _group 0 places.now }
    ensures { result ≡ words_of _group lines.now }
{
    let mut words = 0;
    for place in places {
        let line = &lines[*place as usize];
        words += line.lits.lits().len() as u64 + 1;
    }
    words
}

/// Adds the lines of a group as lemmas, which stand at these places, and says which line each lemma is.
pub(crate) fn add_lemmas(
    alloc: Global,
    solver: &mut Solver,
    lines: &[Line],
    group: u32,
    places: &[u32],
) -> Result<Vec<u32>, Memory>
    requires places { ArePlaces lines.now group 0 places.now }
    requires lines { solver.old.lines ≡ [] }
    requires origins { solver.old.origins ≡ [] }
    requires once { NoClauseTwice lines.now }
    requires over { AreOver solver.old.vars group lines.now }
    requires few { length lines.now < 2 ^ 32 }
    ensures { IfOk result (λ numbers. HasLemmas lines.now group (length lines.now) numbers.items solver.old solver.new) }
{
    let mut numbers = Vec::new(alloc);
    for place in places {
        add_lemma(solver, &mut numbers, lines, *place as usize, group)?;
    }
    Ok(numbers)
}

/// Adds a line, where it is of the group.
fn add_lemma(
    solver: &mut Solver,
    places: &mut Vec<u32>,
    lines: &[Line],
    at: usize,
    group: u32,
) -> Result<(), Memory>
    requires within { at < length lines.now }
    requires few { length lines.now < 2 ^ 32 }
    requires once { NoClauseTwice lines.now }
    requires over { AreOver solver.old.vars group lines.now }
    ensures { OnOk result ((first : Account) → HasLemmas lines.now group at places.old.items first solver.old → HasLemmas lines.now group (at + 1) places.new.items first solver.new) }
{
    let line = &lines[at];
    if line.group != group {
        return Ok(());
    }
    let Some(_lemma) = solver.add(line.lits.lits()) else {
        return Err(Memory);
    };
    places.push(at as u32 + 1)?;
    Ok(())
}
