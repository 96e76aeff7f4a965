//! The lines on which a line stands.

ghost use Rattle.std.specs.Prelude.{◌≡◌, ℕ, ◌+◌, ◌<◌, ◌≤◌, true, length, Some, IfOk};
ghost use Rattle.zo_solver.specs.Clauses.{numbered};
ghost use Rattle.group_solver.specs.Marks.{AreAll, IsClosedFrom, Marks, PremisesAreBelow};

use c_tree::Memory;
use std::alloc::Global;
use zo_solver::{Origin, Solver};

/// Marks for the lines up to one: it is marked, and of the lines after so many first ones each marked one has its two
/// premises marked, where it is a resolvent.
pub(crate) fn stood_on(
    alloc: Global,
    solver: &Solver,
    first: usize,
    last: u32,
) -> Result<Vec<bool>, Memory>
    requires some { 0 < last }
    requires there { last ≤ length solver.now.lines }
    ensures size { IfOk result (λ marks. length marks.items ≡ last) }
    ensures itself { IfOk result (λ marks. numbered marks.items last ≡ Some true) }
    ensures closed { IfOk result (λ marks. IsClosedFrom first solver.now.origins marks.items) }
{
    let mut marks = vec![in alloc; false; last as usize]?;
    marks[last as usize - 1] = true;
    let mut number = last;
    while number as usize > first {
        if marks[number as usize - 1] {
            mark(&mut marks, solver.origin(number));
        }
        number -= 1;
    }
    Ok(marks)
}

/// Marks the premises of a resolvent.
fn mark(marks: &mut Vec<bool>, origin: Origin)
    requires { PremisesAreBelow (length marks.old.items + 1) origin }
    ensures { Marks origin marks.old.items marks.new.items }
{
    if let Origin::Resolved(first, second) = origin {
        marks[first as usize - 1] = true;
        marks[second as usize - 1] = true;
    }
}

/// Marks for so many lines, all of which are marked.
pub(crate) fn all_marked(alloc: Global, lines: u32) -> Result<Vec<bool>, Memory>
    ensures size { IfOk result (λ marks. length marks.items ≡ lines) }
    ensures all { IfOk result (λ marks. AreAll marks.items) }
{
    let marks = vec![in alloc; true; lines as usize]?;
    Ok(marks)
}
