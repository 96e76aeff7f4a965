ghost use Rattle.std.specs.Prelude.{◌≤◌, length, IfOk};
ghost use Rattle.recursion_groups.specs.Grouping.{IsGrouping};

use crate::calls::call_lists;
use crate::list::Groups;
use crate::members::grouped;
use c_tree::Memory;
use flow_graph::Graph;
use std::alloc::Global;

/// The call groups of a program in their order: the procedures with bodies, in one group where each reaches the
/// other by calls. A called group stands before its caller's; where several could stand next, the one that holds
/// the smallest procedure number does. Time grows no faster than procedures and calls, times the logarithm of the
/// number of procedures.
pub fn groups(alloc: Global, graph: &Graph) -> Result<Groups, Memory>
    ensures grouping { IfOk result (IsGrouping graph.now) }
    ensures count { IfOk result (λ gs. length gs ≤ graph.now.bodies) }
{
    // So many that their numbers fit.
    let _bodies = graph.bodies();
    let calls = call_lists(alloc, graph)?;
    let items = grouped(alloc, calls.as_slice())?;
    Ok(Groups { items })
}
