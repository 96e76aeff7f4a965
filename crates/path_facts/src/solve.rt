ghost use Rattle.std.specs.Prelude.{IfOk};
ghost use Rattle.path_facts.specs.Tables.{AreFactsOf};

use crate::known::Facts;
use crate::table::Table;
use c_tree::Memory;
use flow_graph::Graph;
use std::alloc::Global;

/// The facts of a graph. Its one refusal is want of memory.
///
/// It follows the edges of each place once, and again only where the facts at the place became fewer. An edge takes two
/// passes over a row, which has two bits for each pointer, parameter and result of a call; of other slots it has none.
pub fn facts(alloc: Global, graph: &Graph) -> Result<Facts, Memory>
    ensures { IfOk result (λ f. AreFactsOf graph.now f) }
{
    let bodies = graph.bodies();
    let mut tables = Vec::with_capacity(alloc, bodies as usize)?;
    'procs: for proc in 0..bodies {
        tables.push(Table::of(alloc, graph, proc)?)?;
    }
    Ok(Facts { tables })
}
