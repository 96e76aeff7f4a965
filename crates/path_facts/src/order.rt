ghost use Rattle.std.specs.Prelude.{ℕ, ◌<◌, length, IfOk};
ghost use Rattle.std.specs.List.{All, Contains};
ghost use Rattle.flow_graph.specs.FlowGraph.{flow_of};
ghost use Rattle.flow_graph.specs.Fits.{IsFlowGraph};
ghost use Rattle.path_facts.specs.Search.{IsSearch};

use c_tree::Memory;
use flow_graph::Graph;
use std::alloc::Global;

/// A place whose edges are being looked at, from the given one on.
#[derive(Clone, Copy)]
struct Visit {
    place: u32,
    next: usize,
}

/// A walk in depth over the places of a procedure.
#[derive(Drop)]
struct Search {
    /// The places that were ever entered.
    seen: Vec<bool>,
    /// The places that the walk is in, the last one being looked at.
    entered: Vec<Visit>,
    /// The places that it left.
    placed: Vec<bool>,
    /// The same in the order in which it left them.
    order: Vec<u32>,
}

impl Search {
    /// Goes on by one edge, or back by one place. Says whether there was anything to do.
    fn advance(&mut self, graph: &Graph, proc: u32) -> Result<bool, Memory>
        requires graph { IsFlowGraph graph.now }
        requires body { proc < graph.now.bodies }
        requires search { IsSearch (length (flow_of graph.now proc).places)
            self.old.seen.items self.old.entered.items self.old.placed.items self.old.order.items }
        ensures search { IfOk result (λ _. IsSearch (length (flow_of graph.now proc).places)
            self.new.seen.items self.new.entered.items self.new.placed.items self.new.order.items) }
    {
        let Some(visit) = self.entered.pop() else {
            return Ok(false);
        };
        let edges = graph.edges_from(proc, visit.place);
        if visit.next >= edges.len() {
            self.placed[visit.place as usize] = true;
            self.order.push(visit.place)?;
            return Ok(true);
        }
        let to = edges[visit.next].to;
        self.entered.push(Visit {
            place: visit.place,
            next: visit.next + 1,
        })?;
        if !self.seen[to as usize] {
            self.seen[to as usize] = true;
            self.entered.push(Visit { place: to, next: 0 })?;
        }
        Ok(true)
    }
}

/// A walk from the entry of a procedure, gone to its end.
fn walk(alloc: Global, graph: &Graph, proc: u32) -> Result<Search, Memory>
    requires graph { IsFlowGraph graph.now }
    requires body { proc < graph.now.bodies }
    ensures { IfOk result (λ s. IsSearch (length (flow_of graph.now proc).places)
        s.seen.items s.entered.items s.placed.items s.order.items) }
{
    let count = graph.places(proc).len();
    let mut search = Search {
        seen: vec![in alloc; false; count]?,
        entered: Vec::new(alloc),
        placed: vec![in alloc; false; count]?,
        order: Vec::with_capacity(alloc, count)?,
    };
    search.seen[0] = true;
    search.entered.push(Visit { place: 0, next: 0 })?;
    // at most two edges of each place, and once back from it
    'steps: for _ in 0..3 * count {
        if !search.advance(graph, proc)? {
            break;
        }
    }
    Ok(search)
}

/// The places of a procedure, each at least once. Places that are reached stand after those that lead to them, but where
/// an edge leads back; that only saves visits, and no contract says it.
pub(crate) fn order_of(alloc: Global, graph: &Graph, proc: u32) -> Result<Vec<u32>, Memory>
    requires graph { IsFlowGraph graph.now }
    requires body { proc < graph.now.bodies }
    ensures within { IfOk result (λ order. All (λ p. p < length (flow_of graph.now proc).places) order.items) }
    ensures every { IfOk result (λ order. (p : ℕ) → p < length (flow_of graph.now proc).places → Contains order.items p) }
{
    let Search {
        placed,
        mut order,
        ..
    } = walk(alloc, graph, proc)?;
    'rest: for place in 0..placed.len() {
        if !placed[place] {
            order.push(place as u32)?;
        }
    }
    order.reverse();
    Ok(order)
}
