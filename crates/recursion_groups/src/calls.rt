ghost use Rattle.std.specs.Prelude.{◌≡◌, ℕ, ◌<◌, ◌↔◌, OnOk, IfOk};
ghost use Rattle.std.specs.List.{Contains};
ghost use Rattle.flow_graph.specs.Calls.{callee_of};
ghost use Rattle.recursion_groups.specs.Calls.{Calls, IsCalled, AreCalls, Gains};

use c_tree::Memory;
use flow_graph::{Action, Edge, Graph, Numbers};
use std::alloc::Global;

/// The procedure that an edge calls.
fn callee(edge: &Edge) -> Option<u32>
    ensures { result ≡ callee_of edge.now.action }
{
    match &edge.action {
        Action::Call(_, callee, _) => Some(*callee),
        _ => None,
    }
}

/// Adds the procedures with bodies that these edges call.
fn add_callees(edges: &[Edge], bodies: u32, callees: &mut Vec<u32>) -> Result<(), Memory>
    ensures { OnOk result (Gains callees.old.items callees.new.items (IsCalled bodies edges.now)) }
{
    for edge in edges {
        if let Some(called) = callee(edge) {
            if called < bodies {
                callees.push(called)?;
            }
        }
    }
    Ok(())
}

/// The procedures with bodies that a procedure calls, once for each call.
fn callees(alloc: Global, graph: &Graph, proc: u32) -> Result<Numbers, Memory>
    requires { proc < graph.now.bodies }
    ensures { IfOk result (λ us. (q : ℕ) → Contains us q ↔ Calls graph.now proc q) }
{
    let mut items = Vec::new(alloc);
    let bodies = graph.bodies();
    for place in 0..graph.places(proc).len() as u32 {
        add_callees(graph.edges_from(proc, place), bodies, &mut items)?;
    }
    Ok(Numbers { items })
}

/// What each procedure with a body calls.
pub(crate) fn call_lists(alloc: Global, graph: &Graph) -> Result<Vec<Numbers>, Memory>
    ensures { IfOk result (λ calls. AreCalls graph.now calls.items) }
{
    let mut calls = Vec::new(alloc);
    for proc in 0..graph.bodies() {
        calls.push(callees(alloc, graph, proc)?)?;
    }
    Ok(calls)
}
