ghost use Rattle.std.specs.Prelude.{ℕ, ◌<◌, length};
ghost use Rattle.flow_graph.specs.FlowGraph.{FlowGraph, flow_of, edges_from};
ghost use Rattle.flow_graph.specs.Fits.{IsFlowGraph};
ghost use Rattle.flow_graph.specs.Paths.{IsReached};
ghost use Rattle.path_facts.specs.Tables.{FactTables, HasSlot, AreFactsOf, AreFactsAtStart, AreFactsOver};

/// What the facts of a graph keep; it does nothing. At the entry no parameter is Empty and nothing is Fresh, and the
/// entry is reached. An edge from a reached place leads to a reached place, and there the facts are no stronger than
/// the columns make of those at its start. And the facts have each slot at each place of each procedure with a body.
pub fn path_laws()
    ensures start { (g : FlowGraph) → (ts : FactTables) → IsFlowGraph g → AreFactsOf g ts
        → (k : ℕ) → k < g.bodies → AreFactsAtStart g ts k }
    ensures over { (g : FlowGraph) → (ts : FactTables) → IsFlowGraph g → AreFactsOf g ts
        → (k p i : ℕ) → k < g.bodies → i < length (edges_from g k p) → IsReached g k p → AreFactsOver g ts k p i }
    ensures slots { (g : FlowGraph) → (ts : FactTables) → AreFactsOf g ts → (k p x : ℕ) → k < g.bodies
        → p < length (flow_of g k).places → x < length (flow_of g k).slots → HasSlot ts k p x }
{}
