ghost use Rattle.std.specs.Prelude.{◌≡◌, ℕ, List};
ghost use Rattle.flow_graph.specs.FlowGraph.{FlowGraph};
ghost use Rattle.recursion_groups.specs.Grouping.{IsGrouping};

/// A graph has one grouping alone; it does nothing.
pub fn grouping_laws()
    ensures { (g : FlowGraph) → (pss qss : List (List ℕ)) → IsGrouping g pss → IsGrouping g qss → pss ≡ qss }
{}
