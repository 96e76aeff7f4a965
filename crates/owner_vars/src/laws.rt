ghost use Rattle.std.specs.Prelude.{ℕ, ◌<◌, List};
ghost use Rattle.std.specs.List.{All};
ghost use Rattle.std.specs.List.Sorted.{IsStrictlyIncreasing};
ghost use Rattle.flow_graph.specs.FlowGraph.{FlowGraph, flow_of};
ghost use Rattle.flow_graph.specs.Fits.{IsFlowGraph};
ghost use Rattle.owner_vars.specs.Laws.{FieldsAreNumbered, PartsAreNumbered, HasUnknowns, HasRootUnknowns, SitesAreNumbered, RowsAreTogether, NumbersFollow, RootNumbersFollow};

/// What numbers of pointer fields and of parts keep, of the definitions alone; it does nothing. Each pointer member
/// has a number of its own, from 1 to how many there are, at which the tables tell its struct and where it leads.
/// Each pointer parameter, and each result that is a pointer, is a part of its procedure's interface.
pub fn field_laws()
    ensures fields { (g : FlowGraph) → FieldsAreNumbered g }
    ensures parts { (g : FlowGraph) → (k : ℕ) → PartsAreNumbered (flow_of g k) }
{}

/// What the sites of a group keep; it does nothing. Each call out of the group has one, which calls whom the call
/// does, and each is the one at its place.
pub fn site_laws()
    ensures { (g : FlowGraph) → (members : List ℕ) → IsFlowGraph g → IsStrictlyIncreasing members
        → All (λ k. k < g.bodies) members → SitesAreNumbered g members }
{}

/// Which unknowns a group and the root have, and which numbers they have; it does nothing. The unknowns of one
/// interface and those of one place stand one after another, each list of them from the number after what stands
/// before.
pub fn unknown_laws()
    ensures there { (g : FlowGraph) → (members : List ℕ) → HasUnknowns g members }
    ensures together { (g : FlowGraph) → (members : List ℕ) → IsStrictlyIncreasing members → RowsAreTogether g members }
    ensures numbers { (g : FlowGraph) → (members : List ℕ) → IsStrictlyIncreasing members → NumbersFollow g members }
    ensures root_there { (g : FlowGraph) → (firsts : List ℕ) → HasRootUnknowns g firsts }
    ensures root_numbers { (g : FlowGraph) → (firsts : List ℕ) → RootNumbersFollow g firsts }
{}
