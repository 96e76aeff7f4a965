ghost use Rattle.std.specs.Prelude.{◌≡◌, ℕ, ◌<◌, Bool, true, List, None, cond, nat_lt, IsTrue, ◌↔◌};
ghost use Rattle.std.specs.List.{All, AllPairs};
ghost use Rattle.std.specs.List.Sorted.{IsStrictlyIncreasing};
ghost use Rattle.zo_core.specs.Truth.{all_true};
ghost use Rattle.conflict_proof.specs.declared.names.ConstraintName.{ConstraintName};
ghost use Rattle.flow_graph.specs.declared.action.Edge.{Edge};
ghost use Rattle.flow_graph.specs.Fits.{is_in, IsFlowGraph};
ghost use Rattle.flow_graph.specs.FlowGraph.{FlowGraph};
ghost use Rattle.path_facts.specs.Tables.{FactTables};
ghost use Rattle.transfer_rules.specs.declared.scope.Scope.{Scope};
ghost use Rattle.transfer_rules.specs.Body.{Body, sight, setting};
ghost use Rattle.transfer_rules.specs.Exist.{FewArgs, EdgesExist};
ghost use Rattle.transfer_rules.specs.Holds.{GroupHolds};
ghost use Rattle.transfer_rules.specs.Names.{all_clauses, comes_before, condition_in, condition_of_name, group_clauses, lits_of, names, AllInForce, NamesHold};
ghost use Rattle.transfer_rules.specs.Rules.{body_of, constraints, constraints_at};

/// What the clauses of a call group say; it does nothing. An assignment makes all of them true exactly where the rules
/// hold on every edge and at every place of each procedure of the group.
pub fn rule_laws()
    ensures { (g : FlowGraph) → (ts : FactTables) → (members : List ℕ) → (t : ℕ → Bool)
        → (IsTrue (all_true t (all_clauses (constraints g ts members))) ↔ GroupHolds g ts members t) }
{}

/// Where a name is looked up; it does nothing. Among all constraints of a call group it is found where it is found among
/// those of its own place in its own procedure.
pub fn name_laws()
    ensures { (g : FlowGraph) → (ts : FactTables) → (members : List ℕ) → (n : ConstraintName)
        → (let b = body_of g ts members n.proc in condition_of_name g ts members n
        ≡ cond (is_in members n.proc) (cond (nat_lt n.place (sight b).places) (condition_in (constraints_at (sight b) (setting b) n.place) n) None) None) }
{}

/// The order of names; it does nothing. Where the procedures of a call group ascend, each of its names stands before all
/// later ones.
pub fn order_laws()
    ensures { (g : FlowGraph) → (ts : FactTables) → (members : List ℕ) → IsStrictlyIncreasing members
        → AllPairs (λ m n. comes_before m n ≡ true) (names g ts members) }
{}

/// What the clauses in a scope say; it does nothing. Where the procedures of a call group ascend, an assignment makes all
/// clauses of its names in force true exactly where it meets the constraint of each name in force, and, if all its names are
/// in force, exactly where the rules hold on every edge and at every place.
pub fn scope_laws()
    ensures names { (g : FlowGraph) → (ts : FactTables) → (members : List ℕ) → (s : Scope) → (t : ℕ → Bool) → IsStrictlyIncreasing members
        → (IsTrue (all_true t (lits_of (group_clauses g ts members s))) ↔ NamesHold g ts members s t) }
    ensures whole { (g : FlowGraph) → (ts : FactTables) → (members : List ℕ) → (s : Scope) → (t : ℕ → Bool) → AllInForce g ts members s
        → (IsTrue (all_true t (lits_of (group_clauses g ts members s))) ↔ GroupHolds g ts members t) }
{}

/// What the edges of a body speak of exists; it does nothing.
pub fn body_laws()
    ensures { (b : Body) → IsFlowGraph b.graph → b.proc < b.graph.bodies → (p : ℕ) → p < (sight b).places
        → All (λ (e : Edge). FewArgs e.action) ((setting b).edges p) → EdgesExist (sight b) (setting b) p }
{}
