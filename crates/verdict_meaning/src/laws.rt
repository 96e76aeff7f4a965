ghost use Rattle.std.specs.Prelude.{ℕ, List};
ghost use Rattle.flow_graph.specs.FlowGraph.{FlowGraph};
ghost use Rattle.path_facts.specs.Tables.{FactTables};
ghost use Rattle.verdict_meaning.specs.Programs.{NamesAreApart, SystemIsOfGraph, GoodInWhole, ValidInWhole};
ghost use Rattle.verdict_meaning.specs.Selected.{SelectedAreValid};
ghost use Rattle.verdict_meaning.specs.Laws.{LinesAreTrue, LocalLinesAreTrue, GoodIsSatisfiable, UsedAreUnsatisfiable, RefutedIsUnsatisfiable, AcceptedIsNotRefuted, PlainIsSatisfiable, UnitRefutedIsUnsatisfiable, FewerAreSatisfiable, MoreAreValid, CostIsBounded, BudgetSuffices, UsedNamesAreOne, FaultyIsNotGood, FaultlessIsGood, FaultyIsNotValid, FaultlessIsValid};

/// Each line of a valid derivation is true under every assignment that its group admits where the constraints on which it
/// stands count.
pub fn lines_are_true()
    ensures { LinesAreTrue }
{}

/// Each line of a group is true under an assignment that meets the group's constraints and makes the lines carried to it true.
pub fn local_lines_are_true()
    ensures { LocalLinesAreTrue }
{}

/// A good certificate shows that the constraints can be met.
pub fn good_is_satisfiable()
    ensures { GoodIsSatisfiable }
{}

/// A valid derivation that refutes shows that the constraints that it uses cannot be met together.
pub fn used_are_unsatisfiable()
    ensures { UsedAreUnsatisfiable }
{}

/// The constraints with which a refuting derivation is valid cannot be met together.
pub fn refuted_is_unsatisfiable()
    ensures { RefutedIsUnsatisfiable }
{}

/// A good certificate and a valid derivation that refutes exclude each other.
pub fn accepted_is_not_refuted()
    ensures { AcceptedIsNotRefuted }
{}

/// Where the assignments that propagation alone makes are solutions, the constraints can be met.
pub fn plain_is_satisfiable()
    ensures { PlainIsSatisfiable }
{}

/// Where propagation alone reaches an unknown in both signs, the constraints cannot be met.
pub fn unit_refuted_is_unsatisfiable()
    ensures { UnitRefutedIsUnsatisfiable }
{}

/// Fewer constraints are met where more are.
pub fn fewer_are_satisfiable()
    ensures { FewerAreSatisfiable }
{}

/// What is valid with some constraints is valid with more.
pub fn more_are_valid()
    ensures { MoreAreValid }
{}

/// Lines are valid without others on which none of them stands, with new numbers.
pub fn selected_are_valid()
    ensures { SelectedAreValid }
{}

/// With G groups and at most N unknowns in each, a valid derivation without a clause twice in a group costs at most
/// (G + 1) * (N + 2)^2 * 3^N words.
pub fn cost_is_bounded()
    ensures { CostIsBounded }
{}

/// A budget of this bound is never spent.
pub fn budget_suffices()
    ensures { BudgetSuffices }
{}

/// The names that a derivation uses are one list.
pub fn used_names_are_one()
    ensures { UsedNamesAreOne }
{}

/// A certificate that has a fault is not good.
pub fn faulty_is_not_good()
    ensures { FaultyIsNotGood }
{}

/// A certificate that has none is good.
pub fn faultless_is_good()
    ensures { FaultlessIsGood }
{}

/// A derivation that has a fault is not valid, or does not refute.
pub fn faulty_is_not_valid()
    ensures { FaultyIsNotValid }
{}

/// A derivation of clauses that has none is valid, and refutes.
pub fn faultless_is_valid()
    ensures { FaultlessIsValid }
{}

/// Each constraint of a call group is the one of its name.
pub fn names_are_apart()
    ensures { (g : FlowGraph) → (facts : FactTables) → (members : List ℕ) → NamesAreApart g facts members }
{}

/// The system of a program is that of its graph: its numbers are those of the unknowns, its sites are the calls out of
/// groups, and what meets all constraints of a group meets the rules of its procedures.
pub fn system_is_of_graph()
    ensures { SystemIsOfGraph }
{
    owner_vars::unknown_laws();
    owner_vars::site_laws();
    transfer_rules::rule_laws();
}

/// In the scope of all names a certificate is good exactly where it is with all constraints.
pub fn good_in_whole()
    ensures { GoodInWhole }
{}

/// In the scope of all names lines are valid exactly where they are with all constraints.
pub fn valid_in_whole()
    ensures { ValidInWhole }
{}
