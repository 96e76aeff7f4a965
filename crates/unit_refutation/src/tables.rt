ghost use Rattle.std.specs.Prelude.{◌≡◌, ◌<◌, ◌≤◌, ℕ, Bool, List, [], length, IfOk, MatchOption};
ghost use Rattle.conflict_proof.specs.declared.names.ConstraintName.{ConstraintName};
ghost use Rattle.transfer_rules.specs.Names.{NamedClause};
ghost use Rattle.verdict_meaning.specs.Systems.{System, root, callee, callees};

use c_tree::Memory;
use std::alloc::Global;
use transfer_rules::ClauseTable;

/// The clauses of a program's groups, and whom the sites of each group call. Groups are numbered from 0, and the root comes
/// last.
pub(crate) trait Tables {
    ghost system: { Self → System };

    // The names that count, besides those of the rule that is always in force.
    ghost scope: { Self → ConstraintName → Bool };

    // The clauses of each group that are in force.
    ghost rows: { Self → ℕ → List NamedClause };

    /// The root's number.
    fn root(&self) -> u32
        ensures { result ≡ root (system self.now) };

    /// The clauses of a group that are in force; none where there are no clauses, as for the root. Its one refusal is want of
    /// memory.
    fn table(&self, alloc: Global, group: u32) -> Result<Option<ClauseTable>, Memory>
        requires { group ≤ root (system self.now) }
        ensures { IfOk result (λ t. MatchOption t (rows self.now group ≡ []) (λ table. table ≡ rows self.now group)) };

    /// The number of the group that is called at a site. It takes no memory.
    fn callee(&self, group: u32, site: u32) -> u32
        requires group { group ≤ root (system self.now) }
        requires site { site < length (callees (system self.now) group) }
        ensures { result ≡ (callee (system self.now) group site).group };
}
