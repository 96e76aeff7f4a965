ghost use Rattle.std.specs.Prelude.{◌≡◌, ◌<◌, ◌≤◌, ◌^◌, Bool, IfOk, length};
ghost use Rattle.std.specs.List.{All};
ghost use Rattle.conflict_proof.specs.declared.names.ConstraintName.{ConstraintName};
ghost use Rattle.verdict_meaning.specs.Systems.{root, count};
ghost use Rattle.unit_answers.specs.Tables.{IsTableOf};
ghost use Rattle.plain_answers.specs.Stages.{IsOfGroup};

use c_tree::Memory;
use call_search::Shapes;
use std::alloc::Global;
use transfer_rules::ClauseTable;

/// The groups of a program with the clauses of their constraints.
pub(crate) trait GroupClauses: Shapes {
    // The names that count, besides those of the rule that is always in force.
    ghost counting: { Self → ConstraintName → Bool };

    /// How many unknowns a group has, or the root.
    fn count(&self, group: u32) -> u32
        requires { group ≤ root (Self.system self.now) }
        ensures { result ≡ count (Self.system self.now) group };

    /// The clauses of the constraints of a group that count. Its one refusal is want of memory.
    fn clauses(&self, alloc: Global, group: u32) -> Result<ClauseTable, Memory>
        requires { group < root (Self.system self.now) }
        ensures table { IfOk result (IsTableOf (Self.system self.now) (counting self.now) group) }
        ensures few { IfOk result (λ t. length t < 2 ^ 32) }
        ensures within { IfOk result (All (IsOfGroup (count (Self.system self.now) group))) };
}
