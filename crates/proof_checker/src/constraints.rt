ghost use Rattle.std.specs.Prelude.{◌≡◌, ◌<◌, ◌≤◌, ℕ, Bool, length, slice_get, IfOk, MatchOption};
ghost use Rattle.std.specs.List.{Contains};
ghost use Rattle.conflict_proof.specs.declared.names.ConstraintName.{ConstraintName};
ghost use Rattle.verdict_meaning.specs.Systems.{System, root, count, callees, names_of};
ghost use Rattle.verdict_meaning.specs.Solutions.{counts};
ghost use Rattle.verdict_meaning.specs.Derivations.{at_site, carried_number};

use c_tree::Memory;
use conflict_proof::ConstraintName;
use std::alloc::Global;
use verdict_meaning::Callee;
use zo_core::{Clause, Var};

/// The constraints of a program, group by group, and which of them count.
///
/// Groups are numbered from 0, and the root comes last. No call but `clauses` takes memory.
pub(crate) trait Constraints {
    ghost system: { Self → System };

    // The names that count, besides those of the rule that is always in force.
    ghost scope: { Self → ConstraintName → Bool };

    /// The root's number.
    fn root(&self) -> u32
        ensures { result ≡ root (system self.now) };

    /// How many unknowns a group or the root has.
    fn count(&self, group: u32) -> u32
        requires { group ≤ root (system self.now) }
        ensures { result ≡ count (system self.now) group };

    /// Whether a constraint of this name counts.
    fn counts(&self, name: &ConstraintName) -> bool
        ensures { result ≡ counts (scope self.now) name.now };

    /// The clauses of a constraint of a group; none where the group has no constraint of that name.
    fn clauses(
        &self,
        alloc: Global,
        group: u32,
        name: &ConstraintName,
    ) -> Result<Option<Vec<Clause>>, Memory>
        requires { group < root (system self.now) }
        ensures { IfOk result (λ cs. MatchOption cs (Contains (names_of (system self.now) group) name.now → ⊥)
            (λ c. Contains (names_of (system self.now) group) name.now × (c.items ≡ (system self.now).clauses group name.now))) };

    /// Whom a site of a group or of the root calls; none where there is no such site.
    fn callee(&self, group: u32, site: u32) -> Option<Callee>
        requires { group ≤ root (system self.now) }
        ensures { result ≡ slice_get (callees (system self.now) group) site };

    /// The number of what stands at a site for an unknown of the called group; none for an unknown that is neither a field's
    /// nor of the called procedure's interface.
    fn carried(&self, group: u32, site: u32, var: Var) -> Option<u32>
        requires group { group ≤ root (system self.now) }
        requires site { site < length (callees (system self.now) group) }
        ensures { result ≡ carried_number (at_site (system self.now) group site) var };
}
