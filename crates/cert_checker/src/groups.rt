ghost use Rattle.std.specs.Prelude.{◌≡◌, ◌<◌, ◌+◌, ℕ, Bool, List, length, slice_index_or, IfOk};
ghost use Rattle.std.specs.List.{Contains, flat_map};
ghost use Rattle.conflict_proof.specs.declared.names.ConstraintName.{ConstraintName};
ghost use Rattle.verdict_meaning.specs.Systems.{System, root, members, callees, callee_parts, parts_before, nobody};
ghost use Rattle.verdict_meaning.specs.Certificates.{Spot, spots};
ghost use Rattle.cert_checker.specs.Tables.{table_of};

use c_tree::Memory;
use conflict_proof::ConstraintName;
use std::alloc::Global;
use transfer_rules::ClauseTable;
use verdict_meaning::Callee;

/// Where the interface of a member stands among those of all members of its group.
#[derive(Clone, Copy, Debug, PartialEq, Eq)]
pub struct Face {
    /// How many parts stand before it; of no meaning where it has none.
    pub start: u32,
    /// How many parts it has.
    pub count: u32,
}

/// The call groups of a program, numbered from 0, with the constraints that count.
///
/// No call but `clauses_at` takes memory, and each but `clauses_at` takes constant time.
pub trait Groups {
    ghost system: { Self → System };

    // The names that count, besides those of the rule that is always in force.
    ghost scope: { Self → ConstraintName → Bool };

    // The names of the constraints of a place of a group.
    ghost names: { Self → ℕ → Spot → List ConstraintName };

    /// How many groups there are.
    fn count(&self) -> u32
        ensures { result ≡ root (system self.now) };

    /// How many pointer fields the program has.
    fn fields(&self) -> u32
        ensures { result ≡ (system self.now).fields };

    /// The procedures of a group, ascending.
    fn members(&self, group: u32) -> &[u32]
        requires { group < root (system self.now) }
        ensures { result.now ≡ members (system self.now) group };

    /// The interface of a member.
    fn face(&self, group: u32, proc: u32) -> Face
        requires group { group < root (system self.now) }
        requires member { Contains (members (system self.now) group) proc }
        ensures count { result.count ≡ (system self.now).parts proc }
        ensures start { 0 < result.count → result.start ≡ parts_before (system self.now) proc (members (system self.now) group) };

    /// How many places a member has.
    fn places(&self, group: u32, proc: u32) -> u32
        requires group { group < root (system self.now) }
        requires member { Contains (members (system self.now) group) proc }
        ensures { result ≡ (system self.now).places proc };

    /// How many unknowns a place of a member has.
    fn width(&self, group: u32, proc: u32) -> u32
        requires group { group < root (system self.now) }
        requires member { Contains (members (system self.now) group) proc }
        ensures { result ≡ (system self.now).width proc };

    /// Whom the sites of a group call.
    fn callees(&self, group: u32) -> &[Callee]
        requires { group < root (system self.now) }
        ensures { result.now ≡ callees (system self.now) group };

    /// How many parts the interface has that is called at a site.
    fn site_parts(&self, group: u32, site: usize) -> u32
        requires group { group < root (system self.now) }
        requires site { site < length (callees (system self.now) group) }
        ensures { result ≡ callee_parts (system self.now) (slice_index_or (callees (system self.now) group) site nobody) };

    /// The clauses of the constraints of one place of a member that count, in the order of their names.
    fn clauses_at(
        &self,
        alloc: Global,
        group: u32,
        proc: u32,
        place: u32,
    ) -> Result<ClauseTable, Memory>
        requires group { group < root (system self.now) }
        requires member { Contains (members (system self.now) group) proc }
        requires place { place < (system self.now).places proc }
        ensures { IfOk result (λ t. t ≡ table_of (system self.now) (scope self.now) group (names self.now group (record { proc = proc; place = place }))) };

    // The names of a group's constraints are those of its places, in order.
    ghost placed: { (x : Self) (g : ℕ) → (system x).names g ≡ flat_map (names x g) (spots (system x) g) };
}
