ghost use Rattle.std.specs.Prelude.{◌≡◌, ℕ, ◌+◌, ◌<◌, ◌≤◌, ◌^◌, Bool, [], length, IfOk, OnOk};
ghost use Rattle.std.specs.List.{All};
ghost use Rattle.conflict_proof.specs.declared.names.ConstraintName.{ConstraintName};
ghost use Rattle.transfer_rules.specs.Names.{in_scope};
ghost use Rattle.verdict_meaning.specs.Systems.{System};
ghost use Rattle.unit_answers.specs.Propagation.{IsWithin};
ghost use Rattle.unit_answers.specs.Reopened.{Gives, IsOpened, IsReopened};
ghost use Rattle.unit_answers.specs.Sets.{AreClosures, IsSetOf};
ghost use Rattle.unit_answers.specs.Tables.{IsTableOf};
ghost use Rattle.verdict_meaning.specs.Programs.{system_in};

use crate::closing::{most_in, most_of};
use crate::findings::Reason;
use crate::groups::table_of;
use crate::index::Index;
use crate::propagate::settle;
use crate::sets::Closures;
use crate::trail::Trail;
use c_tree::Memory;
use std::alloc::Global;
use transfer_rules::{ClauseTable, Program, Scope};
use verdict_meaning::names_are_apart;
use zo_core::Lit;

impl Closures {
    /// The literals of a group, or of the root, that propagation forces where these are given: in ascending order of unknowns,
    /// the positive literal of an unknown before the negative one. The group is one of the program or the root, and the sets are
    /// those of this program in this scope. Its one refusal is want of memory.
    pub fn closed(
        &self,
        alloc: Global,
        program: &Program,
        scope: &Scope,
        group: u32,
        given: &[Lit],
    ) -> Result<Vec<Lit>, Memory>
        requires group { group ≤ length program.now.groups }
        requires closures { AreClosures (system_in program.now) (in_scope scope.now) self.now }
        ensures { IfOk result (λ ls. IsSetOf (system_in program.now) (in_scope scope.now) group given.now ls.items) }
    {
        program.law();
        names_are_apart();
        let own = self.of(group);
        if group as usize == program.groups.items.len() {
            let unknowns = most_of(given, most_of(own, 0));
            let held = opened(alloc, own, given, unknowns)?;
            let all = held.ascending(alloc)?;
            return Ok(all);
        }
        let table = table_of(alloc, program, scope, group)?;
        let unknowns = most_in(&table, most_of(given, most_of(own, 0)));
        let index = Index::new(alloc, unknowns, &table)?;
        let trail = reopened(alloc, own, given, &table, &index, unknowns)?;
        let lits = trail.ascending(alloc)?;
        Ok(lits)
    }
}

/// The literals that propagation forces in a group where these are given: in ascending order of unknowns, the positive literal
/// of an unknown before the negative one. The table has the group's clauses, and `own` is the group's set, for which nothing is
/// given. What [`Closures::closed`] makes anew at each call is made once here for many lists of given literals. Its one refusal
/// is want of memory.
pub fn closed_over(
    alloc: Global,
    own: &[Lit],
    given: &[Lit],
    table: &ClauseTable,
    index: &Index,
    unknowns: u32,
) -> Result<Vec<Lit>, Memory>
    requires few { length table.now < 2 ^ 32 }
    requires small { unknowns < 2 ^ 31 }
    requires own { All (λ l. l.var ≤ unknowns) own.now }
    requires given { All (λ l. l.var ≤ unknowns) given.now }
    requires table { All (IsWithin unknowns) table.now }
    ensures { IfOk result (λ ls. (s : System) → (U : ConstraintName → Bool) → (g : ℕ) → IsTableOf s U g table.now → IsSetOf s U g [] own.now → IsSetOf s U g given.now ls.items) }
{
    let trail = reopened(alloc, own, given, table, index, unknowns)?;
    let lits = trail.ascending(alloc)?;
    Ok(lits)
}

/// The literals of a set that is closed, others that are given, and what the clauses force by them.
pub(crate) fn reopened(
    alloc: Global,
    own: &[Lit],
    given: &[Lit],
    table: &ClauseTable,
    index: &Index,
    unknowns: u32,
) -> Result<Trail, Memory>
    requires few { length table.now < 2 ^ 32 }
    requires small { unknowns < 2 ^ 31 }
    requires own { All (λ l. l.var ≤ unknowns) own.now }
    requires given { All (λ l. l.var ≤ unknowns) given.now }
    requires table { All (IsWithin unknowns) table.now }
    ensures unknowns { IfOk result (λ t. t.unknowns ≡ unknowns) }
    ensures reopened { IfOk result (IsReopened own.now given.now table.now) }
{
    let mut trail = opened(alloc, own, given, unknowns)?;
    settle(&mut trail, table, index, own.len())?;
    Ok(trail)
}

/// The literals of a set and others that are given.
fn opened(alloc: Global, own: &[Lit], given: &[Lit], unknowns: u32) -> Result<Trail, Memory>
    requires small { unknowns < 2 ^ 31 }
    requires own { All (λ l. l.var ≤ unknowns) own.now }
    requires given { All (λ l. l.var ≤ unknowns) given.now }
    ensures unknowns { IfOk result (λ t. t.unknowns ≡ unknowns) }
    ensures opened { IfOk result (IsOpened own.now given.now) }
{
    let mut trail = Trail::new(alloc, unknowns)?;
    give(&mut trail, own)?;
    give(&mut trail, given)?;
    Ok(trail)
}

/// Adds literals that are given.
fn give(trail: &mut Trail, given: &[Lit]) -> Result<(), Memory>
    requires { All (λ l. l.var ≤ trail.old.unknowns) given.now }
    ensures { OnOk result (Gives given.now trail.old trail.new) }
{
    for lit in given {
        trail.add(*lit, Reason::Given)?;
    }
    Ok(())
}
