ghost use Rattle.std.specs.Prelude.{◌≡◌, ℕ, suc, ◌+◌, ◌<◌, ◌≤◌, ◌^◌, List, [], length, map, slice_get, Some, IfOk, OnOk};
ghost use Rattle.std.specs.List.{All, Contains};
ghost use Rattle.zo_core.specs.Literals.{Literal};
ghost use Rattle.transfer_rules.specs.Names.{NamedClause};
ghost use Rattle.verdict_meaning.specs.Systems.{System, callees};
ghost use Rattle.unit_answers.specs.Layouts.{CallFits, IsLayout, IsLayoutOf, group_at};
ghost use Rattle.unit_answers.specs.Propagation.{IsWithin};
ghost use Rattle.unit_answers.specs.Settled.{AreLower, IsEntered, IsOrdered, IsSettled};
ghost use Rattle.unit_answers.specs.Trails.{known};

use crate::carry::carry;
use crate::index::Index;
use crate::layouts::{Call, Layout};
use crate::propagate::settle;
use crate::sets::UnitSet;
use crate::trail::Trail;
use c_tree::Memory;
use std::alloc::Global;
use transfer_rules::ClauseTable;
use zo_core::Lit;

/// The greatest unknown of these literals, and at least this one.
pub(crate) fn most_of(lits: &[Lit], least: u32) -> u32
    requires { least < 2 ^ 31 }
    ensures least { least ≤ result }
    ensures small { result < 2 ^ 31 }
    ensures most { All (λ l. l.var ≤ result) lits.now }
{
    let mut most = least;
    for lit in lits {
        most = most.max(lit.var().number());
    }
    most
}

/// The greatest unknown of a table, and at least this one.
pub(crate) fn most_in(table: &ClauseTable, least: u32) -> u32
    requires { least < 2 ^ 31 }
    ensures least { least ≤ result }
    ensures small { result < 2 ^ 31 }
    ensures most { All (IsWithin result) table.now }
{
    let mut most = least;
    for number in 0..table.len() {
        most = most_of(table.lits(number), most);
    }
    most
}

/// Adds what stands at a site of a group for literals of the called group's set.
fn enter_site(
    trail: &mut Trail,
    layout: &Layout,
    group: usize,
    site: usize,
    lower: &[UnitSet],
) -> Result<(), Memory>
    requires layout { IsLayout layout.now }
    requires group { group < length layout.now.groups }
    requires site { site < length (group_at layout.now group).calls }
    requires lower { AreLower group lower.now }
    requires unknowns { (group_at layout.now group).count ≤ trail.old.unknowns }
    requires small { trail.old.unknowns < 2 ^ 31 }
    ensures unknowns { OnOk result (trail.new.unknowns ≡ trail.old.unknowns) }
    ensures entered { OnOk result ((s : System) → (rows : List NamedClause) → IsLayoutOf s layout.now
        → IsEntered s group rows lower.now site trail.old → IsEntered s group rows lower.now (site + 1) trail.new) }
{
    let call = call_at(layout, group, site);
    let below = call.callee.group as usize;
    let fields = layout.fields;
    let outer = outer_of(layout, below);
    let lits = lits_of(&lower[below]);
    carry(trail, fields, outer, site as u32, &call, lits)?;
    Ok(())
}

/// The call at a site of a group.
fn call_at(layout: &Layout, group: usize, site: usize) -> Call
    requires group { group < length layout.now.groups }
    requires site { site < length (group_at layout.now group).calls }
    requires layout { IsLayout layout.now }
    ensures at { slice_get (group_at layout.now group).calls site ≡ Some result }
    ensures fits { CallFits layout.now group result }
{
    let calls = calls_of(layout, group);
    calls[site]
}

/// The calls of a group, by site.
fn calls_of(layout: &Layout, group: usize) -> &[Call]
    requires { group < length layout.now.groups }
    ensures { result.now ≡ (group_at layout.now group).calls }
{
    let numbers = &layout.groups[group];
    numbers.calls.as_slice()
}

/// How many unknowns of a group are of fields or of the interfaces of its members.
fn outer_of(layout: &Layout, group: usize) -> u32
    requires { group < length layout.now.groups }
    ensures { result ≡ (group_at layout.now group).outer }
{
    let numbers = &layout.groups[group];
    numbers.outer
}

/// The literals of a set, in ascending order.
fn lits_of(set: &UnitSet) -> &[Lit]
    ensures { result.now ≡ set.now.lits }
{
    set.lits.as_slice()
}

/// Adds what stands at the sites of a group for literals of the called groups' sets.
fn enter(trail: &mut Trail, layout: &Layout, group: usize, lower: &[UnitSet]) -> Result<(), Memory>
    requires layout { IsLayout layout.now }
    requires group { group < length layout.now.groups }
    requires lower { AreLower group lower.now }
    requires unknowns { (group_at layout.now group).count ≤ trail.old.unknowns }
    requires small { trail.old.unknowns < 2 ^ 31 }
    requires empty { trail.old.findings ≡ [] }
    ensures unknowns { OnOk result (trail.new.unknowns ≡ trail.old.unknowns) }
    ensures entered { OnOk result ((s : System) → (rows : List NamedClause) → IsLayoutOf s layout.now
        → IsEntered s group rows lower.now (length (callees s group)) trail.new) }
{
    for site in 0..calls_of(layout, group).len() {
        enter_site(trail, layout, group, site, lower)?;
    }
    Ok(())
}

/// The set of what was found.
fn finish(alloc: Global, trail: Trail) -> Result<UnitSet, Memory>
    ensures ordered { IfOk result IsOrdered }
    ensures within { IfOk result (λ set. (l : Literal) → Contains set.lits l → l.var ≤ trail.unknowns) }
    ensures same { IfOk result (λ set. set.findings ≡ trail.findings) }
{
    let lits = trail.ascending(alloc)?;
    let findings = trail.into_findings();
    Ok(UnitSet { lits, findings })
}

/// The set of a group, whose clauses these are, over those of the lower groups.
pub(crate) fn group_set(
    alloc: Global,
    layout: &Layout,
    group: usize,
    table: &ClauseTable,
    lower: &[UnitSet],
) -> Result<UnitSet, Memory>
    requires layout { IsLayout layout.now }
    requires group { group < length layout.now.groups }
    requires few { length table.now < 2 ^ 32 }
    requires table { All (IsWithin (group_at layout.now group).count) table.now }
    requires lower { AreLower group lower.now }
    ensures ordered { IfOk result IsOrdered }
    ensures within { IfOk result (λ set. (l : Literal) → Contains set.lits l → l.var ≤ (group_at layout.now group).count) }
    ensures settled { IfOk result (λ set. (s : System) → IsLayoutOf s layout.now → IsSettled s group table.now lower.now [] set) }
{
    let unknowns = count_of(layout, group);
    let mut trail = Trail::new(alloc, unknowns)?;
    enter(&mut trail, layout, group, lower)?;
    let index = Index::new(alloc, unknowns, table)?;
    settle(&mut trail, table, &index, 0)?;
    let set = finish(alloc, trail)?;
    Ok(set)
}

/// How many unknowns a group has.
pub(crate) fn count_of(layout: &Layout, group: usize) -> u32
    requires group { group < length layout.now.groups }
    requires layout { IsLayout layout.now }
    ensures count { result ≡ (group_at layout.now group).count }
    ensures small { result < 2 ^ 31 }
{
    let numbers = &layout.groups[group];
    numbers.count
}

/// The set of the root, which has no clauses, over those of the groups.
pub(crate) fn root_set(
    alloc: Global,
    layout: &Layout,
    root: usize,
    lower: &[UnitSet],
) -> Result<UnitSet, Memory>
    requires layout { IsLayout layout.now }
    requires root { root < length layout.now.groups }
    requires lower { AreLower root lower.now }
    ensures ordered { IfOk result IsOrdered }
    ensures within { IfOk result (λ set. (l : Literal) → Contains set.lits l → l.var ≤ (group_at layout.now root).count) }
    ensures settled { IfOk result (λ set. (s : System) → IsLayoutOf s layout.now → IsSettled s root [] lower.now [] set) }
{
    let mut trail = Trail::new(alloc, count_of(layout, root))?;
    enter(&mut trail, layout, root, lower)?;
    let set = finish(alloc, trail)?;
    Ok(set)
}
