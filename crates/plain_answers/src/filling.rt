ghost use Rattle.std.specs.Prelude.{◌≡◌, ℕ, ◌<◌, ◌≤◌, [], length, slice_set, IfOk, OnOk, MatchOption};
ghost use Rattle.std.specs.List.{All};
ghost use Rattle.verdict_meaning.specs.Systems.{root, count};
ghost use Rattle.verdict_meaning.specs.Solutions.{phi_by};
ghost use Rattle.verdict_meaning.specs.Certificates.{bit_at};
ghost use Rattle.verdict_meaning.specs.Plain.{IsLeast, IsPlainSat};
ghost use Rattle.unit_answers.specs.Sets.{AreClosures, AreWithin};
ghost use Rattle.call_search.specs.Entries.{AreEmpty};
ghost use Rattle.call_search.specs.declared.entries.Entry.{Entry};
ghost use Rattle.plain_answers.specs.Answers.{IsPlainAnswer};
ghost use Rattle.plain_answers.specs.Stages.{AreAllAsked, IsTop, IsStage};

use crate::assigning::{entries, positives};
use crate::groups::GroupClauses;
use crate::wants::{Wants, ask_all, in_order, unasked};
use c_tree::Memory;
use call_search::{Entries, Entry, Shapes, certificate};
use own_cert::Certificate;
use std::alloc::Global;
use unit_answers::Closures;

/// A table without instances.
fn blank(alloc: Global, groups: u32) -> Result<Vec<Entries>, Memory>
    ensures { IfOk result (λ t. AreEmpty groups t.items) }
{
    let mut table = Vec::new(alloc);
    for _group in 0..groups {
        let none = Entries {
            items: Vec::new(alloc),
        };
        table.push(none)?;
    }
    Ok(table)
}

/// The bits of an instance.
fn bits_of(entry: &Entry) -> &[bool]
    ensures { result.now ≡ entry.now.bits }
{
    entry.bits.items.as_slice()
}

/// Adds what the sites of these instances of a group ask for.
fn ask_for<G: Shapes>(
    alloc: Global,
    groups: &G,
    wanted: &mut Vec<Wants>,
    group: u32,
    entries: &[Entry],
) -> Result<(), Memory>
    requires table { length wanted.old.items ≡ group }
    requires group { group ≤ root (G.system groups.now) }
    requires size { All (λ e. length e.bits ≡ count (G.system groups.now) group) entries.now }
    ensures { OnOk result (AreAllAsked (G.system groups.now) group entries.now wanted.old.items wanted.new.items) }
{
    for entry in entries {
        ask_all(alloc, groups, wanted, bits_of(entry), group)?;
    }
    Ok(())
}

/// Puts the instances of a group into its place.
fn place(table: &mut Vec<Entries>, group: u32, items: Vec<Entry>)
    requires { group < length table.old.items }
    ensures { table.new.items ≡ slice_set table.old.items group items.items }
{
    table[group as usize] = Entries { items };
}

/// The instances that the root asks for by its bits, and those that these ask for, the highest groups first. None where one of
/// them is not plain.
fn fill<G: GroupClauses>(
    alloc: Global,
    groups: &G,
    closures: &Closures,
    top: &[bool],
) -> Result<Option<Vec<Entries>>, Memory>
    requires closures { AreClosures (G.system groups.now) (G.counting groups.now) closures.now }
    requires sets { AreWithin (G.system groups.now) closures.now }
    requires top { IsTop (G.system groups.now) (G.counting groups.now) top.now }
    ensures { IfOk result (λ r. MatchOption r (IsPlainSat (G.system groups.now) (G.counting groups.now) → ⊥)
        (λ v. IsStage (G.system groups.now) (G.counting groups.now) top.now [] v.items)) }
{
    let root = groups.root();
    let phi = &top[..groups.fields() as usize];
    let mut table = blank(alloc, root)?;
    let mut wanted = unasked(alloc, root)?;
    ask_all(alloc, groups, &mut wanted, top, root)?;
    while let Some(wants) = wanted.pop() {
        let group = wanted.len() as u32;
        let wants = in_order(wants.items);
        match entries(alloc, groups, closures, phi, group, &wants)? {
            None => return Ok(None),
            Some(made) => {
                ask_for(alloc, groups, &mut wanted, group, &made)?;
                place(&mut table, group, made);
            }
        }
    }
    Ok(Some(table))
}

/// The certificate that propagation alone makes, where the assignments that it makes are solutions.
pub(crate) fn plain<G: GroupClauses>(
    alloc: Global,
    groups: &G,
    closures: &Closures,
) -> Result<Option<Certificate>, Memory>
    requires closures { AreClosures (G.system groups.now) (G.counting groups.now) closures.now }
    requires sets { AreWithin (G.system groups.now) closures.now }
    ensures { IfOk result (IsPlainAnswer (G.system groups.now) (G.counting groups.now)) }
{
    let root = groups.root();
    let top = positives(alloc, closures.of(root), groups.count(root))?;
    match fill(alloc, groups, closures, &top)? {
        None => Ok(None),
        Some(table) => {
            let made = certificate(alloc, groups, &top, &table)?;
            Ok(Some(made))
        }
    }
}
