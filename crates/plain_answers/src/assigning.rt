ghost use Rattle.std.specs.Prelude.{◌≡◌, ℕ, ◌+◌, ◌-◌, slice_set, ◌<◌, ◌≤◌, ◌↔◌, ◌^◌, true, false, [], length, IfOk, MatchBool, MatchOption};
ghost use Rattle.std.specs.List.{All, Contains};
ghost use Rattle.zo_core.specs.Literals.{Literal, yes};
ghost use Rattle.verdict_meaning.specs.Systems.{root, count};
ghost use Rattle.verdict_meaning.specs.Solutions.{phi_by, pi_by};
ghost use Rattle.verdict_meaning.specs.Certificates.{bit_at};
ghost use Rattle.verdict_meaning.specs.Plain.{IsLeast, PlainIn};
ghost use Rattle.unit_answers.specs.Sets.{AreClosures, AreWithin};
ghost use Rattle.unit_answers.specs.Tables.{IsTableOf};
ghost use Rattle.call_search.specs.Shapes.{IsThere};
ghost use Rattle.call_search.specs.declared.entries.Entry.{Entry};
ghost use Rattle.plain_answers.specs.Stages.{AreTrue, IsOfGroup, IsRight, HasUnplain, IsEntryOf, IsAskable, AreEntries, IsFitting};

use crate::groups::GroupClauses;
use crate::wants::{Want, face_of};
use c_tree::Memory;
use call_search::{Entry, given_for, is_true, own_face};
use own_cert::Bits;
use std::alloc::Global;
use transfer_rules::ClauseTable;
use unit_answers::{Closures, Index, closed_over};
use verdict_meaning::Callee;
use zo_core::Lit;

/// For each unknown up to a number whether its positive literal is one of these.
pub(crate) fn positives(alloc: Global, lits: &[Lit], count: u32) -> Result<Vec<bool>, Memory>
    ensures size { IfOk result (λ v. length v.items ≡ count) }
    ensures each { IfOk result (λ v. (n : ℕ) → 0 < n → n ≤ count → (bit_at v.items n ≡ true) ↔ Contains lits.now (yes n)) }
{
    let mut bits = vec![in alloc; false; count as usize]?;
    for lit in lits {
        mark(&mut bits, *lit);
    }
    Ok(bits)
}

/// Sets the bit of a positive literal's unknown, where there is one.
fn mark(bits: &mut Vec<bool>, lit: Lit)
    ensures some { 0 < lit.var }
    ensures positive { lit.sign ≡ true → bits.new.items ≡ slice_set bits.old.items (lit.var - 1) true }
    ensures negative { lit.sign ≡ false → bits.new.items ≡ bits.old.items }
{
    let at = lit.var().number() as usize - 1;
    if !lit.sign() {
        return;
    }
    if at >= bits.len() {
        return;
    }
    bits[at] = true;
}

/// Whether each clause is true.
fn are_met(table: &ClauseTable, bits: &[bool]) -> bool
    ensures { MatchBool result (AreTrue (bit_at bits.now) table.now) (AreTrue (bit_at bits.now) table.now → ⊥) }
{
    for number in 0..table.len() {
        if !is_true(table.lits(number), bits) {
            return false;
        }
    }
    true
}

/// Whether fields own as given, and a procedure has the interface that was given.
fn fits<G: GroupClauses>(
    groups: &G,
    callee: Callee,
    bits: &[bool],
    phi: &[bool],
    face: &[bool],
) -> bool
    requires callee { IsThere (G.system groups.now) callee }
    requires size { length bits.now ≡ count (G.system groups.now) callee.group }
    requires phi { length phi.now ≡ (G.system groups.now).fields }
    ensures { MatchBool result (IsFitting (G.system groups.now) phi.now callee face.now bits.now) (IsFitting (G.system groups.now) phi.now callee face.now bits.now → ⊥) }
{
    if &bits[..phi.len()] != phi {
        return false;
    }
    own_face(groups, callee, bits) == face
}

/// The assignment of a group in which an unknown is 1 exactly where its positive literal is forced by the owning fields and a
/// procedure's interface. None where it does not say what was given, or does not meet the group's constraints.
fn assignment<G: GroupClauses>(
    alloc: Global,
    groups: &G,
    closures: &Closures,
    phi: &[bool],
    callee: Callee,
    face: &[bool],
    table: &ClauseTable,
    index: &Index,
) -> Result<Option<Vec<bool>>, Memory>
    requires closures { AreClosures (G.system groups.now) (G.counting groups.now) closures.now }
    requires sets { AreWithin (G.system groups.now) closures.now }
    requires phi { length phi.now ≡ (G.system groups.now).fields }
    requires callee { IsThere (G.system groups.now) callee }
    requires face { length face.now ≡ (G.system groups.now).parts callee.proc }
    requires table { IsTableOf (G.system groups.now) (G.counting groups.now) callee.group table.now }
    requires few { length table.now < 2 ^ 32 }
    requires within { All (IsOfGroup (count (G.system groups.now) callee.group)) table.now }
    ensures { IfOk result (λ r. MatchOption r (PlainIn (G.system groups.now) (G.counting groups.now) phi.now callee.group callee.proc face.now → ⊥)
        (λ v. IsRight (G.system groups.now) (G.counting groups.now) phi.now callee face.now v.items)) }
{
    let given = given_for(alloc, groups, phi, callee, face)?;
    let unknowns = groups.count(callee.group);
    let own = closures.of(callee.group);
    let lits = closed_over(alloc, own, &given, table, index, unknowns)?;
    let bits = positives(alloc, &lits, unknowns)?;
    if !fits(groups, callee, &bits, phi, face) {
        return Ok(None);
    }
    if !are_met(table, &bits) {
        return Ok(None);
    }
    Ok(Some(bits))
}

/// The instance of what is asked for, where it is plain.
fn entry<G: GroupClauses>(
    alloc: Global,
    groups: &G,
    closures: &Closures,
    phi: &[bool],
    group: u32,
    want: &Want,
    table: &ClauseTable,
    index: &Index,
) -> Result<Option<Entry>, Memory>
    requires closures { AreClosures (G.system groups.now) (G.counting groups.now) closures.now }
    requires sets { AreWithin (G.system groups.now) closures.now }
    requires phi { length phi.now ≡ (G.system groups.now).fields }
    requires want { IsAskable (G.system groups.now) group want.now }
    requires table { IsTableOf (G.system groups.now) (G.counting groups.now) group table.now }
    requires few { length table.now < 2 ^ 32 }
    requires within { All (IsOfGroup (count (G.system groups.now) group)) table.now }
    ensures { IfOk result (λ r. MatchOption r (PlainIn (G.system groups.now) (G.counting groups.now) phi.now group want.now.proc want.now.face → ⊥)
        (IsEntryOf (G.system groups.now) (G.counting groups.now) phi.now group want.now)) }
{
    let proc = want.proc;
    let callee = Callee { proc, group };
    let face = face_of(want);
    match assignment(alloc, groups, closures, phi, callee, face, table, index)? {
        None => Ok(None),
        Some(items) => Ok(Some(Entry {
            group,
            proc,
            bits: Bits { items },
        })),
    }
}

/// The instances of all that is asked of a group, in this order. None where one of them is not plain. Table and index of the
/// group are made once for all of them.
pub(crate) fn entries<G: GroupClauses>(
    alloc: Global,
    groups: &G,
    closures: &Closures,
    phi: &[bool],
    group: u32,
    wants: &[Want],
) -> Result<Option<Vec<Entry>>, Memory>
    requires closures { AreClosures (G.system groups.now) (G.counting groups.now) closures.now }
    requires sets { AreWithin (G.system groups.now) closures.now }
    requires phi { length phi.now ≡ (G.system groups.now).fields }
    requires group { group < root (G.system groups.now) }
    requires wants { All (IsAskable (G.system groups.now) group) wants.now }
    ensures { IfOk result (λ r. MatchOption r (HasUnplain (G.system groups.now) (G.counting groups.now) phi.now group wants.now)
        (λ v. AreEntries (G.system groups.now) (G.counting groups.now) phi.now group wants.now v.items)) }
{
    let table = groups.clauses(alloc, group)?;
    let index = Index::new(alloc, groups.count(group), &table)?;
    let mut out = Vec::new(alloc);
    for want in wants {
        match entry(alloc, groups, closures, phi, group, want, &table, &index)? {
            None => return Ok(None),
            Some(made) => out.push(made)?,
        }
    }
    Ok(Some(out))
}
