//! Instances that are kept for later use.

ghost use Rattle.std.specs.Prelude.{◌≡◌, ◌<◌, ◌≤◌, ◌+◌, ◌++◌, ◌∷◌, ℕ, Bool, true, [], List, MatchOption, OnOk, IfOk, length, slice_get, Some};
ghost use Rattle.zo_core.specs.Truth.{clause_true, holds};
ghost use Rattle.verdict_meaning.specs.Certificates.{bit_at};
ghost use Rattle.call_search.specs.declared.entries.Entry.{Entry};
ghost use Rattle.call_search.specs.Entries.{IsFrom, AreFewer, Answers, NoneAnswers, AreSized, in_group, AreJoined, AreTrueOnly, AreKeptBy};

use crate::entries::{Entries, Entry, find, listed};
use crate::groups::Groups;
use c_tree::Memory;
use conflict_proof::Line;
use verdict_meaning::Callee;
use zo_core::Lit;

/// Takes the instance of this number out of its group.
fn take_at(table: &mut Vec<Entries>, group: u32, at: usize) -> Entry
    requires group { group < length table.old.items }
    requires within { at < length (in_group table.old.items group) }
    ensures entry { slice_get (in_group table.old.items group) at ≡ Some result }
    ensures fewer { AreFewer table.old.items table.new.items }
{
    table[group as usize].items.swap_remove(at)
}

/// Takes out the instance of a procedure with an interface, where there is one.
pub fn take<G: Groups>(
    groups: &G,
    table: &mut Vec<Entries>,
    callee: Callee,
    face: &[bool],
) -> Option<Entry>
    requires group { callee.group < length table.old.items }
    requires sized { AreSized (G.system groups.now) table.old.items }
    ensures entry { MatchOption result (NoneAnswers (G.system groups.now) (in_group table.old.items callee.group) callee face.now) (λ e. Answers (G.system groups.now) e callee face.now × IsFrom table.old.items callee.group e) }
    ensures fewer { AreFewer table.old.items table.new.items }
{
    match find(groups, listed(table, callee.group), callee, face) {
        None => None,
        Some(at) => Some(take_at(table, callee.group, at)),
    }
}

/// Whether a clause is true by bits, of which that of unknown 1 is the first.
pub fn is_true(lits: &[Lit], bits: &[bool]) -> bool
    ensures { result ≡ clause_true (bit_at bits.now) lits.now }
{
    for lit in lits {
        if holds(*lit, bits) {
            return true;
        }
    }
    false
}

/// Whether a literal is true by them.
fn holds(lit: Lit, bits: &[bool]) -> bool
    ensures { result ≡ holds (bit_at bits.now) lit }
{
    let at = lit.var().number() as usize - 1;
    let bit = at < bits.len() && bits[at];
    bit == lit.sign()
}

/// Leaves the instances by whose bits a clause is true.
fn keep_true(entries: &mut Vec<Entry>, lits: &[Lit])
    ensures { AreTrueOnly lits.now entries.old.items entries.new.items }
{
    entries.retain(|entry| is_true(lits, entry.bits.items.as_slice()));
}

/// Moves the instances of a table to those that are kept.
fn gather(kept: &mut Vec<Entries>, table: &mut Vec<Entries>) -> Result<(), Memory>
    requires { length table.old.items ≡ length kept.old.items }
    ensures { OnOk result (AreJoined kept.old.items table.old.items kept.new.items) }
{
    for group in 0..kept.len() {
        kept[group].items.append(&mut table[group].items)?;
    }
    Ok(())
}

/// Drops the instances of a line's group that make it false.
pub fn refute(kept: &mut Vec<Entries>, line: &Line)
    ensures { AreKeptBy line.now kept.old.items kept.old.items kept.new.items }
{
    let group = line.group as usize;
    if group < kept.len() {
        keep_true(&mut kept[group].items, line.lits.lits());
    }
}

/// Moves the instances of a table to those that are kept, and drops those of a line's group that make it false.
pub fn keep(kept: &mut Vec<Entries>, table: &mut Vec<Entries>, line: &Line) -> Result<(), Memory>
    requires { length table.old.items ≡ length kept.old.items }
    ensures { OnOk result (AreKeptBy line.now kept.old.items table.old.items kept.new.items) }
{
    gather(kept, table)?;
    refute(kept, line);
    Ok(())
}
