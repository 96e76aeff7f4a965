//! Instances that are solved, and which of them answers what a site asks for.

ghost use Rattle.std.specs.Prelude.{◌≡◌, ◌≤◌, ◌<◌, ℕ, List, MatchOption, MatchBool, length, slice_get, Some, OnOk};
ghost use Rattle.std.specs.List.{All};
ghost use Rattle.verdict_meaning.specs.Systems.{root, callee, callees, count};
ghost use Rattle.verdict_meaning.specs.Solutions.{pi_by, sigma_by};
ghost use Rattle.verdict_meaning.specs.Certificates.{bit_at};
ghost use Rattle.call_search.specs.Shapes.{IsThere};
ghost use Rattle.call_search.specs.Entries.{IsSized, own_face, Answers, IsAnswerAt, IsAnswered, NoneAnswers, IsPut, in_group};
ghost use Rattle.call_search.specs.declared.entries.Entry.{Entry};

use crate::groups::Shapes;
use c_tree::Memory;
use own_cert::Bits;
use std::marker::Model;
use verdict_meaning::Callee;

/// A solved instance: the values of its group's unknowns, by number from 1.
#[derive(Drop)]
pub struct Entry {
    pub group: u32,
    pub proc: u32,
    pub bits: Bits,
}

/// Instances of one group.
#[derive(Drop)]
pub struct Entries {
    pub items: Vec<Entry>,
}

impl Model for Entries {
    ghost use Rattle.std.specs.Prelude.{List};
    ghost use Rattle.call_search.specs.declared.entries.Entry.{Entry};

    ghost Value = { List Entry };

    ghost view = { λ e. e.items.items };
}

/// The interface of a procedure by the bits of its group.
pub fn own_face<'a, G: Shapes>(groups: &G, of: Callee, bits: &'a [bool]) -> &'a [bool]
    requires there { IsThere (G.system groups.now) of }
    requires size { length bits.now ≡ count (G.system groups.now) of.group }
    ensures { result.now ≡ pi_by (G.system groups.now) of.group (bit_at bits.now) of.proc }
{
    let from = groups.before_own(of) as usize;
    let to = from + groups.parts(of) as usize;
    &bits[from..to]
}

/// The interface that a site of a group asks for.
pub fn asked_face<'a, G: Shapes>(groups: &G, bits: &'a [bool], group: u32, site: u32) -> &'a [bool]
    requires group { group ≤ root (G.system groups.now) }
    requires site { site < length (callees (G.system groups.now) group) }
    requires size { length bits.now ≡ count (G.system groups.now) group }
    ensures { result.now ≡ sigma_by (G.system groups.now) group (bit_at bits.now) site }
{
    let from = groups.before_site(group, site) as usize;
    let callee = groups.callee(group, site);
    let to = from + groups.parts(callee) as usize;
    &bits[from..to]
}

/// Whether the instance is of a procedure with an interface.
fn is_answer<G: Shapes>(groups: &G, entry: &Entry, callee: Callee, face: &[bool]) -> bool
    requires { IsSized (G.system groups.now) entry.now }
    ensures { MatchBool result (Answers (G.system groups.now) entry.now callee face.now) (Answers (G.system groups.now) entry.now callee face.now → ⊥) }
{
    let at = Callee {
        proc: entry.proc,
        group: entry.group,
    };
    if at.proc != callee.proc {
        return false;
    }
    if at.group != callee.group {
        return false;
    }
    own_face(groups, at, entry.bits.items.as_slice()) == face
}

/// The number of an instance of a procedure with an interface.
pub fn find<G: Shapes>(
    groups: &G,
    entries: &[Entry],
    callee: Callee,
    face: &[bool],
) -> Option<usize>
    requires { (n : ℕ) (e : Entry) → slice_get entries.now n ≡ Some e → IsSized (G.system groups.now) e }
    ensures { MatchOption result (NoneAnswers (G.system groups.now) entries.now callee face.now) (λ n. IsAnswerAt (G.system groups.now) entries.now callee face.now n) }
{
    for at in 0..entries.len() {
        if is_answer(groups, &entries[at], callee, face) {
            return Some(at);
        }
    }
    None
}

/// Whether there is an instance of a procedure with an interface.
pub fn is_there<G: Shapes>(groups: &G, entries: &[Entry], callee: Callee, face: &[bool]) -> bool
    requires { (n : ℕ) (e : Entry) → slice_get entries.now n ≡ Some e → IsSized (G.system groups.now) e }
    ensures { MatchBool result (IsAnswered (G.system groups.now) entries.now callee face.now) (NoneAnswers (G.system groups.now) entries.now callee face.now) }
{
    match find(groups, entries, callee, face) {
        Some(_) => true,
        None => false,
    }
}

/// Puts an instance behind those of its group.
pub fn put(table: &mut Vec<Entries>, entry: Entry) -> Result<(), Memory>
    requires { entry.group < length table.old.items }
    ensures { OnOk result (IsPut entry.group entry table.old.items table.new.items) }
{
    table[entry.group as usize].items.push(entry)?;
    Ok(())
}

/// The instances of a group.
pub fn listed(table: &Vec<Entries>, group: u32) -> &[Entry]
    requires { group < length table.now.items }
    ensures { result.now ≡ in_group table.now.items group }
{
    table[group as usize].items.as_slice()
}
