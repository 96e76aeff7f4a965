//! Looking up or solving what groups ask for.

ghost use Rattle.std.specs.Prelude.{◌≡◌, ◌<◌, ◌≤◌, ◌+◌, ◌^◌, ℕ, IfOk, OnOk, length, []};
ghost use Rattle.verdict_meaning.specs.Systems.{root, callee, callees};
ghost use Rattle.verdict_meaning.specs.Solutions.{phi_by, sigma_by};
ghost use Rattle.verdict_meaning.specs.Certificates.{bit_at};
ghost use Rattle.call_search.specs.Shapes.{IsThere};
ghost use Rattle.call_search.specs.Ledgers.{IsGiven, IsLedger};
ghost use Rattle.call_search.specs.Entries.{AreLeft, in_group, AreBitsAt};
ghost use Rattle.call_search.specs.Answers.{AnsweredIs, AskedIs, DeepenedIs, FilledIs, IsAsker, given_for};

use crate::entries::{Entries, Entry, asked_face, is_there, listed, put};
use crate::given::{copied, state};
use crate::groups::{Groups, Outcome, Shapes};
use crate::keeping::take;
use crate::ledger::Ledger;
use crate::site::carry;
use c_tree::Memory;
use conflict_proof::Line;
use own_cert::Bits;
use std::alloc::Global;
use verdict_meaning::Callee;
use zo_core::Lit;

/// What came of asking for an instance.
#[derive(Drop)]
pub enum Answered {
    /// It is there.
    Yes,
    /// The line of this number says that there is none.
    Refused(u32),
    /// The next line, for which the words don't suffice.
    Spent(Line),
}

/// What came of what a group's sites ask for.
#[derive(Drop)]
pub enum Asked {
    /// It is all there.
    Kept,
    /// Some of it is not to be had, and the line that says so was carried to the site.
    Carried,
    /// The next line, for which the words don't suffice.
    Spent(Line),
}

/// The literals that say which fields own and what the interface of a procedure is.
pub fn given_for<G: Shapes>(
    alloc: Global,
    groups: &G,
    phi: &[bool],
    callee: Callee,
    face: &[bool],
) -> Result<Vec<Lit>, Memory>
    requires callee { IsThere (G.system groups.now) callee }
    requires phi { length phi.now ≡ (G.system groups.now).fields }
    requires face { length face.now ≡ (G.system groups.now).parts callee.proc }
    ensures literals { IfOk result (λ v. v.items ≡ given_for (G.system groups.now) phi.now callee face.now) }
    ensures given { IfOk result (λ v. IsGiven (G.system groups.now) callee.group v.items) }
{
    let mut given = Vec::new(alloc);
    state(&mut given, 1, phi)?;
    state(&mut given, groups.before_own(callee) + 1, face)?;
    Ok(given)
}

/// Finds or solves the instance of a procedure with an interface.
fn obtain<G: Groups>(
    alloc: Global,
    groups: &G,
    ledger: &mut Ledger,
    phi: &[bool],
    kept: &mut Vec<Entries>,
    table: &mut Vec<Entries>,
    callee: Callee,
    face: &[bool],
) -> Result<Answered, Memory>
    requires ledger { IsLedger (G.system groups.now) (G.counting groups.now) ledger.old }
    requires left { AreLeft (G.system groups.now) (G.counting groups.now) ledger.old.lines phi.now table.old.items kept.old.items }
    requires callee { IsThere (G.system groups.now) callee }
    requires phi { length phi.now ≡ (G.system groups.now).fields }
    requires face { length face.now ≡ (G.system groups.now).parts callee.proc }
    ensures answer { IfOk result (AnsweredIs (G.system groups.now) (G.counting groups.now) phi.now callee face.now ledger.old ledger.new table.old.items table.new.items) }
    ensures left { OnOk result (AreLeft (G.system groups.now) (G.counting groups.now) ledger.old.lines phi.now table.new.items kept.new.items) }
{
    if is_there(groups, listed(table, callee.group), callee, face) {
        return Ok(Answered::Yes);
    }
    if let Some(entry) = take(groups, kept, callee, face) {
        put(table, entry)?;
        return Ok(Answered::Yes);
    }
    let given = given_for(alloc, groups, phi, callee, face)?;
    match groups.solve(alloc, ledger, callee.group, &given)? {
        Outcome::Sat(bits) => {
            let entry = Entry {
                group: callee.group,
                proc: callee.proc,
                bits,
            };
            put(table, entry)?;
            Ok(Answered::Yes)
        }
        Outcome::Conflict(n) => Ok(Answered::Refused(n)),
        Outcome::Spent(line) => Ok(Answered::Spent(line)),
    }
}

/// Asks for what one site of a group asks for by the group's bits.
fn ask<G: Groups>(
    alloc: Global,
    groups: &G,
    ledger: &mut Ledger,
    phi: &[bool],
    kept: &mut Vec<Entries>,
    table: &mut Vec<Entries>,
    bits: &[bool],
    group: u32,
    site: u32,
) -> Result<Asked, Memory>
    requires ledger { IsLedger (G.system groups.now) (G.counting groups.now) ledger.old }
    requires left { AreLeft (G.system groups.now) (G.counting groups.now) ledger.old.lines phi.now table.old.items kept.old.items }
    requires asker { IsAsker (G.system groups.now) (G.counting groups.now) ledger.old.lines phi.now group bits.now }
    requires group { group ≤ root (G.system groups.now) }
    requires site { site < length (callees (G.system groups.now) group) }
    ensures answer { IfOk result (AskedIs (G.system groups.now) (G.counting groups.now) phi.now group bits.now ledger.old ledger.new table.old.items table.new.items site (site + 1)) }
    ensures left { OnOk result (AreLeft (G.system groups.now) (G.counting groups.now) ledger.old.lines phi.now table.new.items kept.new.items) }
{
    let callee = groups.callee(group, site);
    let face = asked_face(groups, bits, group, site);
    match obtain(alloc, groups, ledger, phi, kept, table, callee, face)? {
        Answered::Yes => Ok(Asked::Kept),
        Answered::Spent(line) => Ok(Asked::Spent(line)),
        Answered::Refused(n) => match carry(alloc, groups, ledger, n, bits, group, site)? {
            None => Ok(Asked::Carried),
            Some(line) => Ok(Asked::Spent(line)),
        },
    }
}

/// Asks for what all sites of a group ask for by the group's bits.
fn ask_all<G: Groups>(
    alloc: Global,
    groups: &G,
    ledger: &mut Ledger,
    phi: &[bool],
    kept: &mut Vec<Entries>,
    table: &mut Vec<Entries>,
    bits: &[bool],
    group: u32,
) -> Result<Asked, Memory>
    requires ledger { IsLedger (G.system groups.now) (G.counting groups.now) ledger.old }
    requires left { AreLeft (G.system groups.now) (G.counting groups.now) ledger.old.lines phi.now table.old.items kept.old.items }
    requires asker { IsAsker (G.system groups.now) (G.counting groups.now) ledger.old.lines phi.now group bits.now }
    requires group { group ≤ root (G.system groups.now) }
    ensures answer { IfOk result (AskedIs (G.system groups.now) (G.counting groups.now) phi.now group bits.now ledger.old ledger.new table.old.items table.new.items 0 (length (callees (G.system groups.now) group))) }
    ensures left { OnOk result (AreLeft (G.system groups.now) (G.counting groups.now) ledger.old.lines phi.now table.new.items kept.new.items) }
{
    for site in 0..groups.sites(group) {
        match ask(alloc, groups, ledger, phi, kept, table, bits, group, site)? {
            Asked::Kept => {}
            other => return Ok(other),
        }
    }
    Ok(Asked::Kept)
}

/// A copy of the bits of an instance.
fn bits_at(alloc: Global, table: &Vec<Entries>, group: u32, at: usize) -> Result<Vec<bool>, Memory>
    requires group { group < length table.now.items }
    requires within { at < length (in_group table.now.items group) }
    ensures { IfOk result (λ v. AreBitsAt table.now.items group at v.items) }
{
    let entries = listed(table, group);
    let entry = &entries[at];
    copied(alloc, entry.bits.items.as_slice())
}

/// Asks for what all instances of a group ask for.
fn ask_group<G: Groups>(
    alloc: Global,
    groups: &G,
    ledger: &mut Ledger,
    phi: &[bool],
    kept: &mut Vec<Entries>,
    table: &mut Vec<Entries>,
    group: u32,
) -> Result<Asked, Memory>
    requires ledger { IsLedger (G.system groups.now) (G.counting groups.now) ledger.old }
    requires left { AreLeft (G.system groups.now) (G.counting groups.now) ledger.old.lines phi.now table.old.items kept.old.items }
    requires group { group < root (G.system groups.now) }
    ensures answer { IfOk result (DeepenedIs (G.system groups.now) (G.counting groups.now) phi.now group ledger.old ledger.new table.old.items table.new.items) }
    ensures left { OnOk result (AreLeft (G.system groups.now) (G.counting groups.now) ledger.old.lines phi.now table.new.items kept.new.items) }
{
    let count = listed(table, group).len();
    for at in 0..count {
        let bits = bits_at(alloc, table, group, at)?;
        match ask_all(alloc, groups, ledger, phi, kept, table, &bits, group)? {
            Asked::Kept => {}
            other => return Ok(other),
        }
    }
    Ok(Asked::Kept)
}

/// Solves what the root asks for by its bits, and all that this asks for, the highest groups first.
pub fn fill<G: Groups>(
    alloc: Global,
    groups: &G,
    ledger: &mut Ledger,
    phi: &[bool],
    top: &[bool],
    kept: &mut Vec<Entries>,
    table: &mut Vec<Entries>,
) -> Result<Asked, Memory>
    requires ledger { IsLedger (G.system groups.now) (G.counting groups.now) ledger.old }
    requires left { AreLeft (G.system groups.now) (G.counting groups.now) ledger.old.lines phi.now table.old.items kept.old.items }
    requires empty { (g : ℕ) → in_group table.old.items g ≡ [] }
    requires asker { IsAsker (G.system groups.now) (G.counting groups.now) ledger.old.lines phi.now (root (G.system groups.now)) top.now }
    ensures answer { IfOk result (FilledIs (G.system groups.now) (G.counting groups.now) phi.now top.now ledger.old ledger.new table.new.items) }
    ensures left { OnOk result (AreLeft (G.system groups.now) (G.counting groups.now) ledger.old.lines phi.now table.new.items kept.new.items) }
{
    match ask_all(alloc, groups, ledger, phi, kept, table, top, groups.root())? {
        Asked::Kept => {}
        other => return Ok(other),
    }
    let mut group = groups.root();
    while group > 0 {
        group -= 1;
        match ask_group(alloc, groups, ledger, phi, kept, table, group)? {
            Asked::Kept => {}
            other => return Ok(other),
        }
    }
    Ok(Asked::Kept)
}
