//! The search, one choice of the root after another.

ghost use Rattle.std.specs.Prelude.{◌≡◌, ◌<◌, ◌≤◌, ◌+◌, ◌++◌, ◌∷◌, ◌⊎◌, ◌^◌, ℕ, List, IfOk, OnOk, length, []};
ghost use Rattle.conflict_proof.specs.declared.derivation.Line.{Line};
ghost use Rattle.verdict_meaning.specs.Systems.{root, count};
ghost use Rattle.verdict_meaning.specs.Solutions.{phi_by};
ghost use Rattle.verdict_meaning.specs.Certificates.{bit_at};
ghost use Rattle.call_search.specs.Ledgers.{IsLedger};
ghost use Rattle.call_search.specs.Entries.{in_group, AreKept, AreEmpty};
ghost use Rattle.call_search.specs.Answers.{FoundIs, IsAsker, SettledIs};

use crate::descending::descend;
use crate::entries::Entries;
use crate::fill::{Asked, fill};
use crate::given::copied;
use crate::groups::{Groups, Outcome};
use crate::keeping::keep;
use crate::ledger::{Ledger, last_line};
use c_tree::Memory;
use conflict_proof::Line;
use own_cert::Bits;
use std::alloc::Global;

/// What came of the search.
#[derive(Drop)]
pub enum Found {
    /// Bits of the root, with instances for all that is asked for.
    Solution(Bits),
    /// The number of a line of the root without literals.
    Refuted(u32),
    /// The next line, for which the words don't suffice.
    Spent(Line),
}

/// A table without instances.
fn emptied(alloc: Global, table: &mut Vec<Entries>, groups: u32) -> Result<(), Memory>
    ensures { OnOk result (AreEmpty groups table.new.items) }
{
    table.clear();
    for _k in 0..groups {
        let none = Entries {
            items: Vec::new(alloc),
        };
        table.push(none)?;
    }
    Ok(())
}

/// Which fields own by the bits of the root.
fn fields_by<G: Groups>(alloc: Global, groups: &G, top: &[bool]) -> Result<Vec<bool>, Memory>
    requires { length top.now ≡ count (G.system groups.now) (root (G.system groups.now)) }
    ensures { IfOk result (λ v. v.items ≡ phi_by (G.system groups.now) (bit_at top.now)) }
{
    let fields = groups.fields() as usize;
    let part = &top[..fields];
    let phi = copied(alloc, part)?;
    Ok(phi)
}

/// Drops what was kept, where other fields own from now on.
fn renew(
    alloc: Global,
    kept: &mut Vec<Entries>,
    groups: u32,
    before: &[bool],
    now: &[bool],
) -> Result<(), Memory>
    ensures { OnOk result (((before.now ≡ now.now) × (kept.new.items ≡ kept.old.items)) ⊎ AreEmpty groups kept.new.items) }
{
    if before == now {
        return Ok(());
    }
    emptied(alloc, kept, groups)
}

/// Searches for what the root asks for by its bits: goes down to it, and gathers it. Begins again, where some of it was not
/// there to gather. Instances that no line refutes are kept.
fn settle<G: Groups>(
    alloc: Global,
    groups: &G,
    ledger: &mut Ledger,
    phi: &[bool],
    top: &[bool],
    kept: &mut Vec<Entries>,
    table: &mut Vec<Entries>,
) -> Result<Asked, Memory>
    requires ledger { IsLedger (G.system groups.now) (G.counting groups.now) ledger.old }
    requires kept { AreKept (G.system groups.now) (G.counting groups.now) ledger.old.lines phi.now kept.old.items }
    requires asker { IsAsker (G.system groups.now) (G.counting groups.now) ledger.old.lines phi.now (root (G.system groups.now)) top.now }
    ensures { IfOk result (SettledIs (G.system groups.now) (G.counting groups.now) phi.now top.now ledger.old ledger.new kept.new.items table.new.items) }
{
    let root = groups.root();
    'again: loop {
        match descend(alloc, groups, ledger, phi, top, kept)? {
            Asked::Kept => {}
            Asked::Carried => return Ok(Asked::Carried),
            Asked::Spent(line) => return Ok(Asked::Spent(line)),
        }
        emptied(alloc, table, root)?;
        match fill(alloc, groups, ledger, phi, top, kept, table)? {
            Asked::Kept => return Ok(Asked::Kept),
            Asked::Spent(line) => return Ok(Asked::Spent(line)),
            Asked::Carried => {}
        }
        let line = last_line(ledger);
        keep(kept, table, line)?;
        if line.group == root {
            return Ok(Asked::Carried);
        }
    }
}

/// Searches for a solution or a refutation.
pub fn search<G: Groups>(
    alloc: Global,
    groups: &G,
    ledger: &mut Ledger,
    table: &mut Vec<Entries>,
) -> Result<Found, Memory>
    requires { IsLedger (G.system groups.now) (G.counting groups.now) ledger.old }
    ensures { IfOk result (FoundIs (G.system groups.now) (G.counting groups.now) ledger.old ledger.new table.new.items) }
{
    let root = groups.root();
    let given = Vec::new(alloc);
    let mut phi = Vec::new(alloc);
    let mut kept = Vec::new(alloc);
    emptied(alloc, &mut kept, root)?;
    'again: loop {
        let top = match groups.solve(alloc, ledger, root, given.as_slice())? {
            Outcome::Sat(bits) => bits,
            Outcome::Conflict(n) => return Ok(Found::Refuted(n)),
            Outcome::Spent(line) => return Ok(Found::Spent(line)),
        };
        let owning = fields_by(alloc, groups, top.items.as_slice())?;
        renew(alloc, &mut kept, root, phi.as_slice(), owning.as_slice())?;
        phi = owning;
        match settle(
            alloc,
            groups,
            ledger,
            phi.as_slice(),
            top.items.as_slice(),
            &mut kept,
            table,
        )? {
            Asked::Kept => return Ok(Found::Solution(top)),
            Asked::Carried => {}
            Asked::Spent(line) => return Ok(Found::Spent(line)),
        }
    }
}
