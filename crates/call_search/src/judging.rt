//! What the search says of a program.

ghost use Rattle.std.specs.Prelude.{◌≡◌, ◌<◌, ◌≤◌, ◌+◌, ◌++◌, ◌∷◌, ◌^◌, [], IfOk, length, take};
ghost use Rattle.verdict_meaning.specs.Derivations.{cost_of};
ghost use Rattle.call_search.specs.Verdicts.{AreKnown, JudgedIs};

use crate::certify::certificate;
use crate::groups::Groups;
use crate::ledger::Ledger;
use crate::search::{Found, search};
use c_tree::Memory;
use conflict_proof::{Derivation, Line, Lines};
use own_cert::Certificate;
use std::alloc::Global;

/// A verdict on a program's constraints.
#[derive(Drop)]
pub enum Judged {
    /// They can be met: a certificate, and the lines that were learnt.
    Accepted(Certificate, Lines),
    /// They cannot: lines of which the last one is the root's empty one.
    Refuted(Derivation),
    /// The budget is spent: lines that cost more, and without the last one do not.
    Undecided(Derivation),
}

/// The first lines.
fn first_lines(lines: Lines, n: u32) -> Derivation
    ensures { result.lines ≡ take n lines }
{
    let mut items = lines.items;
    items.truncate(n as usize);
    Derivation {
        lines: Lines { items },
    }
}

/// The lines with one more.
fn with_line(lines: Lines, line: Line) -> Result<Derivation, Memory>
    ensures { IfOk result (λ d. d.lines ≡ lines ++ line ∷ []) }
{
    let mut items = lines.items;
    items.push(line)?;
    Ok(Derivation {
        lines: Lines { items },
    })
}

/// The verdict, where these lines are known and so many words may be spent on more. The known lines are valid, none of
/// them is the root's, and no two of one group have one clause. Its one refusal is want of memory.
pub fn judge<G: Groups>(
    alloc: Global,
    groups: &G,
    budget: u64,
    known: Lines,
) -> Result<Judged, Memory>
    requires known { AreKnown (G.system groups.now) (G.counting groups.now) known }
    requires small { cost_of known + budget < 2 ^ 32 }
    ensures { IfOk result (JudgedIs (G.system groups.now) (G.counting groups.now) known budget) }
{
    let mut ledger = Ledger::new(alloc, known, budget)?;
    let mut table = Vec::new(alloc);
    match search(alloc, groups, &mut ledger, &mut table)? {
        Found::Solution(top) => {
            let c = certificate(alloc, groups, top.items.as_slice(), &table)?;
            Ok(Judged::Accepted(c, ledger.into_lines()))
        }
        Found::Refuted(n) => Ok(Judged::Refuted(first_lines(ledger.into_lines(), n))),
        Found::Spent(line) => Ok(Judged::Undecided(with_line(ledger.into_lines(), line)?)),
    }
}
