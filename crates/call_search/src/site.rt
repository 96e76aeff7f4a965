//! Carrying lines to sites.

ghost use Rattle.std.specs.Prelude.{◌≡◌, ◌<◌, ◌≤◌, ◌+◌, ◌^◌, ℕ, IfOk, MatchBool, length};
ghost use Rattle.std.specs.List.{All};
ghost use Rattle.zo_core.specs.Literals.{Literal};
ghost use Rattle.verdict_meaning.specs.Systems.{root, callee, callees};
ghost use Rattle.verdict_meaning.specs.Solutions.{phi_by, sigma_by};
ghost use Rattle.verdict_meaning.specs.Certificates.{bit_at};
ghost use Rattle.zo_core.specs.Order.{Ascends};
ghost use Rattle.zo_core.specs.Renames.{KeepsApart};
ghost use Rattle.verdict_meaning.specs.Derivations.{IsRightLine};
ghost use Rattle.call_search.specs.Sites.{image_at, IsCarriedClause, IsLine, IsLitsOf, IsSaidAt, HasOther};
ghost use Rattle.call_search.specs.Ledgers.{IsLedger, IsDenied, IsNew};
ghost use Rattle.call_search.specs.Answers.{CarriedIs, IsAdded, IsAsker, given_for};

use crate::groups::Groups;
use crate::ledger::Ledger;
use c_tree::Memory;
use conflict_proof::{How, Line};
use std::alloc::Global;
use verdict_meaning::local_lines_are_true;
use zo_core::{Clause, Lit, Rename, Var, rename};

/// What stands at a site for the unknowns of the called procedure's interface.
#[derive(Drop)]
pub struct AtSite {
    before_own: u32,
    parts: u32,
    before_site: u32,
    ghost own: { before_own + parts < 2 ^ 31 },
    ghost site: { before_site + parts < 2 ^ 31 },
}

impl Rename for AtSite {
    ghost use Rattle.call_search.specs.Sites.{site_image};

    ghost image = { λ a. site_image a.before_own a.parts a.before_site };

    fn to(&self, v: Var) -> Var {
        let n = v.number();
        if n <= self.before_own || n > self.before_own + self.parts {
            return v;
        }
        Var(n - self.before_own + self.before_site)
    }
}

/// The clause at a site of a group that stands for one of the called group.
fn carried_clause<G: Groups>(
    alloc: Global,
    groups: &G,
    from: &[Lit],
    group: u32,
    site: u32,
) -> Result<Clause, Memory>
    requires group { group ≤ root (G.system groups.now) }
    requires site { site < length (callees (G.system groups.now) group) }
    requires canonical { Ascends 0 from.now }
    requires apart { KeepsApart (image_at (G.system groups.now) group site) from.now }
    ensures { IfOk result (IsCarriedClause (image_at (G.system groups.now) group site) from.now) }
{
    let callee = groups.callee(group, site);
    let by = AtSite {
        before_own: groups.before_own(callee),
        parts: groups.parts(callee),
        before_site: groups.before_site(group, site),
    };
    let mut lits = Clause::of(alloc, from)?;
    rename(&by, &mut lits);
    Ok(lits)
}

/// Adds a line that is right and new; gives it back, where the words don't suffice.
pub fn add<G: Groups>(
    alloc: Global,
    _groups: &G,
    ledger: &mut Ledger,
    line: Line,
) -> Result<Option<Line>, Memory>
    requires ledger { IsLedger (G.system _groups.now) (G.counting _groups.now) ledger.old }
    requires right { IsRightLine (G.system _groups.now) (G.counting _groups.now) ledger.old.lines (length ledger.old.lines + 1) line }
    requires new { IsNew ledger.old.lines line.group line.lits }
    ensures answer { IfOk result (CarriedIs (G.system _groups.now) (G.counting _groups.now) ledger.old ledger.new) }
    ensures line { IfOk result (IsAdded line ledger.old ledger.new) }
{
    let cost = line.lits.lits().len() as u64 + 1;
    if ledger.words() < cost {
        return Ok(Some(line));
    }
    ledger.push(alloc, line)?;
    Ok(None)
}

/// The line at a site of a group that says what a line of the called group says, and is false by the bits.
pub fn said_at<G: Groups>(
    alloc: Global,
    groups: &G,
    ledger: &Ledger,
    n: u32,
    bits: &[bool],
    group: u32,
    site: u32,
) -> Result<Line, Memory>
    requires group { group ≤ root (G.system groups.now) }
    requires site { site < length (callees (G.system groups.now) group) }
    requires denied { IsDenied ledger.now.lines (callee (G.system groups.now) group site).group (given_for (G.system groups.now) (phi_by (G.system groups.now) (bit_at bits.now)) (callee (G.system groups.now) group site) (sigma_by (G.system groups.now) group (bit_at bits.now) site)) n }
    ensures { IfOk result (IsSaidAt (G.system groups.now) (G.counting groups.now) ledger.now.lines group site bits.now) }
{
    let lits = carried_clause(alloc, groups, line_lits(ledger, n), group, site)?;
    Ok(Line {
        group,
        how: How::Inst(n, site),
        lits,
    })
}

/// Carries a line to a site of a group, by whose bits it is false; the line that would be next, where the words don't
/// suffice.
pub fn carry<G: Groups>(
    alloc: Global,
    groups: &G,
    ledger: &mut Ledger,
    n: u32,
    bits: &[bool],
    group: u32,
    site: u32,
) -> Result<Option<Line>, Memory>
    requires ledger { IsLedger (G.system groups.now) (G.counting groups.now) ledger.old }
    requires group { group ≤ root (G.system groups.now) }
    requires site { site < length (callees (G.system groups.now) group) }
    requires asker { IsAsker (G.system groups.now) (G.counting groups.now) ledger.old.lines (phi_by (G.system groups.now) (bit_at bits.now)) group bits.now }
    requires denied { IsDenied ledger.old.lines (callee (G.system groups.now) group site).group (given_for (G.system groups.now) (phi_by (G.system groups.now) (bit_at bits.now)) (callee (G.system groups.now) group site) (sigma_by (G.system groups.now) group (bit_at bits.now) site)) n }
    ensures { IfOk result (CarriedIs (G.system groups.now) (G.counting groups.now) ledger.old ledger.new) }
{
    local_lines_are_true();
    let line = said_at(alloc, groups, ledger, n, bits, group, site)?;
    add(alloc, groups, ledger, line)
}

/// Whether a clause speaks of fields alone.
pub fn is_of_fields(lits: &[Lit], fields: u32) -> bool
    ensures { MatchBool result (All (λ (l : Literal). l.var ≤ fields) lits.now) (HasOther fields lits.now) }
{
    for lit in lits {
        if lit.var().number() > fields {
            return false;
        }
    }
    true
}

/// The literals of a line.
fn line_lits(ledger: &Ledger, n: u32) -> &[Lit]
    requires { IsLine ledger.now.lines n }
    ensures line { IsLitsOf ledger.now.lines n result.now }
    ensures canonical { Ascends 0 result.now }
{
    ledger.lines()[n as usize - 1].lits.lits()
}
