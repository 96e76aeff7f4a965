ghost use Rattle.std.specs.Prelude.{◌≡◌, ◌<◌, ◌++◌, length, map, replicate, slice_get, sum_by, Some, IfOk, OnOk};
ghost use Rattle.zo_core.specs.Truth.{clause_true};
ghost use Rattle.verdict_meaning.specs.Systems.{root, members, callees, callee_parts};
ghost use Rattle.verdict_meaning.specs.Certificates.{Spot, spots, bit_at};
ghost use Rattle.conflict_proof.specs.declared.faults.Reason.TheVariants.{Range, Site};
ghost use Rattle.verdict_meaning.specs.CertificateFaults.{HasFault, instance_line};
ghost use Rattle.cert_checker.specs.Finding.{IsCleanBelow, AreMarksOf};
ghost use Rattle.cert_checker.specs.Places.{spot_at};
ghost use Rattle.cert_checker.specs.Tables.{clause_line, line_in, place_lines, unknown_lines};

use crate::bits::bits_up_to;
use crate::groups::Groups;
use crate::lines::{is_below, sum};
use crate::places::{Place, places_of};
use c_tree::Memory;
use own_cert::{Certificate, Instance};
use std::alloc::Global;
use zo_core::Lit;

/// What an instance says of its group's unknowns, and the lines on which they stand. The unknowns of fields come first; their
/// bits are the same in all instances, and are lent to each call.
#[derive(Drop)]
pub(crate) struct Marks {
    /// The bits of the other unknowns, or of the first of them.
    pub bits: Vec<bool>,
    /// How many unknowns stand on line 2.
    pub fields: u32,
    /// The lines of the others.
    pub lines: Vec<u64>,
    /// The line after the last of them.
    pub after: u64,
}

impl Marks {
    /// The bit of an unknown.
    fn value(&self, phi: &[bool], var: u32) -> bool
        ensures { result ≡ bit_at (phi.now ++ self.now.bits.items) var }
    {
        if var == 0 {
            return false;
        }
        let k = var as usize - 1;
        if k < phi.len() {
            return phi[k];
        }
        let k = k - phi.len();
        if k < self.bits.len() {
            return self.bits[k];
        }
        false
    }

    /// The line of an unknown.
    fn line(&self, var: u32) -> u64
        ensures { result ≡ line_in self.now.fields self.now.lines.items self.now.after var }
    {
        if var <= self.fields {
            return 2;
        }
        let k = (var - self.fields) as usize - 1;
        if k < self.lines.len() {
            return self.lines[k];
        }
        self.after
    }

    /// Whether a clause is true.
    pub(crate) fn is_true(&self, phi: &[bool], lits: &[Lit]) -> bool
        ensures { result ≡ clause_true (bit_at (phi.now ++ self.now.bits.items)) lits.now }
    {
        for lit in lits {
            if self.value(phi, lit.var().number()) == lit.sign() {
                return true;
            }
        }
        false
    }

    /// The greatest line of the unknowns of a clause.
    pub(crate) fn last_line(&self, lits: &[Lit]) -> u64
        ensures { result ≡ clause_line (line_in self.now.fields self.now.lines.items self.now.after) lits.now }
    {
        let mut last = 0;
        for lit in lits {
            last = self.line(lit.var().number()).max(last);
        }
        last
    }
}

/// What can be read before the bound of an instance: its bits up to the sites, or all where the sites stand before the bound.
pub(crate) fn marks_of<G: Groups>(
    alloc: Global,
    groups: &G,
    certificate: &Certificate,
    n: usize,
    instance: &Instance,
    first: u64,
    bound: Option<u64>,
) -> Result<Marks, Memory>
    requires there { slice_get certificate.now.instances n ≡ Some instance.now }
    requires group { instance.now.group < root (G.system groups.now) }
    requires first { first ≡ instance_line certificate.now.instances n }
    requires shapes { IsCleanBelow bound (HasFault (G.system groups.now) (G.scope groups.now) certificate.now Range) }
    requires sites { IsCleanBelow bound (HasFault (G.system groups.now) (G.scope groups.now) certificate.now Site) }
    ensures { IfOk result (λ m. AreMarksOf (G.system groups.now) certificate.now n instance.now bound
        (bit_at (certificate.now.phi ++ m.bits.items)) (line_in m.fields m.lines.items m.after)) }
{
    let places = places_of(alloc, groups, instance.group)?;
    let after = sum(sum(first, 3)?, places.len() as u64)?;
    let whole = is_below(bound, sum(first, 2)?);
    let lines = unknown_lines(alloc, groups, instance.group, first, &places)?;
    let fields = groups.fields();
    let bits = bits_up_to(alloc, groups, &certificate.instances.items, instance, whole)?;
    Ok(Marks {
        bits,
        fields,
        lines,
        after,
    })
}

/// The lines of all unknowns of an instance but those of fields, where its first line is this one, by the places of its group.
pub(crate) fn unknown_lines<G: Groups>(
    alloc: Global,
    groups: &G,
    group: u32,
    first: u64,
    places: &[Place],
) -> Result<Vec<u64>, Memory>
    requires group { group < root (G.system groups.now) }
    requires places { map spot_at places.now ≡ spots (G.system groups.now) group }
    ensures { IfOk result (λ ls. ls.items ≡ unknown_lines (G.system groups.now) group first (spots (G.system groups.now) group)) }
{
    let mut lines = Vec::new(alloc);
    push_face_lines(&mut lines, groups, group, sum(first, 1)?)?;
    push_site_lines(&mut lines, groups, group, sum(first, 2)?)?;
    push_place_lines(&mut lines, groups, group, sum(first, 3)?, places)?;
    Ok(lines)
}

/// Adds the line of the interface for each part of it.
fn push_face_lines<G: Groups>(
    lines: &mut Vec<u64>,
    groups: &G,
    group: u32,
    line: u64,
) -> Result<(), Memory>
    requires { group < root (G.system groups.now) }
    ensures { OnOk result (lines.new.items ≡ lines.old.items ++ replicate (sum_by (G.system groups.now).parts (members (G.system groups.now) group)) line) }
{
    let members = groups.members(group);
    for proc in members {
        push_copies(lines, line, groups.face(group, *proc).count)?;
    }
    Ok(())
}

/// Adds the line of the sites for each part of the interfaces that are called there.
fn push_site_lines<G: Groups>(
    lines: &mut Vec<u64>,
    groups: &G,
    group: u32,
    line: u64,
) -> Result<(), Memory>
    requires { group < root (G.system groups.now) }
    ensures { OnOk result (lines.new.items ≡ lines.old.items ++ replicate (sum_by (callee_parts (G.system groups.now)) (callees (G.system groups.now) group)) line) }
{
    let count = groups.callees(group).len();
    for site in 0..count {
        push_copies(lines, line, groups.site_parts(group, site))?;
    }
    Ok(())
}

/// Adds the line of each place for each of its unknowns, where that of the first is this one.
fn push_place_lines<G: Groups>(
    lines: &mut Vec<u64>,
    groups: &G,
    group: u32,
    first: u64,
    places: &[Place],
) -> Result<(), Memory>
    requires group { group < root (G.system groups.now) }
    requires places { map spot_at places.now ≡ spots (G.system groups.now) group }
    ensures { OnOk result (lines.new.items ≡ lines.old.items ++ place_lines (λ (p : Spot). (G.system groups.now).width p.proc) first (spots (G.system groups.now) group)) }
{
    for k in 0..places.len() {
        let line = sum(first, k as u64)?;
        push_copies(lines, line, groups.width(group, places[k].proc))?;
    }
    Ok(())
}

/// Adds a line so many times.
fn push_copies(lines: &mut Vec<u64>, line: u64, count: u32) -> Result<(), Memory>
    ensures { OnOk result (lines.new.items ≡ lines.old.items ++ replicate count line) }
{
    for copy in 0..count {
        lines.push(line)?;
    }
    Ok(())
}
