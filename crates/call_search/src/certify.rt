//! The certificate that a solution makes.

ghost use Rattle.std.specs.Prelude.{◌≡◌, ◌<◌, ◌≤◌, ◌+◌, ◌*◌, ◌++◌, ◌∷◌, ℕ, Bool, IfOk, OnOk, length, take, drop, map, sum_by};
ghost use Rattle.std.specs.List.{range_with_len};
ghost use Rattle.verdict_meaning.specs.Systems.{root, members, callee, callees, callee_parts, count};
ghost use Rattle.verdict_meaning.specs.Solutions.{phi_by};
ghost use Rattle.verdict_meaning.specs.Certificates.{bit_at};
ghost use Rattle.call_search.specs.Shapes.{IsThere};
ghost use Rattle.call_search.specs.Entries.{in_group, IsSized, AreSized, AllAnswered, IsAnswered};
ghost use Rattle.call_search.specs.Made.{all_of, before_group, AreBases, IsNumberOf, AreSiteNumbers, row_at, rows_from, IsMadeOf, AreMadeOf, IsMade, IsComplete};

use crate::entries::{Entries, Entry, asked_face, find, listed};
use crate::given::copied;
use crate::groups::Shapes;
use c_tree::Memory;
use own_cert::{Bits, Certificate, Instance, Instances, Numbers, PlaceBits, Rows};
use std::alloc::Global;
use verdict_meaning::Callee;

/// A number with more added to it. A sum that has no number is want of memory: so many instances have no room.
fn added(n: u32, more: usize) -> Result<u32, Memory>
    ensures { IfOk result (λ m. m ≡ n + more) }
{
    if more > (u32::MAX - n) as usize {
        return Err(Memory);
    }
    Ok(n + more as u32)
}

/// How many instances there are before those of each group.
fn bases(alloc: Global, table: &Vec<Entries>) -> Result<Vec<u32>, Memory>
    ensures { IfOk result (λ v. AreBases table.now.items v.items (length table.now.items)) }
{
    let mut out = Vec::new(alloc);
    let mut before = 0;
    for entries in table.as_slice() {
        out.push(before)?;
        before = added(before, entries.items.len())?;
    }
    Ok(out)
}

/// The number of the instance of a procedure with an interface, which is there.
fn number_of<G: Shapes>(
    groups: &G,
    table: &Vec<Entries>,
    bases: &[u32],
    callee: Callee,
    face: &[bool],
) -> Result<u32, Memory>
    requires group { callee.group < length table.now.items }
    requires bases { AreBases table.now.items bases.now (length table.now.items) }
    requires sized { AreSized (G.system groups.now) table.now.items }
    requires answered { IsAnswered (G.system groups.now) (in_group table.now.items callee.group) callee face.now }
    ensures { IfOk result (IsNumberOf (G.system groups.now) table.now.items callee face.now) }
{
    match find(groups, listed(table, callee.group), callee, face) {
        Some(at) => added(bases[callee.group as usize], at),
        None => Err(Memory),
    }
}

/// The numbers of the instances for which a group's sites ask by its bits.
fn sites_of<G: Shapes>(
    alloc: Global,
    groups: &G,
    table: &Vec<Entries>,
    bases: &[u32],
    bits: &[bool],
    group: u32,
) -> Result<Vec<u32>, Memory>
    requires group { group ≤ root (G.system groups.now) }
    requires size { length bits.now ≡ count (G.system groups.now) group }
    requires table { length table.now.items ≡ root (G.system groups.now) }
    requires bases { AreBases table.now.items bases.now (length table.now.items) }
    requires sized { AreSized (G.system groups.now) table.now.items }
    requires answered { AllAnswered (G.system groups.now) table.now.items group bits.now }
    ensures { IfOk result (λ v. AreSiteNumbers (G.system groups.now) table.now.items group bits.now v.items (length (callees (G.system groups.now) group))) }
{
    let mut out = Vec::new(alloc);
    for site in 0..groups.sites(group) {
        let callee = groups.callee(group, site);
        let face = asked_face(groups, bits, group, site);
        out.push(number_of(groups, table, bases, callee, face)?)?;
    }
    Ok(out)
}

/// Adds the bits at the places of a procedure, which begin at a bit.
fn push_rows(
    alloc: Global,
    out: &mut Vec<PlaceBits>,
    bits: &[bool],
    from: usize,
    proc: u32,
    places: u32,
    width: u32,
) -> Result<(), Memory>
    requires { from + places * width ≤ length bits.now }
    ensures { OnOk result (out.new.items ≡ out.old.items ++ map (row_at bits.now from width proc) (range_with_len 0 places)) }
{
    let mut first = from;
    for place in 0..places {
        let next = first + width as usize;
        let items = copied(alloc, &bits[first..next])?;
        out.push(PlaceBits {
            proc,
            place,
            bits: Bits { items },
        })?;
        first = next;
    }
    Ok(())
}

/// The bits at the places of a group's members, which begin at a bit.
fn rows_of<G: Shapes>(
    alloc: Global,
    groups: &G,
    bits: &[bool],
    from: usize,
    group: u32,
) -> Result<Vec<PlaceBits>, Memory>
    requires group { group < root (G.system groups.now) }
    requires size { length bits.now ≡ count (G.system groups.now) group }
    requires from { from ≡ (G.system groups.now).fields + sum_by (G.system groups.now).parts (members (G.system groups.now) group) + sum_by (callee_parts (G.system groups.now)) (callees (G.system groups.now) group) }
    ensures { IfOk result (λ v. v.items ≡ rows_from (G.system groups.now) bits.now from (members (G.system groups.now) group)) }
{
    let mut out = Vec::new(alloc);
    let mut first = from;
    for proc in groups.members(group) {
        let of = Callee { proc: *proc, group };
        let places = groups.places(of);
        let width = groups.width(of);
        push_rows(alloc, &mut out, bits, first, *proc, places, width)?;
        first += places as usize * width as usize;
    }
    Ok(out)
}

/// The instance of a certificate that an instance of the table makes.
fn instance_of<G: Shapes>(
    alloc: Global,
    groups: &G,
    table: &Vec<Entries>,
    bases: &[u32],
    entry: &Entry,
) -> Result<Instance, Memory>
    requires entry { IsSized (G.system groups.now) entry.now }
    requires table { length table.now.items ≡ root (G.system groups.now) }
    requires bases { AreBases table.now.items bases.now (length table.now.items) }
    requires sized { AreSized (G.system groups.now) table.now.items }
    requires answered { AllAnswered (G.system groups.now) table.now.items entry.now.group entry.now.bits }
    ensures { IfOk result (IsMadeOf (G.system groups.now) table.now.items entry.now) }
{
    let group = entry.group;
    let proc = entry.proc;
    let bits = entry.bits.items.as_slice();
    let fields = groups.fields() as usize;
    let own = fields + groups.own_parts(group) as usize;
    let places = own + groups.site_parts(group) as usize;
    let iface = copied(alloc, &bits[fields..own])?;
    let sites = sites_of(alloc, groups, table, bases, bits, group)?;
    let rows = rows_of(alloc, groups, bits, places, group)?;
    Ok(Instance {
        group,
        entry: proc,
        iface: Bits { items: iface },
        sites: Numbers { items: sites },
        places: Rows { items: rows },
    })
}

/// Adds the instances that those of a group make.
fn push_group<G: Shapes>(
    alloc: Global,
    out: &mut Vec<Instance>,
    groups: &G,
    table: &Vec<Entries>,
    bases: &[u32],
    group: u32,
) -> Result<(), Memory>
    requires group { group < length table.now.items }
    requires table { length table.now.items ≡ root (G.system groups.now) }
    requires bases { AreBases table.now.items bases.now (length table.now.items) }
    requires complete { IsComplete (G.system groups.now) table.now.items }
    requires made { AreMadeOf (G.system groups.now) table.now.items (all_of (take group table.now.items)) out.old.items }
    ensures { OnOk result (AreMadeOf (G.system groups.now) table.now.items (all_of (take (group + 1) table.now.items)) out.new.items) }
{
    for entry in listed(table, group) {
        out.push(instance_of(alloc, groups, table, bases, entry)?)?;
    }
    Ok(())
}

/// The instances that those of a table make, group by group.
fn instances_of<G: Shapes>(
    alloc: Global,
    groups: &G,
    table: &Vec<Entries>,
) -> Result<Vec<Instance>, Memory>
    requires table { length table.now.items ≡ root (G.system groups.now) }
    requires complete { IsComplete (G.system groups.now) table.now.items }
    ensures { IfOk result (λ v. AreMadeOf (G.system groups.now) table.now.items (all_of table.now.items) v.items) }
{
    let bases = bases(alloc, table)?;
    let mut out = Vec::new(alloc);
    for group in 0..groups.root() {
        push_group(alloc, &mut out, groups, table, &bases, group)?;
    }
    Ok(out)
}

/// The certificate that a solution makes: its instances stand group by group.
pub fn certificate<G: Shapes>(
    alloc: Global,
    groups: &G,
    top: &[bool],
    table: &Vec<Entries>,
) -> Result<Certificate, Memory>
    requires top { length top.now ≡ count (G.system groups.now) (root (G.system groups.now)) }
    requires table { length table.now.items ≡ root (G.system groups.now) }
    requires complete { IsComplete (G.system groups.now) table.now.items }
    ensures { IfOk result (IsMade (G.system groups.now) top.now table.now.items) }
{
    let phi = copied(alloc, &top[..groups.fields() as usize])?;
    let instances = instances_of(alloc, groups, table)?;
    Ok(Certificate {
        phi: Bits { items: phi },
        instances: Instances { items: instances },
    })
}
