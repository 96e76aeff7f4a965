ghost use Rattle.std.specs.Prelude.{◌≡◌, ◌<◌, ◌+◌, IfOk, None, sum_by, MatchBool};
ghost use Rattle.std.specs.List.{Contains};
ghost use Rattle.conflict_proof.specs.declared.faults.Reason.TheVariants.{Range};
ghost use Rattle.verdict_meaning.specs.Systems.{root, members};
ghost use Rattle.verdict_meaning.specs.CertificateFaults.{HasFault};
ghost use Rattle.cert_checker.specs.Tables.{AreStarts};
ghost use Rattle.cert_checker.specs.Finding.{IsFirstBelow, ShapeFault, instance_of};

use crate::groups::Groups;
use crate::lines::sum;
use crate::places::{places_of, rows_fault};
use c_tree::Memory;
use own_cert::{Certificate, Instance, PlaceBits};
use std::alloc::Global;

/// The first line on which something has a wrong shape.
pub(crate) fn first_shape_fault<G: Groups>(
    alloc: Global,
    groups: &G,
    certificate: &Certificate,
    starts: &[u64],
) -> Result<Option<u64>, Memory>
    requires { AreStarts certificate.now.instances starts.now }
    ensures { IfOk result (IsFirstBelow None (HasFault (G.system groups.now) (G.scope groups.now) certificate.now Range)) }
{
    if certificate.phi.items.len() != groups.fields() as usize {
        return Ok(Some(2));
    }
    let instances = certificate.instances.items.as_slice();
    for n in 0..instances.len() {
        if let Some(offset) = shape_fault(alloc, groups, &instances[n])? {
            return Ok(Some(sum(starts[n], offset)?));
        }
    }
    Ok(None)
}

/// The same of one instance, by lines counted from its first.
fn shape_fault<G: Groups>(
    alloc: Global,
    groups: &G,
    instance: &Instance,
) -> Result<Option<u64>, Memory>
    ensures { IfOk result (IsFirstBelow None (ShapeFault (G.system groups.now) instance.now)) }
{
    parts_fault(
        alloc,
        groups,
        instance.group,
        instance.entry,
        &instance.iface.items,
        &instance.sites.items,
        &instance.places.items,
    )
}

/// The same, by the parts of the instance.
fn parts_fault<G: Groups>(
    alloc: Global,
    groups: &G,
    group: u32,
    entry: u32,
    iface: &[bool],
    sites: &[u32],
    rows: &[PlaceBits],
) -> Result<Option<u64>, Memory>
    ensures { IfOk result (IsFirstBelow None (ShapeFault (G.system groups.now) (instance_of group entry iface.now sites.now rows.now))) }
{
    if group >= groups.count() {
        return Ok(Some(0));
    }
    if !has_number(groups.members(group), entry) {
        return Ok(Some(0));
    }
    if iface.len() as u64 != face_len(groups, group)? {
        return Ok(Some(1));
    }
    if sites.len() != groups.callees(group).len() {
        return Ok(Some(2));
    }
    let due = places_of(alloc, groups, group)?;
    match rows_fault(groups, group, &due, rows) {
        Some(k) => Ok(Some(sum(k, 3)?)),
        None => Ok(None),
    }
}

/// Whether a number is among others.
pub(crate) fn has_number(numbers: &[u32], number: u32) -> bool
    ensures { MatchBool result (Contains numbers.now number) (Contains numbers.now number → ⊥) }
{
    for other in numbers {
        if *other == number {
            return true;
        }
    }
    false
}

/// How many parts the interfaces of all members of a group have.
fn face_len<G: Groups>(groups: &G, group: u32) -> Result<u64, Memory>
    requires { group < root (G.system groups.now) }
    ensures { IfOk result (λ n. n ≡ sum_by (G.system groups.now).parts (members (G.system groups.now) group)) }
{
    let mut len = 0;
    let members = groups.members(group);
    for proc in members {
        len = sum(len, u64::from(groups.face(group, *proc).count))?;
    }
    Ok(len)
}
