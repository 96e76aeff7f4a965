ghost use Rattle.std.specs.Prelude.{◌≡◌, ◌<◌, ◌++◌, map, slice_get, Some, IfOk, MatchBool};
ghost use Rattle.conflict_proof.specs.declared.faults.Reason.TheVariants.{Range, Site, Broken};
ghost use Rattle.verdict_meaning.specs.Systems.{root};
ghost use Rattle.verdict_meaning.specs.Certificates.{bit_at, spots};
ghost use Rattle.verdict_meaning.specs.CertificateFaults.{HasFault, instance_line};
ghost use Rattle.cert_checker.specs.Places.{spot_at};
ghost use Rattle.cert_checker.specs.Tables.{AreStarts, IsFalseAmong, line_in};
ghost use Rattle.cert_checker.specs.Finding.{IsFirstBelow, IsCleanBelow, IsBrokenIn, IsLeftOut, IsTaken, earliest};

use crate::groups::Groups;
use crate::lines::is_below;
use crate::marks::{Marks, marks_of};
use crate::places::{Place, places_of};
use crate::runs::first_false;
use c_tree::Memory;
use own_cert::{Certificate, Instance};
use std::alloc::Global;

/// The first line before the bound up to which all unknowns of a false constraint stand. Up to there all shapes and sites are
/// right. From the bound on an instance has a word only on the unknowns of fields, which all of its group agree on, so one of
/// each group is enough.
pub(crate) fn first_broken<G: Groups>(
    alloc: Global,
    groups: &G,
    certificate: &Certificate,
    starts: &[u64],
    bound: Option<u64>,
) -> Result<Option<u64>, Memory>
    requires starts { AreStarts certificate.now.instances starts.now }
    requires shapes { IsCleanBelow bound (HasFault (G.system groups.now) (G.scope groups.now) certificate.now Range) }
    requires sites { IsCleanBelow bound (HasFault (G.system groups.now) (G.scope groups.now) certificate.now Site) }
    ensures { IfOk result (IsFirstBelow bound (HasFault (G.system groups.now) (G.scope groups.now) certificate.now Broken)) }
{
    let mut seen = vec![in alloc; false; groups.count() as usize]?;
    let mut found = None;
    let instances = certificate.instances.items.as_slice();
    for n in 0..instances.len() {
        let instance = &instances[n];
        let group = instance.group as usize;
        if is_left_out(&seen, group, is_below(bound, starts[n])) {
            continue;
        }
        seen[group] = true;
        let here = broken_in(alloc, groups, certificate, n, instance, starts[n], bound)?;
        found = earliest(found, here);
    }
    Ok(found)
}

/// The earlier of two lines.
fn earliest(one: Option<u64>, other: Option<u64>) -> Option<u64>
    ensures { result ≡ earliest one other }
{
    let Some(first) = one else {
        return other;
    };
    let Some(second) = other else {
        return one;
    };
    if first <= second { one } else { other }
}

/// Whether an instance says nothing new: there is no such group, or one of the group was seen and the instance is not before
/// the bound.
fn is_left_out(seen: &[bool], group: usize, below: bool) -> bool
    ensures { MatchBool result (IsLeftOut seen.now group below) (IsTaken seen.now group below) }
{
    if group >= seen.len() {
        return true;
    }
    if below {
        return false;
    }
    seen[group]
}

/// The same in one instance, place by place.
fn broken_in<G: Groups>(
    alloc: Global,
    groups: &G,
    certificate: &Certificate,
    n: usize,
    instance: &Instance,
    first: u64,
    bound: Option<u64>,
) -> Result<Option<u64>, Memory>
    requires there { slice_get certificate.now.instances n ≡ Some instance.now }
    requires group { instance.now.group < root (G.system groups.now) }
    requires first { first ≡ instance_line certificate.now.instances n }
    requires shapes { IsCleanBelow bound (HasFault (G.system groups.now) (G.scope groups.now) certificate.now Range) }
    requires sites { IsCleanBelow bound (HasFault (G.system groups.now) (G.scope groups.now) certificate.now Site) }
    ensures { IfOk result (IsFirstBelow bound (IsBrokenIn (G.system groups.now) (G.scope groups.now) certificate.now n)) }
{
    let places = places_of(alloc, groups, instance.group)?;
    let marks = marks_of(alloc, groups, certificate, n, instance, first, bound)?;
    let phi = certificate.phi.items.as_slice();
    false_in(alloc, groups, instance.group, &places, phi, &marks, bound)
}

/// Of the constraints of these places with a false clause the first line before the bound up to which all unknowns of one
/// stand. The clauses of one place are in memory at a time.
fn false_in<G: Groups>(
    alloc: Global,
    groups: &G,
    group: u32,
    places: &[Place],
    phi: &[bool],
    marks: &Marks,
    bound: Option<u64>,
) -> Result<Option<u64>, Memory>
    requires group { group < root (G.system groups.now) }
    requires places { map spot_at places.now ≡ spots (G.system groups.now) group }
    ensures { IfOk result (IsFirstBelow bound (IsFalseAmong (G.system groups.now) (G.scope groups.now) group (G.names groups.now group) (spots (G.system groups.now) group)
        (bit_at (phi.now ++ marks.now.bits.items)) (line_in marks.now.fields marks.now.lines.items marks.now.after))) }
{
    let mut found = None;
    for k in 0..places.len() {
        let place = places[k];
        let table = groups.clauses_at(alloc, group, place.proc, place.place)?;
        let line = first_false(&table, phi, marks, bound);
        found = earliest(found, line);
    }
    Ok(found)
}
