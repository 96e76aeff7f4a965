ghost use Rattle.std.specs.Prelude.{◌≡◌, ◌<◌, ◌++◌, Bool, length, take, drop, slice_get, Some, IfOk, OnOk, IsTrue};
ghost use Rattle.std.specs.List.{Contains};
ghost use Rattle.verdict_meaning.specs.Systems.{root, members, callees};
ghost use Rattle.verdict_meaning.specs.Certificates.{face_of, site_bits, bits_at_places};
ghost use Rattle.cert_checker.specs.Tables.{AllEnter, bits_up_to};

use crate::groups::{Face, Groups};
use c_tree::Memory;
use own_cert::{Instance, PlaceBits};
use std::alloc::Global;

/// The bits of an instance besides those of fields: all of them, or those of its interface alone.
pub(crate) fn bits_up_to<G: Groups>(
    alloc: Global,
    groups: &G,
    instances: &[Instance],
    instance: &Instance,
    whole: bool,
) -> Result<Vec<bool>, Memory>
    requires group { instance.now.group < root (G.system groups.now) }
    requires enter { IsTrue whole → AllEnter (G.system groups.now) instances.now instance.now }
    ensures { IfOk result (λ bs. bs.items ≡ bits_up_to whole (G.system groups.now) instances.now instance.now) }
{
    let mut bits = instance.iface.items.as_slice().to_vec(alloc)?;
    if whole {
        push_site_bits(&mut bits, groups, instances, instance)?;
        push_place_bits(&mut bits, &instance.places.items)?;
    }
    Ok(bits)
}

/// Adds the interfaces of the instances that the sites name.
fn push_site_bits<G: Groups>(
    bits: &mut Vec<bool>,
    groups: &G,
    instances: &[Instance],
    instance: &Instance,
) -> Result<(), Memory>
    requires { AllEnter (G.system groups.now) instances.now instance.now }
    ensures { OnOk result (bits.new.items
        ≡ bits.old.items ++ site_bits (G.system groups.now) instances.now (callees (G.system groups.now) instance.now.group) instance.now.sites) }
{
    for number in &instance.sites.items {
        let called = &instances[*number as usize];
        bits.extend_from_slice(entry_bits(groups, called))?;
    }
    Ok(())
}

/// The interface with which an instance is entered.
pub(crate) fn entry_bits<'a, G: Groups>(groups: &G, instance: &'a Instance) -> &'a [bool]
    requires group { instance.now.group < root (G.system groups.now) }
    requires entry { Contains (members (G.system groups.now) instance.now.group) instance.now.entry }
    ensures { result.now ≡ face_of (G.system groups.now) instance.now instance.now.entry }
{
    let face = groups.face(instance.group, instance.entry);
    part(&instance.iface.items, face)
}

/// The bits of an interface, among those of all members.
fn part(bits: &[bool], face: Face) -> &[bool]
    ensures { result.now ≡ take face.count (drop face.start bits.now) }
{
    let from = (face.start as usize).min(bits.len());
    let rest = &bits[from..];
    let count = (face.count as usize).min(rest.len());
    &rest[..count]
}

/// Adds the bits of all places.
fn push_place_bits(bits: &mut Vec<bool>, rows: &[PlaceBits]) -> Result<(), Memory>
    ensures { OnOk result (bits.new.items ≡ bits.old.items ++ bits_at_places rows.now) }
{
    for row in rows {
        bits.extend_from_slice(&row.bits.items)?;
    }
    Ok(())
}
