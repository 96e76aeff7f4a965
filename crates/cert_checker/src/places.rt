ghost use Rattle.std.specs.Prelude.{◌≡◌, ◌<◌, ◌++◌, length, map, IfOk, OnOk, None, MatchBool};
ghost use Rattle.std.specs.List.{Contains};
ghost use Rattle.verdict_meaning.specs.Systems.{root, members};
ghost use Rattle.verdict_meaning.specs.Certificates.{spots};
ghost use Rattle.cert_checker.specs.Places.{spot_at, spots_from};
ghost use Rattle.cert_checker.specs.Finding.{IsFirstBelow, IsWrongRow, RowsFault};

use crate::groups::Groups;
use c_tree::Memory;
use own_cert::PlaceBits;
use std::alloc::Global;

/// A place of a procedure.
#[derive(Clone, Copy, PartialEq, Eq)]
pub(crate) struct Place {
    pub proc: u32,
    pub place: u32,
}

/// The places of a group: member by member, in order.
pub(crate) fn places_of<G: Groups>(
    alloc: Global,
    groups: &G,
    group: u32,
) -> Result<Vec<Place>, Memory>
    requires { group < root (G.system groups.now) }
    ensures { IfOk result (λ ps. map spot_at ps.items ≡ spots (G.system groups.now) group) }
{
    let mut places = Vec::new(alloc);
    let members = groups.members(group);
    for proc in members {
        push_places(&mut places, *proc, groups.places(group, *proc))?;
    }
    Ok(places)
}

/// Adds so many places of a procedure.
fn push_places(places: &mut Vec<Place>, proc: u32, count: u32) -> Result<(), Memory>
    ensures { OnOk result (map spot_at places.new.items ≡ map spot_at places.old.items ++ spots_from proc count) }
{
    for place in 0..count {
        places.push(Place { proc, place })?;
    }
    Ok(())
}

/// The first row that is not the one due or has a wrong number of bits, or the number after the last where rows are missing.
pub(crate) fn rows_fault<G: Groups>(
    groups: &G,
    group: u32,
    due: &[Place],
    rows: &[PlaceBits],
) -> Option<u64>
    requires group { group < root (G.system groups.now) }
    requires due { map spot_at due.now ≡ spots (G.system groups.now) group }
    ensures { IsFirstBelow None (RowsFault (G.system groups.now) group rows.now) result }
{
    for k in 0..rows.len() {
        if !is_due(groups, group, due, rows, k) {
            return Some(k as u64);
        }
    }
    if rows.len() < due.len() {
        return Some(rows.len() as u64);
    }
    None
}

/// Whether the row after the first `k` is that of the place due, with the bits that such a place has.
fn is_due<G: Groups>(groups: &G, group: u32, due: &[Place], rows: &[PlaceBits], k: usize) -> bool
    requires group { group < root (G.system groups.now) }
    requires due { map spot_at due.now ≡ spots (G.system groups.now) group }
    requires within { k < length rows.now }
    ensures { MatchBool result (IsWrongRow (G.system groups.now) group rows.now k → ⊥) (IsWrongRow (G.system groups.now) group rows.now k) }
{
    let row = &rows[k];
    if k >= due.len() {
        return false;
    }
    let place = due[k];
    if place.proc != row.proc {
        return false;
    }
    if place.place != row.place {
        return false;
    }
    row.bits.items.len() == groups.width(group, place.proc) as usize
}
