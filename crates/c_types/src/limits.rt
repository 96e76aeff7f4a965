//! What a source may have only so many of.

ghost use Rattle.std.specs.Prelude.{◌≡◌, ◌≤◌, [], ◌∷◌, length, map, take};
ghost use Rattle.c_types.specs.Items.{limit_on, pointer_count, pointer_params, limit_passed};
ghost use Rattle.c_types.specs.declared.error.LimitKind.TheVariants.{Fields, Params};

use crate::error::{LimitKind, TypeError};
use crate::infos::{ProcInfo, SlotInfo, StructInfo};

const MOST_STRUCTS: usize = 1024;

const MOST_FIELDS: usize = 64;

const MOST_PROCS: usize = 4096;

const MOST_PARAMS: usize = 8;

fn over(kind: LimitKind, most: usize, count: usize) -> Option<TypeError>
    ensures { result ≡ limit_on kind most (count ∷ []) }
{
    if count > most {
        Some(TypeError::Limit {
            kind,
            count: count as u64,
        })
    } else {
        None
    }
}

#[tactic(auto, using(crate::proofs::LimitRows::fields_at))]
fn fields_over(structs: &[StructInfo]) -> Option<TypeError>
    ensures { result ≡ limit_on Fields 64 (map (λ s. length s.members) structs.now) }
{
    for s in structs {
        let count = s.members.items.as_slice().len();
        if count > MOST_FIELDS {
            return Some(TypeError::Limit {
                kind: LimitKind::Fields,
                count: count as u64,
            });
        }
    }
    None
}

/// The first slots, so many of them.
fn front(slots: &[SlotInfo], count: usize) -> &[SlotInfo]
    ensures { result.now ≡ take count slots.now }
{
    if count < slots.len() {
        &slots[..count]
    } else {
        slots
    }
}

#[tactic(auto, using(crate::proofs::LimitRows::pointers_at))]
fn count_pointers(slots: &[SlotInfo]) -> usize
    ensures { result ≡ pointer_count slots.now }
{
    let mut count = 0;
    for v in slots {
        if v.kind.is_pointer() {
            count += 1;
        }
    }
    count
}

fn pointer_params(p: &ProcInfo) -> usize
    ensures { result ≡ pointer_params p.now }
{
    count_pointers(front(p.slots.items.as_slice(), p.params as usize))
}

#[tactic(auto, using(crate::proofs::LimitRows::params_at))]
fn params_over(procs: &[ProcInfo]) -> Option<TypeError>
    ensures { result ≡ limit_on Params 8 (map pointer_params procs.now) }
{
    for p in procs {
        let count = pointer_params(p);
        if count > MOST_PARAMS {
            return Some(TypeError::Limit {
                kind: LimitKind::Params,
                count: count as u64,
            });
        }
    }
    None
}

/// The first limit that is passed.
#[tactic(auto, unfolding(crate::specs::Items::limit_passed))]
pub(crate) fn limit_passed(structs: &[StructInfo], procs: &[ProcInfo]) -> Option<TypeError>
    ensures { result ≡ limit_passed structs.now procs.now }
{
    match over(LimitKind::Structs, MOST_STRUCTS, structs.len()) {
        Some(e) => Some(e),
        None => match fields_over(structs) {
            Some(e) => Some(e),
            None => match over(LimitKind::Procs, MOST_PROCS, procs.len()) {
                Some(e) => Some(e),
                None => params_over(procs),
            },
        },
    }
}
