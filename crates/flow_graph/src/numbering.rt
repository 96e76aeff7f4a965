ghost use Rattle.std.specs.Prelude.{◌≡◌, ◌++◌, slice_index_or, OnOk, IfOk};
ghost use Rattle.flow_graph.specs.Numbers.{keys_of_place, place_keys, type_code, temp_key, keys_of_slot, slots_in, temp_keys, named_slots, slot_number, place_number, count_number, action_number, edge_number, edge_rows};

use crate::keys::below;
use crate::raw::{RawAction, RawEdge, Slot};
use c_tree::{Memory, Place};
use c_types::SlotType;
use std::alloc::Global;
use std::marker::Model;

/// The numbers of slots, places and strings in one procedure.
#[derive(Drop)]
pub(crate) struct Numbering {
    /// How many slots there are before the temporaries; the result's is the last of them.
    pub vars: u32,
    /// How many types there are.
    pub types: usize,
    /// The keys of the temporaries, ascending and each once.
    pub temps: Vec<usize>,
    /// The number among the places of nodes, by key.
    pub places: Vec<u32>,
    pub end: u32,
    pub exit: u32,
    /// For each node how many strings stand before it.
    pub texts: Vec<u32>,
}

impl Model for Numbering {
    ghost use Rattle.std.specs.Prelude.{◌≡◌};
    ghost use Rattle.flow_graph.specs.Numbers.{Numbering as Plain, sorted};

    ghost Value = { Plain };

    ghost view = { λ n. record {
      vars = n.vars;
      types = n.types;
      temps = n.temps.items;
      places = n.places.items;
      end = n.end;
      exit = n.exit;
      texts = n.texts.items;
    } };

    ghost invariant = { λ n. sorted n.temps.items ≡ n.temps.items };
}

/// Appends the key of a place, where it is one of a node.
fn push_place(p: Place, keys: &mut Vec<usize>) -> Result<(), Memory>
    ensures { OnOk result (keys.new.items ≡ keys.old.items ++ keys_of_place p) }
{
    match p {
        Place::At(n, j) => keys.push(4 * n as usize + j as usize)?,
        Place::In | Place::End | Place::Out => {}
    }
    Ok(())
}

/// The keys of the places of nodes at which edges start or end.
#[tactic(auto, using(crate::proofs::KeyRows::place_keys_at))]
pub(crate) fn place_keys(alloc: Global, edges: &[RawEdge]) -> Result<Vec<usize>, Memory>
    ensures { IfOk result (λ ks. ks.items ≡ place_keys edges.now) }
{
    let mut keys = Vec::new(alloc);
    for e in edges {
        push_place(e.from, &mut keys)?;
        push_place(e.to, &mut keys)?;
    }
    Ok(keys)
}

fn type_code(kind: SlotType) -> usize
    ensures { result ≡ type_code kind }
{
    match kind {
        SlotType::Int => 0,
        SlotType::Char => 1,
        SlotType::IntPtr => 2,
        SlotType::CharPtr => 3,
        SlotType::StructPtr(number) => 4 + number as usize,
    }
}

/// The key of a temporary; want of memory where it is over the range.
fn temp_key(types: usize, k: u32, kind: SlotType) -> Result<usize, Memory>
    ensures { IfOk result (λ key. key ≡ temp_key types k kind) }
{
    let Some(first) = (k as usize).checked_mul(types) else {
        return Err(Memory);
    };
    match first.checked_add(type_code(kind)) {
        Some(key) => Ok(key),
        None => Err(Memory),
    }
}

/// Appends the key of a slot, where it is a temporary.
fn push_slot(types: usize, x: Slot, keys: &mut Vec<usize>) -> Result<(), Memory>
    ensures { OnOk result (keys.new.items ≡ keys.old.items ++ keys_of_slot types x) }
{
    match x {
        Slot::Temp(k, kind) => {
            let key = temp_key(types, k, kind)?;
            keys.push(key)?;
        }
        Slot::Var(_) | Slot::Ret => {}
    }
    Ok(())
}

/// Appends the slots that an action names.
fn push_slots(action: &RawAction, out: &mut Vec<Slot>) -> Result<(), Memory>
    ensures { OnOk result (out.new.items ≡ out.old.items ++ slots_in action.now) }
{
    match action {
        RawAction::Skip => {}
        RawAction::Set(x, _)
        | RawAction::Unset(x)
        | RawAction::Null(x)
        | RawAction::Text(x, _)
        | RawAction::Free(x)
        | RawAction::IsNull(x)
        | RawAction::NotNull(x)
        | RawAction::FieldNull(x, _)
        | RawAction::FieldSet(x, _)
        | RawAction::NonZero(x)
        | RawAction::Zero(x)
        | RawAction::New(x, _, _, None) => out.extend_from_slice(&[*x])?,
        RawAction::Move(x, y)
        | RawAction::Copy(x, y)
        | RawAction::Neg(x, y)
        | RawAction::Get(x, y, _)
        | RawAction::Load(x, y, _)
        | RawAction::Store(x, _, y)
        | RawAction::Put(x, _, y)
        | RawAction::Equal(x, y)
        | RawAction::Differ(x, y)
        | RawAction::New(x, _, _, Some(y)) => out.extend_from_slice(&[*x, *y])?,
        RawAction::Arith(x, _, y, z) | RawAction::At(x, y, z) | RawAction::PutAt(x, y, z) => {
            out.extend_from_slice(&[*x, *y, *z])?
        }
        RawAction::Call(None, _, slots) => out.extend_from_slice(slots.items.as_slice())?,
        RawAction::Call(Some(x), _, slots) => {
            out.extend_from_slice(&[*x])?;
            out.extend_from_slice(slots.items.as_slice())?
        }
    }
    Ok(())
}

/// The slots that edges name.
#[tactic(auto, using(crate::proofs::KeyRows::named_slots_at))]
fn named_slots(alloc: Global, edges: &[RawEdge]) -> Result<Vec<Slot>, Memory>
    ensures { IfOk result (λ xs. xs.items ≡ named_slots edges.now) }
{
    let mut slots = Vec::new(alloc);
    for e in edges {
        push_slots(&e.action, &mut slots)?;
    }
    Ok(slots)
}

/// The keys of the temporaries that edges name.
#[tactic(auto, using(crate::proofs::KeyRows::slot_keys_at))]
pub(crate) fn temp_keys(
    alloc: Global,
    types: usize,
    edges: &[RawEdge],
) -> Result<Vec<usize>, Memory>
    ensures { IfOk result (λ ks. ks.items ≡ temp_keys types edges.now) }
{
    let slots = named_slots(alloc, edges)?;
    let mut keys = Vec::new(alloc);
    for x in &slots {
        push_slot(types, *x, &mut keys)?;
    }
    Ok(keys)
}

pub(crate) fn small(number: usize) -> Result<u32, Memory>
    ensures { IfOk result (λ n. n ≡ number) }
{
    match u32::try_from(number) {
        Ok(number) => Ok(number),
        Err(_) => Err(Memory),
    }
}

/// The number in a table; 0 past its end.
pub(crate) fn number_at(table: &[u32], key: usize) -> u32
    ensures { result ≡ slice_index_or table.now key 0 }
{
    match table.get(key) {
        Some(number) => *number,
        None => 0,
    }
}

pub(crate) fn slot_number(ns: &Numbering, x: Slot) -> Result<u32, Memory>
    ensures { IfOk result (λ k. k ≡ slot_number ns.now x) }
{
    match x {
        Slot::Var(number) => Ok(number),
        Slot::Ret => Ok(ns.vars.saturating_sub(1)),
        Slot::Temp(k, kind) => {
            let key = temp_key(ns.types, k, kind)?;
            let lower = small(below(ns.temps.as_slice(), key))?;
            match ns.vars.checked_add(lower) {
                Some(number) => Ok(number),
                None => Err(Memory),
            }
        }
    }
}

pub(crate) fn place_number(ns: &Numbering, p: Place) -> Result<u32, Memory>
    ensures { IfOk result (λ k. k ≡ place_number ns.now p) }
{
    match p {
        Place::In => Ok(0),
        Place::At(n, j) => {
            let places = ns.places.as_slice();
            match number_at(places, 4 * n as usize + j as usize).checked_add(1) {
                Some(number) => Ok(number),
                None => Err(Memory),
            }
        }
        Place::End => Ok(ns.end),
        Place::Out => Ok(ns.exit),
    }
}
