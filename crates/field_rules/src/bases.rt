ghost use Rattle.std.specs.Prelude.{◌≡◌, ℕ, ◌<◌, ◌≤◌, ◌++◌, [], ◌∷◌, nat_eq, length, slice_index_or, IfOk, OnOk};
ghost use Rattle.std.specs.List.{flat_map};
ghost use Rattle.field_rules.specs.Lists.{when};
ghost use Rattle.field_rules.specs.Sight.{PlaceExists};
ghost use Rattle.field_rules.specs.Lines.{base_at, bases_at, later};

use crate::view::View;
use c_tree::Memory;
use std::alloc::Global;
use std::marker::Model;

/// Slots, which contracts see as a list.
#[derive(Drop)]
pub(crate) struct Slots {
    pub items: Vec<u32>,
}

impl Model for Slots {
    ghost use Rattle.std.specs.Prelude.{List, ℕ};

    ghost Value = { List ℕ };

    ghost view = { λ s. s.items.items };
}

/// For each struct the slots that point to it and are not Fresh, in order. Structs after the last that has some are left out.
pub(crate) fn bases<V: View>(alloc: Global, view: &V, place: u32) -> Result<Vec<Slots>, Memory>
    requires { PlaceExists (V.sight view.now) place }
    ensures { IfOk result (λ ls. (s : ℕ) → slice_index_or ls.items s [] ≡ bases_at (V.sight view.now) place s) }
{
    let mut lists = Vec::new(alloc);
    let pointers = view.pointers();
    for z in pointers {
        add_base(alloc, &mut lists, view, place, *z)?;
    }
    Ok(lists)
}

/// Adds a slot to those of its struct, where it is not Fresh.
fn add_base<V: View>(
    alloc: Global,
    lists: &mut Vec<Slots>,
    view: &V,
    place: u32,
    z: u32,
) -> Result<(), Memory>
    requires place { PlaceExists (V.sight view.now) place }
    requires slot { z < (V.sight view.now).slots }
    ensures { OnOk result ((s : ℕ) → slice_index_or lists.new.items s []
        ≡ slice_index_or lists.old.items s [] ++ base_at (V.sight view.now) place s z) }
{
    if view.fresh(place, z) {
        return Ok(());
    }
    let Some(structure) = view.structure(z) else {
        return Ok(());
    };
    grow(alloc, lists, structure as usize + 1)?;
    add(lists, structure as usize, z)
}

/// Adds a slot to one of the lists.
fn add(lists: &mut Vec<Slots>, index: usize, z: u32) -> Result<(), Memory>
    requires { index < length lists.now.items }
    ensures { OnOk result ((s : ℕ) → slice_index_or lists.new.items s []
        ≡ slice_index_or lists.old.items s [] ++ when (nat_eq index s) (z ∷ [])) }
{
    lists[index].items.push(z)?;
    Ok(())
}

/// Adds empty lists until there are so many.
#[tactic(auto, using(crate::proofs::Pointers::push_empty))]
fn grow(alloc: Global, lists: &mut Vec<Slots>, count: usize) -> Result<(), Memory>
    ensures long { OnOk result (count ≤ length lists.new.items) }
    ensures same { OnOk result ((s : ℕ) → slice_index_or lists.new.items s [] ≡ slice_index_or lists.old.items s []) }
{
    for n in lists.len()..count {
        let _ = n;
        lists.push(Slots {
            items: Vec::new(alloc),
        })?;
    }
    Ok(())
}

/// The slots of a struct.
pub(crate) fn slots_of(lists: &[Slots], structure: u32) -> &[u32]
    ensures { result.now ≡ slice_index_or lists.now structure [] }
{
    if structure as usize >= lists.len() {
        return &[];
    }
    let slots = &lists[structure as usize];
    slots.items.as_slice()
}

/// Those of these slots that come after one.
pub(crate) fn after(alloc: Global, slots: &[u32], y: u32) -> Result<Vec<u32>, Memory>
    ensures { IfOk result (λ zs. zs.items ≡ flat_map (later y) slots.now) }
{
    let mut out = Vec::new(alloc);
    for z in slots {
        if y < *z {
            out.push(*z)?;
        }
    }
    Ok(out)
}
