//! Which slot each name of a body means, and which one it meant before.

ghost use Rattle.std.specs.Prelude.{◌≡◌, ◌<◌, ◌-◌, ℕ, Option, Some, None, [], ◌∷◌, ◌++◌, length, take, fold, nat_eq, slice_index_or, if◌then◌else◌, OnOk, OnErr};

use c_tree::Memory;
use std::alloc::Global;
use std::marker::Model;

/// A name that was given a slot.
#[derive(Clone, Copy)]
struct Meaning {
    /// The name's number.
    name: u32,
    slot: u32,
    /// The slot that the name meant before.
    before: Option<u32>,
}

/// Names by their numbers, each with the slot that it was given, in order. The last slot of a name
/// is found in constant time.
#[derive(Drop)]
pub(crate) struct Meanings {
    given: Vec<Meaning>,
    /// The last slot of each name, by the name's number.
    latest: Vec<Option<u32>>,
}

impl Model for Meanings {
    ghost use Rattle.std.specs.Prelude.{◌≡◌, ◌<◌, ℕ, List, Option, Some, None, length, map, take, fold, nat_eq, slice_index_or, if◌then◌else◌};
    ghost use Rattle.c_types.specs.declared.meanings.Meaning.{Meaning};

    ghost Value = { List (ℕ × ℕ) };

    ghost view = { λ m. map (λ g. (g.name, g.slot)) m.given.items };

    ghost invariant = { λ m.
        ((n : ℕ) → slice_index_or m.latest.items n None
        ≡ fold (λ (o : Option ℕ) (g : ℕ × ℕ). if nat_eq g.0 n then Some g.1 else o) None (map (λ g. (g.name, g.slot)) m.given.items))
        × ((k : ℕ) (d : Meaning) → k < length m.given.items
        → (slice_index_or m.given.items k d).before
        ≡ fold (λ (o : Option ℕ) (g : ℕ × ℕ). if nat_eq g.0 (slice_index_or m.given.items k d).name then Some g.1 else o) None (take k (map (λ g. (g.name, g.slot)) m.given.items))) };
}

/// Makes the row longer until it has that place.
fn reach(row: &mut Vec<Option<u32>>, place: u32) -> Result<(), Memory>
    ensures reached { OnOk result (place < length row.new.items) }
    ensures same { (n : ℕ) → slice_index_or row.new.items n None ≡ slice_index_or row.old.items n None }
{
    while row.as_slice().len() <= place as usize {
        row.push(None)?;
    }
    Ok(())
}

impl Meanings {
    pub fn new(alloc: Global) -> Self
        ensures { result ≡ [] }
    {
        Meanings {
            given: Vec::new(alloc),
            latest: Vec::new(alloc),
        }
    }

    pub fn len(&self) -> usize
        ensures { result ≡ length self.now }
    {
        self.given.as_slice().len()
    }

    /// The last slot that was given to the name.
    pub fn latest(&self, name: u32) -> Option<u32>
        ensures { result ≡ fold (λ (o : Option ℕ) (g : ℕ × ℕ). if nat_eq g.0 name then Some g.1 else o) None self.now }
    {
        match self.latest.get(name as usize) {
            Some(slot) => *slot,
            None => None,
        }
    }

    pub fn push(&mut self, name: u32, slot: u32) -> Result<(), Memory>
        ensures pushed { OnOk result (self.new ≡ self.old ++ (name, slot) ∷ []) }
        ensures kept { OnErr result (self.new ≡ self.old) }
    {
        reach(&mut self.latest, name)?;
        let before = self.latest[name as usize];
        self.given.push(Meaning { name, slot, before })?;
        self.latest[name as usize] = Some(slot);
        Ok(())
    }

    fn pop(&mut self)
        ensures { self.new ≡ take (length self.old - 1) self.old }
    {
        if let Some(last) = self.given.pop() {
            self.latest[last.name as usize] = last.before;
        }
    }

    /// Takes back all but the first ones.
    pub fn truncate(&mut self, kept: usize)
        ensures { self.new ≡ take kept self.old }
    {
        while kept < self.len() {
            self.pop();
        }
    }
}
