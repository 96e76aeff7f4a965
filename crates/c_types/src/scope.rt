ghost use Rattle.std.specs.Prelude.{◌≡◌, ◌≤◌, [], ◌∷◌, ◌++◌, IfOk, OnOk, OnErr, length, take};
ghost use Rattle.c_types.specs.Scopes.{no_scope, slot_in, kind_in, with_slot, declared, entered, breaks_5};

use crate::infos::{SlotInfo, SlotInfos};
use crate::kinds::SlotType;
use crate::meanings::Meanings;
use crate::names::{Names, copy_of, number_of};
use c_tree::{Memory, Name, Span};
use std::alloc::Global;
use std::marker::Model;

/// Numbers of slots, in order.
#[derive(Drop)]
pub(crate) struct SlotNumbers {
    pub items: Vec<u32>,
}

impl Model for SlotNumbers {
    ghost use Rattle.std.specs.Prelude.{List, ℕ};

    ghost Value = { List ℕ };

    ghost view = { λ s. s.items.items };
}

/// What contracts see of `OpenScopes`.
#[derive(Drop)]
pub(crate) struct Scope {
    /// The slots so far.
    pub slots: SlotInfos,
    /// The slots of the variables that are visible, in order of declaration.
    pub visible: SlotNumbers,
    /// How many slots there were where the innermost scope began.
    pub outer: u32,
}

/// What a procedure has declared up to some place of its body. A name is looked up in constant time,
/// unless names were chosen to collide, and a scope is left in as many steps as it has variables.
#[derive(Drop)]
pub(crate) struct OpenScopes<'t> {
    slots: SlotInfos,
    /// The names of all variables so far.
    names: Names<'t>,
    /// The variables that are visible.
    visible: Meanings,
    outer: u32,
}

impl<'t> Model for OpenScopes<'t> {
    ghost use Rattle.std.specs.Prelude.{◌≡◌, ◌<◌, ℕ, Some, length, map, bytes_eq, option_map, slice_get, slice_index_or};
    ghost use Rattle.std.specs.List.{position_or_len};
    ghost use Rattle.c_types.specs.declared.scope.Scope.{Scope};

    ghost Value = { Scope };

    ghost view = { λ s. record { slots = s.slots; visible = map (λ (g : ℕ × ℕ). g.1) s.visible; outer = s.outer } };

    ghost invariant = { λ s. (k : ℕ) (d : ℕ × ℕ) → k < length s.visible
        → ((slice_index_or s.visible k d).0 < length s.names)
        × (option_map (λ v. position_or_len (bytes_eq v.name) s.names) (slice_get s.slots (slice_index_or s.visible k d).1) ≡ Some (slice_index_or s.visible k d).0) };
}

fn push_slot(
    alloc: Global,
    slots: &mut SlotInfos,
    name: &[u8],
    kind: SlotType,
    at: Span,
) -> Result<(), Memory>
    ensures pushed { OnOk result (slots.new ≡ slots.old ++ record { name = name.now; kind = kind; at = at } ∷ []) }
    ensures kept { OnErr result (slots.new ≡ slots.old) }
{
    let name = copy_of(alloc, name)?;
    slots.items.push(SlotInfo { name, kind, at })?;
    Ok(())
}

/// Where a scope began: which variables were visible, and what stood outside of them.
#[derive(Clone, Copy)]
pub(crate) struct Outside {
    pub visible: usize,
    pub outer: u32,
}

impl<'t> OpenScopes<'t> {
    pub fn new(alloc: Global) -> Self
        ensures { result ≡ no_scope }
    {
        OpenScopes {
            slots: SlotInfos {
                items: Vec::new(alloc),
            },
            names: Names::new(alloc),
            visible: Meanings::new(alloc),
            outer: 0,
        }
    }

    /// How many slots there are.
    pub fn slot_count(&self) -> Result<u32, Memory>
        ensures { IfOk result (λ n. n ≡ length self.now.slots) }
    {
        number_of(self.slots.items.as_slice().len())
    }

    /// The slot of the variable that the name means.
    pub fn slot_in(&self, name: &[u8]) -> Option<u32>
        ensures { result ≡ slot_in self.now name.now }
    {
        self.visible.latest(self.names.place(name))
    }

    /// The type of that variable.
    pub fn kind_in(&self, name: &[u8]) -> Option<SlotType>
        ensures { result ≡ kind_in self.now name.now }
    {
        match self.slot_in(name) {
            Some(i) => match self.slots.items.get(i as usize) {
                Some(slot) => Some(slot.kind),
                None => None,
            },
            None => None,
        }
    }

    /// Whether this scope declares the name already.
    pub fn declares(&self, name: &[u8]) -> bool
        ensures { result ≡ breaks_5 self.now name.now }
    {
        match self.slot_in(name) {
            Some(i) => self.outer <= i,
            None => false,
        }
    }

    /// Adds a slot, which is no variable.
    pub fn add_slot(
        &mut self,
        alloc: Global,
        name: &[u8],
        kind: SlotType,
        at: Span,
    ) -> Result<(), Memory>
        ensures { OnOk result (self.new ≡ with_slot self.old name.now kind at) }
    {
        push_slot(alloc, &mut self.slots, name, kind, at)
    }

    /// Declares a variable.
    pub fn declare(
        &mut self,
        alloc: Global,
        name: &'t Name,
        kind: SlotType,
        at: Span,
    ) -> Result<(), Memory>
        ensures { OnOk result (self.new ≡ declared self.old name.now kind at) }
    {
        let name = name.items.as_slice();
        let slot = self.slot_count()?;
        let number = self.names.place(name);
        self.names.add(name)?;
        push_slot(alloc, &mut self.slots, name, kind, at)?;
        self.visible.push(number, slot)
    }

    /// What `leave` is to be given after what follows.
    pub fn outside(&self) -> Outside
        ensures visible { result.visible ≡ length self.now.visible }
        ensures outer { result.outer ≡ self.now.outer }
    {
        Outside {
            visible: self.visible.len(),
            outer: self.outer,
        }
    }

    /// Begins a scope, and gives what `leave` is to be given at its end.
    pub fn enter(&mut self) -> Result<Outside, Memory>
        ensures outside { IfOk result (λ o. o ≡ record { visible = length self.old.visible; outer = self.old.outer }) }
        ensures after { OnOk result (self.new ≡ entered self.old) }
    {
        let outside = self.outside();
        self.outer = self.slot_count()?;
        Ok(outside)
    }

    /// Goes back to the variables that were visible, and to their scope.
    pub fn leave(&mut self, outside: Outside)
        ensures { self.new ≡ record { slots = self.old.slots; visible = take outside.visible self.old.visible; outer = outside.outer } }
    {
        self.outer = outside.outer;
        self.visible.truncate(outside.visible);
    }

    /// The slots of the procedure.
    pub fn into_slots(self) -> SlotInfos
        ensures { result ≡ self.entry.slots }
    {
        let OpenScopes {
            slots,
            names: _,
            visible: _,
            outer: _,
        } = self;
        slots
    }
}
