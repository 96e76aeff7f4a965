ghost use Rattle.std.specs.Prelude.{◌≡◌, ◌<◌, ◌^◌, not, length, slice_get, Some, IfOk, OnOk, OnErr, position, [], bytes_eq};
ghost use Rattle.std.specs.List.{position_or_len};
ghost use Rattle.c_types.specs.Names.{has_name, with_name};

use c_tree::{Memory, Name};
use indexmap::IndexSet;
use std::alloc::Global;
use std::marker::Model;

/// A number of the tree as 32 bits. One that does not fit would need more memory than there is.
pub(crate) fn number_of(place: usize) -> Result<u32, Memory>
    ensures { IfOk result (λ n. n ≡ place) }
{
    u32::try_from(place).map_err(|_| Memory)
}

/// A copy of the name.
pub(crate) fn copy_of(alloc: Global, name: &[u8]) -> Result<Name, Memory>
    ensures { IfOk result (λ copy. copy ≡ name.now) }
{
    let items = Vec::from_slice(alloc, name)?;
    Ok(Name { items })
}

/// Names in order of their first occurrence, each once; a name's number is its place.
#[derive(Drop)]
pub(crate) struct Names<'t> {
    names: IndexSet<&'t [u8]>,
}

impl<'t> Model for Names<'t> {
    ghost use Rattle.std.specs.Prelude.{List, ℕ, map, length, ◌<◌, ◌^◌};

    ghost Value = { List (List ℕ) };

    ghost view = { λ n. map (λ k. k.now) n.names.keys };

    ghost invariant = { λ n. length n.names.keys < 2 ^ 32 };
}

impl<'t> Names<'t> {
    pub fn new(alloc: Global) -> Self
        ensures { result ≡ [] }
    {
        Names {
            names: IndexSet::new(alloc),
        }
    }

    pub fn len(&self) -> u32
        ensures { result ≡ length self.now }
    {
        self.names.len() as u32
    }

    /// The name's number.
    pub fn number(&self, name: &[u8]) -> Option<u32>
        ensures { result ≡ position (bytes_eq name.now) self.now }
    {
        match self.names.get_index_of(name) {
            Some(i) => Some(i as u32),
            None => None,
        }
    }

    pub fn has(&self, name: &[u8]) -> bool
        ensures { result ≡ has_name self.now name.now }
    {
        self.names.contains(name)
    }

    /// The name's number, or how many names there are where it is none of them.
    pub fn place(&self, name: &[u8]) -> u32
        ensures { result ≡ position_or_len (bytes_eq name.now) self.now }
    {
        match self.number(name) {
            Some(n) => n,
            None => self.len(),
        }
    }

    /// The name of that number.
    pub fn name(&self, number: u32) -> &[u8]
        requires { number < length self.now }
        ensures { slice_get self.now number ≡ Some result.now }
    {
        self.names[number as usize]
    }

    /// Adds the name where it is not there, and says whether it was not.
    pub fn add(&mut self, name: &'t [u8]) -> Result<bool, Memory>
        ensures known { IfOk result (λ new. new ≡ not (has_name self.old name.now)) }
        ensures names { OnOk result (self.new ≡ with_name self.old name.now) }
        ensures kept { OnErr result (self.new ≡ self.old) }
    {
        if self.names.len() >= u32::MAX as usize {
            return Err(Memory);
        }
        let (_, new) = self.names.insert_full(name)?;
        Ok(new)
    }
}
