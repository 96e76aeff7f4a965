ghost use Rattle.std.specs.Prelude.{◌≡◌, length, slice_set};
ghost use Rattle.heap_meaning.specs.Reads.{slot, object_at, live_at, kind_at, cell, put_cell, freed_at, value_of, number_of, base_of, index_of, not_text, all_set, is_null, same_value};

use crate::choices::Stop;
use crate::states::{Kind, Objects};
use crate::values::{Value, Values};
use flow_graph::Numbers;

impl Values {
    /// The value at a place, Unset where there is none.
    pub(crate) fn at(&self, place: u32) -> Value
        ensures { result ≡ slot self.now place }
    {
        self.items
            .get(place as usize)
            .copied()
            .unwrap_or(Value::Unset)
    }

    /// Puts a value at a place, where there is one.
    pub(crate) fn put(&mut self, place: u32, value: Value)
        ensures { self.new ≡ slice_set self.old place value }
    {
        let at = place as usize;
        if at < self.items.len() {
            self.items[at] = value;
        }
    }
}

impl Objects {
    pub(crate) fn is_live(&self, object: u64) -> bool
        ensures { result ≡ live_at self.now object }
    {
        match self.items.get(object as usize) {
            Some(found) => found.live,
            None => false,
        }
    }

    pub(crate) fn kind(&self, object: u64) -> Kind
        ensures { result ≡ kind_at self.now object }
    {
        match self.items.get(object as usize) {
            Some(found) => found.kind,
            None => Kind::Text,
        }
    }

    /// How many cells an object has.
    pub(crate) fn size(&self, object: u64) -> usize
        ensures { result ≡ length (object_at self.now object).cells }
    {
        match self.items.get(object as usize) {
            Some(found) => found.cells.items.len(),
            None => 0,
        }
    }

    /// The value in a cell of an object.
    pub(crate) fn cell(&self, object: u64, place: u32) -> Value
        ensures { result ≡ cell self.now object place }
    {
        match self.items.get(object as usize) {
            Some(found) => found.cells.at(place),
            None => Value::Unset,
        }
    }

    /// Puts a value into a cell of an object.
    pub(crate) fn put(&mut self, object: u64, place: u32, value: Value)
        ensures { self.new ≡ put_cell self.old object place value }
    {
        let at = object as usize;
        if at < self.items.len() {
            let found = &mut self.items[at];
            found.cells.put(place, value);
        }
    }

    /// Makes an object no longer live.
    pub(crate) fn free(&mut self, object: u64)
        ensures { self.new ≡ freed_at self.old object }
    {
        let at = object as usize;
        if at < self.items.len() {
            let found = &mut self.items[at];
            found.live = false;
        }
    }

    /// The live object that is the base of an access.
    pub(crate) fn base(&self, value: Value) -> Result<u64, Stop>
        ensures { result ≡ base_of self.now value }
    {
        match value {
            Value::Unset => Err(Stop::UnsetRead),
            Value::Ref(object) if self.is_live(object) => Ok(object),
            Value::Ref(_) => Err(Stop::FreedBase),
            _ => Err(Stop::NullBase),
        }
    }

    /// The cell of an index.
    pub(crate) fn index(&self, object: u64, index: i32) -> Result<u32, Stop>
        ensures { result ≡ index_of self.now object index }
    {
        if index < 0 {
            return Err(Stop::OutOfRange);
        }
        let place = index as u32;
        if (place as usize) < self.size(object) {
            Ok(place)
        } else {
            Err(Stop::OutOfRange)
        }
    }
}

impl Value {
    /// The value, where one was put there.
    pub(crate) fn set(self) -> Result<Value, Stop>
        ensures { result ≡ value_of self }
    {
        match self {
            Value::Unset => Err(Stop::UnsetRead),
            value => Ok(value),
        }
    }

    pub(crate) fn number(self) -> Result<i32, Stop>
        ensures { result ≡ number_of self }
    {
        match self {
            Value::Int(number) => Ok(number),
            _ => Err(Stop::UnsetRead),
        }
    }

    pub(crate) fn is_null(self) -> bool
        ensures { result ≡ is_null self }
    {
        match self {
            Value::Null => true,
            _ => false,
        }
    }

    /// Whether two pointers are equal.
    pub(crate) fn is_same(self, other: Value) -> bool
        ensures { result ≡ same_value self other }
    {
        match (self, other) {
            (Value::Null, Value::Null) => true,
            (Value::Ref(a), Value::Ref(b)) => a == b,
            _ => false,
        }
    }
}

/// An error where the object may not be written.
pub(crate) fn check_writable(kind: Kind) -> Result<(), Stop>
    ensures { result ≡ not_text kind }
{
    match kind {
        Kind::Text => Err(Stop::TextWrite),
        _ => Ok(()),
    }
}

/// An error where some of these slots is not set.
pub(crate) fn check_set(slots: &Values, args: &Numbers) -> Result<(), Stop>
    ensures { result ≡ all_set slots.now args.now }
{
    for slot in args.items.iter() {
        slots.at(*slot).set()?;
    }
    Ok(())
}
