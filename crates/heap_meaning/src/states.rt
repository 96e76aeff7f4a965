use crate::values::Values;
use std::marker::Model;

/// A call that has begun and not ended.
#[derive(Drop)]
pub struct Frame {
    /// The procedure that runs.
    pub proc: u32,
    /// Where in the procedure it is: for a call that waits, the place of its own call.
    pub place: u32,
    pub slots: Values,
    /// For a call that waits, the slot that gets the result of its own call where there is one; else none.
    pub waiting: Option<u32>,
}

/// The frames of a state, that of `main` first and the running one last. Contracts see them as a list in which the
/// running frame comes first.
#[derive(Drop)]
pub struct Frames {
    pub items: Vec<Frame>,
}

impl Model for Frames {
    ghost use Rattle.std.specs.Prelude.{List, reverse};
    ghost use Rattle.heap_meaning.specs.declared.states.Frame.{Frame};

    ghost Value = { List Frame };

    ghost view = { λ f. reverse f.items.items };
}

/// What an object is made of.
#[derive(Clone, Copy, Debug, PartialEq, Eq)]
pub enum Kind {
    /// The members of the struct of this number.
    Struct(u32),
    Ints,
    Chars,
    /// The characters of a string of the source, which is never freed.
    Text,
}

/// An object: what it is made of, whether it has not been freed, and its cells.
#[derive(Drop)]
pub struct Object {
    pub kind: Kind,
    pub live: bool,
    pub cells: Values,
}

/// Objects by their numbers, which contracts see as a list.
#[derive(Drop)]
pub struct Objects {
    pub items: Vec<Object>,
}

impl Model for Objects {
    ghost use Rattle.std.specs.Prelude.{List};
    ghost use Rattle.heap_meaning.specs.declared.states.Object.{Object};

    ghost Value = { List Object };

    ghost view = { λ o. o.items.items };
}

/// A state of a run. The objects of the strings are the first, in order of the strings' numbers; an object that was freed
/// keeps its number and its cells.
#[derive(Drop)]
pub struct State {
    pub frames: Frames,
    pub heap: Objects,
}
