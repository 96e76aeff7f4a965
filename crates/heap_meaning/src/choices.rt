use std::marker::Model;

/// A write of an external procedure. It does nothing unless it names a live object that was allocated, and an integer
/// cell of it.
#[derive(Clone, Copy)]
pub struct Write {
    pub object: u64,
    pub cell: u32,
    pub value: i32,
}

/// Writes, which contracts see as a list.
#[derive(Drop)]
pub struct Writes {
    pub items: Vec<Write>,
}

impl Model for Writes {
    ghost use Rattle.std.specs.Prelude.{List};
    ghost use Rattle.heap_meaning.specs.declared.choices.Write.{Write};

    ghost Value = { List Write };

    ghost view = { λ w. w.items.items };
}

/// What a step does where the program leaves it open.
#[derive(Drop)]
pub struct Choice {
    /// Whether an allocation succeeds.
    pub fits: bool,
    /// The result of an external procedure.
    pub value: i32,
    /// What an external procedure writes, in order.
    pub writes: Writes,
}

/// The error at which a run stops.
#[derive(Clone, Copy, Debug, PartialEq, Eq)]
pub enum Stop {
    /// A slot or a cell that is read has no value.
    UnsetRead,
    /// The base of an access is null.
    NullBase,
    /// The base of an access was freed.
    FreedBase,
    /// There is no cell of this index.
    OutOfRange,
    /// The object written is a string.
    TextWrite,
    /// No `int` holds the exact result, or for `%` the exact quotient.
    Overflow,
    /// A divisor is 0.
    ZeroDivisor,
}

/// What came of a step.
#[derive(Clone, Copy, Debug, PartialEq, Eq)]
pub enum Stepped {
    /// One edge was taken, or a frame returned to its caller.
    Moved,
    /// `main` stood at its exit and its frame is gone; or there was no frame.
    Ended,
    /// The run stops here, and the state is as it was.
    Stopped(Stop),
    /// An object that is not a live allocated one was to be freed. The state is as it was.
    DoubleFree,
}
