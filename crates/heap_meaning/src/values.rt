use std::marker::Model;

/// What a slot or a cell holds.
#[derive(Clone, Copy, Debug, PartialEq, Eq)]
pub enum Value {
    /// No value was put there yet.
    Unset,
    Int(i32),
    Null,
    /// The object of this number, whether or not it is still live.
    Ref(u64),
}

/// Values, which contracts see as a list.
#[derive(Drop)]
pub struct Values {
    pub items: Vec<Value>,
}

impl Model for Values {
    ghost use Rattle.std.specs.Prelude.{List};
    ghost use Rattle.heap_meaning.specs.declared.values.Value.{Value as Item};

    ghost Value = { List Item };

    ghost view = { λ v. v.items.items };
}
