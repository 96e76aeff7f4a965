use c_tree::Memory;
use std::alloc::{AllocError, AllocFailed};
use thiserror::Error;

/// What a source may have only so many of.
#[derive(Clone, Copy, Debug, PartialEq, Eq)]
pub enum LimitKind {
    /// Structs, those that are only named among them: at most 1,024.
    Structs,
    /// Members of one struct: at most 64.
    Fields,
    /// Procedures, those without a body among them: at most 4,096.
    Procs,
    /// Pointer parameters of one procedure: at most 8.
    Params,
    /// Unknowns of one call group.
    Unknowns,
}

/// Why a tree is no typed one.
#[derive(Clone, Copy, Debug, PartialEq, Eq, Error)]
pub enum TypeError {
    /// Want of memory.
    #[error("Memory")]
    Memory,
    /// A rule of types is broken: the byte offset, from 0, of the node to which the first broken rule
    /// belongs, and the rule's number.
    #[error("BadType")]
    BadType { at: u32, rule: u32 },
    /// No rule is broken, and there is no body of `int main` without parameters.
    #[error("NoMain")]
    NoMain,
    /// No rule is broken, there is a `main`, and there are more than may be: how many there are.
    #[error("Limit")]
    Limit { kind: LimitKind, count: u64 },
}

impl From<Memory> for TypeError {
    ghost use Rattle.std.specs.Prelude.{◌≡◌};
    ghost use Rattle.c_types.specs.declared.error.TypeError.TheVariants.{Memory};

    ghost from_gives = { λ _ e. e ≡ Memory };

    fn from(_: Memory) -> TypeError {
        TypeError::Memory
    }
}

impl From<AllocError> for TypeError {
    ghost use Rattle.std.specs.Prelude.{◌≡◌};
    ghost use Rattle.c_types.specs.declared.error.TypeError.TheVariants.{Memory};

    ghost from_gives = { λ _ e. e ≡ Memory };

    fn from(_: AllocError) -> TypeError {
        TypeError::Memory
    }
}

impl<T: Drop> From<AllocFailed<T>> for TypeError {
    ghost use Rattle.std.specs.Prelude.{◌≡◌};
    ghost use Rattle.c_types.specs.declared.error.TypeError.TheVariants.{Memory};

    ghost from_gives = { λ _ e. e ≡ Memory };

    fn from(_: AllocFailed<T>) -> TypeError {
        TypeError::Memory
    }
}
