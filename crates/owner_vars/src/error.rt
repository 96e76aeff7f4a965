use c_tree::Memory;
use c_types::LimitKind;
use thiserror::Error;

/// Why a group's unknowns have no numbers.
#[derive(Clone, Copy, Debug, PartialEq, Eq, Error)]
pub enum NumberError {
    /// Want of memory.
    #[error("Memory")]
    Memory,
    /// The group has more unknowns than may be: how many it has.
    #[error("Limit")]
    Limit { kind: LimitKind, count: u64 },
}

impl From<Memory> for NumberError {
    ghost use Rattle.std.specs.Prelude.{◌≡◌};
    ghost use Rattle.owner_vars.specs.declared.error.NumberError.TheVariants.{Memory};

    ghost from_gives = { λ _ e. e ≡ Memory };

    fn from(_: Memory) -> NumberError {
        NumberError::Memory
    }
}
