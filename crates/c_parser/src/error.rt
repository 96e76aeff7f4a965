use std::alloc::{AllocError, AllocFailed};
use thiserror::Error;

/// Why there is no tree.
#[derive(Clone, Copy, Debug, PartialEq, Eq, Error)]
pub enum ParseError {
    /// Want of memory.
    #[error("Memory")]
    Memory,
    /// The token that begins at this byte, counted from 0, can follow no earlier ones; or the tokens end here and more
    /// must follow.
    #[error("Parse")]
    Parse(u32),
}

impl From<AllocError> for ParseError {
    ghost use Rattle.std.specs.Prelude.{◌≡◌};
    ghost use Rattle.c_parser.specs.declared.error.ParseError.TheVariants.{Memory};

    ghost from_gives = { λ _ e. e ≡ Memory };

    fn from(_: AllocError) -> ParseError {
        ParseError::Memory
    }
}

impl<T: Drop> From<AllocFailed<T>> for ParseError {
    ghost use Rattle.std.specs.Prelude.{◌≡◌};
    ghost use Rattle.c_parser.specs.declared.error.ParseError.TheVariants.{Memory};

    ghost from_gives = { λ _ e. e ≡ Memory };

    fn from(_: AllocFailed<T>) -> ParseError {
        ParseError::Memory
    }
}
