use c_tree::{Bytes, Name, Span};
use std::alloc::{AllocError, AllocFailed};
use thiserror::Error;

/// What a token is.
#[derive(Debug, Drop)]
pub enum TokenKind {
    /// A name that is no reserved word.
    Name(Name),
    /// A reserved word.
    Word(Name),
    /// A number, from 0 to 2147483647.
    Num(i32),
    /// A string: what its units stand for, without the final 0.
    Text(Bytes),
    /// A character constant: what its unit stands for.
    Char(i32),
    /// A punctuator, by its bytes.
    Mark(Name),
}

/// A token and where it stands.
#[derive(Debug, Drop)]
pub struct Token {
    pub kind: TokenKind,
    pub at: Span,
}

/// Why there are no tokens.
#[derive(Clone, Copy, Debug, PartialEq, Eq, Error)]
pub enum LexError {
    /// Want of memory.
    #[error("Memory")]
    Memory,
    /// No token begins at this byte, counted from 0.
    #[error("Lex")]
    Lex(u32),
}

impl From<AllocError> for LexError {
    ghost use Rattle.std.specs.Prelude.{◌≡◌};
    ghost use Rattle.c_token.specs.declared.token.LexError.TheVariants.{Memory};

    ghost from_gives = { λ _ e. e ≡ Memory };

    fn from(_: AllocError) -> LexError {
        LexError::Memory
    }
}

impl<T: Drop> From<AllocFailed<T>> for LexError {
    ghost use Rattle.std.specs.Prelude.{◌≡◌};
    ghost use Rattle.c_token.specs.declared.token.LexError.TheVariants.{Memory};

    ghost from_gives = { λ _ e. e ≡ Memory };

    fn from(_: AllocFailed<T>) -> LexError {
        LexError::Memory
    }
}
