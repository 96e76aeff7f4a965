use crate::refusal::Refusal;
use c_parser::ParseError;
use c_token::LexError;
use c_types::TypeError;
use owner_vars::NumberError;
use thiserror::Error;

/// Why the bytes of a source have no typed tree, or no program.
#[derive(Clone, Copy, Debug, PartialEq, Eq, Error)]
pub enum Failure {
    /// Want of memory.
    #[error("Memory")]
    Memory,
    /// The source is refused.
    #[error("Refused")]
    Refused(Refusal),
}

impl From<LexError> for Failure {
    ghost use Rattle.std.specs.Prelude.{◌≡◌};
    ghost use Rattle.source_program.specs.Failures.{of_lex};

    ghost from_gives = { λ e f. f ≡ of_lex e };

    fn from(e: LexError) -> Failure {
        match e {
            LexError::Memory => Failure::Memory,
            LexError::Lex(at) => Failure::Refused(Refusal::Lex(at)),
        }
    }
}

impl From<ParseError> for Failure {
    ghost use Rattle.std.specs.Prelude.{◌≡◌};
    ghost use Rattle.source_program.specs.Failures.{of_parse};

    ghost from_gives = { λ e f. f ≡ of_parse e };

    fn from(e: ParseError) -> Failure {
        match e {
            ParseError::Memory => Failure::Memory,
            ParseError::Parse(at) => Failure::Refused(Refusal::Parse(at)),
        }
    }
}

impl From<TypeError> for Failure {
    ghost use Rattle.std.specs.Prelude.{◌≡◌};
    ghost use Rattle.source_program.specs.Failures.{of_types};

    ghost from_gives = { λ e f. f ≡ of_types e };

    fn from(e: TypeError) -> Failure {
        match e {
            TypeError::Memory => Failure::Memory,
            TypeError::BadType { at, rule } => Failure::Refused(Refusal::BadType { at, rule }),
            TypeError::NoMain => Failure::Refused(Refusal::NoMain),
            TypeError::Limit { kind, count } => Failure::Refused(Refusal::Limit { kind, count }),
        }
    }
}

impl From<NumberError> for Failure {
    ghost use Rattle.std.specs.Prelude.{◌≡◌};
    ghost use Rattle.source_program.specs.Failures.{of_numbers};

    ghost from_gives = { λ e f. f ≡ of_numbers e };

    fn from(e: NumberError) -> Failure {
        match e {
            NumberError::Memory => Failure::Memory,
            NumberError::Limit { kind, count } => Failure::Refused(Refusal::Limit { kind, count }),
        }
    }
}
