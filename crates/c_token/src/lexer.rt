ghost use Rattle.std.specs.Prelude.{◌≡◌, ◌≤◌, length, IfOk, IfErr, All};
ghost use Rattle.c_token.specs.Reading.{IsTokenReading, IsCause};
ghost use Rattle.c_token.specs.Formed.{IsFormedToken};
ghost use Rattle.c_token.specs.Laws.{HasOneReading, IsReadOrStuck, HasOneStuckPlace};

use crate::blanks::blank_len;
use crate::forms::longest_token;
use crate::position::Position;
use crate::token::{LexError, Token};
use c_tree::Span;
use std::alloc::Global;

/// The tokens of the bytes, in their order: the one longest-match reading. The bytes are at most 4 MiB.
///
/// `Lex(k)` comes exactly where blanks and tokens lead to byte `k`, and neither a blank nor a token begins there.
pub fn tokens(alloc: Global, bytes: &[u8]) -> Result<Vec<Token>, LexError>
    requires { length bytes.now ≤ 4194304 }
    ensures reading { IfOk result (λ ts. IsTokenReading bytes.now ts.items) }
    ensures cause { IfErr result (IsCause bytes.now) }
    ensures formed { IfOk result (λ ts. All IsFormedToken ts.items) }
{
    let mut tokens = Vec::new(alloc);
    let mut position = Position {
        at: 0,
        line: 1,
        col: 1,
        first: true,
    };
    let mut rest = bytes;
    while !rest.is_empty() {
        if let Some(n) = blank_len(position.first, rest) {
            rest = position.pass(rest, n);
            continue;
        }
        let Some((kind, n)) = longest_token(alloc, rest)? else {
            return Err(LexError::Lex(position.at));
        };
        let at = Span {
            start: position.at,
            end: position.at + n as u32,
            line: position.line,
            col: position.col,
        };
        tokens.push(Token { kind, at })?;
        rest = position.pass(rest, n);
        position.first = false;
    }
    Ok(tokens)
}

/// Bytes have at most one reading, at most one stuck place, and never both.
pub fn reading_laws()
    ensures one { HasOneReading }
    ensures apart { IsReadOrStuck }
    ensures stuck { HasOneStuckPlace }
{}
