ghost use Rattle.std.specs.Prelude.{◌≡◌, option_map, IfOk};
ghost use Rattle.c_grammar.specs.Types.{type_of};
ghost use Rattle.c_grammar.specs.Reading.{consts, read_base, read_star};
ghost use Rattle.c_parser.specs.Views.{stretch_of, base_of, plain_base, Gives};

use crate::error::ParseError;
use crate::tokens::{Parser, after_mark, after_word, copy_name, is_word, join};
use c_token::Token;
use c_tree::{Span, TypeName, Unit};
use std::alloc::{AllocError, Global};

/// How far a span reaches, and the tokens after it.
#[derive(Clone, Copy)]
pub(crate) struct Stretch<'a> {
    pub at: Span,
    pub rest: &'a [Token],
}

/// The base of a type at the front of some tokens, and those after it.
#[derive(Drop)]
pub(crate) struct BasePiece<'a> {
    pub tree: Unit,
    pub at: Span,
    pub rest: &'a [Token],
}

/// Takes each `const` at the front.
fn consts(at: Span, tokens: &[Token]) -> Stretch<'_>
    ensures { stretch_of result ≡ consts at tokens.now }
{
    let mut at = at;
    let mut rest = tokens;
    while let Some(next) = after_word(rest, b"const") {
        at = join(at, next.token.at);
        rest = next.rest;
    }
    Stretch { at, rest }
}

/// A base that begins with no `const`.
fn plain_base<'a>(parser: Parser, tokens: &'a [Token]) -> Result<BasePiece<'a>, ParseError>
    ensures { Gives base_of result (plain_base tokens.now) }
{
    let Some((token, rest)) = tokens.split_first() else {
        return Err(ParseError::Parse(parser.place(tokens)));
    };
    let (tree, last) = if is_word(&token.kind, b"int") {
        (Unit::Int, consts(token.at, rest))
    } else if is_word(&token.kind, b"char") {
        (Unit::Char, consts(token.at, rest))
    } else if is_word(&token.kind, b"struct") {
        let named = parser.name(rest)?;
        let tag = copy_name(parser.alloc, named.name)?;
        (
            Unit::Struct(tag),
            consts(join(token.at, named.token.at), named.rest),
        )
    } else {
        return Err(ParseError::Parse(parser.place(tokens)));
    };
    Ok(BasePiece {
        tree,
        at: last.at,
        rest: last.rest,
    })
}

/// The base of a type.
pub(crate) fn base<'a>(parser: Parser, tokens: &'a [Token]) -> Result<BasePiece<'a>, ParseError>
    ensures { Gives base_of result (read_base tokens.now) }
{
    let Some(first) = after_word(tokens, b"const") else {
        return plain_base(parser, tokens);
    };
    let mut rest = first.rest;
    while let Some(next) = after_word(rest, b"const") {
        rest = next.rest;
    }
    let base = plain_base(parser, rest)?;
    Ok(BasePiece {
        tree: base.tree,
        at: join(first.token.at, base.at),
        rest: base.rest,
    })
}

/// A `*` with each `const` after it.
pub(crate) fn star(tokens: &[Token]) -> Option<Stretch<'_>>
    ensures { option_map stretch_of result ≡ read_star tokens.now }
{
    let star = after_mark(tokens, b"*")?;
    Some(consts(star.token.at, star.rest))
}

/// The type of a base with a star or without one; a struct has no type without one.
pub(crate) fn type_of(
    alloc: Global,
    base: &Unit,
    starred: bool,
) -> Result<Option<TypeName>, AllocError>
    ensures { IfOk result (λ t. t ≡ type_of base.now starred) }
{
    Ok(match (base, starred) {
        (Unit::Int, false) => Some(TypeName::Int),
        (Unit::Int, true) => Some(TypeName::IntPtr),
        (Unit::Char, false) => Some(TypeName::Char),
        (Unit::Char, true) => Some(TypeName::CharPtr),
        (Unit::Struct(tag), true) => Some(TypeName::StructPtr(copy_name(alloc, tag)?)),
        (Unit::Struct(_), false) | (Unit::Behind(_), _) => None,
    })
}
