ghost use Rattle.std.specs.Prelude.{◌≡◌, ◌≤◌, ◌<◌, ◌+◌, ◌^◌, max, codes, IfOk, option_map};
ghost use Rattle.c_grammar.specs.Reading.{after_mark};
ghost use Rattle.c_grammar.specs.ReadExprs.{unit_in, read_unit, is_one, after_one, calloc_comma};
ghost use Rattle.c_parser.specs.Views.{front_of, expr_part, unit_row, allocation_part, literal, cast_of, read_cast, Gives};

use crate::error::ParseError;
use crate::parts::{Allocation, ExprPart, UnitRow, leaf};
use crate::tokens::{Front, Parser, after_mark, copy_bytes, copy_name, is_word, join};
use crate::types::{base, star, type_of};
use c_token::{Token, TokenKind};
use c_tree::{ExprForm, TypeName, Unit};
use std::alloc::{AllocError, Global};

/// A constant, where one stands here.
pub(crate) fn literal<'a>(
    alloc: Global,
    token: &Token,
    rest: &'a [Token],
) -> Result<Option<ExprPart<'a>>, AllocError>
    ensures { IfOk result (λ o. option_map expr_part o ≡ literal token.now rest.entry.now) }
{
    let form = match &token.kind {
        TokenKind::Num(value) | TokenKind::Char(value) => ExprForm::Num(*value),
        TokenKind::Text(units) => ExprForm::Text(copy_bytes(alloc, units)?),
        TokenKind::Word(_) if is_word(&token.kind, b"NULL") => ExprForm::Null,
        _ => return Ok(None),
    };
    Ok(Some(leaf(form, token, rest)))
}

/// `sizeof` with what it measures.
pub(crate) fn unit<'a>(
    parser: Parser,
    limit: u32,
    tokens: &'a [Token],
) -> Result<UnitRow<'a>, ParseError>
    ensures read { Gives unit_row result (read_unit limit tokens.now) }
    ensures within { IfOk result (λ u. u.depth ≤ limit) }
{
    let word = parser.word(tokens, b"sizeof")?;
    if let Some(open) = after_mark(word.rest, b"(") {
        if limit == 0 {
            return Err(ParseError::Parse(parser.place(word.rest)));
        }
        return enclosed_unit(parser, open.rest);
    }
    let star = parser.mark(word.rest, b"*")?;
    let named = parser.name(star.rest)?;
    Ok(UnitRow {
        tree: Unit::Behind(copy_name(parser.alloc, named.name)?),
        depth: 0,
        rest: named.rest,
    })
}

fn enclosed_unit<'a>(parser: Parser, tokens: &'a [Token]) -> Result<UnitRow<'a>, ParseError>
    ensures read { Gives unit_row result (unit_in tokens.now (after_mark (codes "*") tokens.now)) }
    ensures depth { IfOk result (λ u. u.depth ≡ 1) }
{
    let (tree, rest) = match after_mark(tokens, b"*") {
        Some(star) => {
            let named = parser.name(star.rest)?;
            let name = copy_name(parser.alloc, named.name)?;
            (Unit::Behind(name), named.rest)
        }
        None => {
            let base = base(parser, tokens)?;
            (base.tree, base.rest)
        }
    };
    let close = parser.mark(rest, b")")?;
    Ok(UnitRow {
        tree,
        depth: 1,
        rest: close.rest,
    })
}

/// The type of a cast, and the tokens after it.
#[derive(Drop)]
pub(crate) struct Cast<'a> {
    pub kind: TypeName,
    pub rest: &'a [Token],
}

/// A cast, after its opening parenthesis.
pub(crate) fn after_cast<'a>(parser: Parser, tokens: &'a [Token]) -> Result<Cast<'a>, ParseError>
    ensures { Gives cast_of result (read_cast tokens.now) }
{
    let base = base(parser, tokens)?;
    let Some(star) = star(base.rest) else {
        return Err(ParseError::Parse(parser.place(base.rest)));
    };
    let Some(kind) = type_of(parser.alloc, &base.tree, true)? else {
        return Err(ParseError::Parse(parser.place(base.rest)));
    };
    let close = parser.mark(star.rest, b")")?;
    Ok(Cast {
        kind,
        rest: close.rest,
    })
}

/// The number 1.
fn after_one(tokens: &[Token]) -> Option<Front<'_>>
    ensures { option_map front_of result ≡ after_one tokens.now }
{
    let (token, rest) = tokens.split_first()?;
    is_one(&token.kind).then_some(Front { token, rest })
}

fn is_one(kind: &TokenKind) -> bool
    ensures { result ≡ is_one kind.now }
{
    matches!(kind, TokenKind::Num(1))
}

/// The rest of a `calloc`, after how many: a unit or the number 1.
pub(crate) fn calloc_rest<'a>(
    parser: Parser,
    limit: u32,
    token: &Token,
    count: ExprPart<'a>,
) -> Result<Allocation<'a>, ParseError>
    requires { max count.depth limit + 1 < 2 ^ 32 }
    ensures read { Gives allocation_part result (calloc_comma limit token.now (expr_part count.entry)) }
    ensures within { IfOk result (λ a. a.depth ≤ max count.entry.depth limit + 1) }
{
    let comma = parser.mark(count.rest, b",")?;
    let (unit, depth, rest) = match after_one(comma.rest) {
        Some(one) => (None, count.depth, one.rest),
        None => {
            let unit = unit(parser, limit, comma.rest)?;
            (Some(unit.tree), count.depth.max(unit.depth), unit.rest)
        }
    };
    let close = parser.mark(rest, b")")?;
    Ok(Allocation {
        zeroed: true,
        unit,
        count: Some(count.tree),
        at: join(token.at, close.token.at),
        depth: depth + 1,
        rest: close.rest,
    })
}
