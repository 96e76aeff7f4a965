ghost use Rattle.std.specs.Prelude.{◌≡◌, ◌≤◌, ◌<◌, ◌+◌, ◌-◌, ◌^◌, suc, codes, IfOk};
ghost use Rattle.c_grammar.specs.Reading.{after_mark};
ghost use Rattle.c_grammar.specs.Exprs.{expr_line, product_line};
ghost use Rattle.c_grammar.specs.ReadExprs.{stage, operations, steps, step_arrow, step_index, read_unary, read_primary, paren_at, size_unit, rise};
ghost use Rattle.c_parser.specs.Views.{front_of, expr_part, args_row, unit_row, size_row, allocation_part, finder, Gives};
ghost use Rattle.c_parser.specs.Below.{begins_step, one_step, args_before, malloc_after};

use crate::error::ParseError;
use crate::operators::{begins_base, begins_sizeof, find};
use crate::parts::{
    Allocation, ArgsRow, ExprPart, SizeRow, UnitRow, allocated, arrowed, called, indexed, leaf,
    negation, operation,
};
use crate::tokens::{Front, Parser, after_mark, copy_name, first_token, is_mark, is_word, join};
use crate::units::{after_cast, calloc_rest, literal, unit};
use c_token::{Token, TokenKind};
use c_tree::{BinaryOp, ExprForm};
use sqlite_items::Items;

/// The line of the grammar that holds all operators.
pub(crate) const EXPR_LINE: u32 = 6;

const PRODUCT_LINE: u32 = 1;

/// An expression of this line of the grammar, 0 for the operands of a product up to 6 for any expression, spelled at most
/// `limit` deep.
#[cycle(expression)]
pub(crate) fn line<'a>(
    parser: Parser,
    number: u32,
    limit: u32,
    tokens: &'a [Token],
) -> Result<ExprPart<'a>, ParseError>
    requires { number ≤ 6 }
    ensures read { Gives expr_part result ((stage limit).line number tokens.now) }
    ensures within { IfOk result (λ p. p.depth ≤ limit) }
{
    if limit == 0 {
        return Err(ParseError::Parse(parser.place(tokens)));
    }
    let mut left = unary(parser, limit - 1, tokens)?;
    for below in 0..number {
        left = operations(parser, false, below, limit - 1, left)?;
    }
    Ok(left)
}

/// The operands that follow the first one, with operators of the line above `below`.
#[cycle(expression)]
fn operations<'a>(
    parser: Parser,
    before_unit: bool,
    below: u32,
    limit: u32,
    first: ExprPart<'a>,
) -> Result<ExprPart<'a>, ParseError>
    requires line { below ≤ 5 }
    requires depth { first.depth ≤ limit + 1 }
    requires room { limit + 1 < 2 ^ 32 }
    ensures read { Gives expr_part result (operations (suc limit) (finder before_unit (suc below)) ((stage limit).line below) limit (expr_part first.entry)) }
    ensures within { IfOk result (λ p. p.depth ≤ limit + 1) }
{
    let mut left = first;
    while let Some(found) = find(before_unit, below + 1, left.rest) {
        if left.depth > limit {
            let next = if before_unit && found.op == BinaryOp::Mul {
                found.rest
            } else {
                left.rest
            };
            return Err(ParseError::Parse(parser.place(next)));
        }
        let right = line(parser, below, limit, found.rest)?;
        left = operation(parser.alloc, found.op, left, right)?;
    }
    Ok(left)
}

#[cycle(expression)]
fn unary<'a>(parser: Parser, limit: u32, tokens: &'a [Token]) -> Result<ExprPart<'a>, ParseError>
    requires { limit + 1 < 2 ^ 32 }
    ensures read { Gives expr_part result (read_unary (stage limit) limit tokens.now) }
    ensures within { IfOk result (λ p. p.depth ≤ limit + 1) }
{
    let Some(front) = first_token(tokens) else {
        return Err(ParseError::Parse(parser.place(tokens)));
    };
    let (token, rest) = (front.token, front.rest);
    let is_not = is_mark(&token.kind, b"!");
    if is_not || is_mark(&token.kind, b"-") {
        if limit == 0 {
            return Err(ParseError::Parse(token.at.start));
        }
        let inner = line(parser, 0, limit, rest)?;
        return Ok(negation(parser.alloc, is_not, token, inner)?);
    }
    let first = primary(parser, limit, tokens)?;
    steps(parser, limit, first)
}

/// The members and elements that follow an expression.
#[cycle(expression)]
pub(crate) fn steps<'a>(
    parser: Parser,
    limit: u32,
    first: ExprPart<'a>,
) -> Result<ExprPart<'a>, ParseError>
    requires depth { first.depth ≤ limit + 1 }
    requires room { limit + 1 < 2 ^ 32 }
    ensures read { Gives expr_part result (steps (suc limit) ((stage limit).line expr_line) limit (expr_part first.entry)) }
    ensures within { IfOk result (λ p. p.depth ≤ limit + 1) }
{
    let mut part = first;
    while begins_step(part.rest) {
        if part.depth > limit {
            return Err(ParseError::Parse(parser.place(part.rest)));
        }
        part = step(parser, limit, part)?;
    }
    Ok(part)
}

/// Whether a member or an element follows.
pub(crate) fn begins_step(tokens: &[Token]) -> bool
    ensures { result ≡ begins_step tokens.now }
{
    after_mark(tokens, b"->").is_some() || after_mark(tokens, b"[").is_some()
}

#[cycle(expression)]
fn step<'a>(parser: Parser, limit: u32, part: ExprPart<'a>) -> Result<ExprPart<'a>, ParseError>
    requires depth { part.depth ≤ limit }
    requires room { limit + 1 < 2 ^ 32 }
    ensures read { Gives expr_part result (one_step ((stage limit).line expr_line) (expr_part part.entry)) }
    ensures within { IfOk result (λ p. (part.entry.depth < p.depth) × (p.depth ≤ limit + 1)) }
{
    if let Some(arrow) = after_mark(part.rest, b"->") {
        return member(parser, part, arrow);
    }
    let opening = parser.mark(part.rest, b"[")?;
    element(parser, limit, part, opening)
}

fn member<'a>(
    parser: Parser,
    part: ExprPart<'a>,
    arrow: Front<'a>,
) -> Result<ExprPart<'a>, ParseError>
    requires { part.depth + 1 < 2 ^ 32 }
    ensures read { Gives expr_part result (step_arrow (expr_part part.entry) (front_of arrow.entry)) }
    ensures depth { IfOk result (λ p. p.depth ≡ part.entry.depth + 1) }
{
    let member = parser.name(arrow.rest)?;
    Ok(arrowed(parser.alloc, part, member)?)
}

#[cycle(expression)]
fn element<'a>(
    parser: Parser,
    limit: u32,
    part: ExprPart<'a>,
    opening: Front<'a>,
) -> Result<ExprPart<'a>, ParseError>
    requires depth { part.depth ≤ limit }
    requires room { limit + 1 < 2 ^ 32 }
    ensures read { Gives expr_part result (step_index ((stage limit).line expr_line) (expr_part part.entry) (front_of opening.entry)) }
    ensures within { IfOk result (λ p. (part.entry.depth < p.depth) × (p.depth ≤ limit + 1)) }
{
    let index = line(parser, EXPR_LINE, limit, opening.rest)?;
    let closing = parser.mark(index.rest, b"]")?;
    Ok(indexed(parser.alloc, part, index, closing)?)
}

#[cycle(expression)]
pub(crate) fn primary<'a>(
    parser: Parser,
    limit: u32,
    tokens: &'a [Token],
) -> Result<ExprPart<'a>, ParseError>
    requires { limit + 1 < 2 ^ 32 }
    ensures read { Gives expr_part result (read_primary (stage limit) tokens.now) }
    ensures within { IfOk result (λ p. p.depth ≤ limit + 1) }
{
    let Some(front) = first_token(tokens) else {
        return Err(ParseError::Parse(parser.place(tokens)));
    };
    let (token, rest) = (front.token, front.rest);
    if let Some(part) = literal(parser.alloc, token, rest)? {
        return Ok(part);
    }
    match &token.kind {
        TokenKind::Name(name) => {
            let name = copy_name(parser.alloc, name)?;
            let Some(opening) = after_mark(rest, b"(") else {
                return Ok(leaf(ExprForm::Name(name), token, rest));
            };
            if limit == 0 {
                return Err(ParseError::Parse(parser.place(rest)));
            }
            let args = args(parser, limit - 1, opening.rest)?;
            let closing = parser.mark(args.rest, b")")?;
            Ok(called(name, token, args, closing))
        }
        TokenKind::Word(_) => {
            let new = allocation(parser, limit, tokens)?;
            Ok(allocated(parser.alloc, None, new.at, new)?)
        }
        TokenKind::Mark(_) => {
            if !is_mark(&token.kind, b"(") {
                return Err(ParseError::Parse(token.at.start));
            }
            if limit == 0 {
                return Err(ParseError::Parse(token.at.start));
            }
            enclosed(parser, limit, token, rest)
        }
        _ => Err(ParseError::Parse(token.at.start)),
    }
}

/// What an opening parenthesis begins: a cast, or an expression.
#[cycle(expression)]
fn enclosed<'a>(
    parser: Parser,
    limit: u32,
    opening: &Token,
    tokens: &'a [Token],
) -> Result<ExprPart<'a>, ParseError>
    requires some { 0 < limit }
    requires room { limit + 1 < 2 ^ 32 }
    ensures read { Gives expr_part result (paren_at (stage limit) opening.now tokens.now) }
    ensures within { IfOk result (λ p. p.depth ≤ limit + 1) }
{
    if begins_base(tokens) {
        let cast = after_cast(parser, tokens)?;
        let new = allocation(parser, limit, cast.rest)?;
        let at = join(opening.at, new.at);
        return Ok(allocated(parser.alloc, Some(cast.kind), at, new)?);
    }
    let inner = line(parser, EXPR_LINE, limit, tokens)?;
    let closing = parser.mark(inner.rest, b")")?;
    Ok(ExprPart {
        tree: inner.tree,
        at: join(opening.at, closing.token.at),
        depth: inner.depth + 1,
        rest: closing.rest,
    })
}

/// The arguments of a call, up to the closing parenthesis.
#[cycle(expression)]
fn args<'a>(parser: Parser, limit: u32, tokens: &'a [Token]) -> Result<ArgsRow<'a>, ParseError>
    ensures read { Gives args_row result (args_before ((stage limit).line expr_line) tokens.now) }
    ensures within { IfOk result (λ a. a.depth ≤ limit) }
{
    let mut items = Items::new(parser.alloc);
    if after_mark(tokens, b")").is_some() {
        return Ok(ArgsRow {
            items,
            depth: 0,
            rest: tokens,
        });
    }
    let mut depth = 0;
    let mut rest = tokens;
    loop {
        let arg = line(parser, EXPR_LINE, limit, rest)?;
        items.push(arg.tree)?;
        depth = arg.depth.max(depth);
        let Some(comma) = after_mark(arg.rest, b",") else {
            return Ok(ArgsRow {
                items,
                depth,
                rest: arg.rest,
            });
        };
        rest = comma.rest;
    }
}

/// A call of `malloc` or `calloc`.
#[cycle(expression)]
fn allocation<'a>(
    parser: Parser,
    limit: u32,
    tokens: &'a [Token],
) -> Result<Allocation<'a>, ParseError>
    ensures read { Gives allocation_part result ((stage limit).allocation tokens.now) }
    ensures within { IfOk result (λ a. a.depth ≤ limit) }
{
    let Some(front) = first_token(tokens) else {
        return Err(ParseError::Parse(parser.place(tokens)));
    };
    let (token, rest) = (front.token, front.rest);
    if limit > 0 && is_word(&token.kind, b"malloc") {
        return malloc(parser, limit - 1, token, rest);
    }
    if limit > 1 && is_word(&token.kind, b"calloc") {
        let opening = parser.mark(rest, b"(")?;
        let count = line(parser, EXPR_LINE, limit - 1, opening.rest)?;
        return calloc_rest(parser, limit - 1, token, count);
    }
    Err(ParseError::Parse(token.at.start))
}

#[cycle(expression)]
fn malloc<'a>(
    parser: Parser,
    limit: u32,
    token: &Token,
    tokens: &'a [Token],
) -> Result<Allocation<'a>, ParseError>
    requires { limit + 1 < 2 ^ 32 }
    ensures read { Gives allocation_part result (malloc_after (stage limit) token.now tokens.now) }
    ensures within { IfOk result (λ a. a.depth ≤ limit + 1) }
{
    let opening = parser.mark(tokens, b"(")?;
    let size = size(parser, limit, opening.rest)?;
    let Some(closing) = after_mark(size.rest, b")") else {
        return Err(ParseError::Parse(after_size(parser, limit, &size)));
    };
    Ok(Allocation {
        zeroed: false,
        unit: size.unit,
        count: size.count,
        at: join(token.at, closing.token.at),
        depth: size.depth + 1,
        rest: closing.rest,
    })
}

/// The place of what cannot follow a size: an operator, or the `sizeof` after it where a number could follow.
fn after_size(parser: Parser, limit: u32, size: &SizeRow<'_>) -> u32 {
    match find(false, 1, size.rest) {
        Some(found) if size.unit.is_none() && size.depth < limit => parser.place(found.rest),
        _ => parser.place(size.rest),
    }
}

/// The size that `malloc` is given.
#[cycle(expression)]
fn size<'a>(parser: Parser, limit: u32, tokens: &'a [Token]) -> Result<SizeRow<'a>, ParseError>
    ensures read { Gives size_row result ((stage limit).size tokens.now) }
    ensures within { IfOk result (λ s. s.depth ≤ limit) }
{
    if begins_sizeof(tokens) {
        let unit = unit(parser, limit, tokens)?;
        return units(parser, limit, unit);
    }
    if limit == 0 {
        return Err(ParseError::Parse(parser.place(tokens)));
    }
    let first = unary(parser, limit - 1, tokens)?;
    let count = operations(parser, true, 0, limit - 1, first)?;
    if let Some(times) = after_mark(count.rest, b"*") {
        let unit = unit(parser, limit, times.rest)?;
        return Ok(SizeRow {
            unit: Some(unit.tree),
            count: Some(count.tree),
            depth: count.depth.max(unit.depth),
            rest: unit.rest,
        });
    }
    let bytes = sum_of(parser, limit - 1, count)?;
    Ok(SizeRow {
        unit: None,
        count: Some(bytes.tree),
        depth: bytes.depth,
        rest: bytes.rest,
    })
}

/// A unit, and how many of these.
#[cycle(expression)]
fn units<'a>(parser: Parser, limit: u32, unit: UnitRow<'a>) -> Result<SizeRow<'a>, ParseError>
    requires { unit.depth ≤ limit }
    ensures read { Gives size_row result (size_unit ((stage limit).line product_line) (unit_row unit.entry) (after_mark (codes "*") unit.entry.rest.now)) }
    ensures within { IfOk result (λ s. s.depth ≤ limit) }
{
    let Some(times) = after_mark(unit.rest, b"*") else {
        return Ok(SizeRow {
            unit: Some(unit.tree),
            count: None,
            depth: unit.depth,
            rest: unit.rest,
        });
    };
    if limit == 0 {
        return Err(ParseError::Parse(parser.place(unit.rest)));
    }
    let count = line(parser, PRODUCT_LINE, limit, times.rest)?;
    Ok(SizeRow {
        unit: Some(unit.tree),
        count: Some(count.tree),
        depth: unit.depth.max(count.depth),
        rest: count.rest,
    })
}

/// The expression that begins with this product.
#[cycle(expression)]
fn sum_of<'a>(parser: Parser, limit: u32, product: ExprPart<'a>) -> Result<ExprPart<'a>, ParseError>
    requires depth { product.depth ≤ limit + 1 }
    requires room { limit + 1 < 2 ^ 32 }
    ensures read { Gives expr_part result (rise (stage limit) limit 5 (expr_part product.entry)) }
    ensures within { IfOk result (λ p. p.depth ≤ limit + 1) }
{
    let mut left = product;
    for line in 0..5 {
        left = operations(parser, false, line + 1, limit, left)?;
    }
    Ok(left)
}
