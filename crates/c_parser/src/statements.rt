ghost use Rattle.std.specs.Prelude.{◌≡◌, ◌≤◌, ◌<◌, ◌+◌, suc, length, codes, is_some, IfOk, OnOk, option_and_then};
ghost use Rattle.c_tree.specs.Plain.{no_stmts};
ghost use Rattle.c_tree.specs.View.{stmts_view};
ghost use Rattle.c_grammar.specs.Stmts.{joined};
ghost use Rattle.c_grammar.specs.Reading.{after_mark, after_word};
ghost use Rattle.c_grammar.specs.ReadStmts.{one_stmt, read_stmt, stmt_by, block_after, read_block, read_simple, simple_closed, read_enclosed, heading_condition, heading_step, read_heading, read_first, read_condition, read_step, body, word_end, return_at, when_at, when_after, while_after, for_after};
ghost use Rattle.c_parser.specs.Views.{expr_part, Gives};
ghost use Rattle.c_parser.specs.StmtViews.{stmt_part, stmts_row, heading_row, braced_of, condition_row, step_row, jump_of, chunk_view, chunk_row, chunk};

use crate::error::ParseError;
use crate::exprs::{EXPR_LINE, line};
use crate::locals::locals;
use crate::operators::begins_base;
use crate::parts::ExprPart;
use crate::simple::{enclosed, simple};
use crate::statement_parts::{
    HeadingRow, StmtPart, StmtsRow, blocked, boxed, chosen, conditional, looped, repeated,
};
use crate::tokens::{Parser, after_mark, after_word, is_mark, is_word, join};
use c_token::Token;
use c_tree::{Expr, Span, Stmt, StmtForm, Stmts};
use sqlite_items::{Boxed, Items};
use std::alloc::AllocError;

/// The condition of a `for`.
#[derive(Drop)]
struct ConditionRow<'a> {
    tree: Option<Expr>,
    depth: u32,
    rest: &'a [Token],
}

/// The step of a `for`.
#[derive(Drop)]
struct StepRow<'a> {
    tree: Option<Boxed<Stmt>>,
    depth: u32,
    rest: &'a [Token],
}

/// What stands in a block: the variables of one line of declarations, or one statement.
#[derive(Drop)]
enum Chunk {
    Locals(Stmts),
    One(Stmt),
}

/// A chunk of a block, and the tokens after it.
#[derive(Drop)]
struct ChunkRow<'a> {
    chunk: Chunk,
    depth: u32,
    rest: &'a [Token],
}

/// A block, with the span of its closing brace.
#[derive(Drop)]
pub(crate) struct Braced<'a> {
    pub part: StmtPart<'a>,
    pub brace: Span,
}

/// No statements before these tokens.
fn no_row<'a>(parser: Parser, tokens: &'a [Token]) -> StmtsRow<'a>
    ensures { stmts_row result ≡ record { tree = no_stmts; depth = 0; rest = tokens.now } }
{
    StmtsRow {
        items: Items::new(parser.alloc),
        depth: 0,
        rest: tokens,
    }
}

/// A statement alone.
fn one_row<'a>(parser: Parser, part: StmtPart<'a>) -> Result<StmtsRow<'a>, AllocError>
    ensures row { IfOk result (λ r. stmts_row r ≡ one_stmt (stmt_part part.entry)) }
    ensures depth { IfOk result (λ r. r.depth ≡ part.entry.depth) }
{
    let mut items = Items::new(parser.alloc);
    items.push(part.tree)?;
    Ok(StmtsRow {
        items,
        depth: part.depth,
        rest: part.rest,
    })
}

fn first_row<'a>(
    parser: Parser,
    limit: u32,
    tokens: &'a [Token],
) -> Result<StmtsRow<'a>, ParseError>
    requires { limit ≤ 200 }
    ensures read { Gives stmts_row result (read_first limit tokens.now) }
    ensures within { IfOk result (λ r. r.depth ≤ limit) }
{
    if after_mark(tokens, b";").is_some() {
        return Ok(no_row(parser, tokens));
    }
    if begins_base(tokens) {
        return locals(parser, limit, tokens);
    }
    let simple = simple(parser, limit, tokens)?;
    Ok(one_row(parser, simple)?)
}

fn condition<'a>(
    parser: Parser,
    limit: u32,
    tokens: &'a [Token],
) -> Result<ConditionRow<'a>, ParseError>
    ensures read { Gives condition_row result (read_condition limit tokens.now) }
    ensures within { IfOk result (λ r. r.depth ≤ limit) }
{
    if after_mark(tokens, b";").is_some() {
        return Ok(ConditionRow {
            tree: None,
            depth: 0,
            rest: tokens,
        });
    }
    let part = line(parser, EXPR_LINE, limit, tokens)?;
    Ok(ConditionRow {
        tree: Some(part.tree),
        depth: part.depth,
        rest: part.rest,
    })
}

fn last_row<'a>(parser: Parser, limit: u32, tokens: &'a [Token]) -> Result<StepRow<'a>, ParseError>
    requires { limit ≤ 200 }
    ensures read { Gives step_row result (read_step limit tokens.now) }
    ensures within { IfOk result (λ r. r.depth ≤ limit) }
{
    if after_mark(tokens, b")").is_some() {
        return Ok(StepRow {
            tree: None,
            depth: 0,
            rest: tokens,
        });
    }
    let simple = simple(parser, limit, tokens)?;
    Ok(StepRow {
        tree: Some(Boxed::new(parser.alloc, simple.tree)?),
        depth: simple.depth,
        rest: simple.rest,
    })
}

/// The parentheses of a `for` and what they hold.
fn heading<'a>(
    parser: Parser,
    limit: u32,
    tokens: &'a [Token],
) -> Result<HeadingRow<'a>, ParseError>
    requires some { 0 < limit }
    requires room { limit ≤ 200 }
    ensures read { Gives heading_row result (read_heading limit tokens.now) }
    ensures within { IfOk result (λ h. h.depth ≤ limit) }
{
    let opening = parser.mark(tokens, b"(")?;
    let first = first_row(parser, limit - 1, opening.rest)?;
    heading_condition(parser, limit - 1, first)
}

/// What follows the first part of the parentheses of a `for`.
fn heading_condition<'a>(
    parser: Parser,
    limit: u32,
    first: StmtsRow<'a>,
) -> Result<HeadingRow<'a>, ParseError>
    requires room { limit < 200 }
    requires depth { first.depth ≤ limit }
    ensures read { Gives heading_row result (heading_condition limit (stmts_row first.entry)) }
    ensures within { IfOk result (λ h. h.depth ≤ limit + 1) }
{
    let semicolon = parser.mark(first.rest, b";")?;
    let condition = condition(parser, limit, semicolon.rest)?;
    heading_step(parser, limit, first, condition)
}

fn heading_step<'a>(
    parser: Parser,
    limit: u32,
    first: StmtsRow<'a>,
    condition: ConditionRow<'a>,
) -> Result<HeadingRow<'a>, ParseError>
    requires room { limit < 200 }
    requires first { first.depth ≤ limit }
    requires condition { condition.depth ≤ limit }
    ensures read { Gives heading_row result (heading_step limit (stmts_row first.entry) (condition_row condition.entry)) }
    ensures within { IfOk result (λ h. h.depth ≤ limit + 1) }
{
    let semicolon = parser.mark(condition.rest, b";")?;
    let step = last_row(parser, limit, semicolon.rest)?;
    let closing = parser.mark(step.rest, b")")?;
    Ok(HeadingRow {
        first: first.items,
        condition: condition.tree,
        step: step.tree,
        depth: first.depth.max(condition.depth.max(step.depth)) + 1,
        rest: closing.rest,
    })
}

/// A `break` or a `continue`, after its word.
fn jump<'a>(
    parser: Parser,
    is_break: bool,
    token: &Token,
    tokens: &'a [Token],
) -> Result<StmtPart<'a>, ParseError>
    ensures { Gives stmt_part result (word_end (jump_of is_break) token.now tokens.now) }
{
    let end = parser.mark(tokens, b";")?;
    let at = join(token.at, end.token.at);
    let form = if is_break {
        StmtForm::Break
    } else {
        StmtForm::Continue
    };
    Ok(StmtPart {
        tree: Stmt { at, form },
        at,
        depth: 1,
        rest: end.rest,
    })
}

fn return_stmt<'a>(
    parser: Parser,
    limit: u32,
    token: &Token,
    tokens: &'a [Token],
) -> Result<StmtPart<'a>, ParseError>
    requires { limit < 200 }
    ensures read { Gives stmt_part result (return_at limit token.now tokens.now (after_mark (codes ";") tokens.now)) }
    ensures within { IfOk result (λ p. p.depth ≤ limit + 1) }
{
    let (value, depth, end) = match after_mark(tokens, b";") {
        Some(end) => (None, 1, end),
        None => {
            let part = line(parser, EXPR_LINE, limit, tokens)?;
            let end = parser.mark(part.rest, b";")?;
            (Some(part.tree), part.depth + 1, end)
        }
    };
    let at = join(token.at, end.token.at);
    Ok(StmtPart {
        tree: Stmt {
            at,
            form: StmtForm::Return(value),
        },
        at,
        depth,
        rest: end.rest,
    })
}

/// A statement, spelled at most `limit` deep.
#[cycle(statement)]
pub(crate) fn stmt<'a>(
    parser: Parser,
    limit: u32,
    tokens: &'a [Token],
) -> Result<StmtPart<'a>, ParseError>
    requires { limit ≤ 200 }
    ensures read { Gives stmt_part result (read_stmt limit tokens.now) }
    ensures within { IfOk result (λ p. p.depth ≤ limit) }
{
    if limit == 0 {
        return Err(ParseError::Parse(parser.place(tokens)));
    }
    stmt_over(parser, limit - 1, tokens)
}

/// A statement that holds nothing deeper than `limit`.
#[cycle(statement)]
fn stmt_over<'a>(
    parser: Parser,
    limit: u32,
    tokens: &'a [Token],
) -> Result<StmtPart<'a>, ParseError>
    requires { limit < 200 }
    ensures read { Gives stmt_part result (stmt_by (read_stmt limit) limit tokens.now) }
    ensures within { IfOk result (λ p. p.depth ≤ limit + 1) }
{
    let Some((token, rest)) = tokens.split_first() else {
        return Err(ParseError::Parse(parser.place(tokens)));
    };
    if is_mark(&token.kind, b"{") {
        let braced = block_over(parser, limit, token, rest)?;
        return Ok(braced.part);
    }
    if is_mark(&token.kind, b";") {
        return Ok(nothing(token, rest));
    }
    if is_word(&token.kind, b"break") {
        return jump(parser, true, token, rest);
    }
    if is_word(&token.kind, b"continue") {
        return jump(parser, false, token, rest);
    }
    if is_word(&token.kind, b"return") {
        return return_stmt(parser, limit, token, rest);
    }
    if is_word(&token.kind, b"if") {
        return when(parser, limit, token, rest);
    }
    if is_word(&token.kind, b"while") {
        return while_loop(parser, limit, token, rest);
    }
    if is_word(&token.kind, b"for") {
        return for_loop(parser, limit, token, rest);
    }
    closed(parser, limit, tokens)
}

fn nothing<'a>(token: &Token, rest: &'a [Token]) -> StmtPart<'a>
    ensures { result ≡ record { tree = record { at = token.now.at; form = StmtForm.Nothing }; at = token.now.at; depth = 1; rest = rest.entry } }
{
    StmtPart {
        tree: Stmt {
            at: token.at,
            form: StmtForm::Nothing,
        },
        at: token.at,
        depth: 1,
        rest,
    }
}

/// A simple statement with its `;`.
fn closed<'a>(parser: Parser, limit: u32, tokens: &'a [Token]) -> Result<StmtPart<'a>, ParseError>
    requires { limit < 200 }
    ensures read { Gives stmt_part result (option_and_then simple_closed (read_simple (suc limit) tokens.now)) }
    ensures within { IfOk result (λ p. p.depth ≤ limit + 1) }
{
    let simple = simple(parser, limit + 1, tokens)?;
    match parser.mark(simple.rest, b";") {
        Ok(end) => Ok(StmtPart {
            tree: simple.tree,
            at: join(simple.at, end.token.at),
            depth: simple.depth,
            rest: end.rest,
        }),
        Err(error) => {
            drop(simple);
            Err(error)
        }
    }
}

/// The body of a procedure, spelled at most `limit` deep.
pub(crate) fn block<'a>(
    parser: Parser,
    limit: u32,
    tokens: &'a [Token],
) -> Result<Braced<'a>, ParseError>
    requires some { 0 < limit }
    requires room { limit ≤ 200 }
    ensures { Gives braced_of result (read_block limit tokens.now) }
{
    let opening = parser.mark(tokens, b"{")?;
    block_over(parser, limit - 1, opening.token, opening.rest)
}

/// A block, after its opening brace.
#[cycle(statement)]
fn block_over<'a>(
    parser: Parser,
    limit: u32,
    opening: &Token,
    tokens: &'a [Token],
) -> Result<Braced<'a>, ParseError>
    requires { limit < 200 }
    ensures read { Gives braced_of result (block_after (read_stmt limit) limit (record { token = opening.now; rest = tokens.now })) }
    ensures within { IfOk result (λ b. b.part.depth ≤ limit + 1) }
{
    let body = stmts(parser, limit, tokens)?;
    let closing = parser.mark(body.rest, b"}")?;
    Ok(Braced {
        part: blocked(opening, body, closing),
        brace: closing.token.at,
    })
}

/// The declarations and statements of a block, up to its closing brace.
#[cycle(statement)]
fn stmts<'a>(parser: Parser, limit: u32, tokens: &'a [Token]) -> Result<StmtsRow<'a>, ParseError>
    requires { limit < 200 }
    ensures read { Gives stmts_row result (body (suc (length tokens.now)) (read_stmt limit) limit tokens.now) }
    ensures within { IfOk result (λ s. s.depth ≤ limit) }
{
    let mut items = Items::new(parser.alloc);
    let mut depth = 0;
    let mut rest = tokens;
    while !ends_block(rest) {
        let row = next_chunk(parser, limit, rest)?;
        depth = row.depth.max(depth);
        rest = row.rest;
        put(&mut items, row.chunk)?;
    }
    Ok(StmtsRow { items, depth, rest })
}

/// Whether a closing brace follows.
pub(crate) fn ends_block(tokens: &[Token]) -> bool
    ensures { result ≡ is_some (after_mark (codes "}") tokens.now) }
{
    after_mark(tokens, b"}").is_some()
}

fn put(items: &mut Stmts, chunk: Chunk) -> Result<(), AllocError>
    ensures { OnOk result (stmts_view items.new ≡ joined (stmts_view items.old) (chunk_view chunk)) }
{
    match chunk {
        Chunk::Locals(locals) => items.append(locals),
        Chunk::One(stmt) => items.push(stmt),
    }
}

/// One line of declarations, or one statement.
#[cycle(statement)]
fn next_chunk<'a>(
    parser: Parser,
    limit: u32,
    tokens: &'a [Token],
) -> Result<ChunkRow<'a>, ParseError>
    requires { limit < 200 }
    ensures read { Gives chunk_row result (chunk (read_stmt limit) limit tokens.now) }
    ensures within { IfOk result (λ r. r.depth ≤ limit) }
{
    if begins_base(tokens) {
        let locals = locals(parser, limit, tokens)?;
        let semicolon = parser.mark(locals.rest, b";")?;
        return Ok(ChunkRow {
            chunk: Chunk::Locals(locals.items),
            depth: locals.depth,
            rest: semicolon.rest,
        });
    }
    let stmt = stmt(parser, limit, tokens)?;
    Ok(ChunkRow {
        chunk: Chunk::One(stmt.tree),
        depth: stmt.depth,
        rest: stmt.rest,
    })
}

/// An `if`, with its `else` where one follows.
#[cycle(statement)]
fn when<'a>(
    parser: Parser,
    limit: u32,
    token: &Token,
    tokens: &'a [Token],
) -> Result<StmtPart<'a>, ParseError>
    requires { limit < 200 }
    ensures read { Gives stmt_part result (option_and_then (when_after (read_stmt limit) token.now) (read_enclosed limit tokens.now)) }
    ensures within { IfOk result (λ p. p.depth ≤ limit + 1) }
{
    if limit < 2 {
        return Err(ParseError::Parse(token.at.start));
    }
    let condition = enclosed(parser, limit, tokens)?;
    let then = stmt(parser, limit, condition.rest)?;
    alternative(parser, limit, token, condition, then)
}

/// The `else` after the first branch of an `if`, where one follows.
#[cycle(statement)]
fn alternative<'a>(
    parser: Parser,
    limit: u32,
    token: &Token,
    condition: ExprPart<'a>,
    then: StmtPart<'a>,
) -> Result<StmtPart<'a>, ParseError>
    requires room { limit < 200 }
    requires condition { condition.depth ≤ limit }
    requires then { then.depth ≤ limit }
    ensures read { Gives stmt_part result (when_at (read_stmt limit) token.now (expr_part condition.entry) (stmt_part then.entry) (after_word (codes "else") then.entry.rest.now)) }
    ensures within { IfOk result (λ p. p.depth ≤ limit + 1) }
{
    let Some(word) = after_word(then.rest, b"else") else {
        return Ok(conditional(parser.alloc, token, condition, then)?);
    };
    let then = boxed(parser.alloc, then)?;
    let other = stmt(parser, limit, word.rest)?;
    let other = boxed(parser.alloc, other)?;
    Ok(chosen(token, condition, then, other))
}

#[cycle(statement)]
fn while_loop<'a>(
    parser: Parser,
    limit: u32,
    token: &Token,
    tokens: &'a [Token],
) -> Result<StmtPart<'a>, ParseError>
    requires { limit < 200 }
    ensures read { Gives stmt_part result (option_and_then (while_after (read_stmt limit) token.now) (read_enclosed limit tokens.now)) }
    ensures within { IfOk result (λ p. p.depth ≤ limit + 1) }
{
    if limit < 2 {
        return Err(ParseError::Parse(token.at.start));
    }
    let condition = enclosed(parser, limit, tokens)?;
    let stmt = stmt(parser, limit, condition.rest)?;
    Ok(looped(parser.alloc, token, condition, stmt)?)
}

#[cycle(statement)]
fn for_loop<'a>(
    parser: Parser,
    limit: u32,
    token: &Token,
    tokens: &'a [Token],
) -> Result<StmtPart<'a>, ParseError>
    requires { limit < 200 }
    ensures read { Gives stmt_part result (option_and_then (for_after (read_stmt limit) token.now) (read_heading limit tokens.now)) }
    ensures within { IfOk result (λ p. p.depth ≤ limit + 1) }
{
    if limit == 0 {
        return Err(ParseError::Parse(token.at.start));
    }
    let heading = heading(parser, limit, tokens)?;
    let stmt = stmt(parser, limit, heading.rest)?;
    Ok(repeated(parser.alloc, token, heading, stmt)?)
}
