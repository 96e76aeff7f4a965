ghost use Rattle.std.specs.Prelude.{◌≡◌, ◌≤◌, ◌<◌, ◌+◌, ◌^◌, false, IfOk, option_and_then};
ghost use Rattle.c_tree.specs.View.{expr_view};
ghost use Rattle.c_grammar.specs.ReadExprs.{stage, read_primary};
ghost use Rattle.c_grammar.specs.ReadStmts.{read_enclosed, read_simple, from_target, from_primary, free_closed, is_name};
ghost use Rattle.c_parser.specs.Views.{front_of, expr_part, Gives};
ghost use Rattle.c_parser.specs.StmtViews.{stmt_part, step_path, is_variable, is_call};

use crate::error::ParseError;
use crate::exprs::{EXPR_LINE, begins_step, line, primary, steps};
use crate::parts::ExprPart;
use crate::statement_parts::{StmtPart, assigned, call_only, freed, path_copy, stepped};
use crate::tokens::{Front, Parser, after_mark, first_token, is_word, join};
use c_token::{Token, TokenKind};
use c_tree::{BinaryOp, Expr, ExprForm};

/// An expression in parentheses, at most `limit` deep with these.
pub(crate) fn enclosed<'a>(
    parser: Parser,
    limit: u32,
    tokens: &'a [Token],
) -> Result<ExprPart<'a>, ParseError>
    requires { 0 < limit }
    ensures read { Gives expr_part result (read_enclosed limit tokens.now) }
    ensures within { IfOk result (λ p. p.depth ≤ limit) }
{
    let opening = parser.mark(tokens, b"(")?;
    let inner = line(parser, EXPR_LINE, limit - 1, opening.rest)?;
    let closing = parser.mark(inner.rest, b")")?;
    Ok(ExprPart {
        tree: inner.tree,
        at: join(opening.token.at, closing.token.at),
        depth: inner.depth + 1,
        rest: closing.rest,
    })
}

/// A statement without its `;`: an assignment, a call or a `free`, at most `limit` deep.
pub(crate) fn simple<'a>(
    parser: Parser,
    limit: u32,
    tokens: &'a [Token],
) -> Result<StmtPart<'a>, ParseError>
    requires { limit ≤ 200 }
    ensures read { Gives stmt_part result (read_simple limit tokens.now) }
    ensures within { IfOk result (λ p. p.depth ≤ limit) }
{
    let Some(front) = first_token(tokens) else {
        return Err(ParseError::Parse(parser.place(tokens)));
    };
    if limit < 2 {
        return Err(ParseError::Parse(front.token.at.start));
    }
    if is_word(&front.token.kind, b"free") {
        return release(parser, limit - 1, front.token, front.rest);
    }
    if !is_name(&front.token.kind) {
        return from_operand(parser, limit - 2, tokens);
    }
    let first = primary(parser, limit - 2, tokens)?;
    after_primary(parser, limit - 2, true, first)
}

fn is_name(kind: &TokenKind) -> bool
    ensures { result ≡ is_name kind.now }
{
    matches!(kind, TokenKind::Name(_))
}

/// What an operand that is no name begins: a member or an element of it, so one level less is left to the operand itself.
fn from_operand<'a>(
    parser: Parser,
    limit: u32,
    tokens: &'a [Token],
) -> Result<StmtPart<'a>, ParseError>
    requires { limit ≤ 198 }
    ensures read { Gives stmt_part result (option_and_then (from_primary limit (stage limit) false) (read_primary (stage limit) tokens.now)) }
{
    if limit == 0 {
        return Err(ParseError::Parse(parser.place(tokens)));
    }
    let first = primary(parser, limit - 1, tokens)?;
    after_primary(parser, limit, false, first)
}

/// A `free`, after its word.
fn release<'a>(
    parser: Parser,
    limit: u32,
    token: &Token,
    tokens: &'a [Token],
) -> Result<StmtPart<'a>, ParseError>
    requires some { 0 < limit }
    requires room { limit < 200 }
    ensures read { Gives stmt_part result (option_and_then (free_closed token.now) (read_enclosed limit tokens.now)) }
{
    if limit == 1 {
        return Err(ParseError::Parse(token.at.start));
    }
    let enclosed = enclosed(parser, limit, tokens)?;
    Ok(freed(token, enclosed))
}

/// What a primary at the front of a simple statement begins.
fn after_primary<'a>(
    parser: Parser,
    limit: u32,
    named: bool,
    first: ExprPart<'a>,
) -> Result<StmtPart<'a>, ParseError>
    requires room { limit ≤ 198 }
    requires depth { first.depth ≤ limit + 1 }
    ensures read { Gives stmt_part result (from_primary limit (stage limit) named (expr_part first.entry)) }
{
    if begins_step(first.rest) {
        let target = steps(parser, limit, first)?;
        return after_target(parser, limit + 1, named, target);
    }
    if !named {
        return Err(ParseError::Parse(parser.place(first.rest)));
    }
    if is_variable(&first.tree) {
        return after_target(parser, limit + 1, true, first);
    }
    if is_call(&first.tree) {
        return Ok(call_only(first));
    }
    Err(ParseError::Parse(parser.place(first.rest)))
}

fn is_variable(tree: &Expr) -> bool
    ensures { result ≡ is_variable (expr_view tree.now) }
{
    matches!(&tree.form, ExprForm::Name(_))
}

fn is_call(tree: &Expr) -> bool
    ensures { result ≡ is_call (expr_view tree.now) }
{
    matches!(&tree.form, ExprForm::Call(_, _))
}

/// What is done to a target.
fn after_target<'a>(
    parser: Parser,
    limit: u32,
    named: bool,
    target: ExprPart<'a>,
) -> Result<StmtPart<'a>, ParseError>
    requires room { limit ≤ 199 }
    requires depth { target.depth ≤ limit }
    ensures read { Gives stmt_part result (from_target limit named (expr_part target.entry)) }
{
    if let Some(equals) = after_mark(target.rest, b"=") {
        let source = line(parser, EXPR_LINE, limit, equals.rest)?;
        return Ok(assigned(target, source));
    }
    if let Some(sign) = after_mark(target.rest, b"++") {
        return by_one(parser, limit, named, BinaryOp::Add, target, sign);
    }
    if let Some(sign) = after_mark(target.rest, b"--") {
        return by_one(parser, limit, named, BinaryOp::Sub, target, sign);
    }
    Err(ParseError::Parse(parser.place(target.rest)))
}

/// One more or less at a path.
fn by_one<'a>(
    parser: Parser,
    limit: u32,
    named: bool,
    op: BinaryOp,
    target: ExprPart<'a>,
    sign: Front<'a>,
) -> Result<StmtPart<'a>, ParseError>
    requires { limit ≤ 199 }
    ensures read { Gives stmt_part result (step_path limit named (expr_part target.entry) op (front_of sign.entry)) }
{
    if !named || target.depth >= limit {
        return Err(ParseError::Parse(parser.place(target.rest)));
    }
    let Some(copy) = path_copy(parser.alloc, &target.tree)? else {
        return Err(ParseError::Parse(parser.place(target.rest)));
    };
    Ok(stepped(parser.alloc, op, target, copy, sign)?)
}
