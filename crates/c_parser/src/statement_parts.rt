ghost use Rattle.std.specs.Prelude.{◌≡◌, ◌≤◌, ◌<◌, ◌+◌, ◌^◌, max, pos, IfOk, option_map};
ghost use Rattle.c_tree.specs.Plain.{num, binary, arrow, do_call, free, when, while};
ghost use Rattle.c_tree.specs.View.{expr_view};
ghost use Rattle.c_grammar.specs.Parts.{join};
ghost use Rattle.c_grammar.specs.Stmts.{holding, declared_as, assigned, stepped, blocked, governed, chosen, repeated};
ghost use Rattle.c_parser.specs.Views.{expr_part};
ghost use Rattle.c_parser.specs.StmtViews.{stmt_part, boxed_part, stmts_row, heading_row, path_of, declared};

use crate::parts::ExprPart;
use crate::tokens::{Front, copy_name, join};
use c_token::Token;
use c_tree::{BinaryOp, Expr, ExprForm, Member, Name, Span, Stmt, StmtForm, Stmts};
use sqlite_items::Boxed;
use std::alloc::{AllocError, Global};

/// A statement at the front of some tokens: its tree, its span with the `;` that ends it, the depth of its spelling, and
/// the tokens after it.
#[derive(Drop)]
pub(crate) struct StmtPart<'a> {
    pub tree: Stmt,
    pub at: Span,
    pub depth: u32,
    pub rest: &'a [Token],
}

/// Statements, with the depth of the deepest.
#[derive(Drop)]
pub(crate) struct StmtsRow<'a> {
    pub items: Stmts,
    pub depth: u32,
    pub rest: &'a [Token],
}

/// What the parentheses of a `for` hold.
#[derive(Drop)]
pub(crate) struct HeadingRow<'a> {
    pub first: Stmts,
    pub condition: Option<Expr>,
    pub step: Option<Boxed<Stmt>>,
    pub depth: u32,
    pub rest: &'a [Token],
}

/// The first of them holds the second.
pub(crate) fn assigned<'a>(left: ExprPart<'a>, right: ExprPart<'a>) -> StmtPart<'a>
    requires { max left.depth right.depth + 1 < 2 ^ 32 }
    ensures { stmt_part result ≡ assigned (expr_part left.entry) (expr_part right.entry) }
{
    let at = join(left.at, right.at);
    StmtPart {
        tree: Stmt {
            at,
            form: StmtForm::Assign(left.tree, right.tree),
        },
        at,
        depth: left.depth.max(right.depth) + 1,
        rest: right.rest,
    }
}

/// A call whose result is not used.
pub(crate) fn call_only<'a>(call: ExprPart<'a>) -> StmtPart<'a>
    requires { call.depth + 1 < 2 ^ 32 }
    ensures { stmt_part result ≡ holding do_call call.entry.at (expr_part call.entry) call.entry.rest.now }
{
    StmtPart {
        tree: Stmt {
            at: call.at,
            form: StmtForm::Do(call.tree),
        },
        at: call.at,
        depth: call.depth + 1,
        rest: call.rest,
    }
}

/// One more or less than a path holds; the sum and its 1 have this span.
fn changed_by_one(alloc: Global, op: BinaryOp, at: Span, path: Expr) -> Result<Expr, AllocError>
    ensures { IfOk result (λ e. expr_view e ≡ binary at op (expr_view path) (num at (pos 1))) }
{
    let one = Expr {
        at,
        form: ExprForm::Num(1),
    };
    let left = Boxed::new(alloc, path)?;
    let right = Boxed::new(alloc, one)?;
    Ok(Expr {
        at,
        form: ExprForm::Binary(op, left, right),
    })
}

/// `path++` or `path--` as an assignment; the second tree is a copy of the path's.
pub(crate) fn stepped<'a>(
    alloc: Global,
    op: BinaryOp,
    path: ExprPart<'a>,
    copy: Expr,
    sign: Front<'a>,
) -> Result<StmtPart<'a>, AllocError>
    requires depth { path.depth + 3 < 2 ^ 32 }
    requires copy { expr_view copy ≡ expr_view path.tree }
    ensures { IfOk result (λ s. stmt_part s ≡ stepped op (expr_part path.entry) sign.entry.token.now sign.entry.rest.now) }
{
    let at = join(path.at, sign.token.at);
    let source = changed_by_one(alloc, op, at, copy)?;
    Ok(StmtPart {
        tree: Stmt {
            at,
            form: StmtForm::Assign(path.tree, source),
        },
        at,
        depth: path.depth.max(path.depth.max(1) + 1) + 1,
        rest: sign.rest,
    })
}

fn arrow_copy(alloc: Global, at: Span, base: Expr, member: &Name) -> Result<Expr, AllocError>
    ensures { IfOk result (λ e. expr_view e ≡ arrow at (expr_view base) member.now) }
{
    let member = copy_name(alloc, member)?;
    let base = Boxed::new(alloc, base)?;
    Ok(Expr {
        at,
        form: ExprForm::Arrow(base, member),
    })
}

/// A copy of a path; none of another tree.
pub(crate) fn path_copy(alloc: Global, tree: &Expr) -> Result<Option<Expr>, AllocError>
    ensures { IfOk result (λ o. option_map expr_view o ≡ path_of (expr_view tree.now)) }
{
    match &tree.form {
        ExprForm::Name(name) => {
            let form = ExprForm::Name(copy_name(alloc, name)?);
            Ok(Some(Expr { at: tree.at, form }))
        }
        ExprForm::Arrow(base, member) => match path_copy(alloc, base.get())? {
            Some(base) => Ok(Some(arrow_copy(alloc, tree.at, base, member)?)),
            None => Ok(None),
        },
        _ => Ok(None),
    }
}

pub(crate) fn freed<'a>(token: &Token, enclosed: ExprPart<'a>) -> StmtPart<'a>
    requires { enclosed.depth + 1 < 2 ^ 32 }
    ensures { stmt_part result ≡ holding free (join token.now.at enclosed.entry.at) (expr_part enclosed.entry) enclosed.entry.rest.now }
{
    let at = join(token.at, enclosed.at);
    StmtPart {
        tree: Stmt {
            at,
            form: StmtForm::Free(enclosed.tree),
        },
        at,
        depth: enclosed.depth + 1,
        rest: enclosed.rest,
    }
}

/// A declaration without an initialiser.
pub(crate) fn declared<'a>(member: Member, rest: &'a [Token]) -> StmtPart<'a>
    ensures { stmt_part result ≡ declared member rest.entry.now }
{
    StmtPart {
        tree: Stmt {
            at: member.at,
            form: StmtForm::Local(member.name, member.kind, None),
        },
        at: member.at,
        depth: 1,
        rest,
    }
}

/// A declaration with its initialiser.
pub(crate) fn declared_as<'a>(member: Member, source: ExprPart<'a>) -> StmtPart<'a>
    requires { source.depth + 1 < 2 ^ 32 }
    ensures { stmt_part result ≡ declared_as member (expr_part source.entry) }
{
    let at = join(member.at, source.at);
    StmtPart {
        tree: Stmt {
            at,
            form: StmtForm::Local(member.name, member.kind, Some(source.tree)),
        },
        at,
        depth: source.depth + 1,
        rest: source.rest,
    }
}

pub(crate) fn blocked<'a>(opening: &Token, body: StmtsRow<'a>, closing: Front<'a>) -> StmtPart<'a>
    requires { body.depth + 1 < 2 ^ 32 }
    ensures { stmt_part result ≡ blocked opening.now (stmts_row body.entry) closing.entry.token.now closing.entry.rest.now }
{
    let at = join(opening.at, closing.token.at);
    StmtPart {
        tree: Stmt {
            at,
            form: StmtForm::Block(body.items),
        },
        at,
        depth: body.depth + 1,
        rest: closing.rest,
    }
}

/// An `if` without an `else`.
pub(crate) fn conditional<'a>(
    alloc: Global,
    token: &Token,
    condition: ExprPart<'a>,
    stmt: StmtPart<'a>,
) -> Result<StmtPart<'a>, AllocError>
    requires { max condition.depth stmt.depth + 1 < 2 ^ 32 }
    ensures { IfOk result (λ s. stmt_part s ≡ governed when token.now (expr_part condition.entry) (stmt_part stmt.entry)) }
{
    let at = join(token.at, stmt.at);
    let depth = condition.depth.max(stmt.depth) + 1;
    let rest = stmt.rest;
    let stmt = Boxed::new(alloc, stmt.tree)?;
    Ok(StmtPart {
        tree: Stmt {
            at,
            form: StmtForm::If(condition.tree, stmt, None),
        },
        at,
        depth,
        rest,
    })
}

/// A `while`.
pub(crate) fn looped<'a>(
    alloc: Global,
    token: &Token,
    condition: ExprPart<'a>,
    stmt: StmtPart<'a>,
) -> Result<StmtPart<'a>, AllocError>
    requires { max condition.depth stmt.depth + 1 < 2 ^ 32 }
    ensures { IfOk result (λ s. stmt_part s ≡ governed while token.now (expr_part condition.entry) (stmt_part stmt.entry)) }
{
    let at = join(token.at, stmt.at);
    let depth = condition.depth.max(stmt.depth) + 1;
    let rest = stmt.rest;
    let stmt = Boxed::new(alloc, stmt.tree)?;
    Ok(StmtPart {
        tree: Stmt {
            at,
            form: StmtForm::While(condition.tree, stmt),
        },
        at,
        depth,
        rest,
    })
}

/// A statement that another one will hold.
#[derive(Drop)]
pub(crate) struct BoxedPart<'a> {
    pub tree: Boxed<Stmt>,
    pub at: Span,
    pub depth: u32,
    pub rest: &'a [Token],
}

pub(crate) fn boxed<'a>(alloc: Global, part: StmtPart<'a>) -> Result<BoxedPart<'a>, AllocError>
    ensures { IfOk result (λ b. boxed_part b ≡ stmt_part part.entry) }
{
    let (at, depth, rest) = (part.at, part.depth, part.rest);
    Ok(BoxedPart {
        tree: Boxed::new(alloc, part.tree)?,
        at,
        depth,
        rest,
    })
}

/// An `if` with its `else`.
pub(crate) fn chosen<'a>(
    token: &Token,
    condition: ExprPart<'a>,
    then: BoxedPart<'a>,
    other: BoxedPart<'a>,
) -> StmtPart<'a>
    requires { max condition.depth (max then.depth other.depth) + 1 < 2 ^ 32 }
    ensures { stmt_part result ≡ chosen token.now (expr_part condition.entry) (boxed_part then.entry) (boxed_part other.entry) }
{
    let at = join(token.at, other.at);
    StmtPart {
        tree: Stmt {
            at,
            form: StmtForm::If(condition.tree, then.tree, Some(other.tree)),
        },
        at,
        depth: condition.depth.max(then.depth.max(other.depth)) + 1,
        rest: other.rest,
    }
}

/// A `for`.
pub(crate) fn repeated<'a>(
    alloc: Global,
    token: &Token,
    heading: HeadingRow<'a>,
    stmt: StmtPart<'a>,
) -> Result<StmtPart<'a>, AllocError>
    requires { max heading.depth stmt.depth + 1 < 2 ^ 32 }
    ensures { IfOk result (λ s. stmt_part s ≡ repeated token.now (heading_row heading.entry) (stmt_part stmt.entry)) }
{
    let at = join(token.at, stmt.at);
    let depth = heading.depth.max(stmt.depth) + 1;
    let rest = stmt.rest;
    let stmt = Boxed::new(alloc, stmt.tree)?;
    Ok(StmtPart {
        tree: Stmt {
            at,
            form: StmtForm::For(heading.first, heading.condition, heading.step, stmt),
        },
        at,
        depth,
        rest,
    })
}
