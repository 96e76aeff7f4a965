ghost use Rattle.std.specs.Prelude.{◌≡◌, ◌<◌, ◌+◌, ◌^◌, max, if◌then◌else◌, IfOk, option_map, Option, Some};
ghost use Rattle.c_tree.specs.declared.tree.TypeName.{TypeName};
ghost use Rattle.c_tree.specs.Plain.{not_of, neg};
ghost use Rattle.c_tree.specs.View.{expr_view, exprs_view};
ghost use Rattle.c_grammar.specs.Exprs.{operation, negation, arrowed, indexed, called, allocated};
ghost use Rattle.c_parser.specs.Views.{front_of, named_of, expr_part, args_row, allocation_part};

use crate::tokens::{Front, Named, copy_name, join};
use c_token::Token;
use c_tree::{BinaryOp, Expr, ExprForm, Exprs, Name, NewForm, Span, TypeName, Unit};
use sqlite_items::Boxed;
use std::alloc::{AllocError, Global};

/// An expression at the front of some tokens: its tree, its span with the parentheses around it, the depth of its
/// spelling, and the tokens after it.
#[derive(Drop)]
pub(crate) struct ExprPart<'a> {
    pub tree: Expr,
    pub at: Span,
    pub depth: u32,
    pub rest: &'a [Token],
}

/// Arguments, with the depth of the deepest.
#[derive(Drop)]
pub(crate) struct ArgsRow<'a> {
    pub items: Exprs,
    pub depth: u32,
    pub rest: &'a [Token],
}

/// What `sizeof` measures.
#[derive(Drop)]
pub(crate) struct UnitRow<'a> {
    pub tree: Unit,
    pub depth: u32,
    pub rest: &'a [Token],
}

/// The size that `malloc` is given: a unit, and how many of these, or how many bytes.
#[derive(Drop)]
pub(crate) struct SizeRow<'a> {
    pub unit: Option<Unit>,
    pub count: Option<Expr>,
    pub depth: u32,
    pub rest: &'a [Token],
}

/// A call of `malloc` or `calloc`.
#[derive(Drop)]
pub(crate) struct Allocation<'a> {
    pub zeroed: bool,
    pub unit: Option<Unit>,
    pub count: Option<Expr>,
    pub at: Span,
    pub depth: u32,
    pub rest: &'a [Token],
}

/// A node of one token.
pub(crate) fn leaf<'a>(form: ExprForm, token: &Token, rest: &'a [Token]) -> ExprPart<'a>
    ensures { result ≡ record { tree = record { at = token.now.at; form = form }; at = token.now.at; depth = 1; rest = rest.entry } }
{
    ExprPart {
        tree: Expr { at: token.at, form },
        at: token.at,
        depth: 1,
        rest,
    }
}

/// Two operands with their operator.
pub(crate) fn operation<'a>(
    alloc: Global,
    op: BinaryOp,
    left: ExprPart<'a>,
    right: ExprPart<'a>,
) -> Result<ExprPart<'a>, AllocError>
    requires { max left.depth right.depth + 1 < 2 ^ 32 }
    ensures { IfOk result (λ p. expr_part p ≡ operation op (expr_part left.entry) (expr_part right.entry)) }
{
    let at = join(left.at, right.at);
    let depth = left.depth.max(right.depth) + 1;
    let left = Boxed::new(alloc, left.tree)?;
    let rest = right.rest;
    let right = Boxed::new(alloc, right.tree)?;
    Ok(ExprPart {
        tree: Expr {
            at,
            form: ExprForm::Binary(op, left, right),
        },
        at,
        depth,
        rest,
    })
}

/// A `!` or a `-` before its operand.
pub(crate) fn negation<'a>(
    alloc: Global,
    is_not: bool,
    token: &Token,
    inner: ExprPart<'a>,
) -> Result<ExprPart<'a>, AllocError>
    requires { inner.depth + 1 < 2 ^ 32 }
    ensures { IfOk result (λ p. expr_part p ≡ negation (if is_not then not_of else neg) token.now (expr_part inner.entry)) }
{
    let at = join(token.at, inner.at);
    let operand = Boxed::new(alloc, inner.tree)?;
    let form = if is_not {
        ExprForm::Not(operand)
    } else {
        ExprForm::Neg(operand)
    };
    Ok(ExprPart {
        tree: Expr { at, form },
        at,
        depth: inner.depth + 1,
        rest: inner.rest,
    })
}

/// A member of what an expression points to.
pub(crate) fn arrowed<'a>(
    alloc: Global,
    base: ExprPart<'a>,
    member: Named<'a>,
) -> Result<ExprPart<'a>, AllocError>
    requires { base.depth + 1 < 2 ^ 32 }
    ensures { IfOk result (λ p. expr_part p ≡ arrowed (expr_part base.entry) member.entry.token.now member.entry.name.now member.entry.rest.now) }
{
    let at = join(base.at, member.token.at);
    let name = copy_name(alloc, member.name)?;
    let tree = Boxed::new(alloc, base.tree)?;
    Ok(ExprPart {
        tree: Expr {
            at,
            form: ExprForm::Arrow(tree, name),
        },
        at,
        depth: base.depth + 1,
        rest: member.rest,
    })
}

/// An element, up to the bracket that closes its index.
pub(crate) fn indexed<'a>(
    alloc: Global,
    base: ExprPart<'a>,
    index: ExprPart<'a>,
    closing: Front<'a>,
) -> Result<ExprPart<'a>, AllocError>
    requires { max base.depth index.depth + 1 < 2 ^ 32 }
    ensures { IfOk result (λ p. expr_part p ≡ indexed (expr_part base.entry) (expr_part index.entry) closing.entry.token.now closing.entry.rest.now) }
{
    let at = join(base.at, closing.token.at);
    let depth = base.depth.max(index.depth) + 1;
    let tree = Boxed::new(alloc, base.tree)?;
    let index = Boxed::new(alloc, index.tree)?;
    Ok(ExprPart {
        tree: Expr {
            at,
            form: ExprForm::Index(tree, index),
        },
        at,
        depth,
        rest: closing.rest,
    })
}

/// A call, up to the parenthesis that closes its arguments.
pub(crate) fn called<'a>(
    name: Name,
    token: &Token,
    args: ArgsRow<'a>,
    closing: Front<'a>,
) -> ExprPart<'a>
    requires { args.depth + 2 < 2 ^ 32 }
    ensures { expr_part result ≡ called token.now name (args_row args.entry) closing.entry.token.now closing.entry.rest.now }
{
    let at = join(token.at, closing.token.at);
    ExprPart {
        tree: Expr {
            at,
            form: ExprForm::Call(name, args.items),
        },
        at,
        depth: args.depth + 2,
        rest: closing.rest,
    }
}

/// An allocation, with the type of a cast before it.
pub(crate) fn allocated<'a>(
    alloc: Global,
    cast: Option<TypeName>,
    at: Span,
    allocation: Allocation<'a>,
) -> Result<ExprPart<'a>, AllocError>
    requires { allocation.depth + 1 < 2 ^ 32 }
    ensures { IfOk result (λ p. expr_part p ≡ allocated cast at (allocation_part allocation.entry)) }
{
    let Allocation {
        zeroed,
        unit,
        count,
        at: _,
        depth,
        rest,
    } = allocation;
    let count = match count {
        Some(count) => Some(Boxed::new(alloc, count)?),
        None => None,
    };
    let form = NewForm {
        cast,
        zeroed,
        unit,
        count,
    };
    Ok(ExprPart {
        tree: Expr {
            at,
            form: ExprForm::New(form),
        },
        at,
        depth: depth + 1,
        rest,
    })
}
