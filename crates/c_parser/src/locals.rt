ghost use Rattle.std.specs.Prelude.{◌≡◌, ◌≤◌, ◌<◌, IfOk, option_and_then};
ghost use Rattle.c_grammar.specs.ReadStmts.{declared, read_declarator, read_local, read_locals};
ghost use Rattle.c_grammar.specs.Types.{type_of};
ghost use Rattle.c_parser.specs.Views.{named_of, Gives};
ghost use Rattle.c_parser.specs.StmtViews.{declared_of, stmt_part, stmts_row};

use crate::error::ParseError;
use crate::exprs::{EXPR_LINE, line};
use crate::statement_parts::{StmtPart, StmtsRow, declared, declared_as};
use crate::tokens::{Named, Parser, after_mark, copy_name, join};
use crate::types::{base, star, type_of};
use c_token::Token;
use c_tree::{Member, Span, Unit};
use sqlite_items::Items;

/// A declarator, and the tokens after it.
#[derive(Drop)]
pub(crate) struct Declared<'a> {
    pub member: Member,
    pub rest: &'a [Token],
}

/// A name with or without a star, after the base of its type.
pub(crate) fn declarator<'a>(
    parser: Parser,
    base: &Unit,
    tokens: &'a [Token],
) -> Result<Declared<'a>, ParseError>
    ensures { Gives declared_of result (read_declarator base.now tokens.now) }
{
    match star(tokens) {
        Some(star) => {
            let named = parser.name(star.rest)?;
            let at = join(star.at, named.token.at);
            typed(parser, base, true, named, at)
        }
        None => {
            let named = parser.name(tokens)?;
            typed(parser, base, false, named, named.token.at)
        }
    }
}

/// A name of this type.
fn typed<'a>(
    parser: Parser,
    base: &Unit,
    starred: bool,
    named: Named<'a>,
    at: Span,
) -> Result<Declared<'a>, ParseError>
    ensures { Gives declared_of result (option_and_then (declared (named_of named.entry) at) (type_of base.now starred)) }
{
    let Some(kind) = type_of(parser.alloc, base, starred)? else {
        return Err(ParseError::Parse(named.token.at.start));
    };
    let name = copy_name(parser.alloc, named.name)?;
    Ok(Declared {
        member: Member { name, kind, at },
        rest: named.rest,
    })
}

/// One variable, with its initialiser where it has one.
fn local<'a>(
    parser: Parser,
    limit: u32,
    base: &Unit,
    tokens: &'a [Token],
) -> Result<StmtPart<'a>, ParseError>
    requires { 0 < limit }
    ensures read { Gives stmt_part result (read_local limit base.now tokens.now) }
    ensures within { IfOk result (λ p. p.depth ≤ limit) }
{
    let declarator = declarator(parser, base, tokens)?;
    let Some(equals) = after_mark(declarator.rest, b"=") else {
        return Ok(declared(declarator.member, declarator.rest));
    };
    if limit == 1 {
        return Err(ParseError::Parse(parser.place(declarator.rest)));
    }
    let source = line(parser, EXPR_LINE, limit - 1, equals.rest)?;
    Ok(declared_as(declarator.member, source))
}

/// Variables of one base.
pub(crate) fn locals<'a>(
    parser: Parser,
    limit: u32,
    tokens: &'a [Token],
) -> Result<StmtsRow<'a>, ParseError>
    ensures read { Gives stmts_row result (read_locals limit tokens.now) }
    ensures within { IfOk result (λ l. l.depth ≤ limit) }
{
    if limit == 0 {
        return Err(ParseError::Parse(parser.place(tokens)));
    }
    let base = base(parser, tokens)?;
    let mut items = Items::new(parser.alloc);
    let mut depth = 0;
    let mut rest = base.rest;
    loop {
        let local = local(parser, limit, &base.tree, rest)?;
        items.push(local.tree)?;
        depth = local.depth.max(depth);
        let Some(comma) = after_mark(local.rest, b",") else {
            return Ok(StmtsRow {
                items,
                depth,
                rest: local.rest,
            });
        };
        rest = comma.rest;
    }
}
