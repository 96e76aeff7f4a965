ghost use Rattle.std.specs.Prelude.{◌≡◌, ◌≤◌, ◌<◌, length, codes, IfOk, option_and_then, option_map};
ghost use Rattle.c_grammar.specs.Types.{type_of};
ghost use Rattle.c_grammar.specs.Reading.{after_mark};
ghost use Rattle.c_grammar.specs.ReadItems.{read_member, members, read_definition, read_type, read_param, some_params, read_params, read_answer, read_head, are_named, read_proc};
ghost use Rattle.c_parser.specs.Views.{Gives};
ghost use Rattle.c_parser.specs.ItemViews.{members_row, definition_row, type_piece, answer_piece, head_of, proc_part};
ghost use Rattle.c_parser.specs.StmtViews.{declared_of};

use crate::error::ParseError;
use crate::locals::{Declared, declarator};
use crate::statements::{block, ends_block};
use crate::tokens::{Parser, after_mark, after_name, after_word, copy_name, join};
use crate::types::{BasePiece, base, star, type_of};
use c_token::Token;
use c_tree::{Member, Members, Name, ProcItem, Span, Stmt, StructDef, TypeName};
use sqlite_items::Items;

/// The most that a spelling may be deep.
const MOST_DEPTH: u32 = 200;

/// Members or parameters, and the tokens after them.
#[derive(Drop)]
pub(crate) struct MembersRow<'a> {
    pub items: Members,
    pub rest: &'a [Token],
}

/// The definition of a struct, and the tokens after it.
#[derive(Drop)]
pub(crate) struct DefinitionRow<'a> {
    pub tree: StructDef,
    pub rest: &'a [Token],
}

/// A type, and the tokens after it.
#[derive(Drop)]
struct TypePiece<'a> {
    tree: TypeName,
    at: Span,
    rest: &'a [Token],
}

/// What a procedure returns; none for `void`.
#[derive(Drop)]
struct AnswerPiece<'a> {
    tree: Option<TypeName>,
    at: Span,
    rest: &'a [Token],
}

/// What stands before the `;` of a prototype or before a body.
#[derive(Drop)]
struct Head<'a> {
    answer: AnswerPiece<'a>,
    name: Name,
    name_at: Span,
    params: Members,
    rest: &'a [Token],
}

/// A prototype or a procedure.
#[derive(Drop)]
pub(crate) struct ProcPart<'a> {
    pub tree: ProcItem,
    pub depth: u32,
    pub rest: &'a [Token],
}

/// The members of one declaration.
fn member<'a>(parser: Parser, tokens: &'a [Token]) -> Result<MembersRow<'a>, ParseError>
    ensures { Gives members_row result (read_member tokens.now) }
{
    let base = base(parser, tokens)?;
    let mut items = Items::new(parser.alloc);
    let mut rest = base.rest;
    loop {
        let declared = declarator(parser, &base.tree, rest)?;
        items.push(declared.member)?;
        let Some(comma) = after_mark(declared.rest, b",") else {
            let semicolon = parser.mark(declared.rest, b";")?;
            return Ok(MembersRow {
                items,
                rest: semicolon.rest,
            });
        };
        rest = comma.rest;
    }
}

/// Members up to the closing brace.
fn members<'a>(parser: Parser, tokens: &'a [Token]) -> Result<MembersRow<'a>, ParseError>
    ensures { Gives members_row result (members (length tokens.now) tokens.now) }
{
    let mut items = Items::new(parser.alloc);
    let mut rest = tokens;
    loop {
        let member = member(parser, rest)?;
        items.append(member.items)?;
        rest = member.rest;
        if ends_block(rest) {
            return Ok(MembersRow { items, rest });
        }
    }
}

/// The definition of a struct, after its opening brace.
pub(crate) fn definition<'a>(
    parser: Parser,
    word: &Token,
    tag: &Name,
    tokens: &'a [Token],
) -> Result<DefinitionRow<'a>, ParseError>
    ensures { Gives definition_row result (read_definition word.now tag.now tokens.now) }
{
    let members = members(parser, tokens)?;
    let closing = parser.mark(members.rest, b"}")?;
    let semicolon = parser.mark(closing.rest, b";")?;
    Ok(DefinitionRow {
        tree: StructDef {
            tag: copy_name(parser.alloc, tag)?,
            at: join(word.at, semicolon.token.at),
            members: members.items,
        },
        rest: semicolon.rest,
    })
}

/// The type of a base that stands here, with a star or without one.
fn kind_of_base(parser: Parser, base: &BasePiece<'_>, starred: bool) -> Result<TypeName, ParseError>
    ensures { Gives (λ kind. kind) result (type_of base.now.tree starred) }
{
    match type_of(parser.alloc, &base.tree, starred)? {
        Some(kind) => Ok(kind),
        None => Err(ParseError::Parse(parser.place(base.rest))),
    }
}

fn type_name<'a>(parser: Parser, tokens: &'a [Token]) -> Result<TypePiece<'a>, ParseError>
    ensures { Gives type_piece result (read_type tokens.now) }
{
    let base = base(parser, tokens)?;
    match star(base.rest) {
        Some(star) => Ok(TypePiece {
            tree: kind_of_base(parser, &base, true)?,
            at: join(base.at, star.at),
            rest: star.rest,
        }),
        None => Ok(TypePiece {
            tree: kind_of_base(parser, &base, false)?,
            at: base.at,
            rest: base.rest,
        }),
    }
}

fn param<'a>(parser: Parser, tokens: &'a [Token]) -> Result<Declared<'a>, ParseError>
    ensures { Gives declared_of result (read_param tokens.now) }
{
    let kind = type_name(parser, tokens)?;
    let (name, at, rest) = match after_name(kind.rest) {
        Some(named) => (
            copy_name(parser.alloc, named.name)?,
            join(kind.at, named.token.at),
            named.rest,
        ),
        None => (
            Name {
                items: Vec::new(parser.alloc),
            },
            kind.at,
            kind.rest,
        ),
    };
    Ok(Declared {
        member: Member {
            name,
            kind: kind.tree,
            at,
        },
        rest,
    })
}

fn some_params<'a>(parser: Parser, tokens: &'a [Token]) -> Result<MembersRow<'a>, ParseError>
    ensures { Gives members_row result (some_params (length tokens.now) tokens.now) }
{
    let mut items = Items::new(parser.alloc);
    let mut rest = tokens;
    loop {
        let param = param(parser, rest)?;
        items.push(param.member)?;
        let Some(comma) = after_mark(param.rest, b",") else {
            return Ok(MembersRow {
                items,
                rest: param.rest,
            });
        };
        rest = comma.rest;
    }
}

/// Parameters, up to the closing parenthesis.
fn params<'a>(parser: Parser, tokens: &'a [Token]) -> Result<MembersRow<'a>, ParseError>
    ensures { Gives members_row result (read_params tokens.now) }
{
    let items = Items::new(parser.alloc);
    if after_mark(tokens, b")").is_some() {
        return Ok(MembersRow {
            items,
            rest: tokens,
        });
    }
    match after_word(tokens, b"void") {
        Some(void) => Ok(MembersRow {
            items,
            rest: void.rest,
        }),
        None => some_params(parser, tokens),
    }
}

fn answer<'a>(parser: Parser, tokens: &'a [Token]) -> Result<AnswerPiece<'a>, ParseError>
    ensures { Gives answer_piece result (read_answer tokens.now) }
{
    if let Some(void) = after_word(tokens, b"void") {
        return Ok(AnswerPiece {
            tree: None,
            at: void.token.at,
            rest: void.rest,
        });
    }
    let kind = type_name(parser, tokens)?;
    Ok(AnswerPiece {
        tree: Some(kind.tree),
        at: kind.at,
        rest: kind.rest,
    })
}

fn proc_head<'a>(parser: Parser, tokens: &'a [Token]) -> Result<Head<'a>, ParseError>
    ensures { Gives head_of result (read_head tokens.now) }
{
    let answer = answer(parser, tokens)?;
    let named = parser.name(answer.rest)?;
    let opening = parser.mark(named.rest, b"(")?;
    let params = params(parser, opening.rest)?;
    let closing = parser.mark(params.rest, b")")?;
    Ok(Head {
        answer,
        name: copy_name(parser.alloc, named.name)?,
        name_at: named.token.at,
        params: params.items,
        rest: closing.rest,
    })
}

/// Whether each parameter has a name.
fn are_named(params: &[Member]) -> bool
    ensures { result ≡ are_named params.now }
{
    for param in params {
        if param.name.items.is_empty() {
            return false;
        }
    }
    true
}

fn proc_item(head: Head<'_>, at: Span, close: Span, body: Option<Stmt>) -> ProcItem
    ensures { result ≡ record { name = head.entry.name; name_at = head.entry.name_at; at = at; result = head.entry.answer.tree; params = head.entry.params; body = body; close = close } }
{
    ProcItem {
        name: head.name,
        name_at: head.name_at,
        at,
        result: head.answer.tree,
        params: head.params,
        body,
        close,
    }
}

/// A prototype or a procedure with its body.
pub(crate) fn proc<'a>(parser: Parser, tokens: &'a [Token]) -> Result<ProcPart<'a>, ParseError>
    ensures { Gives proc_part result (read_proc tokens.now) }
{
    let head = proc_head(parser, tokens)?;
    if let Some(semicolon) = after_mark(head.rest, b";") {
        let close = semicolon.token.at;
        let at = join(head.answer.at, close);
        return Ok(ProcPart {
            tree: proc_item(head, at, close, None),
            depth: 1,
            rest: semicolon.rest,
        });
    }
    if !are_named(head.params.as_slice()) {
        return Err(ParseError::Parse(parser.place(head.rest)));
    }
    let braced = block(parser, MOST_DEPTH, head.rest)?;
    let at = join(head.answer.at, braced.part.at);
    Ok(ProcPart {
        tree: proc_item(head, at, braced.brace, Some(braced.part.tree)),
        depth: braced.part.depth,
        rest: braced.part.rest,
    })
}
