ghost use Rattle.std.specs.Prelude.{◌≡◌, ◌≤◌, ◌*◌, ◌+◌, ℕ, ◌++◌, length, IfOk, OnOk, option_map, option_and_then};
ghost use Rattle.c_tree.specs.Plain.{Tree as PlainTree};
ghost use Rattle.c_tree.specs.View.{tree_view};
ghost use Rattle.c_tree.specs.Formed.{IsFormed};
ghost use Rattle.c_tree.specs.Nodes.{tree_size};
ghost use Rattle.c_grammar.specs.Items.{IsSpelled};
ghost use Rattle.c_grammar.specs.Named.{HoldNames};
ghost use Rattle.c_grammar.specs.ReadItems.{read_file, kind_of, read_definition, read_proc};
ghost use Rattle.c_parser.specs.Views.{Gives};
ghost use Rattle.c_parser.specs.ItemViews.{item_row, structure_row, proc_row, read_item, bare_item, after_linkage, tree_of, item_structs, item_procs, kind_view};

use crate::error::ParseError;
use crate::items::{definition, proc};
use crate::tokens::{Front, Named, Parser, after_mark, after_name, after_word, first_token};
use c_token::Token;
use c_tree::{ProcItem, ProcItems, StructDef, StructDefs, Tree};
use sqlite_items::Items;
use std::alloc::{AllocError, Global};

/// An item of a file.
#[derive(Drop)]
enum Item {
    Struct(StructDef),
    /// A declaration of a struct without its members.
    Forward,
    Proc(ProcItem),
}

/// An item, and the tokens after it.
#[derive(Drop)]
struct ItemRow<'a> {
    item: Item,
    depth: u32,
    rest: &'a [Token],
}

/// The tree that the tokens spell. Each name token holds a name.
///
/// `Parse` comes exactly where they spell no tree of a depth of at most 200.
pub fn parse(alloc: Global, tokens: &[Token]) -> Result<Tree, ParseError>
    requires { HoldNames tokens.now }
    // The tokens spell the tree.
    ensures found { IfOk result (λ t. IsSpelled tokens.now (tree_view t)) }
    // They spell none where it is refused.
    ensures none { (k : ℕ) → result ≡ Err (ParseError.Parse k) → (t : PlainTree) → IsSpelled tokens.now t → ⊥ }
    // They spell no other.
    ensures only { IfOk result (λ t. (u : PlainTree) → IsSpelled tokens.now u → u ≡ tree_view t) }
    ensures formed { IfOk result (λ t. IsFormed (tree_view t)) }
    // Its structs, members, procedure items, parameters and nodes together.
    ensures small { IfOk result (λ t. tree_size (tree_view t) ≤ 4 * length tokens.now) }
{
    let end = match tokens.last() {
        Some(last) => last.at.end,
        None => 0,
    };
    file(Parser { alloc, end }, tokens)
}

fn file(parser: Parser, tokens: &[Token]) -> Result<Tree, ParseError>
    ensures { Gives tree_view result (option_map tree_of (read_file tokens.now)) }
{
    let mut structs = Items::new(parser.alloc);
    let mut procs = Items::new(parser.alloc);
    let mut rest = tokens;
    'file_items: while rest.len() > 0 {
        let row = next_item(parser, rest)?;
        rest = row.rest;
        put(&mut structs, &mut procs, row.item)?;
    }
    Ok(Tree { structs, procs })
}

fn put(structs: &mut StructDefs, procs: &mut ProcItems, item: Item) -> Result<(), AllocError>
    ensures structs { OnOk result (structs.new ≡ structs.old ++ item_structs item) }
    ensures procs { OnOk result (procs.new ≡ procs.old ++ item_procs item) }
{
    match item {
        Item::Struct(definition) => structs.push(definition),
        Item::Forward => Ok(()),
        Item::Proc(proc) => procs.push(proc),
    }
}

/// One item, with the words before it.
fn next_item<'a>(parser: Parser, tokens: &'a [Token]) -> Result<ItemRow<'a>, ParseError>
    ensures { Gives item_row result (read_item tokens.now) }
{
    let mut rest = tokens;
    while let Some(next) = after_linkage(rest) {
        rest = next;
    }
    item_of(parser, rest)
}

/// The tokens after `static` or `extern`.
fn after_linkage(tokens: &[Token]) -> Option<&[Token]>
    ensures { option_map (λ rest. rest.now) result ≡ after_linkage tokens.now }
{
    match after_word(tokens, b"static") {
        Some(word) => Some(word.rest),
        None => Some(after_word(tokens, b"extern")?.rest),
    }
}

/// What the tokens begin: a struct with its members, or without them, or a prototype or a procedure.
enum Kind<'a> {
    Defined(Named<'a>, Front<'a>),
    Forward(Named<'a>, Front<'a>),
    Procedure,
}

fn kind_of(tokens: &[Token]) -> Kind<'_>
    ensures { kind_view result ≡ kind_of tokens.now }
{
    let Some(word) = after_word(tokens, b"struct") else {
        return Kind::Procedure;
    };
    let Some(named) = after_name(word.rest) else {
        return Kind::Procedure;
    };
    if let Some(opening) = after_mark(named.rest, b"{") {
        return Kind::Defined(named, opening);
    }
    match after_mark(named.rest, b";") {
        Some(semicolon) => Kind::Forward(named, semicolon),
        None => Kind::Procedure,
    }
}

/// An item that begins with neither `static` nor `extern`.
fn item_of<'a>(parser: Parser, tokens: &'a [Token]) -> Result<ItemRow<'a>, ParseError>
    ensures { Gives item_row result (bare_item tokens.now) }
{
    let Some(front) = first_token(tokens) else {
        return Err(ParseError::Parse(parser.place(tokens)));
    };
    match kind_of(tokens) {
        Kind::Defined(named, opening) => struct_item(parser, front.token, named, opening),
        Kind::Forward(_, semicolon) => Ok(forward(semicolon)),
        Kind::Procedure => proc_row(parser, tokens),
    }
}

fn struct_item<'a>(
    parser: Parser,
    word: &Token,
    named: Named<'a>,
    opening: Front<'a>,
) -> Result<ItemRow<'a>, ParseError>
    ensures { Gives item_row result (option_and_then structure_row (read_definition word.now named.entry.name.now opening.entry.rest.now)) }
{
    let definition = definition(parser, word, named.name, opening.rest)?;
    Ok(ItemRow {
        item: Item::Struct(definition.tree),
        depth: 0,
        rest: definition.rest,
    })
}

fn forward<'a>(semicolon: Front<'a>) -> ItemRow<'a>
    ensures { result ≡ record { item = Item.Forward; depth = 0; rest = semicolon.entry.rest } }
{
    ItemRow {
        item: Item::Forward,
        depth: 0,
        rest: semicolon.rest,
    }
}

fn proc_row<'a>(parser: Parser, tokens: &'a [Token]) -> Result<ItemRow<'a>, ParseError>
    ensures { Gives item_row result (option_and_then proc_row (read_proc tokens.now)) }
{
    let part = proc(parser, tokens)?;
    Ok(ItemRow {
        item: Item::Proc(part.tree),
        depth: part.depth,
        rest: part.rest,
    })
}
