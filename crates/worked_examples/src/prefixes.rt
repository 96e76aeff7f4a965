// Every prefix of the list source.
use crate::harness::{parsed, refused_with};
use c_parser::ParseError;
use example_sources::LIST;
use std::alloc::Global;
use std::test::Fail;

/// A part of the source, by what the last token may be that is cut in it.
enum Piece {
    /// Something can follow every part of it.
    Open(&'static str),
    /// A token of which no shorter part may stand where it does.
    Whole(&'static str),
    /// The last token of an item, and blanks.
    Last(&'static str),
}

/// The source in pieces. A part of a word is a name, which may stand where a statement or an expression begins and
/// nowhere else; a part of a mark is another mark.
const PIECES: [Piece; 36] = [
    Piece::Whole("struct"),
    Piece::Open(" node { "),
    Piece::Whole("int"),
    Piece::Open(" v; "),
    Piece::Whole("struct"),
    Piece::Open(" node *next; }"),
    Piece::Last(";\n"),
    Piece::Whole("struct"),
    Piece::Open(" node *push("),
    Piece::Whole("struct"),
    Piece::Open(" node *list, "),
    Piece::Whole("int"),
    Piece::Open(" v) {\n  struct node *n = malloc(sizeof("),
    Piece::Whole("struct"),
    Piece::Open(" node));\n  if (n "),
    Piece::Whole("=="),
    Piece::Open(" NULL) return list;\n  n"),
    Piece::Whole("->"),
    Piece::Open("v = v;\n  n"),
    Piece::Whole("->"),
    Piece::Open("next = list;\n  return n;\n"),
    Piece::Last("}\n"),
    Piece::Whole("void"),
    Piece::Open(" list_free("),
    Piece::Whole("struct"),
    Piece::Open(" node *list) {\n  struct node *next;\n  while (list "),
    Piece::Whole("!="),
    Piece::Open(" NULL) {\n    next = list->next;\n    free(list);\n    list = next;\n  }\n"),
    Piece::Last("}\n"),
    Piece::Whole("int"),
    Piece::Open(" main("),
    Piece::Whole("void"),
    Piece::Open(") {\n  struct node *list = NULL;\n  int i;\n  for (i = 0; i < 10; i"),
    Piece::Whole("++"),
    Piece::Open(")\n    list = push(list, i);\n  list_free(list);\n  return 0;\n"),
    Piece::Last("}"),
];

fn text(piece: &Piece) -> &'static str {
    match piece {
        Piece::Open(text) | Piece::Whole(text) | Piece::Last(text) => text,
    }
}

/// The refusal of a prefix that ends in this piece; none where it is whole items.
fn refusal(piece: &Piece, start: usize, prefix: &[u8]) -> Result<Option<ParseError>, Fail> {
    let place = match piece {
        Piece::Last(_) => return Ok(None),
        Piece::Whole(token) if prefix.len().saturating_sub(start) < token.len() => start,
        Piece::Whole(_) | Piece::Open(_) => prefix.trim_ascii_end().len(),
    };
    Ok(Some(ParseError::Parse(u32::try_from(place)?)))
}

/// How the line on `err` ends.
fn cause(refusal: Option<ParseError>) -> &'static [u8] {
    match refusal {
        Some(_) => b"not in the grammar\n",
        None => b"no int main(void)\n",
    }
}

/// The first bytes of the source, and for each number of them the refusal of so many.
#[derive(Drop)]
struct Prefixes {
    source: Vec<u8>,
    refusals: Vec<Option<ParseError>>,
}

/// Adds the prefixes that end in a piece.
fn add(prefixes: &mut Prefixes, piece: &Piece) -> Result<(), Fail> {
    let start = prefixes.source.len();
    for byte in text(piece).as_bytes() {
        prefixes.source.push(*byte)?;
        let refusal = refusal(piece, start, prefixes.source.as_slice())?;
        prefixes.refusals.push(refusal)?;
    }
    Ok(())
}

fn every_prefix(alloc: Global) -> Result<Prefixes, Fail> {
    let mut prefixes = Prefixes {
        source: Vec::new(alloc),
        refusals: Vec::new(alloc),
    };
    for piece in &PIECES {
        add(&mut prefixes, piece)?;
    }
    Ok(prefixes)
}

#[test]
fn prefixes_are_refused_at_their_end(rt: HostRuntime) -> Result<(), Fail> {
    let prefixes = every_prefix(rt.alloc())?;
    assert_eq!(rt; prefixes.source.as_slice(), LIST.as_bytes());
    let mut prefix = Vec::new(rt.alloc());
    for (byte, refusal) in prefixes.source.iter().zip(prefixes.refusals.iter()) {
        prefix.push(*byte)?;
        let given = parsed(rt.alloc(), prefix.as_slice())?;
        assert_eq!(rt; given.err(), *refusal);
        // All but the whole.
        if prefix.len() < prefixes.source.len() {
            let line = refused_with(rt.alloc(), prefix.as_slice())?;
            assert!(rt; line.as_slice().ends_with(cause(*refusal)));
        }
    }
    Ok(())
}
