ghost use Rattle.std.specs.Prelude.{◌≡◌, map, option_map};
ghost use Rattle.c_grammar.specs.Exprs.{operator_of};
ghost use Rattle.c_grammar.specs.ReadExprs.{begins_sizeof, begins_base, is_base_kind};
ghost use Rattle.c_parser.specs.Views.{operator_view, row_view, listed, found_of, finder};

use crate::tokens::is_word;
use c_token::{Token, TokenKind};
use c_tree::BinaryOp;

/// An operator between two operands, and its line in the grammar: 1 for products up to 6 for `||`.
#[derive(Clone, Copy)]
struct Operator {
    line: u32,
    op: BinaryOp,
}

/// An operator at the front, and the tokens after it.
#[derive(Clone, Copy)]
pub(crate) struct Found<'a> {
    pub op: BinaryOp,
    pub rest: &'a [Token],
}

const OPERATORS: [(&[u8], Operator); 13] = [
    (
        b"*",
        Operator {
            line: 1,
            op: BinaryOp::Mul,
        },
    ),
    (
        b"/",
        Operator {
            line: 1,
            op: BinaryOp::Div,
        },
    ),
    (
        b"%",
        Operator {
            line: 1,
            op: BinaryOp::Rem,
        },
    ),
    (
        b"+",
        Operator {
            line: 2,
            op: BinaryOp::Add,
        },
    ),
    (
        b"-",
        Operator {
            line: 2,
            op: BinaryOp::Sub,
        },
    ),
    (
        b"<",
        Operator {
            line: 3,
            op: BinaryOp::Lt,
        },
    ),
    (
        b"<=",
        Operator {
            line: 3,
            op: BinaryOp::Le,
        },
    ),
    (
        b">",
        Operator {
            line: 3,
            op: BinaryOp::Gt,
        },
    ),
    (
        b">=",
        Operator {
            line: 3,
            op: BinaryOp::Ge,
        },
    ),
    (
        b"==",
        Operator {
            line: 4,
            op: BinaryOp::Eq,
        },
    ),
    (
        b"!=",
        Operator {
            line: 4,
            op: BinaryOp::Ne,
        },
    ),
    (
        b"&&",
        Operator {
            line: 5,
            op: BinaryOp::And,
        },
    ),
    (
        b"||",
        Operator {
            line: 6,
            op: BinaryOp::Or,
        },
    ),
];

/// The operator of the first row with this mark.
fn listed(table: &[(&[u8], Operator)], mark: &[u8]) -> Option<Operator>
    ensures { option_map operator_view result ≡ listed mark.now (map row_view table.entry.now) }
{
    for (spelling, operator) in table {
        if mark == *spelling {
            return Some(*operator);
        }
    }
    None
}

fn operator_of(mark: &[u8]) -> Option<Operator>
    ensures { option_map operator_view result ≡ operator_of mark.now }
{
    listed(&OPERATORS, mark)
}

/// An operator of this line at the front; where units may follow, but for one before `sizeof`.
pub(crate) fn find(before_unit: bool, line: u32, tokens: &[Token]) -> Option<Found<'_>>
    ensures { option_map found_of result ≡ finder before_unit line tokens.now }
{
    let (token, rest) = tokens.split_first()?;
    let TokenKind::Mark(mark) = &token.kind else {
        return None;
    };
    let operator = operator_of(mark.items.as_slice())?;
    if operator.line != line || (before_unit && begins_sizeof(rest)) {
        return None;
    }
    Some(Found {
        op: operator.op,
        rest,
    })
}

pub(crate) fn begins_sizeof(tokens: &[Token]) -> bool
    ensures { result ≡ begins_sizeof tokens.now }
{
    match tokens.first() {
        Some(token) => is_word(&token.kind, b"sizeof"),
        None => false,
    }
}

/// Whether a type begins here.
pub(crate) fn begins_base(tokens: &[Token]) -> bool
    ensures { result ≡ begins_base tokens.now }
{
    match tokens.first() {
        Some(token) => is_base_word(&token.kind),
        None => false,
    }
}

fn is_base_word(kind: &TokenKind) -> bool
    ensures { result ≡ is_base_kind kind.now }
{
    is_word(kind, b"const")
        || is_word(kind, b"int")
        || is_word(kind, b"char")
        || is_word(kind, b"struct")
}
