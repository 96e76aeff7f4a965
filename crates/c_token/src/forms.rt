ghost use Rattle.std.specs.Prelude.{◌≡◌, ◌≤◌, ◌<◌, ◌^◌, length, map, pos, option_map, bytes_eq, IfOk};
ghost use Rattle.std.specs.List.{list_any, prefix_len};
ghost use Rattle.std.specs.Option.{ForSome};
ghost use Rattle.c_tree.specs.Names.{is_letter, is_digit, is_word_byte, is_reserved};
ghost use Rattle.c_token.specs.Bytes.{is_run_byte, is_mark, number_of};
ghost use Rattle.c_token.specs.Parts.{goes_on, word_at, run_at, text_of, char_of, quoted, mark_len, mark_at, token_of, token_at};

use crate::quotes::quoted;
use crate::token::TokenKind;
use c_tree::{Bytes, Name};
use std::alloc::{AllocError, Global};

const RESERVED: [&[u8]; 48] = [
    b"auto",
    b"break",
    b"case",
    b"char",
    b"const",
    b"continue",
    b"default",
    b"do",
    b"double",
    b"else",
    b"enum",
    b"extern",
    b"float",
    b"for",
    b"goto",
    b"if",
    b"inline",
    b"int",
    b"long",
    b"register",
    b"restrict",
    b"return",
    b"short",
    b"signed",
    b"sizeof",
    b"static",
    b"struct",
    b"switch",
    b"typedef",
    b"union",
    b"unsigned",
    b"void",
    b"volatile",
    b"while",
    b"_Alignas",
    b"_Alignof",
    b"_Atomic",
    b"_Bool",
    b"_Complex",
    b"_Generic",
    b"_Imaginary",
    b"_Noreturn",
    b"_Static_assert",
    b"_Thread_local",
    b"NULL",
    b"malloc",
    b"calloc",
    b"free",
];

const MARKS: [&[u8]; 26] = [
    b"(", b")", b"{", b"}", b"[", b"]", b";", b",", b"*", b"=", b"==", b"!=", b"<", b"<=", b">",
    b">=", b"+", b"++", b"-", b"--", b"->", b"/", b"%", b"!", b"&&", b"||",
];

/// Whether the word is one of the table.
fn is_listed(table: &[&[u8]], word: &[u8]) -> bool
    ensures { result ≡ list_any (bytes_eq word.now) (map (λ w. w.now) table.entry.now) }
{
    for listed in table {
        if word == *listed {
            return true;
        }
    }
    false
}

fn is_reserved(word: &[u8]) -> bool
    ensures { result ≡ is_reserved word.now }
{
    is_listed(&RESERVED, word)
}

fn is_mark(word: &[u8]) -> bool
    ensures { result ≡ is_mark word.now }
{
    is_listed(&MARKS, word)
}

fn is_word_byte(b: u8) -> bool
    ensures { result ≡ is_word_byte b }
{
    b.is_ascii_alphanumeric() || b == b'_'
}

/// How many bytes at the front go on a word, or a run of letters, digits, `_` and `.`.
fn run_len(dotted: bool, bytes: &[u8]) -> usize
    ensures { result ≡ prefix_len (goes_on dotted) bytes.now }
{
    let mut n = 0;
    while n < bytes.len() && (is_word_byte(bytes[n]) || (dotted && bytes[n] == b'.')) {
        n += 1;
    }
    n
}

fn word(alloc: Global, bytes: &[u8]) -> Result<Option<(TokenKind, usize)>, AllocError>
    ensures { IfOk result (λ r. r ≡ token_of (word_at bytes.now)) }
{
    let n = run_len(false, bytes);
    let name = Name {
        items: bytes[..n].to_vec(alloc)?,
    };
    if is_reserved(&bytes[..n]) {
        Ok(Some((TokenKind::Word(name), n)))
    } else {
        Ok(Some((TokenKind::Name(name), n)))
    }
}

/// The number that a run spells.
fn number(run: &[u8]) -> Option<i32>
    ensures { result ≡ option_map pos (number_of run.now) }
{
    let first = *run.first()?;
    if first == b'0' && run.len() > 1 {
        return None;
    }
    let mut value: u64 = 0;
    for b in run {
        if !b.is_ascii_digit() {
            return None;
        }
        value = 10 * value + (*b - b'0') as u64;
        if value > 2147483647 {
            return None;
        }
    }
    Some(value as i32)
}

fn numeral(bytes: &[u8]) -> Option<(TokenKind, usize)>
    ensures { result ≡ token_of (run_at bytes.now) }
{
    let n = run_len(true, bytes);
    Some((TokenKind::Num(number(&bytes[..n])?), n))
}

fn mark(alloc: Global, bytes: &[u8]) -> Result<Option<(TokenKind, usize)>, AllocError>
    ensures { IfOk result (λ r. r ≡ token_of (mark_at bytes.now)) }
{
    let n = mark_len(bytes);
    if n == 0 {
        return Ok(None);
    }
    let name = Name {
        items: bytes[..n].to_vec(alloc)?,
    };
    Ok(Some((TokenKind::Mark(name), n)))
}

fn mark_len(bytes: &[u8]) -> usize
    ensures length { result ≡ mark_len bytes.now }
    ensures fits { result ≤ length bytes.now }
{
    if bytes.len() >= 2 && is_mark(&bytes[..2]) {
        2
    } else if bytes.len() >= 1 && is_mark(&bytes[..1]) {
        1
    } else {
        0
    }
}

fn text(units: Option<(Bytes, usize)>) -> Option<(TokenKind, usize)>
    requires { ForSome units (λ q. q.1 < 2 ^ 63) }
    ensures { result ≡ token_of (text_of units) }
{
    let (units, n) = units?;
    Some((TokenKind::Text(units), n + 1))
}

fn char_constant(units: Option<(Bytes, usize)>) -> Option<(TokenKind, usize)>
    requires { ForSome units (λ q. q.1 < 2 ^ 63) }
    ensures { result ≡ token_of (char_of units) }
{
    let (units, n) = units?;
    match units.items.as_slice() {
        [unit] => Some((TokenKind::Char(*unit as i32), n + 1)),
        _ => None,
    }
}

/// The longest token at the front, and its length.
pub(crate) fn longest_token(
    alloc: Global,
    bytes: &[u8],
) -> Result<Option<(TokenKind, usize)>, AllocError>
    requires { length bytes.now < 2 ^ 63 }
    ensures { IfOk result (λ r. r ≡ token_at bytes.now) }
{
    let Some((first, rest)) = bytes.split_first() else {
        return Ok(None);
    };
    if bytes.starts_with(b"/*") {
        return Ok(None);
    }
    match *first {
        b'0'..=b'9' => Ok(numeral(bytes)),
        b'"' => Ok(text(quoted(alloc, b'"', rest)?)),
        b'\'' => Ok(char_constant(quoted(alloc, b'\'', rest)?)),
        b if is_word_byte(b) => word(alloc, bytes),
        _ => mark(alloc, bytes),
    }
}
