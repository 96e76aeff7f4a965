ghost use Rattle.std.specs.Prelude.{◌≡◌, ◌≤◌, ◌<◌, ◌+◌, ◌^◌, length, IfOk, IfSome};
ghost use Rattle.std.specs.Option.{ForSome};
ghost use Rattle.c_token.specs.Bytes.{is_plain, escaped};
ghost use Rattle.c_token.specs.Parts.{unit_at, quoted};

use c_tree::Bytes;
use std::alloc::{AllocError, Global};

fn is_plain(quote: u8, b: u8) -> bool
    ensures { result ≡ is_plain quote b }
{
    let is_printable = 32 <= b && b <= 126;
    (is_printable && b != quote && b != b'\\') || (quote == b'"' && 128 <= b)
}

/// What `\c` stands for before these bytes.
fn escaped(c: u8, rest: &[u8]) -> Option<u8>
    ensures { result ≡ escaped c rest.now }
{
    match c {
        b'0' => match rest.first() {
            Some(&next) if b'0' <= next && next <= b'7' => None,
            _ => Some(0),
        },
        b'n' => Some(b'\n'),
        b't' => Some(b'\t'),
        b'r' => Some(b'\r'),
        b'\\' | b'\'' | b'"' => Some(c),
        _ => None,
    }
}

/// The unit at the front, and its length.
fn unit(quote: u8, bytes: &[u8]) -> Option<(u8, usize)>
    ensures unit { result ≡ unit_at quote bytes.now }
    ensures fits { IfSome result (λ u. (0 < u.1) × (u.1 ≤ length bytes.now)) }
{
    let (b, rest) = bytes.split_first()?;
    if is_plain(quote, *b) {
        return Some((*b, 1));
    }
    if *b != b'\\' {
        return None;
    }
    let (c, after) = rest.split_first()?;
    Some((escaped(*c, after)?, 2))
}

/// What the units before the first quote stand for, and how many bytes they are with the quote.
pub(crate) fn quoted(
    alloc: Global,
    quote: u8,
    bytes: &[u8],
) -> Result<Option<(Bytes, usize)>, AllocError>
    ensures units { IfOk result (λ r. r ≡ quoted quote bytes.now) }
    ensures fits { IfOk result (λ r. ForSome r (λ q. q.1 ≤ length bytes.now)) }
{
    let mut items = Vec::new(alloc);
    let mut rest = bytes;
    while let Some((first, after)) = rest.split_first() {
        if *first == quote {
            return Ok(Some((Bytes { items }, bytes.len() - after.len())));
        }
        let Some((value, n)) = unit(quote, rest) else {
            return Ok(None);
        };
        items.push(value)?;
        rest = rest.split_at(n).1;
    }
    Ok(None)
}
