ghost use Rattle.std.specs.Prelude.{◌≡◌, ◌≤◌, ◌<◌, ◌^◌, length, MatchOption};
ghost use Rattle.c_token.specs.Bytes.{is_space};
ghost use Rattle.c_token.specs.Blanks.{line_len, is_include, IsBlank, BeginsNoBlank};
ghost use Rattle.c_token.specs.Parts.{IsFittingBlank, IsComment};

use bstr::ByteSlice;

fn is_space(b: u8) -> bool
    ensures { result ≡ is_space b }
{
    b == b' ' || (9 <= b && b <= 13)
}

/// How many bytes stand before the next line feed.
fn line_len(bytes: &[u8]) -> usize
    ensures len { result ≡ line_len bytes.now }
    ensures fits { result ≤ length bytes.now }
{
    match bytes.find_byte(b'\n') {
        Some(at) => at,
        None => bytes.len(),
    }
}

/// Whether spaces and tabs and then `include` stand at the front.
fn is_include(bytes: &[u8]) -> bool
    ensures { result ≡ is_include bytes.now }
{
    let mut rest = bytes;
    while let Some((first, after)) = rest.split_first() {
        if *first != b' ' && *first != b'\t' {
            break;
        }
        rest = after;
    }
    rest.starts_with(b"include")
}

/// The length of the comment that a slash begins with the bytes after it.
fn comment_len(rest: &[u8]) -> Option<usize>
    requires { length rest.now < 2 ^ 63 }
    ensures { IsComment rest.now result }
{
    let (second, body) = rest.split_first()?;
    match *second {
        b'*' => match body.find(b"*/") {
            Some(at) => Some(at + 4),
            None => None,
        },
        b'/' => Some(line_len(body) + 2),
        _ => None,
    }
}

/// The length of the blank at the front.
pub(crate) fn blank_len(first: bool, bytes: &[u8]) -> Option<usize>
    requires { length bytes.now < 2 ^ 63 }
    ensures { MatchOption result (BeginsNoBlank first bytes.now) (IsFittingBlank first bytes.now) }
{
    let (b, rest) = bytes.split_first()?;
    if is_space(*b) {
        return Some(1);
    }
    if *b == b'/' {
        return comment_len(rest);
    }
    if *b == b'#' && first && is_include(rest) {
        return Some(line_len(rest) + 1);
    }
    None
}
