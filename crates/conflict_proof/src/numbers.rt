//! Numbers and lists of numbers at the front of bytes.

ghost use Rattle.std.specs.Prelude.{◌≡◌, ◌≤◌, ◌<◌, ◌+◌, ◌++◌, ◌^◌, length, drop, decimal, IfSome, IfNone, MatchOption};
ghost use Rattle.std.specs.List.{prefix_len};
ghost use Rattle.std.specs.Char.{is_ascii_digit};
ghost use Rattle.conflict_proof.specs.Fronts.{BeginsNot, digit_run, after_digits, SpellsNone, NoNumber, IsNumber, NoField, IsField, NoNumbers, AreNumbers};

/// The number that the longest run of digits from `at` spells in decimal, and the place where the run ends.
/// None where there is no digit, where there is a needless 0 in front, and where the number is over what a u64
/// holds. It takes no memory.
pub fn decimal(text: &[u8], at: usize) -> Option<(u64, usize)>
    requires { at ≤ length text.now }
    ensures number { IfSome result (λ found. digit_run (drop at text.now) ≡ decimal found.0) }
    ensures end { IfSome result (λ found. found.1 ≡ at + length (digit_run (drop at text.now))) }
    ensures none { IfNone result (SpellsNone (digit_run (drop at text.now))) }
{
    let (n, rest) = number(text.split_at(at).1)?;
    Some((n, text.len() - rest.len()))
}

/// What follows a word at the front. None where the word is not there.
pub fn after_word<'a>(text: &'a [u8], word: &[u8]) -> Option<&'a [u8]>
    ensures { MatchOption result (BeginsNot word.now text.entry.now) (λ rest. text.entry.now ≡ word.now ++ rest.now) }
{
    text.strip_prefix(word)
}

/// How many digits stand at the front.
fn digits(text: &[u8]) -> usize
    ensures { result ≡ prefix_len is_ascii_digit text.now }
{
    let mut n = 0;
    while n < text.len() && text[n].is_ascii_digit() {
        n += 1;
    }
    n
}

/// The number that a run of digits spells.
fn value(run: &[u8]) -> Option<u64>
    requires { prefix_len is_ascii_digit run.now ≡ length run.now }
    ensures { MatchOption result (SpellsNone run.now) (λ n. (n < 2 ^ 64) × (run.now ≡ decimal n)) }
{
    if run.len() > 1 && run[0] == b'0' {
        return None;
    }
    let digits = std::str::from_utf8(run).ok()?;
    digits.parse().ok()
}

/// The number at the front, up to the first byte that is no digit, and the bytes from there on.
fn number(text: &[u8]) -> Option<(u64, &[u8])>
    ensures { MatchOption result (SpellsNone (digit_run text.now))
        (λ found. (found.0 < 2 ^ 64) × (digit_run text.now ≡ decimal found.0) × (found.1.now ≡ after_digits text.now)) }
{
    let (run, rest) = text.split_at(digits(text));
    Some((value(run)?, rest))
}

/// A number below `top` at the front.
pub(crate) fn number_below(text: &[u8], top: u64) -> Option<(u32, &[u8])>
    requires { top ≤ 2 ^ 32 }
    ensures { MatchOption result (NoNumber top text.now) (λ found. IsNumber top text.now found.0 found.1.now) }
{
    let (n, rest) = number(text)?;
    if n < top {
        return Some((n as u32, rest));
    }
    None
}

/// A space and a number of 32 bits at the front, and what follows it.
pub fn field(text: &[u8]) -> Option<(u32, &[u8])>
    ensures { MatchOption result (NoField text.now) (λ found. IsField text.now found.0 found.1.now) }
{
    number_below(after_word(text, b" ")?, 1 << 32)
}

/// Reads numbers of 32 bits, each after a space, as many as there is room for, and gives what follows them.
/// None where fewer stand there.
pub fn fill<'a>(text: &'a [u8], numbers: &mut [u32]) -> Option<&'a [u8]>
    ensures read { MatchOption result (NoNumbers (length numbers.old) text.entry.now)
        (λ rest. AreNumbers text.entry.now numbers.new rest.now) }
    ensures len { length numbers.new ≡ length numbers.old }
{
    let mut rest = text;
    for i in 0..numbers.len() {
        let (n, after) = field(rest)?;
        numbers[i] = n;
        rest = after;
    }
    Some(rest)
}
