//! What one line of a certificate's text says.

ghost use Rattle.std.specs.Prelude.{◌≡◌, ◌++◌, codes, IfOk, MatchOption, map};
ghost use Rattle.conflict_proof.specs.Text.{numbers_text};
ghost use Rattle.conflict_proof.specs.Fronts.{BeginsNot};
ghost use Rattle.own_cert.specs.Text.{digit};
ghost use Rattle.own_cert.specs.LineForms.{IsRead, IsNoDigit, NoDigits, NoBits, IsBitsText};

use crate::certificate::PlaceBits;
use crate::lines::{Line, Run, Version};
use crate::lists::{Bits, Numbers};
use c_tree::Memory;
use conflict_proof::{after_word, decimal, field, fill};
use std::alloc::Global;

/// What a line without its line feed says, and None where no line of a text is so.
pub(crate) fn line(alloc: Global, text: &[u8]) -> Result<Option<Line>, Memory>
    ensures { IfOk result (IsRead text.now) }
{
    if let Some(rest) = after_word(text, b"places") {
        return places(alloc, rest);
    }
    if let Some(rest) = after_word(text, b"place") {
        return place(alloc, rest);
    }
    if let Some(rest) = after_word(text, b"instance") {
        return Ok(instance(rest));
    }
    if let Some(rest) = after_word(text, b"iface") {
        return iface(alloc, rest);
    }
    if let Some(rest) = after_word(text, b"sites") {
        return sites(alloc, rest);
    }
    if let Some(rest) = after_word(text, b"phi") {
        return phi(alloc, rest);
    }
    if let Some(rest) = after_word(text, b"end ") {
        return Ok(end(rest));
    }
    if let Some(rest) = after_word(text, b"clouseau certificate ") {
        return Ok(header(rest));
    }
    Ok(None)
}

/// The first line, after its words.
fn header(text: &[u8]) -> Option<Line>
    ensures { IsRead (codes "clouseau certificate " ++ text.now) result }
{
    match text {
        b"1" => Some(Line::Header(Version::First)),
        b"2" => Some(Line::Header(Version::Second)),
        _ => None,
    }
}

/// A line of phi, after its word.
fn phi(alloc: Global, text: &[u8]) -> Result<Option<Line>, Memory>
    ensures { IfOk result (IsRead (codes "phi" ++ text.now)) }
{
    match bits(alloc, text)? {
        Some(phi) => Ok(Some(Line::Phi(phi))),
        None => Ok(None),
    }
}

/// A line of an instance's group and entry, after its word.
fn instance(text: &[u8]) -> Option<Line>
    ensures { IsRead (codes "instance" ++ text.now) result }
{
    let mut parts = [0; 2];
    let rest = fill(text, &mut parts)?;
    if !rest.is_empty() {
        return None;
    }
    Some(Line::Instance(parts[0], parts[1]))
}

/// A line of an interface, after its word.
fn iface(alloc: Global, text: &[u8]) -> Result<Option<Line>, Memory>
    ensures { IfOk result (IsRead (codes "iface" ++ text.now)) }
{
    match bits(alloc, text)? {
        Some(iface) => Ok(Some(Line::Iface(iface))),
        None => Ok(None),
    }
}

/// A line of sites, after its word.
fn sites(alloc: Global, text: &[u8]) -> Result<Option<Line>, Memory>
    ensures { IfOk result (IsRead (codes "sites" ++ text.now)) }
{
    let mut items = Vec::new(alloc);
    let mut rest = text;
    while let Some((site, after)) = field(rest) {
        items.push(site)?;
        rest = after;
    }
    if !rest.is_empty() {
        return Ok(None);
    }
    Ok(Some(Line::Sites(Numbers { items })))
}

/// A line of one place, after its word, where that is not the word of a run.
fn place(alloc: Global, text: &[u8]) -> Result<Option<Line>, Memory>
    requires { BeginsNot (codes "s") text.now }
    ensures { IfOk result (IsRead (codes "place" ++ text.now)) }
{
    let mut parts = [0; 2];
    let Some(rest) = fill(text, &mut parts) else {
        return Ok(None);
    };
    let [proc, place] = parts;
    match bits(alloc, rest)? {
        Some(bits) => Ok(Some(Line::Place(PlaceBits { proc, place, bits }))),
        None => Ok(None),
    }
}

/// A line of a run of places, after its word.
fn places(alloc: Global, text: &[u8]) -> Result<Option<Line>, Memory>
    ensures { IfOk result (IsRead (codes "places" ++ text.now)) }
{
    let mut parts = [0; 3];
    let Some(rest) = fill(text, &mut parts) else {
        return Ok(None);
    };
    let [proc, first, last] = parts;
    if last < first {
        return Ok(None);
    }
    match bits(alloc, rest)? {
        Some(bits) => Ok(Some(Line::Places(Run {
            proc,
            first,
            last,
            bits,
        }))),
        None => Ok(None),
    }
}

/// The last line, after its word.
fn end(text: &[u8]) -> Option<Line>
    ensures { IsRead (codes "end " ++ text.now) result }
{
    let (count, end) = decimal(text, 0)?;
    if end != text.len() {
        return None;
    }
    Some(Line::End(count))
}

/// A row of bits after a space, or nothing where there are none.
fn bits(alloc: Global, text: &[u8]) -> Result<Option<Bits>, Memory>
    ensures { IfOk result (λ o. MatchOption o (NoBits text.now) (IsBitsText text.now)) }
{
    let Some((space, row)) = text.split_first() else {
        return Ok(Some(Bits {
            items: Vec::new(alloc),
        }));
    };
    if *space != b' ' {
        return Ok(None);
    }
    if row.is_empty() {
        return Ok(None);
    }
    digits(alloc, row)
}

/// A row of bits.
fn digits(alloc: Global, text: &[u8]) -> Result<Option<Bits>, Memory>
    ensures { IfOk result (λ o. MatchOption o (NoDigits text.now) (λ bits. text.now ≡ map digit bits)) }
{
    let mut items = Vec::new(alloc);
    for byte in text {
        let Some(bit) = bit(*byte) else {
            return Ok(None);
        };
        items.push(bit)?;
    }
    Ok(Some(Bits { items }))
}

/// The bit that a byte stands for.
fn bit(byte: u8) -> Option<bool>
    ensures { MatchOption result (IsNoDigit byte) (λ b. byte ≡ digit b) }
{
    match byte {
        b'0' => Some(false),
        b'1' => Some(true),
        _ => None,
    }
}
