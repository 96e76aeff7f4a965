ghost use Rattle.std.specs.Prelude.{◌≡◌, ◌<◌, ◌^◌, [], ◌∷◌, ◌++◌, codes, decimal, IfOk, OnOk};
ghost use Rattle.conflict_proof.specs.declared.derivation.Derivation.{Derivation};
ghost use Rattle.conflict_proof.specs.Text.{derivation_text, line_text, axiom_numbers, how_text, clause_text, numbers_text};
ghost use Rattle.conflict_proof.specs.Values.{IsHow, IsLine, IsDerivation};

use crate::derivation::{Derivation, How, Line};
use crate::names::ConstraintName;
use c_tree::Memory;
use itoa::Buffer;
use std::alloc::Global;
use zo_core::Lit;

/// The text of a derivation.
pub fn print(alloc: Global, value: &Derivation) -> Result<Vec<u8>, Memory>
    ensures text { IfOk result (λ text. text.items ≡ derivation_text value.now) }
    ensures whole { OnOk result (IsDerivation value.now) }

    // No other derivation has this text.
    ensures alone { OnOk result ((other : Derivation) → IsDerivation other → IsDerivation value.now → derivation_text other ≡ derivation_text value.now → other ≡ value.now) }
{
    let mut out = Vec::from_slice(alloc, b"clouseau derivation 1\n")?;
    for line in &value.lines.items {
        put_line(&mut out, line)?;
    }
    out.extend_from_slice(b"end ")?;
    let mut buffer = Buffer::new();
    out.extend_from_slice(buffer.format(value.lines.items.len()).as_bytes())?;
    out.push(b'\n')?;
    Ok(out)
}

/// Adds a line with its line feed.
fn put_line(out: &mut Vec<u8>, line: &Line) -> Result<(), Memory>
    ensures is { OnOk result (IsLine line.now) }
    ensures text { OnOk result (out.new.items ≡ out.old.items ++ (line_text line.now ++ codes "\n")) }
{
    put_how(out, line.group, line.how)?;
    out.extend_from_slice(b" :")?;
    for lit in line.lits.lits() {
        put_literal(out, *lit)?;
    }
    out.push(b'\n')?;
    Ok(())
}

/// Adds the letter, the group and where the line comes from.
fn put_how(out: &mut Vec<u8>, group: u32, how: How) -> Result<(), Memory>
    ensures is { OnOk result (IsHow how) }
    ensures text { OnOk result (out.new.items ≡ out.old.items ++ how_text group how) }
{
    match how {
        How::Axiom(name) => {
            out.push(b'a')?;
            put_numbers(out, &axiom_numbers(group, name))
        }
        How::Resolve(first, second) => {
            out.push(b'r')?;
            put_numbers(out, &[group, first, second])
        }
        How::Inst(line, site) => {
            out.push(b'i')?;
            put_numbers(out, &[group, line, site])
        }
    }
}

/// The numbers of an axiom's line.
fn axiom_numbers(group: u32, name: ConstraintName) -> [u32; 8]
    ensures { result ≡ axiom_numbers group name }
{
    [
        group,
        name.rule as u32,
        name.proc,
        name.place,
        name.edge as u32,
        name.slot,
        name.field,
        name.other,
    ]
}

/// Adds each number after a space.
pub fn put_numbers(out: &mut Vec<u8>, numbers: &[u32]) -> Result<(), Memory>
    ensures { OnOk result (out.new.items ≡ out.old.items ++ numbers_text numbers.now) }
{
    for n in numbers {
        out.push(b' ')?;
        put_decimal(out, *n)?;
    }
    Ok(())
}

/// Adds a literal after a space.
fn put_literal(out: &mut Vec<u8>, lit: Lit) -> Result<(), Memory>
    ensures small { lit.var < 2 ^ 31 }
    ensures text { OnOk result (out.new.items ≡ out.old.items ++ clause_text (lit ∷ [])) }
{
    out.push(b' ')?;
    if !lit.sign() {
        out.push(b'-')?;
    }
    put_decimal(out, lit.var().number())
}

/// Adds a number in decimal.
pub fn put_decimal(out: &mut Vec<u8>, n: u32) -> Result<(), Memory>
    ensures { OnOk result (out.new.items ≡ out.old.items ++ decimal n) }
{
    let mut buffer = Buffer::new();
    out.extend_from_slice(buffer.format(n).as_bytes())?;
    Ok(())
}
