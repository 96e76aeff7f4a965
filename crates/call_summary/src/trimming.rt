//! A refutation without the lines on which its last one does not stand.

ghost use Rattle.std.specs.Prelude.{◌≡◌, ◌≤◌, ◌++◌, ℕ, Bool, IfOk, OnOk, length};
ghost use Rattle.conflict_proof.specs.declared.names.ConstraintName.{ConstraintName};
ghost use Rattle.verdict_meaning.specs.Systems.{System};
ghost use Rattle.verdict_meaning.specs.Selected.{selected};
ghost use Rattle.call_summary.specs.Inferences.{AnswerIs};
ghost use Rattle.call_summary.specs.Trims.{AreLeft, AreSet, IsBehind, IsRefutationFor, IsTrim, IsTrimmed, StandBack, by_new, by_numbers, line_if};

use crate::inferred::Inferred;
use crate::laws::laws;
use c_tree::Memory;
use conflict_proof::{Derivation, How, Line, Lines};
use std::alloc::Global;
use used_names::{needed_lines, used_names};
use zo_core::Clause;

/// The answer that a refutation gives: its first lines, so many, those on which its last line stands, and the names that it
/// uses.
pub(crate) fn refuted(
    alloc: Global,
    derivation: &Derivation,
    first: usize,
) -> Result<Inferred, Memory>
    requires back { StandBack derivation.now.lines }
    requires first { first ≤ length derivation.now.lines }
    ensures trim { IfOk result (IsTrimmed derivation.now.lines first) }
    ensures answer { IfOk result (λ i. (s : System) → (U : ConstraintName → Bool) → (words : ℕ) → (budget : ℕ) → IsRefutationFor s U words derivation.now.lines → AnswerIs s U words budget i) }
{
    laws();
    let lines = derivation.lines.items.as_slice();
    let trim = trimmed(alloc, lines, first)?;
    let names = used_names(alloc, &trim)?;
    Ok(Inferred::Refuted(trim, names))
}

/// The first lines of a derivation, so many, and those on which its last line stands.
fn trimmed(alloc: Global, lines: &[Line], first: usize) -> Result<Derivation, Memory>
    requires back { StandBack lines.now }
    requires first { first ≤ length lines.now }
    ensures trim { IfOk result (λ d. IsTrim lines.now first d.lines) }
    ensures back { IfOk result (λ d. StandBack d.lines) }
{
    let marks = left_marks(alloc, lines, first)?;
    let items = selected(alloc, lines, &marks)?;
    Ok(Derivation {
        lines: Lines { items },
    })
}

/// For each line whether it is one of the first ones, or the last one stands on it.
fn left_marks(alloc: Global, lines: &[Line], first: usize) -> Result<Vec<bool>, Memory>
    requires back { StandBack lines.now }
    requires first { first ≤ length lines.now }
    ensures { IfOk result (λ marks. AreLeft lines.now first marks.items) }
{
    let mut marks = needed_lines(alloc, lines)?;
    set_front(&mut marks, first);
    Ok(marks)
}

/// Sets the first marks, so many.
fn set_front(marks: &mut Vec<bool>, first: usize)
    requires { first ≤ length marks.old.items }
    ensures { AreSet marks.old.items marks.new.items first }
{
    for index in 0..first {
        marks[index] = true;
    }
}

/// The marked lines, with their new numbers.
fn selected(alloc: Global, lines: &[Line], marks: &[bool]) -> Result<Vec<Line>, Memory>
    requires back { StandBack lines.now }
    requires count { length marks.now ≡ length lines.now }
    ensures { IfOk result (λ v. v.items ≡ selected marks.now lines.now) }
{
    let mut items = Vec::new(alloc);
    let mut numbers = vec![in alloc; 0]?;
    for (index, line) in lines.iter().enumerate() {
        push_marked(alloc, &mut items, &numbers, line, marks[index])?;
        numbers.push(number(items.len())?)?;
    }
    Ok(items)
}

/// Adds a line by new numbers, where it is marked.
fn push_marked(
    alloc: Global,
    items: &mut Vec<Line>,
    numbers: &[u32],
    line: &Line,
    marked: bool,
) -> Result<(), Memory>
    requires { IsBehind line.now.how (length numbers.now) }
    ensures { OnOk result (items.new.items ≡ items.old.items ++ line_if marked (by_new numbers.now line.now)) }
{
    if !marked {
        return Ok(());
    }
    let how = renumbered(line.how, numbers);
    items.push(line_from(alloc, line, how)?)?;
    Ok(())
}

/// The same origin by new numbers.
pub(crate) fn renumbered(how: How, numbers: &[u32]) -> How
    requires { IsBehind how (length numbers.now) }
    ensures { result ≡ by_numbers numbers.now how }
{
    match how {
        How::Axiom(name) => How::Axiom(name),
        How::Resolve(first, second) => {
            How::Resolve(numbers[first as usize], numbers[second as usize])
        }
        How::Inst(line, site) => How::Inst(numbers[line as usize], site),
    }
}

/// A line like this one, of another origin.
pub(crate) fn line_from(alloc: Global, line: &Line, how: How) -> Result<Line, Memory>
    ensures { IfOk result (λ l. l ≡ record { group = line.now.group; how = how; lits = line.now.lits }) }
{
    let lits = Clause::of(alloc, line.lits.lits())?;
    Ok(Line {
        group: line.group,
        how,
        lits,
    })
}

/// A count as a number of lines; more lines than have numbers are want of memory.
pub(crate) fn number(count: usize) -> Result<u32, Memory>
    ensures { IfOk result (λ n. n ≡ count) }
{
    match u32::try_from(count) {
        Ok(number) => Ok(number),
        Err(_) => Err(Memory),
    }
}
