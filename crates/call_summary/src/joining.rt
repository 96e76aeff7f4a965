//! Lines that are added to known ones, each clause once a group.

ghost use Rattle.std.specs.Prelude.{◌≡◌, ◌≢◌, ◌∷◌, ◌++◌, [], ℕ, IfOk, OnOk, Some, length, slice_get};
ghost use Rattle.std.specs.BTreeMap.{get};
ghost use Rattle.conflict_proof.specs.declared.derivation.Line.{Line};
ghost use Rattle.verdict_meaning.specs.Derivations.{NoClauseTwice};
ghost use Rattle.call_summary.specs.Trims.{IsBehind, StandBack};
ghost use Rattle.call_summary.specs.Joins.{IsAdded, IsIndexOf, IsJoined, code_of, key_of, key_order};

use crate::trimming::{line_from, number, renumbered};
use c_tree::Memory;
use conflict_proof::Line;
use std::alloc::Global;
use std::collections::BTreeMap;
use zo_core::Lit;

/// The known lines, and after them those of a derivation that are of groups, with new numbers and without those whose clause
/// stands in their group already. The known lines are of groups, and no clause stands twice in one.
pub(crate) fn joined(
    alloc: Global,
    root: u32,
    known: &[Line],
    more: &[Line],
) -> Result<Vec<Line>, Memory>
    requires groups { (n : ℕ) (x : Line) → slice_get known.now n ≡ Some x → x.group ≢ root }
    requires once { NoClauseTwice known.now }
    requires back { StandBack more.now }
    ensures { IfOk result (λ v. IsJoined root known.now more.now v.items) }
{
    let mut index = BTreeMap::new(alloc);
    let mut lines = indexed(alloc, &mut index, known)?;
    let mut numbers = vec![in alloc; 0]?;
    for line in more.iter() {
        if line.group == root {
            numbers.push(0)?;
        } else {
            add(alloc, &mut lines, &mut index, &mut numbers, line)?;
        }
    }
    Ok(lines)
}

/// A copy of these lines, whose numbers are entered by their clauses.
fn indexed(
    alloc: Global,
    index: &mut BTreeMap<Vec<u32>, u32>,
    known: &[Line],
) -> Result<Vec<Line>, Memory>
    requires { IsIndexOf [] index.old }
    ensures lines { IfOk result (λ v. v.items ≡ known.now) }
    ensures index { OnOk result (IsIndexOf known.now index.new) }
{
    let mut lines = Vec::new(alloc);
    for line in known.iter() {
        let key = key_of(alloc, line)?;
        let copy = line_from(alloc, line, line.how)?;
        enter(&mut lines, index, key, copy)?;
    }
    Ok(lines)
}

/// Adds a line behind the others, and enters its number.
fn enter(
    lines: &mut Vec<Line>,
    index: &mut BTreeMap<Vec<u32>, u32>,
    key: Vec<u32>,
    line: Line,
) -> Result<(), Memory>
    requires index { IsIndexOf lines.old.items index.old }
    requires key { key.items ≡ key_of line }
    ensures lines { OnOk result (lines.new.items ≡ lines.old.items ++ line ∷ []) }
    ensures index { OnOk result (IsIndexOf lines.new.items index.new) }
{
    lines.push(line)?;
    let at = number(lines.len())?;
    index.insert(key, at)?;
    Ok(())
}

/// Adds a line of a derivation, whose earlier lines have these new numbers, where its clause does not stand in its group; and
/// its new number.
fn add(
    alloc: Global,
    lines: &mut Vec<Line>,
    index: &mut BTreeMap<Vec<u32>, u32>,
    numbers: &mut Vec<u32>,
    line: &Line,
) -> Result<(), Memory>
    requires index { IsIndexOf lines.old.items index.old }
    requires back { IsBehind line.now.how (length numbers.old.items) }
    ensures added { OnOk result (IsAdded lines.old.items numbers.old.items line.now lines.new.items numbers.new.items) }
    ensures index { OnOk result (IsIndexOf lines.new.items index.new) }
{
    let key = key_of(alloc, line)?;
    if let Some(at) = find(index, &key) {
        numbers.push(at)?;
        return Ok(());
    }
    let how = renumbered(line.how, numbers);
    let more = line_from(alloc, line, how)?;
    enter(lines, index, key, more)?;
    numbers.push(number(lines.len())?)?;
    Ok(())
}

/// The number that is entered under a key.
fn find(index: &BTreeMap<Vec<u32>, u32>, key: &Vec<u32>) -> Option<u32>
    ensures { result ≡ get key_order index.now key.now }
{
    index.get(key).copied()
}

/// A line's group, and its literals by number.
fn key_of(alloc: Global, line: &Line) -> Result<Vec<u32>, Memory>
    ensures { IfOk result (λ v. v.items ≡ key_of line.now) }
{
    let mut key = vec![in alloc; line.group]?;
    let lits = line.lits.lits();
    for lit in lits {
        key.push(code(*lit))?;
    }
    Ok(key)
}

/// The number of a literal.
fn code(lit: Lit) -> u32
    ensures { result ≡ code_of lit }
{
    2 * lit.var().number() + u32::from(lit.sign())
}
