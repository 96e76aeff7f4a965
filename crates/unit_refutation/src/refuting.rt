ghost use Rattle.std.specs.Prelude.{◌≡◌, ◌≤◌, [], length, IfOk};
ghost use Rattle.zo_core.specs.Literals.{Literal, opposite};
ghost use Rattle.unit_refutation.specs.Numbers.{HasRoom};
ghost use Rattle.unit_refutation.specs.Trails.{EndsIn};
ghost use Rattle.unit_refutation.specs.Lines.{IsWithin, Grows, AreRoomy, Ends, WritesTrail};
ghost use Rattle.unit_refutation.specs.Collecting.{lit_found, IsAsked};
ghost use Rattle.unit_refutation.specs.Refutations.{IsRefutation};

use crate::collecting::{collect, lit_at};
use crate::numbers::LitNumbers;
use crate::spelling::spell_all;
use crate::steps::Step;
use crate::tables::Tables;
use crate::writing::Writer;
use c_tree::Memory;
use conflict_proof::{Derivation, How, Lines};
use std::alloc::Global;
use unit_answers::{Closures, Contradiction};
use zo_core::Lit;

/// The lines of a refutation by propagation.
#[derive(Drop)]
pub enum Refutation {
    /// They refute.
    Whole(Derivation),
    /// They cost more than the budget, and without the last one they do not.
    Over(Derivation),
}

/// The refutation that a contradiction gives, under a budget of words. It takes time and memory in proportion to what was found
/// in the groups up to that of the contradiction and to the clauses of those on which it stands. Its one refusal is want of
/// memory.
pub(crate) fn refute<T: Tables>(
    alloc: Global,
    tables: &T,
    closures: &Closures,
    clash: Contradiction,
    budget: u32,
) -> Result<Refutation, Memory>
    requires { IsAsked (T.system tables.now) (T.scope tables.now) (T.rows tables.now) closures.now clash }
    ensures { IfOk result (IsRefutation (T.system tables.now) (T.scope tables.now) budget) }
{
    let mut numbers = LitNumbers::new(alloc, closures, clash.group)?;
    let lit = lit_at(closures, clash.group, clash.place as usize);
    let steps = trail(alloc, tables, closures, clash, lit, &mut numbers)?;
    let root = tables.root();
    let mut writer = Writer::new(alloc, budget);
    let whole = write(
        alloc,
        &steps,
        &mut numbers,
        &mut writer,
        clash.group,
        lit,
        root,
    )?;
    let Writer { lines, .. } = writer;
    let derivation = Derivation {
        lines: Lines { items: lines },
    };
    if whole {
        return Ok(Refutation::Whole(derivation));
    }
    Ok(Refutation::Over(derivation))
}

/// The steps on which a contradiction stands, each after those that it stands on itself.
fn trail<T: Tables>(
    alloc: Global,
    tables: &T,
    closures: &Closures,
    clash: Contradiction,
    lit: Lit,
    numbers: &mut LitNumbers,
) -> Result<Vec<Step>, Memory>
    requires asked { IsAsked (T.system tables.now) (T.scope tables.now) (T.rows tables.now) closures.now clash }
    requires room { HasRoomFor closures.now clash.group numbers.old }
    requires lit { lit ≡ lit_found closures.now clash.group clash.place }
    ensures ends { IfOk result (λ steps. EndsIn (T.system tables.now) (T.scope tables.now) clash.group lit steps.items) }
    ensures room { IfOk result (λ steps. AreRoomy numbers.new steps.items) }
    ensures first { IfOk result (λ _. HasRoom numbers.new clash.group lit) }
    ensures second { IfOk result (λ _. HasRoom numbers.new clash.group (opposite lit)) }
{
    numbers.set(clash.group, lit, 1);
    numbers.set(clash.group, lit.negated(), 1);
    let mut steps = collect(alloc, tables, closures, clash, numbers)?;
    steps.reverse();
    Ok(steps)
}

/// Writes the lines of all steps and the empty lines. False where the cost went over the budget.
fn write(
    alloc: Global,
    steps: &[Step],
    numbers: &mut LitNumbers,
    writer: &mut Writer,
    group: u32,
    lit: Lit,
    root: u32,
) -> Result<bool, Memory>
    requires room { AreRoomy numbers.old steps.now }
    requires first { HasRoom numbers.old group lit }
    requires second { HasRoom numbers.old group (opposite lit) }
    requires none { writer.old.lines.items ≡ [] }
    requires within { IsWithin writer.old }
    ensures { IfOk result (WritesTrail steps.now group lit root writer.old writer.new) }
{
    let whole = spell_all(alloc, steps, numbers, writer)?;
    if whole {
        let first = numbers.get(group, lit);
        let second = numbers.get(group, lit.negated());
        return end(alloc, writer, group, root, first, second);
    }
    Ok(false)
}

/// Resolves the lines of two opposite literals of a group to the empty line, and carries this to the root unless it is there.
/// False where the cost went over the budget.
fn end(
    alloc: Global,
    writer: &mut Writer,
    group: u32,
    root: u32,
    first: u32,
    second: u32,
) -> Result<bool, Memory>
    requires { IsWithin writer.old }
    ensures grows { IfOk result (λ _. Grows 2 writer.old writer.new) }
    ensures ends { IfOk result (Ends group root first second writer.old writer.new) }
{
    let Some(empty) = writer.put(alloc, group, How::Resolve(first, second), &[])? else {
        return Ok(false);
    };
    if group == root {
        return Ok(true);
    }
    match writer.put(alloc, root, How::Inst(empty, group), &[])? {
        None => Ok(false),
        Some(_) => Ok(true),
    }
}

ghost use Rattle.unit_refutation.specs.Room.{HasRoomFor};
