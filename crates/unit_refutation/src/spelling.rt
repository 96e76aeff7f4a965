ghost use Rattle.std.specs.Prelude.{◌≡◌, ℕ, [], IfOk, IfSome, IsTrue};
ghost use Rattle.zo_core.specs.Literals.{Literal};
ghost use Rattle.unit_refutation.specs.declared.steps.Cause.TheVariants.{Clause};
ghost use Rattle.unit_refutation.specs.Numbers.{HasRoom};
ghost use Rattle.unit_refutation.specs.Lines.{IsWithin, IsRoomy, AreRoomy, SpellsStep, SpellsTrail};

use crate::numbers::LitNumbers;
use crate::steps::{Cause, Step};
use crate::writing::{Writer, without};
use c_tree::Memory;
use conflict_proof::{ConstraintName, How};
use std::alloc::Global;
use zo_core::Lit;

/// Writes the lines of all steps in their order, and notes the number of each literal's line. False where the cost went over
/// the budget.
pub(crate) fn spell_all(
    alloc: Global,
    steps: &[Step],
    numbers: &mut LitNumbers,
    writer: &mut Writer,
) -> Result<bool, Memory>
    requires room { AreRoomy numbers.old steps.now }
    requires none { writer.old.lines.items ≡ [] }
    requires within { IsWithin writer.old }
    ensures spells { IfOk result (SpellsTrail steps.now writer.old writer.new numbers.new) }
    ensures within { IfOk result (λ whole. IsTrue whole → IsWithin writer.new) }
    ensures kept { IfOk result (λ _. (group : ℕ) (lit : Literal) → HasRoom numbers.old group lit → HasRoom numbers.new group lit) }
{
    for step in steps {
        match spell(alloc, step, numbers, writer)? {
            None => return Ok(false),
            Some(number) => numbers.set(step.group, step.lit, number),
        }
    }
    Ok(true)
}

/// Writes the lines of a step. The number of its literal's line, or None where the cost went over the budget.
fn spell(
    alloc: Global,
    step: &Step,
    numbers: &LitNumbers,
    writer: &mut Writer,
) -> Result<Option<u32>, Memory>
    requires room { IsRoomy numbers.now step.now }
    requires within { IsWithin writer.old }
    ensures spells { IfOk result (λ n. SpellsStep numbers.now step.now writer.old writer.new n) }
    ensures within { IfOk result (λ n. IfSome n (λ _. IsWithin writer.new)) }
{
    match &step.cause {
        Cause::Clause(name, clause) => {
            spell_forced(alloc, step, numbers, writer, *name, clause.lits())
        }
        Cause::Site(site, lower, lit) => {
            let from = numbers.get(*lower, *lit);
            writer.put(alloc, step.group, How::Inst(from, *site), &[step.lit])
        }
    }
}

/// Writes the lines of a step whose literal this clause of the constraint of this name forces: the clause, and its resolvents
/// with the denials of its other literals. The number of the literal's line, or None where the cost went over the budget.
fn spell_forced(
    alloc: Global,
    step: &Step,
    numbers: &LitNumbers,
    writer: &mut Writer,
    name: ConstraintName,
    clause: &[Lit],
) -> Result<Option<u32>, Memory>
    requires cause { step.now.cause ≡ Clause name clause.now }
    requires room { IsRoomy numbers.now step.now }
    requires within { IsWithin writer.old }
    ensures spells { IfOk result (λ n. SpellsStep numbers.now step.now writer.old writer.new n) }
    ensures within { IfOk result (λ n. IfSome n (λ _. IsWithin writer.new)) }
{
    let Some(first) = writer.put(alloc, step.group, How::Axiom(name), clause)? else {
        return Ok(None);
    };
    let mut number = first;
    let mut rest = clause.to_vec(alloc)?;
    for m in clause {
        if *m != step.lit {
            let denial = numbers.get(step.group, m.negated());
            rest = without(alloc, &rest, *m)?;
            match writer.put(alloc, step.group, How::Resolve(number, denial), &rest)? {
                None => return Ok(None),
                Some(n) => number = n,
            }
        }
    }
    Ok(Some(number))
}
