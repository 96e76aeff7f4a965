//! The names of the constraints of which these lines are clauses.

ghost use Rattle.std.specs.Prelude.{◌≡◌, IfOk, OnOk};
ghost use Rattle.std.specs.List.Sorted.{IsStrictlySortedBy};
ghost use Rattle.conflict_proof.specs.Names.{name_order};
ghost use Rattle.verdict_meaning.specs.UsedNames.{AreUsedNames};
ghost use Rattle.used_names.specs.Marks.{with_name, LeadBack};

use crate::needed::needed_lines;
use c_tree::Memory;
use conflict_proof::{ConstraintName, Derivation, How, Names};
use std::alloc::Global;
use std::collections::BTreeSet;

/// The number of the rule whose constraints are always in force.
const SAME: u8 = 21;

/// The names of the constraints on which the last line of a derivation stands, ascending and each once, without those that
/// are always in force. It takes time linear in the lines, and in the names with the logarithm of their count.
pub fn used_names(alloc: Global, derivation: &Derivation) -> Result<Names, Memory>
    requires { LeadBack derivation.now.lines }
    ensures { IfOk result (λ names. AreUsedNames derivation.now.lines names) }
{
    let lines = derivation.lines.items.as_slice();
    let needed = needed_lines(alloc, lines)?;
    let mut used = BTreeSet::new(alloc);
    for (index, line) in lines.iter().enumerate() {
        if needed[index] {
            add(&mut used, line.how)?;
        }
    }
    let items = listed(alloc, &used)?;
    Ok(Names { items })
}

/// The names of a set, in order.
fn listed(alloc: Global, used: &BTreeSet<ConstraintName>) -> Result<Vec<ConstraintName>, Memory>
    ensures names { IfOk result (λ names. names.items ≡ used.now.keys) }
    ensures order { OnOk result (IsStrictlySortedBy name_order used.now.keys) }
{
    let mut items = Vec::new(alloc);
    for name in used {
        items.push(*name)?;
    }
    Ok(items)
}

/// Adds the name of the constraint of which a line of this origin is a clause, where it is one that is not always in force.
fn add(used: &mut BTreeSet<ConstraintName>, how: How) -> Result<(), Memory>
    ensures { OnOk result (used.new.keys ≡ with_name used.old.keys how) }
{
    match how {
        How::Axiom(name) if name.rule != SAME => match used.insert(name) {
            Ok(_) => Ok(()),
            Err(_) => Err(Memory),
        },
        How::Axiom(_) | How::Resolve(_, _) | How::Inst(_, _) => Ok(()),
    }
}
