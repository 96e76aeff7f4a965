ghost use Rattle.std.specs.Prelude.{IfOk};
ghost use Rattle.transfer_rules.specs.Names.{in_scope};
ghost use Rattle.unit_answers.specs.Sets.{AreClosures, AreWithin};
ghost use Rattle.unit_answers.specs.Reasons.{AreReasoned};
ghost use Rattle.verdict_meaning.specs.Programs.{system_in};
ghost use Rattle.unit_answers.specs.Tables.{table_in};
ghost use Rattle.unit_refutation.specs.Refutations.{IsAnswer};

use crate::program::ProgramTables;
use crate::refuting::{Refutation, refute};
use c_tree::Memory;
use std::alloc::Global;
use transfer_rules::{Program, Scope};
use unit_answers::{Closures, contradiction, layout};
use verdict_meaning::names_are_apart;

/// The refutation that propagation gives of a program's constraints that are in force in a scope, under a budget of words. None
/// exactly where propagation reaches no unknown in both signs. The sets are those of the program in the scope.
///
/// It reads the clauses of the groups up to the one of the first contradiction, and writes only what this stands on. Its one
/// refusal is want of memory.
pub fn refutation(
    alloc: Global,
    program: &Program,
    scope: &Scope,
    closures: &Closures,
    budget: u32,
) -> Result<Option<Refutation>, Memory>
    requires exact { AreClosures (system_in program.now) (in_scope scope.now) closures.now }
    requires within { AreWithin (system_in program.now) closures.now }
    requires reasons { AreReasoned (system_in program.now) (table_in program.now scope.now) closures.now }
    ensures { IfOk result (IsAnswer (system_in program.now) (in_scope scope.now) budget) }
{
    names_are_apart();
    let Some(clash) = contradiction(alloc, closures)? else {
        return Ok(None);
    };
    let Ok(top) = u32::try_from(program.groups.items.len()) else {
        return Err(Memory);
    };
    let layout = layout(alloc, program)?;
    let tables = ProgramTables {
        program,
        scope,
        layout: &layout,
        top,
    };
    let made = refute(alloc, &tables, closures, clash, budget)?;
    Ok(Some(made))
}
