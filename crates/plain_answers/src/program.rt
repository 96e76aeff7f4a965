ghost use Rattle.std.specs.Prelude.{◌≡◌, ◌<◌, ◌≤◌, ◌^◌, true, length, IfOk};
ghost use Rattle.std.specs.List.{All};
ghost use Rattle.transfer_rules.specs.Names.{in_scope};
ghost use Rattle.verdict_meaning.specs.Programs.{system_in};
ghost use Rattle.unit_answers.specs.Sets.{AreClosures, AreWithin};
ghost use Rattle.unit_answers.specs.Tables.{table_in};
ghost use Rattle.program_shapes.specs.Laws.{shape_law};
ghost use Rattle.plain_answers.specs.Answers.{IsPlainAnswer};
ghost use Rattle.plain_answers.specs.Stages.{IsOfGroup, AreOfGroup};

use crate::filling::plain;
use crate::groups::GroupClauses;
use c_tree::Memory;
use call_search::Shapes;
use own_cert::Certificate;
use program_shapes::{ProgramShapes, program_shapes};
use std::alloc::Global;
use transfer_rules::{ClauseTable, Program, Scope, group_clauses};
use unit_answers::{Closures, closures};
use verdict_meaning::{Callee, names_are_apart};
use zo_core::Lit;

/// The certificate that propagation alone makes of a program, by the constraints in a scope and those that are always in
/// force. None where the assignments that it makes are no solution.
///
/// It takes time linear in the clauses of all groups, and in the unknowns and clauses of the instances. Its one refusal is want
/// of memory; a clause that speaks of an unknown beyond those of its group would be answered so too.
pub fn plain_certificate(
    alloc: Global,
    program: &Program,
    scope: &Scope,
) -> Result<Option<Certificate>, Memory>
    ensures { IfOk result (IsPlainAnswer (system_in program.now) (in_scope scope.now)) }
{
    let closures = closures(alloc, program, scope)?;
    let answer = plain_certificate_by(alloc, program, scope, &closures)?;
    Ok(answer)
}

/// The same where the sets of the program in this scope are there.
pub fn plain_certificate_by(
    alloc: Global,
    program: &Program,
    scope: &Scope,
    closures: &Closures,
) -> Result<Option<Certificate>, Memory>
    requires closures { AreClosures (system_in program.now) (in_scope scope.now) closures.now }
    requires within { AreWithin (system_in program.now) closures.now }
    ensures { IfOk result (IsPlainAnswer (system_in program.now) (in_scope scope.now)) }
{
    let shapes = program_shapes(alloc, program)?;
    let groups = ProgramClauses { shapes, scope };
    let answer = plain(alloc, &groups, closures)?;
    Ok(answer)
}

/// The groups of a program with the clauses that are in force in a scope.
#[derive(Drop)]
struct ProgramClauses<'a> {
    shapes: ProgramShapes<'a>,
    scope: &'a Scope,
}

impl Shapes for ProgramClauses<'_> {
    ghost system = { λ t. system_in t.shapes.program.now };

    ghost shaped = { λ t. shape_law (system_in t.shapes.program.now) t.shapes.keeps };

    fn root(&self) -> u32 {
        self.shapes.root()
    }

    fn fields(&self) -> u32 {
        self.shapes.fields()
    }

    fn parts(&self, of: Callee) -> u32 {
        self.shapes.parts(of)
    }

    fn before_own(&self, of: Callee) -> u32 {
        self.shapes.before_own(of)
    }

    fn members(&self, group: u32) -> &[u32] {
        self.shapes.members(group)
    }

    fn own_parts(&self, group: u32) -> u32 {
        self.shapes.own_parts(group)
    }

    fn site_parts(&self, group: u32) -> u32 {
        self.shapes.site_parts(group)
    }

    fn places(&self, of: Callee) -> u32 {
        self.shapes.places(of)
    }

    fn width(&self, of: Callee) -> u32 {
        self.shapes.width(of)
    }

    fn sites(&self, group: u32) -> u32 {
        self.shapes.sites(group)
    }

    fn callee(&self, group: u32, site: u32) -> Callee {
        self.shapes.callee(group, site)
    }

    fn before_site(&self, group: u32, site: u32) -> u32 {
        self.shapes.before_site(group, site)
    }
}

impl GroupClauses for ProgramClauses<'_> {
    ghost counting = { λ t. in_scope t.scope.now };

    fn count(&self, group: u32) -> u32 {
        self.shapes.count(group)
    }

    fn clauses(&self, alloc: Global, group: u32) -> Result<ClauseTable, Memory> {
        names_are_apart();
        let table = group_table(alloc, self.shapes.program, self.scope, group)?;
        if table.len() >= 4294967296 {
            return Err(Memory);
        }
        if !are_of_group(&table, self.shapes.count(group)) {
            return Err(Memory);
        }
        Ok(table)
    }
}

/// The table of a group's clauses that are in force in a scope.
fn group_table(
    alloc: Global,
    program: &Program,
    scope: &Scope,
    group: u32,
) -> Result<ClauseTable, Memory>
    requires { group < length program.now.groups }
    ensures { IfOk result (λ t. t ≡ table_in program.now scope.now group) }
{
    let table = group_clauses(alloc, program, group, scope)?;
    Ok(table)
}

/// Whether each literal of a table is of one of the first so many unknowns.
fn are_of_group(table: &ClauseTable, count: u32) -> bool
    ensures { result ≡ true → All (IsOfGroup count) table.now }
{
    for number in 0..table.len() {
        if !is_of_group(table.lits(number), count) {
            return false;
        }
    }
    true
}

/// Whether each literal is of one of the first so many unknowns.
fn is_of_group(lits: &[Lit], count: u32) -> bool
    ensures { result ≡ true → AreOfGroup count lits.now }
{
    for lit in lits {
        if lit.var().number() > count {
            return false;
        }
    }
    true
}
