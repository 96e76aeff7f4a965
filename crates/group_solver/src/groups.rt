ghost use Rattle.std.specs.Prelude.{◌≡◌, ◌<◌, ◌≤◌, IfOk};
ghost use Rattle.transfer_rules.specs.Names.{in_scope};
ghost use Rattle.verdict_meaning.specs.Programs.{system_in};
ghost use Rattle.verdict_meaning.specs.Systems.{root};
ghost use Rattle.unit_answers.specs.Tables.{table_in};
ghost use Rattle.group_solver.specs.Rows.{rows_in};

use crate::solving::solve;
use c_tree::Memory;
use call_search::{Groups, Ledger, Outcome, Shapes};
use program_shapes::{ProgramShapes, program_shapes};
use std::alloc::Global;
use transfer_rules::{ClauseTable, Program, Scope, group_clauses};
use verdict_meaning::{Callee, names_are_apart};
use zo_core::Lit;

/// The groups of a program with the constraints in a scope, as the search asks for them. No call but `solve` takes memory,
/// and each but `solve` takes constant time.
#[derive(Drop)]
pub struct GroupSolver<'a> {
    pub shapes: ProgramShapes<'a>,
    pub scope: &'a Scope,
}

/// The solver of a program's groups with the constraints in a scope, besides those of the rule that is always in force. It
/// takes time linear in the places and the sites of the program's procedures. Its one refusal is want of memory.
pub fn group_solver<'a>(
    alloc: Global,
    program: &'a Program,
    scope: &'a Scope,
) -> Result<GroupSolver<'a>, Memory>
    ensures program { IfOk result (λ s. s.shapes.program.now ≡ program.now) }
    ensures scope { IfOk result (λ s. s.scope.now ≡ scope.now) }
{
    let shapes = program_shapes(alloc, program)?;
    Ok(GroupSolver { shapes, scope })
}

/// The clauses of a group that are in force in a scope; none of the root.
fn table_of(
    alloc: Global,
    shapes: &ProgramShapes,
    scope: &Scope,
    group: u32,
) -> Result<Option<ClauseTable>, Memory>
    requires { group ≤ root (system_in shapes.now.program.now) }
    ensures { IfOk result (λ t. rows_in t ≡ table_in shapes.now.program.now scope.now group) }
{
    if group == shapes.root() {
        return Ok(None);
    }
    let table = group_clauses(alloc, shapes.program, group, scope)?;
    Ok(Some(table))
}

impl Shapes for GroupSolver<'_> {
    ghost use Rattle.verdict_meaning.specs.Programs.{system_in};
    ghost use Rattle.program_shapes.specs.Laws.{shape_law};

    ghost system = { λ s. system_in s.shapes.program.now };

    ghost shaped = { λ s. shape_law (system_in s.shapes.program.now) s.shapes.keeps };

    fn root(&self) -> u32 {
        self.shapes.root()
    }

    fn fields(&self) -> u32 {
        self.shapes.fields()
    }

    fn parts(&self, of: Callee) -> u32 {
        self.shapes.parts(of)
    }

    fn before_own(&self, of: Callee) -> u32 {
        self.shapes.before_own(of)
    }

    fn members(&self, group: u32) -> &[u32] {
        self.shapes.members(group)
    }

    fn own_parts(&self, group: u32) -> u32 {
        self.shapes.own_parts(group)
    }

    fn site_parts(&self, group: u32) -> u32 {
        self.shapes.site_parts(group)
    }

    fn places(&self, of: Callee) -> u32 {
        self.shapes.places(of)
    }

    fn width(&self, of: Callee) -> u32 {
        self.shapes.width(of)
    }

    fn sites(&self, group: u32) -> u32 {
        self.shapes.sites(group)
    }

    fn callee(&self, group: u32, site: u32) -> Callee {
        self.shapes.callee(group, site)
    }

    fn before_site(&self, group: u32, site: u32) -> u32 {
        self.shapes.before_site(group, site)
    }
}

impl Groups for GroupSolver<'_> {
    ghost counting = { λ s. in_scope s.scope.now };

    fn solve(
        &self,
        alloc: Global,
        ledger: &mut Ledger,
        group: u32,
        given: &[Lit],
    ) -> Result<Outcome, Memory> {
        names_are_apart();
        let table = table_of(alloc, &self.shapes, self.scope, group)?;
        let vars = self.shapes.count(group);
        let outcome = solve(alloc, ledger, &table, group, vars, given)?;
        Ok(outcome)
    }
}
