ghost use Rattle.std.specs.Prelude.{◌≡◌, ◌≤◌, ◌<◌, ◌^◌, length, IfOk};
ghost use Rattle.verdict_meaning.specs.Programs.{system_in};
ghost use Rattle.verdict_meaning.specs.Systems.{count, root};
ghost use Rattle.program_shapes.specs.Tables.{AreTables, KeepsShape};

use crate::groups::{GroupShape, group_shapes};
use crate::procs::{ProcShape, proc_shapes};
use c_tree::Memory;
use call_search::Shapes;
use owner_vars::unknown_laws;
use std::alloc::Global;
use transfer_rules::Program;
use unit_answers::layout;
use verdict_meaning::{Callee, system_is_of_graph};

/// What there is in the groups of a program. No getter takes memory, and each takes constant time.
#[derive(Drop)]
pub struct ProgramShapes<'a> {
    pub program: &'a Program,
    fields: u32,
    procs: Vec<ProcShape>,
    groups: Vec<GroupShape>,
    ghost tables: { AreTables (system_in program.now) fields procs.items groups.items },
    ghost keeps: { KeepsShape (system_in program.now) },
}

/// The shapes of a program. It takes time linear in the places and the sites of its procedures. Its one refusal is want of
/// memory.
pub fn program_shapes<'a>(alloc: Global, program: &'a Program) -> Result<ProgramShapes<'a>, Memory>
    ensures { IfOk result (λ s. s.program.now ≡ program.now) }
{
    program.law();
    system_is_of_graph();
    unknown_laws();
    let layout = layout(alloc, program)?;
    let procs = proc_shapes(alloc, program, layout.fields)?;
    let groups = group_shapes(alloc, &layout)?;
    let fields = layout.fields;
    Ok(ProgramShapes {
        program,
        fields,
        procs,
        groups,
    })
}

impl ProgramShapes<'_> {
    /// How many unknowns a group or the root has. The group exists, or is the root.
    pub fn count(&self, group: u32) -> u32
        requires { group ≤ root (system_in self.now.program.now) }
        ensures count { result ≡ count (system_in self.now.program.now) group }
        ensures small { result < 2 ^ 31 }
    {
        self.groups[group as usize].count
    }
}

impl Shapes for ProgramShapes<'_> {
    ghost use Rattle.verdict_meaning.specs.Programs.{system_in};
    ghost use Rattle.program_shapes.specs.Laws.{shape_law};

    ghost system = { λ s. system_in s.program.now };

    ghost shaped = { λ s. shape_law (system_in s.program.now) s.keeps };

    fn root(&self) -> u32 {
        (self.groups.len() - 1) as u32
    }

    fn fields(&self) -> u32 {
        self.fields
    }

    fn parts(&self, of: Callee) -> u32 {
        self.procs[of.proc as usize].parts
    }

    fn before_own(&self, of: Callee) -> u32 {
        self.procs[of.proc as usize].before
    }

    fn members(&self, group: u32) -> &[u32] {
        self.program.members(group)
    }

    fn own_parts(&self, group: u32) -> u32 {
        self.groups[group as usize].own_parts
    }

    fn site_parts(&self, group: u32) -> u32 {
        self.groups[group as usize].site_parts
    }

    fn places(&self, of: Callee) -> u32 {
        self.procs[of.proc as usize].places
    }

    fn width(&self, of: Callee) -> u32 {
        self.procs[of.proc as usize].width
    }

    fn sites(&self, group: u32) -> u32 {
        self.groups[group as usize].sites.len() as u32
    }

    fn callee(&self, group: u32, site: u32) -> Callee {
        self.groups[group as usize].sites[site as usize].callee
    }

    fn before_site(&self, group: u32, site: u32) -> u32 {
        self.groups[group as usize].sites[site as usize].before
    }
}
