ghost use Rattle.std.specs.Prelude.{◌≡◌, ◌<◌, ◌≤◌, ◌^◌, length, IfOk, OnOk};
ghost use Rattle.std.specs.List.{Contains};
ghost use Rattle.transfer_rules.specs.Programs.{group_at};
ghost use Rattle.verdict_meaning.specs.Programs.{system_in};
ghost use Rattle.program_shapes.specs.Tables.{AreProcShapes, HoldsGroup, IsProcOf};

use crate::groups::sum;
use c_tree::Memory;
use owner_vars::unknown_laws;
use std::alloc::Global;
use transfer_rules::Program;

/// What there is of a procedure with a body.
#[derive(Clone, Copy)]
pub(crate) struct ProcShape {
    /// How many parts its interface has.
    pub(crate) parts: u32,
    /// How many unknowns of its group are before those of its interface.
    pub(crate) before: u32,
    /// How many places it has.
    pub(crate) places: u32,
    /// How many unknowns each of them has.
    pub(crate) width: u32,
}

/// By procedure with a body, what there is of it, where there are so many fields.
pub(crate) fn proc_shapes(
    alloc: Global,
    program: &Program,
    fields: u32,
) -> Result<Vec<ProcShape>, Memory>
    requires fields { fields ≡ (system_in program.now).fields }
    ensures { IfOk result (λ ps. AreProcShapes (system_in program.now) ps.items) }
{
    program.law();
    let Ok(groups) = u32::try_from(program.groups.items.len()) else {
        return Err(Memory);
    };
    let blank = ProcShape {
        parts: 0,
        before: 0,
        places: 0,
        width: 0,
    };
    let mut procs = vec![in alloc; blank; program.graph.bodies() as usize]?;
    for group in 0..groups {
        place_group(program, fields, group, &mut procs)?;
    }
    Ok(procs)
}

/// Puts down what there is of the procedures of a group.
fn place_group(
    program: &Program,
    fields: u32,
    group: u32,
    procs: &mut Vec<ProcShape>,
) -> Result<(), Memory>
    requires fields { fields ≡ (system_in program.now).fields }
    requires group { group < length program.now.groups }
    requires room { program.now.graph.bodies ≤ length procs.old.items }
    ensures { OnOk result (HoldsGroup (system_in program.now) group procs.old.items procs.new.items) }
{
    program.law();
    let mut before = fields;
    for proc in program.members(group) {
        let shape = proc_shape(program, group, *proc, before);
        procs[*proc as usize] = shape;
        before = sum(before, shape.parts)?;
    }
    Ok(())
}

/// What there is of a member of a group, with so many unknowns before those of its interface.
fn proc_shape(program: &Program, group: u32, proc: u32, before: u32) -> ProcShape
    requires group { group < length program.now.groups }
    requires member { Contains (group_at program.now.groups group) proc }
    ensures { IsProcOf (system_in program.now) proc before result }
{
    let parts = parts_of(program, group, proc);
    let places = places_of(program, group, proc);
    let width = width_of(program, group, proc);
    ProcShape {
        parts,
        before,
        places,
        width,
    }
}

/// How many parts the interface of a member has.
fn parts_of(program: &Program, group: u32, proc: u32) -> u32
    requires group { group < length program.now.groups }
    requires member { Contains (group_at program.now.groups group) proc }
    ensures { result ≡ (system_in program.now).parts proc }
{
    program.law();
    unknown_laws();
    program.numbering(group).face(proc).count
}

/// How many places a member has.
fn places_of(program: &Program, group: u32, proc: u32) -> u32
    requires group { group < length program.now.groups }
    requires member { Contains (group_at program.now.groups group) proc }
    ensures { result ≡ (system_in program.now).places proc }
{
    program.law();
    program.graph.places(proc).len() as u32
}

/// How many unknowns a place of a member has.
fn width_of(program: &Program, group: u32, proc: u32) -> u32
    requires group { group < length program.now.groups }
    requires member { Contains (group_at program.now.groups group) proc }
    ensures { result ≡ (system_in program.now).width proc }
{
    program.law();
    unknown_laws();
    program.numbering(group).row(proc, 0).count
}
