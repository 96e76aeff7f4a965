ghost use Rattle.std.specs.Prelude.{◌≡◌, ◌+◌, ◌<◌, ◌≤◌, length};
ghost use Rattle.std.specs.List.{Contains};
ghost use Rattle.owner_vars.specs.Unknowns.{unknowns, root_unknowns};
ghost use Rattle.transfer_rules.specs.Programs.{group_at, firsts};
ghost use Rattle.verdict_meaning.specs.Systems.{callees, root};
ghost use Rattle.unit_answers.specs.Layouts.{IsFace, IsPart, IsSiteFace};
ghost use Rattle.verdict_meaning.specs.Programs.{system_in};

use owner_vars::{Numbering, unknown_laws};
use transfer_rules::Program;
use verdict_meaning::system_is_of_graph;
use zo_core::NumberRange;

/// A range, which begins after the fields where it has no numbers.
fn part(range: NumberRange, fields: u32) -> NumberRange
    requires { fields ≤ 65536 }
    ensures { IsPart (fields + 1) range.first range.count result }
{
    if range.count == 0 {
        return NumberRange {
            first: fields + 1,
            count: 0,
        };
    }
    range
}

/// The procedures of a group.
pub(crate) fn members(program: &Program, group: u32) -> &[u32]
    requires { group < length program.now.groups }
    ensures { result.now ≡ group_at program.now.groups group }
{
    program.groups.items[group as usize].items.as_slice()
}

/// The numbers of a group's unknowns.
pub(crate) fn numbering(program: &Program, group: u32) -> &Numbering
    requires { group < length program.now.groups }
    ensures { result.now ≡ unknowns program.now.graph (group_at program.now.groups group) }
{
    program.law();
    &program.numbers.items[group as usize]
}

/// The numbers of the root's unknowns.
pub(crate) fn root_numbering(program: &Program) -> &Numbering
    ensures { result.now ≡ root_unknowns program.now.graph (firsts program.now.groups) }
{
    program.law();
    let root = program.groups.items.len();
    &program.numbers.items[root]
}

/// The unknowns of a member's interface.
pub(crate) fn face(program: &Program, fields: u32, group: u32, proc: u32) -> NumberRange
    requires fields { fields ≡ (system_in program.now).fields }
    requires few { fields ≤ 65536 }
    requires group { group < length program.now.groups }
    requires member { Contains (group_at program.now.groups group) proc }
    ensures { IsFace (system_in program.now) group proc result }
{
    program.law();
    unknown_laws();
    system_is_of_graph();
    let range = numbering(program, group).face(proc);
    part(range, fields)
}

/// The unknowns of a site of a group.
pub(crate) fn site_face(program: &Program, fields: u32, group: u32, site: u32) -> NumberRange
    requires fields { fields ≡ (system_in program.now).fields }
    requires few { fields ≤ 65536 }
    requires group { group < length program.now.groups }
    requires site { site < length (callees (system_in program.now) group) }
    ensures { IsSiteFace (system_in program.now) group site result }
{
    program.law();
    unknown_laws();
    system_is_of_graph();
    let range = numbering(program, group).site_face(site);
    part(range, fields)
}

/// The unknowns of a site of the root.
pub(crate) fn root_site_face(program: &Program, fields: u32, site: u32) -> NumberRange
    requires fields { fields ≡ (system_in program.now).fields }
    requires few { fields ≤ 65536 }
    requires site { site < length program.now.groups }
    ensures { IsSiteFace (system_in program.now) (root (system_in program.now)) site result }
{
    program.law();
    unknown_laws();
    system_is_of_graph();
    let range = root_numbering(program).site_face(site);
    part(range, fields)
}
