ghost use Rattle.std.specs.Prelude.{◌≡◌, ◌<◌, length};
ghost use Rattle.recursion_groups.specs.Grouping.{IsGroup};
ghost use Rattle.transfer_rules.specs.Programs.{group_at};

use transfer_rules::Program;

/// How many groups there are.
pub(crate) fn group_count(program: &Program) -> u32
    ensures { result ≡ length program.now.groups }
{
    program.law();
    program.groups.items.len() as u32
}

/// The procedures of a group.
pub(crate) fn members_of(program: &Program, group: u32) -> &[u32]
    requires { group < length program.now.groups }
    ensures members { result.now ≡ group_at program.now.groups group }
    ensures group { IsGroup program.now.graph (group_at program.now.groups group) }
{
    program.law();
    program.groups.items[group as usize].items.as_slice()
}
