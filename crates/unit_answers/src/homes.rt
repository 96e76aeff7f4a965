ghost use Rattle.std.specs.Prelude.{◌≡◌, ℕ, ◌<◌, ◌^◌, length, cond, slice_index, IfOk};
ghost use Rattle.std.specs.List.{All};
ghost use Rattle.flow_graph.specs.Fits.{is_in};
ghost use Rattle.transfer_rules.specs.Programs.{group_at};
ghost use Rattle.unit_answers.specs.Layouts.{AreHomes};

use c_tree::Memory;
use recursion_groups::Groups;
use std::alloc::Global;

/// By procedure with a body, the number of the first group that holds it.
pub(crate) fn homes(alloc: Global, groups: &Groups, bodies: u32) -> Result<Vec<u32>, Memory>
    requires few { length groups.now < 2 ^ 32 }
    requires within { All (All (λ k. k < bodies)) groups.now }
    ensures { IfOk result (λ hs. AreHomes groups.now bodies hs.items) }
{
    let mut group = groups.items.len();
    let mut homes = vec![in alloc; group as u32; bodies as usize]?;
    while group > 0 {
        group -= 1;
        let members = members_at(groups, group);
        put(&mut homes, members, group as u32);
    }
    Ok(homes)
}

/// The procedures of a group.
fn members_at(groups: &Groups, group: usize) -> &[u32]
    requires { group < length groups.now }
    ensures { result.now ≡ group_at groups.now group }
{
    groups.items[group].items.as_slice()
}

/// Writes a group's number at each of its procedures.
fn put(homes: &mut [u32], members: &[u32], group: u32)
    requires { All (λ k. k < length homes.old) members.now }
    ensures { (k : ℕ) → k < length homes.old
        → slice_index homes.new k ≡ cond (is_in members.now k) group (slice_index homes.old k) }
{
    for member in members {
        homes[*member as usize] = group;
    }
}
