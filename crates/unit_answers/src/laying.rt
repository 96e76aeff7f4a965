ghost use Rattle.std.specs.Prelude.{◌≡◌, ℕ, ◌+◌, ◌<◌, ◌≤◌, ◌^◌, length, slice_index, slice_get, Some, IfOk};
ghost use Rattle.std.specs.List.{All, Contains};
ghost use Rattle.owner_vars.specs.Unknowns.{site_callees};
ghost use Rattle.transfer_rules.specs.Programs.{group_at};
ghost use Rattle.verdict_meaning.specs.Systems.{callees, count, root};
ghost use Rattle.unit_answers.specs.Layouts.{AreGroupNumbers, AreHomes, IsCallAt, IsLayoutOf, outer_count};
ghost use Rattle.verdict_meaning.specs.Programs.{system_in};

use crate::faces::{face, members, numbering, root_numbering, root_site_face, site_face};
use crate::homes::homes;
use crate::layouts::{Call, GroupLayout, Layout};
use c_tree::Memory;
use owner_vars::{fields, site_laws, sites, unknown_laws};
use std::alloc::Global;
use transfer_rules::Program;
use verdict_meaning::{Callee, system_is_of_graph};

/// The numbers of a program's groups. It takes time linear in the procedures' places.
pub fn layout(alloc: Global, program: &Program) -> Result<Layout, Memory>
    ensures { IfOk result (IsLayoutOf (system_in program.now)) }
{
    let Ok(root) = u32::try_from(program.groups.items.len()) else {
        return Err(Memory);
    };
    let fields = field_count(alloc, program)?;
    let homes = group_numbers(alloc, program)?;
    let mut groups = Vec::new(alloc);
    for group in 0..root {
        let numbers = group_layout(alloc, program, fields, &homes, group)?;
        groups.push(numbers)?;
    }
    let numbers = root_layout(alloc, program, fields, root)?;
    groups.push(numbers)?;
    Ok(Layout { fields, groups })
}

/// How many pointer fields there are.
fn field_count(alloc: Global, program: &Program) -> Result<u32, Memory>
    ensures count { IfOk result (λ n. n ≡ (system_in program.now).fields) }
    ensures few { IfOk result (λ n. n ≤ 65536) }
{
    let fields = fields(alloc, &program.graph)?;
    Ok(fields.count())
}

/// By procedure with a body, the number of its group.
fn group_numbers(alloc: Global, program: &Program) -> Result<Vec<u32>, Memory>
    requires { length program.now.groups < 2 ^ 32 }
    ensures { IfOk result (λ hs. AreHomes program.now.groups program.now.graph.bodies hs.items) }
{
    program.law();
    homes(alloc, &program.groups, program.graph.bodies())
}

/// The numbers of a group.
fn group_layout(
    alloc: Global,
    program: &Program,
    fields: u32,
    homes: &[u32],
    group: u32,
) -> Result<GroupLayout, Memory>
    requires fields { fields ≡ (system_in program.now).fields }
    requires few { fields ≤ 65536 }
    requires homes { AreHomes program.now.groups program.now.graph.bodies homes.now }
    requires group { group < length program.now.groups }
    ensures { IfOk result (AreGroupNumbers (system_in program.now) group) }
{
    program.law();
    system_is_of_graph();
    let sites = sites(alloc, &program.graph, members(program, group))?;
    let mut calls = Vec::new(alloc);
    for site in 0..sites.count() {
        let callee = sites.site(site).callee;
        calls.push(call(program, fields, homes, group, site, callee))?;
    }
    let count = count_in(program, group)?;
    let outer = outer_in(program, fields, group)?;
    Ok(GroupLayout {
        count,
        outer,
        calls,
    })
}

/// The call at a site of a group.
fn call(program: &Program, fields: u32, homes: &[u32], group: u32, site: u32, callee: u32) -> Call
    requires fields { fields ≡ (system_in program.now).fields }
    requires few { fields ≤ 65536 }
    requires homes { AreHomes program.now.groups program.now.graph.bodies homes.now }
    requires group { group < length program.now.groups }
    requires site { site < length (callees (system_in program.now) group) }
    requires callee { callee ≡ slice_index (site_callees program.now.graph (group_at program.now.groups group)) site }
    ensures { IsCallAt (system_in program.now) group site result }
{
    program.law();
    unknown_laws();
    site_laws();
    system_is_of_graph();
    let home = homes[callee as usize];
    let there = face(program, fields, home, callee);
    let here = site_face(program, fields, group, site);
    let callee = Callee {
        proc: callee,
        group: home,
    };
    Call {
        callee,
        there,
        here,
    }
}

/// How many unknowns a group has.
fn count_in(program: &Program, group: u32) -> Result<u32, Memory>
    requires { group < length program.now.groups }
    ensures count { IfOk result (λ n. n ≡ count (system_in program.now) group) }
    ensures small { IfOk result (λ n. n < 2147483648) }
{
    program.law();
    system_is_of_graph();
    let count = numbering(program, group).count();
    if count >= 2147483648 {
        return Err(Memory);
    }
    Ok(count)
}

/// How many unknowns of a group are of fields or of the interfaces of its members.
fn outer_in(program: &Program, fields: u32, group: u32) -> Result<u32, Memory>
    requires fields { fields ≡ (system_in program.now).fields }
    requires few { fields ≤ 65536 }
    requires group { group < length program.now.groups }
    ensures { IfOk result (λ n. n ≡ outer_count (system_in program.now) group) }
{
    let mut outer = fields;
    let members = members(program, group);
    for member in members {
        let Some(next) = outer.checked_add(face(program, fields, group, *member).count) else {
            return Err(Memory);
        };
        outer = next;
    }
    Ok(outer)
}

/// The numbers of the root, which calls the first procedure of each group.
fn root_layout(
    alloc: Global,
    program: &Program,
    fields: u32,
    many: u32,
) -> Result<GroupLayout, Memory>
    requires fields { fields ≡ (system_in program.now).fields }
    requires few { fields ≤ 65536 }
    requires groups { many ≡ length program.now.groups }
    ensures { IfOk result (AreGroupNumbers (system_in program.now) (root (system_in program.now))) }
{
    program.law();
    system_is_of_graph();
    let mut calls = Vec::new(alloc);
    for group in 0..many {
        calls.push(root_call(program, fields, group))?;
    }
    let count = root_count(program)?;
    Ok(GroupLayout {
        count,
        outer: fields,
        calls,
    })
}

/// How many unknowns the root has.
fn root_count(program: &Program) -> Result<u32, Memory>
    ensures count { IfOk result (λ n. n ≡ count (system_in program.now) (root (system_in program.now))) }
    ensures small { IfOk result (λ n. n < 2147483648) }
{
    program.law();
    system_is_of_graph();
    let count = root_numbering(program).count();
    if count >= 2147483648 {
        return Err(Memory);
    }
    Ok(count)
}

/// The root's call of a group.
fn root_call(program: &Program, fields: u32, group: u32) -> Call
    requires fields { fields ≡ (system_in program.now).fields }
    requires few { fields ≤ 65536 }
    requires group { group < length program.now.groups }
    ensures { IsCallAt (system_in program.now) (root (system_in program.now)) group result }
{
    program.law();
    system_is_of_graph();
    let proc = first(program, group);
    let there = face(program, fields, group, proc);
    let here = root_site_face(program, fields, group);
    let callee = Callee { proc, group };
    Call {
        callee,
        there,
        here,
    }
}

/// The first procedure of a group.
fn first(program: &Program, group: u32) -> u32
    requires { group < length program.now.groups }
    ensures first { result ≡ slice_index (group_at program.now.groups group) 0 }
    ensures member { Contains (group_at program.now.groups group) result }
{
    program.law();
    let members = members(program, group);
    members[0]
}
