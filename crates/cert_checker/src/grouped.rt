ghost use Rattle.std.specs.Prelude.{◌≡◌, ◌<◌, ◌^◌, length, slice_index_or, IfOk, OnOk};
ghost use Rattle.std.specs.List.{All, Contains};
ghost use Rattle.flow_graph.specs.FlowGraph.{flow_of};
ghost use Rattle.owner_vars.specs.Laws.{part_count, place_width};
ghost use Rattle.owner_vars.specs.Unknowns.{field_count, unknowns};
ghost use Rattle.transfer_rules.specs.Names.{in_scope};
ghost use Rattle.verdict_meaning.specs.Programs.{system_of};
ghost use Rattle.verdict_meaning.specs.Systems.{nobody, parts_before};
ghost use Rattle.cert_checker.specs.Tables.{table_of};
ghost use Rattle.transfer_rules.specs.Programs.{group_at};
ghost use Rattle.cert_checker.specs.Grouped.{AreGroupNumbers, MarksGroup, called};
ghost use Rattle.cert_checker.specs.Placed.{names_at};

use crate::groups::Face;
use c_tree::Memory;
use flow_graph::Numbers;
use owner_vars::{Numbering, site_laws, sites, unknown_laws};
use std::alloc::Global;
use std::marker::Model;
use transfer_rules::{ClauseTable, Program, Scope, place_clauses};
use verdict_meaning::{Callee, names_are_apart, system_is_of_graph};

/// Whom the sites of a group call. Contracts see the list.
#[derive(Drop)]
pub(crate) struct Callees {
    pub items: Vec<Callee>,
}

impl Model for Callees {
    ghost use Rattle.std.specs.Prelude.{List};
    ghost use Rattle.verdict_meaning.specs.declared.callee.Callee.{Callee};

    ghost Value = { List Callee };

    ghost view = { λ c. c.items.items };
}

/// The procedures of a group, ascending.
pub(crate) fn members_of(program: &Program, group: u32) -> &[u32]
    requires { group < length program.now.groups }
    ensures { result.now ≡ group_at program.now.groups group }
{
    program.groups.items[group as usize].items.as_slice()
}

/// The numbers of a group's unknowns.
pub(crate) fn numbering_of(program: &Program, group: u32) -> &Numbering
    requires { group < length program.now.groups }
    ensures { result.now ≡ unknowns program.now.graph (group_at program.now.groups group) }
{
    program.law();
    &program.numbers.items[group as usize]
}

/// How many places a member of a group has.
pub(crate) fn places_of(program: &Program, group: u32, proc: u32) -> u32
    requires group { group < length program.now.groups }
    requires member { Contains (group_at program.now.groups group) proc }
    ensures { result ≡ length (flow_of program.now.graph proc).places }
{
    program.law();
    program.graph.places(proc).len() as u32
}

/// The interface of a member, where there are so many pointer fields.
pub(crate) fn face_of(program: &Program, group: u32, proc: u32, fields: u32) -> Face
    requires group { group < length program.now.groups }
    requires member { Contains (group_at program.now.groups group) proc }
    requires fields { fields ≡ field_count program.now.graph }
    ensures count { result.count ≡ part_count program.now.graph proc }
    ensures start { 0 < result.count → result.start
        ≡ parts_before (system_of program.now.graph program.now.facts program.now.groups) proc (group_at program.now.groups group) }
{
    program.law();
    unknown_laws();
    system_is_of_graph();
    let range = numbering_of(program, group).face(proc);
    let start = range.first.saturating_sub(1).saturating_sub(fields);
    let count = range.count;
    Face { start, count }
}

/// How many unknowns a place of a member has.
pub(crate) fn width_of(program: &Program, group: u32, proc: u32) -> u32
    requires group { group < length program.now.groups }
    requires member { Contains (group_at program.now.groups group) proc }
    ensures { result ≡ place_width program.now.graph proc }
{
    program.law();
    unknown_laws();
    numbering_of(program, group).row(proc, 0).count
}

/// How many parts the interface has that is called at a site.
pub(crate) fn site_parts_of(program: &Program, group: u32, site: u32) -> u32
    requires group { group < length program.now.groups }
    requires site { site < length (called program.now.graph program.now.groups group) }
    ensures { result ≡ part_count program.now.graph (slice_index_or (called program.now.graph program.now.groups group) site nobody).proc }
{
    program.law();
    unknown_laws();
    numbering_of(program, group).site_face(site).count
}

/// The clauses of the constraints of a place of a member that are in a scope.
pub(crate) fn clauses_at(
    alloc: Global,
    program: &Program,
    group: u32,
    proc: u32,
    place: u32,
    scope: &Scope,
) -> Result<ClauseTable, Memory>
    requires group { group < length program.now.groups }
    requires member { Contains (group_at program.now.groups group) proc }
    requires place { place < length (flow_of program.now.graph proc).places }
    ensures { IfOk result (λ t. t ≡ table_of (system_of program.now.graph program.now.facts program.now.groups) (in_scope scope.now) group
        (names_at program.now.graph program.now.facts (group_at program.now.groups group) (record { proc = proc; place = place }))) }
{
    names_are_apart();
    place_clauses(alloc, program, group, proc, place, scope)
}

/// For each procedure with a body the number of its group.
pub(crate) fn group_numbers(alloc: Global, program: &Program) -> Result<Vec<u32>, Memory>
    requires { length program.now.groups < 2 ^ 32 }
    ensures { IfOk result (λ ns. AreGroupNumbers program.now.graph.bodies program.now.groups 0 ns.items) }
{
    program.law();
    let groups = program.groups.items.as_slice();
    let mut numbers = vec![in alloc; groups.len() as u32; program.graph.bodies() as usize]?;
    for done in 0..groups.len() {
        let group = groups.len() - 1 - done;
        mark_group(&mut numbers, &groups[group], group as u32);
    }
    Ok(numbers)
}

/// Writes the number of a group for each of its procedures.
fn mark_group(numbers: &mut Vec<u32>, members: &Numbers, group: u32)
    requires { All (λ k. k < length numbers.old.items) members.now }
    ensures { MarksGroup numbers.old.items numbers.new.items members.now group }
{
    for member in &members.items {
        numbers[*member as usize] = group;
    }
}

/// Whom the sites of a group call, by the numbers of groups.
pub(crate) fn callees_of(
    alloc: Global,
    program: &Program,
    numbers: &[u32],
    group: u32,
) -> Result<Callees, Memory>
    requires numbers { AreGroupNumbers program.now.graph.bodies program.now.groups 0 numbers.now }
    requires group { group < length program.now.groups }
    ensures right { IfOk result (λ cs. cs ≡ called program.now.graph program.now.groups group) }
    ensures small { OnOk result (length (called program.now.graph program.now.groups group) < 2 ^ 32) }
{
    program.law();
    site_laws();
    let sites = sites(alloc, &program.graph, members_of(program, group))?;
    let mut items = Vec::new(alloc);
    let count = sites.count();
    for number in 0..count {
        let proc = sites.site(number).callee;
        let group = numbers[proc as usize];
        items.push(Callee { proc, group })?;
    }
    Ok(Callees { items })
}
