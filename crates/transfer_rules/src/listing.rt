ghost use Rattle.std.specs.Prelude.{◌≡◌, ◌<◌, ◌++◌, length, map, Some, None, true, MatchOption, IfOk, OnOk};
ghost use Rattle.std.specs.List.{Contains};
ghost use Rattle.flow_graph.specs.Fits.{is_in};
ghost use Rattle.flow_graph.specs.FlowGraph.{flow_of};
ghost use Rattle.transfer_rules.specs.Names.{name_of, names, clauses_in, clauses_of_name, group_clauses};
ghost use Rattle.transfer_rules.specs.Programs.{group_at};
ghost use Rattle.transfer_rules.specs.Rules.{body_of, body_constraints, place_constraints};

use crate::body::Body;
use crate::find::clauses_at;
use crate::group::{push_names_of, with_clauses_at, with_clauses_of};
use crate::parts::Program;
use crate::same::is_in;
use crate::scene::Scene;
use crate::scope::Scope;
use crate::table::ClauseTable;
use c_tree::Memory;
use conflict_proof::{ConstraintName, Names};
use owner_vars::{site_laws, unknown_laws};
use path_facts::path_laws;
use std::alloc::Global;
use zo_core::Clause;

/// A member of a call group.
pub(crate) fn body_of<'a>(program: &'a Program, group: u32, proc: u32) -> Body<'a>
    requires group { group < length program.now.groups }
    requires member { Contains (group_at program.now.groups group) proc }
    ensures { result ≡ body_of program.now.graph program.now.facts (group_at program.now.groups group) proc }
{
    program.law();
    path_laws();
    unknown_laws();
    site_laws();
    let numbers = program.numbering(group);
    let fields = program.fields();
    let sites = program.sites(group);
    let pointers = program.pointers(proc);
    let targets = program.targets();
    let members = program.members(group);
    Body {
        graph: &program.graph,
        facts: &program.facts,
        numbers,
        fields,
        sites,
        pointers,
        targets,
        members,
        proc,
    }
}

/// Adds the names of all constraints of a member, in order.
fn push_names_in(
    alloc: Global,
    out: &mut Vec<ConstraintName>,
    program: &Program,
    group: u32,
    proc: u32,
) -> Result<(), Memory>
    requires group { group < length program.now.groups }
    requires member { Contains (group_at program.now.groups group) proc }
    ensures { OnOk result (out.new.items
        ≡ out.old.items ++ map name_of (body_constraints program.now.graph program.now.facts (group_at program.now.groups group) proc)) }
{
    program.law();
    let body = body_of(program, group, proc);
    push_names_of(alloc, out, &body)
}

/// The table with the clauses of all constraints of a member that are in force, in order.
fn with_clauses_in(
    alloc: Global,
    table: ClauseTable,
    program: &Program,
    group: u32,
    proc: u32,
    scope: &Scope,
) -> Result<ClauseTable, Memory>
    requires group { group < length program.now.groups }
    requires member { Contains (group_at program.now.groups group) proc }
    ensures { IfOk result (λ t. t
        ≡ table ++ clauses_in scope.now (body_constraints program.now.graph program.now.facts (group_at program.now.groups group) proc)) }
{
    program.law();
    let body = body_of(program, group, proc);
    with_clauses_of(alloc, table, &body, scope)
}

/// The names of a group's constraints, in order. The group exists. Its one refusal is want of memory.
pub fn names_of(alloc: Global, program: &Program, group: u32) -> Result<Names, Memory>
    requires { group < length program.now.groups }
    ensures { IfOk result (λ ns. ns ≡ names program.now.graph program.now.facts (group_at program.now.groups group)) }
{
    let mut items = Vec::new(alloc);
    let members = program.members(group);
    for proc in members {
        push_names_in(alloc, &mut items, program, group, *proc)?;
    }
    Ok(Names { items })
}

/// The clauses of a group's constraints that are in force in a scope, in order, each with the name of its constraint. The
/// group exists. Its one refusal is want of memory.
pub fn group_clauses(
    alloc: Global,
    program: &Program,
    group: u32,
    scope: &Scope,
) -> Result<ClauseTable, Memory>
    requires { group < length program.now.groups }
    ensures { IfOk result (λ t. t ≡ group_clauses program.now.graph program.now.facts (group_at program.now.groups group) scope.now) }
{
    let mut table = ClauseTable::new(alloc);
    let members = program.members(group);
    for proc in members {
        table = with_clauses_in(alloc, table, program, group, *proc, scope)?;
    }
    Ok(table)
}

/// The clauses of the constraints of one place of a group's procedure that are in force in a scope, in order, each with the name
/// of its constraint. The procedure is of the group and has the place. The clauses of a group are those of its places, procedure
/// by procedure. Its one refusal is want of memory.
pub fn place_clauses(
    alloc: Global,
    program: &Program,
    group: u32,
    proc: u32,
    place: u32,
    scope: &Scope,
) -> Result<ClauseTable, Memory>
    requires group { group < length program.now.groups }
    requires member { Contains (group_at program.now.groups group) proc }
    requires place { place < length (flow_of program.now.graph proc).places }
    ensures { IfOk result (λ t. t
        ≡ clauses_in scope.now (place_constraints program.now.graph program.now.facts (group_at program.now.groups group) proc place)) }
{
    program.law();
    let body = body_of(program, group, proc);
    with_clauses_at(alloc, ClauseTable::new(alloc), &body, place, scope)
}

/// The clauses of a group's constraint of this name; none where the group has no such constraint. The group exists. It takes
/// the time of its own clauses, of the arguments of a call at the name's place and of the group's procedures, whatever else
/// the place has. Its one refusal is want of memory.
pub fn clauses_of(
    alloc: Global,
    program: &Program,
    group: u32,
    name: &ConstraintName,
) -> Result<Option<Vec<Clause>>, Memory>
    requires { group < length program.now.groups }
    ensures { IfOk result (λ o. MatchOption o
        (clauses_of_name program.now.graph program.now.facts (group_at program.now.groups group) name.now ≡ None)
        (λ cs. clauses_of_name program.now.graph program.now.facts (group_at program.now.groups group) name.now ≡ Some cs.items)) }
{
    let members = program.members(group);
    if !is_in(members, name.proc) {
        return Ok(None);
    }
    clauses_of_member(alloc, program, group, name)
}

/// The clauses of a constraint of a member.
fn clauses_of_member(
    alloc: Global,
    program: &Program,
    group: u32,
    name: &ConstraintName,
) -> Result<Option<Vec<Clause>>, Memory>
    requires group { group < length program.now.groups }
    requires member { is_in (group_at program.now.groups group) name.now.proc ≡ true }
    ensures { IfOk result (λ o. MatchOption o
        (clauses_of_name program.now.graph program.now.facts (group_at program.now.groups group) name.now ≡ None)
        (λ cs. clauses_of_name program.now.graph program.now.facts (group_at program.now.groups group) name.now ≡ Some cs.items)) }
{
    program.law();
    let body = body_of(program, group, name.proc);
    if name.place >= body.places() {
        return Ok(None);
    }
    clauses_at(alloc, &body, name)
}
