ghost use Rattle.std.specs.Prelude.{◌≡◌, ℕ, ◌<◌, ◌≤◌, ◌++◌, [], ◌∷◌, length, map, IfOk, IfErr, OnOk};
ghost use Rattle.std.specs.List.{All};
ghost use Rattle.flow_graph.specs.GraphOf.{graph_of};
ghost use Rattle.owner_vars.specs.Fields.{structs_of};
ghost use Rattle.owner_vars.specs.Answers.{IsRefused as IsRefusedGroup};
ghost use Rattle.owner_vars.specs.Unknowns.{unknowns};
ghost use Rattle.recursion_groups.specs.Grouping.{IsGrouping};
ghost use Rattle.transfer_rules.specs.Programs.{IsProgram, IsRefused, AllFit, firsts, group_at, numberings};

use crate::index::Index;
use crate::parts::{Numberings, Program};
use c_tree::Memory;
use c_types::Typed;
use flow_graph::{Graph, build};
use owner_vars::{Fields, NumberError, Numbering, fields, number_root_with, number_with};
use path_facts::facts;
use recursion_groups::{Groups, groups};
use std::alloc::Global;

/// The program of a typed tree, which is given up on a refusal. Limit comes exactly where a call group has more than
/// 8,388,608 unknowns, with how many the first such group has.
pub fn program(alloc: Global, typed: Typed) -> Result<Program, NumberError>
    ensures typed { IfOk result (λ p. p.typed ≡ typed) }
    ensures whole { IfOk result IsProgram }
    ensures fits { IfOk result (λ p. AllFit p.graph p.groups) }
    ensures err { IfErr result (IsRefused (graph_of typed)) }
{
    let graph = build(alloc, &typed)?;
    let groups = groups(alloc, &graph)?;
    let fields = fields(alloc, &graph)?;
    let numbers = numberings(alloc, &graph, &groups, &fields)?;
    let facts = facts(alloc, &graph)?;
    let index = Index::new(alloc, &graph, &groups, fields)?;
    Ok(Program {
        typed,
        graph,
        facts,
        groups,
        numbers,
        index,
    })
}

/// The numberings of all groups and of the root.
fn numberings(
    alloc: Global,
    graph: &Graph,
    groups: &Groups,
    fields: &Fields,
) -> Result<Numberings, NumberError>
    requires fields { fields.now ≡ structs_of graph.now }
    requires grouping { IsGrouping graph.now groups.now }
    requires count { length groups.now ≤ graph.now.bodies }
    ensures ok { IfOk result (λ n. n ≡ numberings graph.now groups.now) }
    ensures fits { OnOk result (AllFit graph.now groups.now) }
    ensures err { IfErr result (IsRefused graph.now) }
{
    let mut items = Vec::new(alloc);
    for k in 0..groups.items.len() {
        let numbering = match number_group(alloc, graph, groups, fields, k) {
            Ok(numbering) => numbering,
            Err(error) => return Err(error),
        };
        add(&mut items, numbering)?;
    }
    let firsts = firsts(alloc, groups)?;
    let root = number_root_with(alloc, graph, fields, &firsts)?;
    add(&mut items, root)?;
    Ok(Numberings { items })
}

/// The numbering of a group.
fn number_group(
    alloc: Global,
    graph: &Graph,
    groups: &Groups,
    fields: &Fields,
    k: usize,
) -> Result<Numbering, NumberError>
    requires fields { fields.now ≡ structs_of graph.now }
    requires grouping { IsGrouping graph.now groups.now }
    requires group { k < length groups.now }
    ensures ok { IfOk result (λ us. us ≡ unknowns graph.now (group_at groups.now k)) }
    ensures within { OnOk result (length (unknowns graph.now (group_at groups.now k)) ≤ 8388608) }
    ensures err { IfErr result (IsRefusedGroup (unknowns graph.now (group_at groups.now k))) }
{
    let members = members_of(groups, k);
    number_with(alloc, graph, fields, members)
}

/// The procedures of a group.
fn members_of(groups: &Groups, k: usize) -> &[u32]
    requires { k < length groups.now }
    ensures { result.now ≡ group_at groups.now k }
{
    groups.items[k].items.as_slice()
}

/// Adds a numbering.
fn add(items: &mut Vec<Numbering>, numbering: Numbering) -> Result<(), Memory>
    ensures { OnOk result (items.new.items ≡ items.old.items ++ numbering ∷ []) }
{
    items.push(numbering)?;
    Ok(())
}

/// The first procedure of each group.
fn firsts(alloc: Global, groups: &Groups) -> Result<Vec<u32>, Memory>
    requires { All (λ ms. 0 < length ms) groups.now }
    ensures { IfOk result (λ fs. fs.items ≡ firsts groups.now) }
{
    let mut out = Vec::new(alloc);
    for group in &groups.items {
        out.push(group.items[0])?;
    }
    Ok(out)
}
