ghost use Rattle.std.specs.Prelude.{◌≡◌, ◌<◌, ◌≤◌, length, IfOk, IfErr, OnOk};
ghost use Rattle.std.specs.List.{All};
ghost use Rattle.std.specs.List.Sorted.{IsStrictlyIncreasing};
ghost use Rattle.owner_vars.specs.Fields.{structs_of};
ghost use Rattle.owner_vars.specs.Unknowns.{unknowns, root_unknowns};
ghost use Rattle.owner_vars.specs.Answers.{IsRefused};

use crate::error::NumberError;
use crate::field_table::Fields;
use crate::field_walk::fields;
use crate::index::Index;
use crate::numbering::Numbering;
use crate::site_walk::sites;
use crate::tables::{make_faces, make_rows};
use c_tree::Memory;
use c_types::LimitKind;
use flow_graph::Graph;
use std::alloc::Global;

/// How many unknowns a group may have.
const MOST_UNKNOWNS: u64 = 8_388_608;

/// The numbers of a call group's unknowns. `members` are the procedures of the group, ascending, all with bodies;
/// a call of another procedure with a body is a site. Limit comes exactly where the group has more than 8,388,608
/// unknowns, with how many it has.
pub fn number(alloc: Global, graph: &Graph, members: &[u32]) -> Result<Numbering, NumberError>
    requires ascend { IsStrictlyIncreasing members.now }
    requires bodies { All (λ k. k < graph.now.bodies) members.now }
    ensures ok { IfOk result (λ us. us ≡ unknowns graph.now members.now) }
    ensures within { OnOk result (length (unknowns graph.now members.now) ≤ 8388608) }
    ensures err { IfErr result (IsRefused (unknowns graph.now members.now)) }
{
    let fields = fields(alloc, graph)?;
    number_with(alloc, graph, &fields, members)
}

/// The same over the pointer fields of the graph, which are made once for all groups. It takes time and memory linear
/// in the places and sites of the group.
pub fn number_with(
    alloc: Global,
    graph: &Graph,
    fields: &Fields,
    members: &[u32],
) -> Result<Numbering, NumberError>
    requires fields { fields.now ≡ structs_of graph.now }
    requires ascend { IsStrictlyIncreasing members.now }
    requires bodies { All (λ k. k < graph.now.bodies) members.now }
    ensures ok { IfOk result (λ us. us ≡ unknowns graph.now members.now) }
    ensures within { OnOk result (length (unknowns graph.now members.now) ≤ 8388608) }
    ensures err { IfErr result (IsRefused (unknowns graph.now members.now)) }
{
    graph.law();
    let sites = sites(alloc, graph, members)?;
    let callees = sites.callees(alloc)?;
    let index = Index::new(alloc, members)?;
    let pointers = fields.count();
    let faces = make_faces(alloc, graph, members, u64::from(pointers))?;
    let called = make_faces(alloc, graph, &callees, faces.end)?;
    let rows = make_rows(alloc, graph, fields, members, called.end)?;
    if rows.end > MOST_UNKNOWNS {
        return Err(NumberError::Limit {
            kind: LimitKind::Unknowns,
            count: rows.end,
        });
    }
    Ok(Numbering {
        fields: pointers,
        members: index,
        faces: faces.items,
        sites: called.items,
        rows: rows.items,
        count: rows.end as u32,
    })
}

/// The numbers of the root's unknowns. `firsts` are the first procedures of all groups, in the order of the
/// groups; in the root the site of a group has the group's number, and calls its first procedure.
pub fn number_root(alloc: Global, graph: &Graph, firsts: &[u32]) -> Result<Numbering, Memory>
    requires bodies { All (λ k. k < graph.now.bodies) firsts.now }
    requires count { length firsts.now ≤ graph.now.bodies }
    ensures { IfOk result (λ us. us ≡ root_unknowns graph.now firsts.now) }
{
    let fields = fields(alloc, graph)?;
    number_root_with(alloc, graph, &fields, firsts)
}

/// The same over the pointer fields of the graph.
pub fn number_root_with(
    alloc: Global,
    graph: &Graph,
    fields: &Fields,
    firsts: &[u32],
) -> Result<Numbering, Memory>
    requires fields { fields.now ≡ structs_of graph.now }
    requires bodies { All (λ k. k < graph.now.bodies) firsts.now }
    requires count { length firsts.now ≤ graph.now.bodies }
    ensures { IfOk result (λ us. us ≡ root_unknowns graph.now firsts.now) }
{
    graph.law();
    let pointers = fields.count();
    let sites = make_faces(alloc, graph, firsts, u64::from(pointers))?;
    Ok(Numbering {
        fields: pointers,
        members: Index::new(alloc, &[])?,
        faces: Vec::new(alloc),
        sites: sites.items,
        rows: Vec::new(alloc),
        count: sites.end as u32,
    })
}
