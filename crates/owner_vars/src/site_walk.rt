ghost use Rattle.std.specs.Prelude.{◌≡◌, ◌++◌, ◌<◌, length, OnOk, IfOk};
ghost use Rattle.std.specs.List.{All};
ghost use Rattle.std.specs.List.Sorted.{IsStrictlyIncreasing};
ghost use Rattle.owner_vars.specs.Unknowns.{sites_of, sites_along, sites};
ghost use Rattle.owner_vars.specs.Tables.{sites_from, site_row};

use crate::index::Index;
use crate::site::Site;
use crate::site_table::{SiteRow, Sites};
use c_tree::Memory;
use flow_graph::{Action, Edge, Graph};
use std::alloc::Global;

/// The sites of a group. `members` are the procedures of the group, ascending, all with bodies. It takes time linear in
/// the places of the members.
pub fn sites(alloc: Global, graph: &Graph, members: &[u32]) -> Result<Sites, Memory>
    requires ascend { IsStrictlyIncreasing members.now }
    requires bodies { All (λ k. k < graph.now.bodies) members.now }
    ensures { IfOk result (λ s. s ≡ sites graph.now members.now) }
{
    graph.law();
    let index = Index::new(alloc, members)?;
    let mut rows = Vec::new(alloc);
    let mut items = Vec::new(alloc);
    for member in members {
        let row = add_member(alloc, graph, &index, *member, &mut items)?;
        rows.push(row)?;
    }
    Ok(Sites {
        members: index,
        rows,
        items,
    })
}

/// Adds the sites of a member, and counts how many stand before each of its places.
fn add_member(
    alloc: Global,
    graph: &Graph,
    members: &Index,
    proc: u32,
    sites: &mut Vec<Site>,
) -> Result<SiteRow, Memory>
    requires { proc < graph.now.bodies }
    ensures sites { OnOk result (sites.new.items ≡ sites.old.items ++ sites_from graph.now members.now proc) }
    ensures row { IfOk result (λ r. r ≡ site_row graph.now members.now (length sites.old.items) proc) }
{
    graph.law();
    let mut before = Vec::new(alloc);
    for place in 0..graph.places(proc).len() as u32 {
        before.push(sites.len())?;
        add_sites(
            graph,
            members,
            proc,
            place,
            graph.edges_from(proc, place),
            sites,
        )?;
    }
    before.push(sites.len())?;
    Ok(SiteRow { before })
}

/// Adds the sites among the edges of a place.
fn add_sites(
    graph: &Graph,
    members: &Index,
    proc: u32,
    place: u32,
    edges: &[Edge],
    sites: &mut Vec<Site>,
) -> Result<(), Memory>
    ensures { OnOk result (sites.new.items
        ≡ sites.old.items ++ sites_along graph.now members.now proc place edges.now) }
{
    for edge in edges {
        add_site(graph, members, proc, place, edge, sites)?;
    }
    Ok(())
}

/// Adds an edge's site, where the edge calls a procedure with a body that is no member.
fn add_site(
    graph: &Graph,
    members: &Index,
    proc: u32,
    place: u32,
    edge: &Edge,
    sites: &mut Vec<Site>,
) -> Result<(), Memory>
    ensures { OnOk result (sites.new.items
        ≡ sites.old.items ++ sites_of graph.now members.now proc place edge.now.action) }
{
    if let Action::Call(_, callee, _) = &edge.action {
        if *callee < graph.bodies() && !members.has(*callee) {
            sites.push(Site {
                proc,
                place,
                callee: *callee,
            })?;
        }
    }
    Ok(())
}
