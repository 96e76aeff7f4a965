ghost use Rattle.std.specs.Prelude.{◌≡◌, ◌≤◌, length, IfOk};
ghost use Rattle.c_tree.specs.Nodes.{tree_size};
ghost use Rattle.c_tree.specs.View.{tree_view};
ghost use Rattle.std.specs.List.{All};
ghost use Rattle.flow_graph.specs.Fits.{ConstantsFit, IsFlowGraph};
ghost use Rattle.flow_graph.specs.GraphOf.{graph_of, graph_of_parts};

use crate::flows::{flows, member_types};
use crate::graph::{Graph, Parts};
use crate::strings::Strings;
use c_tree::{Memory, Tree};
use c_types::{ProcInfo, StructInfo, Typed};
use std::alloc::Global;

/// The parts of the flow graph of a tree, of which these are the structs and procedures.
pub(crate) fn parts(
    alloc: Global,
    tree: &Tree,
    structs: &[StructInfo],
    procs: &[ProcInfo],
    bodies: u32,
    main_proc: u32,
) -> Result<Parts, Memory>
    requires { tree_size (tree_view tree.now) ≤ 16777216 }
    ensures parts { IfOk result (λ p. p ≡ graph_of_parts tree.now structs.now procs.now bodies main_proc) }
    ensures constants { IfOk result (λ p. All ConstantsFit p.procs) }
{
    let rows = member_types(alloc, structs)?;
    let mut seen = Strings {
        texts: Vec::new(alloc),
        numbers: Vec::new(alloc),
    };
    let flows = flows(
        alloc,
        tree,
        4 + structs.len(),
        main_proc as usize,
        procs,
        &mut seen,
    )?;
    let Strings { texts, numbers: _ } = seen;
    Ok(Parts {
        structs: rows,
        procs: flows,
        bodies,
        main_proc,
        texts,
    })
}

/// The graph of a typed tree, of whose parts this is made.
fn graph(typed: &Typed, parts: Parts) -> Graph
    requires built { parts ≡ graph_of typed.now }
    requires constants { All ConstantsFit parts.procs }
    ensures { result ≡ parts }
{
    let Parts {
        structs,
        procs,
        bodies,
        main_proc,
        texts,
    } = parts;
    Graph {
        structs,
        procs,
        bodies,
        main_proc,
        texts,
    }
}

/// The flow graph of a typed tree.
///
/// The places of a procedure are its entry, then the sub-steps of nodes at which edges start or end, ascending, then
/// the end of `main`, then the exit; its slots are those of the tree, then the temporaries that edges name, in order
/// of position and type. Strings are numbered in order of procedure and node. The one refusal is want of memory.
pub fn build(alloc: Global, typed: &Typed) -> Result<Graph, Memory>
    ensures graph { IfOk result (λ g. g ≡ graph_of typed.now) }
    ensures keeps { IfOk result (λ g. IsFlowGraph g) }
{
    let tree = &typed.tree;
    let structs = typed.structs.items.as_slice();
    let procs = typed.procs.items.as_slice();
    let parts = parts(alloc, tree, structs, procs, typed.bodies, typed.main_proc)?;
    Ok(graph(typed, parts))
}
