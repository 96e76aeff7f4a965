ghost use Rattle.std.specs.Prelude.{◌≡◌, ◌<◌, IfOk};
ghost use Rattle.flow_graph.specs.Fits.{IsFlowGraph};
ghost use Rattle.path_facts.specs.Tracks.{TracksFit};
ghost use Rattle.path_facts.specs.Progress.{IsStartRow, AreRows};

use crate::columns::put_empty;
use crate::row::Row;
use crate::tracks::words_for;
use c_tree::Memory;
use flow_graph::Graph;
use std::alloc::Global;

/// The row of the entry: all slots but the parameters are Empty, and none is Fresh.
fn start_row(alloc: Global, graph: &Graph, proc: u32, tracks: &[Option<u32>]) -> Result<Row, Memory>
    requires graph { IsFlowGraph graph.now }
    requires body { proc < graph.now.bodies }
    requires tracks { TracksFit graph.now proc tracks.now }
    ensures { IfOk result (λ row. IsStartRow graph.now proc tracks.now row) }
{
    let slots = graph.slots(proc).len();
    let mut row = Row::filled(alloc, words_for(tracks), 0)?;
    'slots: for slot in graph.params(proc).len()..slots {
        put_empty(&mut row, tracks, slot as u32, true);
    }
    Ok(row)
}

/// The rows before any edge is followed: that of the entry, and at every other place all facts.
pub(crate) fn first_rows(
    alloc: Global,
    graph: &Graph,
    proc: u32,
    tracks: &[Option<u32>],
) -> Result<Vec<Row>, Memory>
    requires graph { IsFlowGraph graph.now }
    requires body { proc < graph.now.bodies }
    requires tracks { TracksFit graph.now proc tracks.now }
    ensures { IfOk result (λ rows. AreRows graph.now proc tracks.now rows.items) }
{
    let words = words_for(tracks);
    let places = graph.places(proc).len();
    let mut rows = Vec::with_capacity(alloc, places)?;
    rows.push(start_row(alloc, graph, proc, tracks)?)?;
    'places: for _ in 1..places {
        rows.push(Row::filled(alloc, words, u64::MAX)?)?;
    }
    Ok(rows)
}
