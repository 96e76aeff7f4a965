ghost use Rattle.std.specs.Prelude.{◌≡◌, ◌<◌, [], length, slice_index_or, IfOk};
ghost use Rattle.flow_graph.specs.Fits.{IsFlowGraph};
ghost use Rattle.path_facts.specs.Tables.{facts_in, IsTableOf};

use crate::columns::{is_empty, is_fresh};
use crate::order::order_of;
use crate::row::Row;
use crate::tracks::tracks_of;
use crate::worklist::Worklist;
use c_tree::Memory;
use flow_graph::Graph;
use std::alloc::Global;
use std::marker::Model;

/// The facts at the places of a procedure.
#[derive(Drop)]
pub(crate) struct Table {
    pub rows: Vec<Row>,
    /// For each slot, by which number the rows track it, where they do.
    pub tracks: Vec<Option<u32>>,
}

impl Model for Table {
    ghost use Rattle.path_facts.specs.Tables.{FactTable};
    ghost use Rattle.path_facts.specs.Decoded.{rows_facts, AreWide};

    ghost Value = { FactTable };

    ghost view = { λ t. rows_facts t.tracks.items t.rows.items };

    ghost invariant = { λ t. AreWide t.tracks.items t.rows.items };
}

impl Table {
    /// The facts of a procedure: what every path leaves.
    pub fn of(alloc: Global, graph: &Graph, proc: u32) -> Result<Table, Memory>
        requires graph { IsFlowGraph graph.now }
        requires body { proc < graph.now.bodies }
        ensures { IfOk result (λ t. IsTableOf graph.now proc t) }
    {
        let order = order_of(alloc, graph, proc)?;
        let tracks = tracks_of(alloc, graph, proc)?;
        let mut work = Worklist::new(alloc, graph, proc, tracks.as_slice())?;
        work.settle(graph, proc, tracks.as_slice(), order.as_slice());
        Ok(Table {
            rows: work.rows,
            tracks,
        })
    }

    /// Whether a slot is Empty at a place.
    pub fn empty(&self, place: u32, slot: u32) -> bool
        requires place { place < length self.now }
        requires slot { slot < length (slice_index_or self.now place []) }
        ensures { result ≡ (facts_in self.now place slot).empty }
    {
        is_empty(&self.rows[place as usize], self.tracks.as_slice(), slot)
    }

    /// Whether a slot is Fresh at a place.
    pub fn fresh(&self, place: u32, slot: u32) -> bool
        requires place { place < length self.now }
        requires slot { slot < length (slice_index_or self.now place []) }
        ensures { result ≡ (facts_in self.now place slot).fresh }
    {
        is_fresh(&self.rows[place as usize], self.tracks.as_slice(), slot)
    }
}
