ghost use Rattle.std.specs.Prelude.{◌≡◌, ℕ, ◌<◌, true, false, length, IfOk};
ghost use Rattle.std.specs.List.{All, Contains};
ghost use Rattle.flow_graph.specs.FlowGraph.{flow_of, edges_from};
ghost use Rattle.flow_graph.specs.Fits.{IsFlowGraph};
ghost use Rattle.path_facts.specs.Tracks.{TracksFit};
ghost use Rattle.path_facts.specs.Bits.{unreached_bit};
ghost use Rattle.path_facts.specs.Progress.{row_at, is_pending, total, AreRows, IsClosedAt, IsWorklist, IsSettled, IsFollowed, AreFollowed, WaitsNoMore};

use crate::columns::{UNREACHED, pass};
use crate::row::Row;
use crate::start::first_rows;
use crate::tracks::words_for;
use c_tree::Memory;
use flow_graph::Graph;
use std::alloc::Global;

/// The rows of bits of the places of a procedure, which lose bits until they say what every path leaves.
#[derive(Drop)]
pub(crate) struct Worklist {
    pub rows: Vec<Row>,
    /// The places whose edges are to be followed, or followed again.
    pub pending: Vec<bool>,
    /// Room for a row after an edge.
    pub after: Row,
}

impl Worklist {
    /// A worklist to which every edge is still to be followed.
    pub fn new(
        alloc: Global,
        graph: &Graph,
        proc: u32,
        tracks: &[Option<u32>],
    ) -> Result<Worklist, Memory>
        requires graph { IsFlowGraph graph.now }
        requires body { proc < graph.now.bodies }
        requires tracks { TracksFit graph.now proc tracks.now }
        ensures work { IfOk result (λ w. IsWorklist graph.now proc tracks.now w.rows.items w.pending.items w.after) }
        ensures settled { IfOk result (λ w. IsSettled graph.now proc tracks.now w.rows.items w.pending.items) }
    {
        let rows = first_rows(alloc, graph, proc, tracks)?;
        let pending = vec![in alloc; true; rows.len()]?;
        let after = Row::filled(alloc, words_for(tracks), 0)?;
        Ok(Worklist {
            rows,
            pending,
            after,
        })
    }

    /// Visits the places of an order that has all of them, again and again, until no edge is to be followed.
    pub fn settle(&mut self, graph: &Graph, proc: u32, tracks: &[Option<u32>], order: &[u32])
        requires graph { IsFlowGraph graph.now }
        requires body { proc < graph.now.bodies }
        requires tracks { TracksFit graph.now proc tracks.now }
        requires work { IsWorklist graph.now proc tracks.now self.old.rows.items self.old.pending.items self.old.after }
        requires settled { IsSettled graph.now proc tracks.now self.old.rows.items self.old.pending.items }
        requires within { All (λ p. p < length (flow_of graph.now proc).places) order.now }
        requires every { (p : ℕ) → p < length (flow_of graph.now proc).places → Contains order.now p }
        ensures rows { AreRows graph.now proc tracks.now self.new.rows.items }
        ensures closed { (p : ℕ) → p < length self.new.rows.items → IsClosedAt graph.now proc tracks.now self.new.rows.items p }
    {
        'sweeps: while self.sweep(graph, proc, tracks, order) {}
    }

    /// Follows an edge of a reached place: the place at its end keeps no more than the columns make of the row at
    /// its start. Says whether that place lost a bit, and makes it pending where it did.
    fn follow(
        &mut self,
        graph: &Graph,
        proc: u32,
        tracks: &[Option<u32>],
        place: u32,
        number: usize,
    ) -> bool
        requires graph { IsFlowGraph graph.now }
        requires body { proc < graph.now.bodies }
        requires tracks { TracksFit graph.now proc tracks.now }
        requires work { IsWorklist graph.now proc tracks.now self.old.rows.items self.old.pending.items self.old.after }
        requires place { place < length self.old.rows.items }
        requires edge { number < length (edges_from graph.now proc place) }
        requires reached { unreached_bit (row_at self.old.rows.items place) ≡ false }
        ensures work { IsWorklist graph.now proc tracks.now self.new.rows.items self.new.pending.items self.new.after }
        ensures followed { IsFollowed graph.now proc tracks.now place number
            self.old.rows.items self.old.pending.items self.new.rows.items self.new.pending.items result }
    {
        let edge = &graph.edges_from(proc, place)[number];
        self.after.copy_from(&self.rows[place as usize]);
        pass(&mut self.after, tracks, &edge.action);
        let to = edge.to as usize;
        let changed = self.rows[to].meet(&self.after);
        self.pending[to] |= changed;
        changed
    }

    /// Follows all edges of a reached place. Says whether any place lost a bit.
    fn follow_all(&mut self, graph: &Graph, proc: u32, tracks: &[Option<u32>], place: u32) -> bool
        requires graph { IsFlowGraph graph.now }
        requires body { proc < graph.now.bodies }
        requires tracks { TracksFit graph.now proc tracks.now }
        requires work { IsWorklist graph.now proc tracks.now self.old.rows.items self.old.pending.items self.old.after }
        requires place { place < length self.old.rows.items }
        requires reached { unreached_bit (row_at self.old.rows.items place) ≡ false }
        ensures work { IsWorklist graph.now proc tracks.now self.new.rows.items self.new.pending.items self.new.after }
        ensures followed { AreFollowed graph.now proc tracks.now place (length (edges_from graph.now proc place))
            self.old.rows.items self.old.pending.items self.new.rows.items self.new.pending.items result }
    {
        let count = graph.edges_from(proc, place).len();
        let mut changed = false;
        'edges: for number in 0..count {
            changed |= self.follow(graph, proc, tracks, place, number);
        }
        changed
    }

    /// Follows the edges of a place where it is pending and reached; it is pending no more but where an edge leads
    /// back to it. Says whether any place lost a bit.
    fn visit(&mut self, graph: &Graph, proc: u32, tracks: &[Option<u32>], place: u32) -> bool
        requires graph { IsFlowGraph graph.now }
        requires body { proc < graph.now.bodies }
        requires tracks { TracksFit graph.now proc tracks.now }
        requires work { IsWorklist graph.now proc tracks.now self.old.rows.items self.old.pending.items self.old.after }
        requires place { place < length self.old.rows.items }
        requires settled { IsSettled graph.now proc tracks.now self.old.rows.items self.old.pending.items }
        ensures work { IsWorklist graph.now proc tracks.now self.new.rows.items self.new.pending.items self.new.after }
        ensures settled { IsSettled graph.now proc tracks.now self.new.rows.items self.new.pending.items }
        ensures falls { result ≡ true → total self.new.rows.items < total self.old.rows.items }
        ensures same_rows { result ≡ false → self.new.rows.items ≡ self.old.rows.items }
        ensures waits { result ≡ false → WaitsNoMore self.old.pending.items self.new.pending.items }
        ensures visited { result ≡ false → is_pending self.new.pending.items place ≡ false }
    {
        if !self.pending[place as usize] {
            return false;
        }
        self.pending[place as usize] = false;
        if self.rows[place as usize].has(UNREACHED) {
            return false;
        }
        self.follow_all(graph, proc, tracks, place)
    }

    /// Visits places in the given order. Says whether any place lost a bit; where none did, no place of the order is
    /// pending any more.
    fn sweep(&mut self, graph: &Graph, proc: u32, tracks: &[Option<u32>], order: &[u32]) -> bool
        requires graph { IsFlowGraph graph.now }
        requires body { proc < graph.now.bodies }
        requires tracks { TracksFit graph.now proc tracks.now }
        requires work { IsWorklist graph.now proc tracks.now self.old.rows.items self.old.pending.items self.old.after }
        requires order { All (λ p. p < length (flow_of graph.now proc).places) order.now }
        requires settled { IsSettled graph.now proc tracks.now self.old.rows.items self.old.pending.items }
        ensures work { IsWorklist graph.now proc tracks.now self.new.rows.items self.new.pending.items self.new.after }
        ensures settled { IsSettled graph.now proc tracks.now self.new.rows.items self.new.pending.items }
        ensures falls { result ≡ true → total self.new.rows.items < total self.old.rows.items }
        ensures visited { result ≡ false → All (λ p. is_pending self.new.pending.items p ≡ false) order.now }
    {
        let mut changed = false;
        'places: for place in order {
            changed |= self.visit(graph, proc, tracks, *place);
        }
        changed
    }
}
