ghost use Rattle.std.specs.Prelude.{◌≡◌, ℕ, ◌<◌, ◌^◌, ◌||◌, Some, true, false, nat_lt, length, slice_index_or, IfOk};
ghost use Rattle.c_types.specs.Types.{is_pointer};
ghost use Rattle.flow_graph.specs.FlowGraph.{flow_of, type_in};
ghost use Rattle.flow_graph.specs.Fits.{IsFlowGraph};
ghost use Rattle.flow_graph.specs.Paths.{no_edge};
ghost use Rattle.path_facts.specs.Tracks.{track_count, result_of, AreMarks, AreTracksOf, TracksFit};
ghost use Rattle.path_facts.specs.Bits.{row_words};

use crate::row::WORD_BITS;
use c_tree::Memory;
use flow_graph::{Action, Edge, Graph};
use std::alloc::Global;

/// How many words a row has: a bit for whether the place is reached, and two for each tracked slot.
pub(crate) fn words_for(tracks: &[Option<u32>]) -> usize
    requires { length tracks.now < 2 ^ 32 }
    ensures { result ≡ row_words (track_count tracks.now) }
{
    2 * tracks.iter().filter(|track| track.is_some()).count() / WORD_BITS + 1
}

/// The slot that an action gives the result of a call.
fn result_of(action: &Action) -> Option<u32>
    ensures { result ≡ result_of action.now }
{
    match action {
        Action::Call(to, _, _) => *to,
        _ => None,
    }
}

/// Marks of the pointers and the parameters among the slots of a procedure.
fn marked_by_type(alloc: Global, graph: &Graph, proc: u32) -> Result<Vec<bool>, Memory>
    requires graph { IsFlowGraph graph.now }
    requires body { proc < graph.now.bodies }
    ensures size { IfOk result (λ marks. length marks.items ≡ length (flow_of graph.now proc).slots) }
    ensures each { IfOk result (λ marks. (x : ℕ) → x < length (flow_of graph.now proc).slots
        → slice_index_or marks.items x false
        ≡ (nat_lt x (length (flow_of graph.now proc).params) || is_pointer (type_in (flow_of graph.now proc).slots x))) }
{
    let params = graph.params(proc).len();
    let slots = graph.slots(proc);
    let mut marks = Vec::with_capacity(alloc, slots.len())?;
    'slots: for slot in 0..slots.len() {
        marks.push(slot < params || slots[slot].is_pointer())?;
    }
    Ok(marks)
}

/// Marks the slots that edges give results of calls.
fn mark_results(edges: &[Edge], marks: &mut [bool])
    requires { (i r : ℕ) → i < length edges.now → result_of (slice_index_or edges.now i no_edge).action ≡ Some r
        → r < length marks.old }
    ensures kept { (x : ℕ) → slice_index_or marks.old x false ≡ true → slice_index_or marks.new x false ≡ true }
    ensures marked { (i r : ℕ) → i < length edges.now → result_of (slice_index_or edges.now i no_edge).action ≡ Some r
        → slice_index_or marks.new r false ≡ true }
{
    for edge in edges {
        if let Some(slot) = result_of(&edge.action) {
            marks[slot as usize] = true;
        }
    }
}

/// Marks of the slots that are to be tracked: pointers, parameters and results of calls. Any other is Empty at every
/// place, and Fresh at no place that is reached.
fn marked(alloc: Global, graph: &Graph, proc: u32) -> Result<Vec<bool>, Memory>
    requires graph { IsFlowGraph graph.now }
    requires body { proc < graph.now.bodies }
    ensures { IfOk result (λ marks. AreMarks graph.now proc marks.items) }
{
    let mut marks = marked_by_type(alloc, graph, proc)?;
    'places: for place in 0..graph.places(proc).len() {
        mark_results(graph.edges_from(proc, place as u32), marks.as_mut_slice());
    }
    Ok(marks)
}

/// The number of each marked slot among those that are marked.
fn numbered(alloc: Global, marks: &[bool]) -> Result<Vec<Option<u32>>, Memory>
    requires { length marks.now < 2 ^ 32 }
    ensures { IfOk result (λ tracks. AreTracksOf marks.now tracks.items) }
{
    let mut tracks = Vec::with_capacity(alloc, marks.len())?;
    let mut count = 0;
    for mark in marks {
        if *mark {
            tracks.push(Some(count))?;
            count += 1;
        } else {
            tracks.push(None)?;
        }
    }
    Ok(tracks)
}

/// Which slots of a procedure rows of bits track, and by which numbers.
pub(crate) fn tracks_of(alloc: Global, graph: &Graph, proc: u32) -> Result<Vec<Option<u32>>, Memory>
    requires graph { IsFlowGraph graph.now }
    requires body { proc < graph.now.bodies }
    ensures { IfOk result (λ tracks. TracksFit graph.now proc tracks.items) }
{
    let marks = marked(alloc, graph, proc)?;
    let tracks = numbered(alloc, marks.as_slice())?;
    Ok(tracks)
}
