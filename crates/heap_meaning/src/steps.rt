ghost use Rattle.std.specs.Prelude.{◌≡◌, ◌<◌, List, length, map, false, Some, IfOk, OnErr};
ghost use Rattle.flow_graph.specs.FlowGraph.{FlowGraph, flow_of, edges_from};
ghost use Rattle.flow_graph.specs.Fits.{is_test, other_side};
ghost use Rattle.heap_meaning.specs.declared.choices.Choice.{Choice as AnyChoice};
ghost use Rattle.heap_meaning.specs.declared.values.Value.{Value as AnyValue};
ghost use Rattle.heap_meaning.specs.Run.{Answer, IsAnswer, Steps, put_into, taken, entered, answered, returned, answer_to, returns, text_object, first_state_of};
ghost use Rattle.heap_meaning.specs.Shape.{HasShape};
ghost use Rattle.heap_meaning.specs.Paths.{IsRunState, Keeps};
ghost use Rattle.heap_meaning.specs.Deeds.{running, below, put_at, done, CallLeadsTo};

use crate::choices::{Choice, Stepped, Stop};
use crate::deeds::{Deed, deed_of, holds};
use crate::kinds::{put_as, type_of_slot};
use crate::makes::{copies, passed_slots, text_of};
use crate::reads::check_set;
use crate::states::{Frame, Frames, Objects, State};
use crate::values::Value;
use c_tree::Memory;
use flow_graph::{Action, Edge, Graph, Numbers};
use std::alloc::Global;

/// The objects of the strings, in order of their numbers.
fn texts(alloc: Global, graph: &Graph) -> Result<Objects, Memory>
    ensures { IfOk result (λ h. h ≡ map text_object graph.now.texts) }
{
    let mut items = Vec::with_capacity(alloc, graph.texts() as usize)?;
    for number in 0..graph.texts() {
        let object = text_of(alloc, graph.text(number))?;
        items.push(object)?;
    }
    Ok(Objects { items })
}

/// The state in which every run begins: `main` at its entry with every slot Unset, and the objects of the strings.
pub fn first_state(alloc: Global, graph: &Graph) -> Result<State, Memory>
    ensures first { IfOk result (λ s. s ≡ first_state_of graph.now) }
    ensures shape { IfOk result (λ s. IsRunState graph.now s) }
{
    graph.law();
    let main = graph.main_proc();
    let slots = copies(alloc, Value::Unset, graph.slots(main).len())?;
    let frame = Frame {
        proc: main,
        place: 0,
        slots,
        waiting: None,
    };
    let frames = vec![in alloc; frame]?;
    let heap = texts(alloc, graph)?;
    Ok(State {
        frames: Frames { items: frames },
        heap,
    })
}

/// Does a deed, after which the running frame goes on at a place. No change for want of memory.
fn carry_out(
    alloc: Global,
    graph: &Graph,
    state: &mut State,
    to: u32,
    deed: Deed,
) -> Result<Stepped, Memory>
    requires { 0 < length state.old.frames }
    ensures done { IfOk result (λ r. (c : AnyChoice) → IsAnswer
        (done graph.now c (running state.old.frames) (below state.old.frames) state.old.heap to deed)
        state.old r state.new) }
    ensures memory { OnErr result (state.new ≡ state.old) }
{
    match deed {
        Deed::Go => {
            state.frames.settle(to, None, Value::Unset);
            Ok(Stepped::Moved)
        }
        Deed::Assign(slot, value) => {
            state.frames.settle(to, Some(slot), value);
            Ok(Stepped::Moved)
        }
        Deed::Put(object, place, value) => {
            state.heap.put(object, place, value);
            state.frames.settle(to, None, Value::Unset);
            Ok(Stepped::Moved)
        }
        Deed::Free(object) => {
            state.heap.free(object);
            state.frames.settle(to, None, Value::Unset);
            Ok(Stepped::Moved)
        }
        Deed::Make(slot, zeroed, kind, count) => {
            let object = state.heap.make(alloc, graph, zeroed, kind, count)?;
            state.frames.settle(to, Some(slot), Value::Ref(object));
            Ok(Stepped::Moved)
        }
        Deed::FreeTwice => Ok(Stepped::DoubleFree),
    }
}

/// What a slot holds of a value that is put into it, where one is named.
fn fitted(graph: &Graph, proc: u32, slot: Option<u32>, value: Value) -> Value
    requires { proc < graph.now.bodies }
    ensures { (vs : List AnyValue) → put_at slot result vs ≡ put_into graph.now proc slot vs value }
{
    match slot {
        Some(slot) => put_as(type_of_slot(graph, proc, slot), value),
        None => value,
    }
}

/// Begins a call of a procedure with a body. No change for want of memory.
fn enter(
    alloc: Global,
    graph: &Graph,
    state: &mut State,
    into: Option<u32>,
    callee: u32,
    args: &Numbers,
) -> Result<Stepped, Memory>
    requires frames { 0 < length state.old.frames }
    requires body { callee < graph.now.bodies }
    ensures entered { IfOk result (λ r. (c : AnyChoice) → IsAnswer
        (entered graph.now c (running state.old.frames) (below state.old.frames) state.old.heap
        into callee args.now)
        state.old r state.new) }
    ensures memory { OnErr result (state.new ≡ state.old) }
{
    let frame = state.frames.under(0);
    let slots = passed_slots(alloc, &frame.slots, args, graph.slots(callee))?;
    let frame = Frame {
        proc: callee,
        place: 0,
        slots,
        waiting: None,
    };
    state.frames.call(into, args, frame)?;
    Ok(Stepped::Moved)
}

/// A whole call of an external procedure.
fn answer(
    graph: &Graph,
    state: &mut State,
    choice: &Choice,
    to: u32,
    into: Option<u32>,
    args: &Numbers,
) -> Stepped
    requires frames { 0 < length state.old.frames }
    requires body { (running state.old.frames).proc < graph.now.bodies }
    ensures { IsAnswer
        (answered graph.now choice.now (running state.old.frames) (below state.old.frames)
        state.old.heap to into args.now)
        state.old result state.new }
{
    let proc = state.frames.under(0).proc;
    let value = fitted(graph, proc, into, Value::Int(choice.value));
    state.frames.hand_over(None, args);
    state.frames.settle(to, into, value);
    state.heap.write_all(graph, &choice.writes);
    Stepped::Moved
}

/// Takes an edge that is no test. No change for want of memory.
fn take(
    alloc: Global,
    graph: &Graph,
    state: &mut State,
    choice: &Choice,
    edge: &Edge,
) -> Result<Stepped, Memory>
    requires frames { 0 < length state.old.frames }
    requires body { (running state.old.frames).proc < graph.now.bodies }
    requires plain { is_test edge.now.action ≡ false }
    ensures taken { IfOk result (λ r. (next : Answer) → IsAnswer
        (taken graph.now choice.now (running state.old.frames) (below state.old.frames)
        state.old.heap edge.now.to next edge.now.action)
        state.old r state.new) }
    ensures memory { OnErr result (state.new ≡ state.old) }
{
    let frame = state.frames.under(0);
    if let Action::Call(into, callee, args) = &edge.action {
        if let Err(stop) = check_set(&frame.slots, args) {
            return Ok(Stepped::Stopped(stop));
        }
        if *callee < graph.bodies() {
            return enter(alloc, graph, state, *into, *callee, args);
        }
        return Ok(answer(graph, state, choice, edge.to, *into, args));
    }
    match deed_of(graph, choice, frame, &state.heap, &edge.action) {
        Ok(deed) => carry_out(alloc, graph, state, edge.to, deed),
        Err(stop) => Ok(Stepped::Stopped(stop)),
    }
}

/// Takes that side of a test which holds.
fn test(state: &mut State, first: &Edge, second: &Edge) -> Stepped
    requires frames { 0 < length state.old.frames }
    requires sides { other_side first.now.action ≡ Some second.now.action }
    ensures { (g : FlowGraph) (c : AnyChoice) (next : Answer) → IsAnswer
        (taken g c (running state.old.frames) (below state.old.frames) state.old.heap first.now.to
        (taken g c (running state.old.frames) (below state.old.frames) state.old.heap
        second.now.to next second.now.action)
        first.now.action)
        state.old result state.new }
{
    match holds(state.frames.under(0), &state.heap, &first.action) {
        Ok(true) => {
            state.frames.settle(first.to, None, Value::Unset);
            Stepped::Moved
        }
        Ok(false) => {
            state.frames.settle(second.to, None, Value::Unset);
            Stepped::Moved
        }
        Err(stop) => Stepped::Stopped(stop),
    }
}

/// The place to which the call of a waiting frame leads.
fn after_call(graph: &Graph, caller: &Frame) -> u32
    requires body { caller.now.proc < graph.now.bodies }
    requires place { caller.now.place < length (flow_of graph.now caller.now.proc).places }
    requires edge { 0 < length (edges_from graph.now caller.now.proc caller.now.place) }
    ensures { CallLeadsTo graph.now caller.now result }
{
    graph.edges_from(caller.proc, caller.place)[0].to
}

/// What a caller reads of a result.
fn read_result(waiting: Option<u32>, value: Value) -> Result<Value, Stop>
    ensures { result ≡ answer_to waiting value }
{
    match waiting {
        Some(_) => value.set(),
        None => Ok(Value::Unset),
    }
}

/// What a frame leaves in the slot of its result, where there is one.
fn result_of(graph: &Graph, frame: &Frame) -> Value
    requires { frame.now.proc < graph.now.bodies }
    ensures { result ≡ returned frame.now.slots (flow_of graph.now frame.now.proc).ret }
{
    match graph.ret(frame.proc) {
        Some(slot) => frame.slots.at(slot),
        None => Value::Unset,
    }
}

/// Ends the running frame at its exit: its caller goes on, or the run ends.
fn leave(graph: &Graph, state: &mut State) -> Stepped
    requires shape { HasShape graph.now state.old }
    requires frames { 0 < length state.old.frames }
    ensures { IsAnswer
        (returns graph.now (running state.old.frames) (below state.old.frames) state.old.heap)
        state.old result state.new }
{
    let value = result_of(graph, state.frames.under(0));
    if state.frames.count() == 1 {
        state.frames.leave();
        return Stepped::Ended;
    }
    let caller = state.frames.under(1);
    let waiting = caller.waiting;
    match read_result(waiting, value) {
        Ok(value) => {
            let to = after_call(graph, caller);
            let value = fitted(graph, caller.proc, waiting, value);
            state.frames.leave();
            state.frames.settle(to, waiting, value);
            Stepped::Moved
        }
        Err(stop) => Stepped::Stopped(stop),
    }
}

/// One step from a state of the graph's shape, which every state has that [`first_state`] and steps lead to.
///
/// Moved where an edge was taken or a frame returned to its caller. Ended where `main` stood at its exit, its frame the
/// only one, which is then gone; in a state without frames Ended comes again. Stopped and DoubleFree leave the state
/// unchanged, and so does want of memory. The work does not grow with the heap, but for a new object, the slots of a
/// call and the writes of an external procedure.
pub fn step(
    alloc: Global,
    graph: &Graph,
    state: &mut State,
    choice: &Choice,
) -> Result<Stepped, Memory>
    requires { HasShape graph.now state.old }
    ensures steps { IfOk result (λ r. Steps graph.now state.old choice.now r state.new) }
    ensures memory { OnErr result (state.new ≡ state.old) }
    ensures kept { Keeps graph.now state.old state.new }
{
    if state.frames.count() == 0 {
        return Ok(Stepped::Ended);
    }
    graph.law();
    let frame = state.frames.under(0);
    let has_body = frame.proc < graph.bodies();
    prove!(has_body);
    let places = graph.places(frame.proc).len();
    if frame.place as usize == places - 1 {
        return Ok(leave(graph, state));
    }
    match graph.edges_from(frame.proc, frame.place) {
        [only] => take(alloc, graph, state, choice, only),
        [first, second, ..] => Ok(test(state, first, second)),
        [] => unreachable!(),
    }
}
