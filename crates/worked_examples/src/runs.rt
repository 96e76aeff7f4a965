// Runs of programs, step by step.
use crate::harness::graph_of;
use crate::run_table::{HEAP_RUNS, Run, Seen, Shown};
use crate::value_table::VALUE_RUNS;
use c_tree::Memory;
use flow_graph::Graph;
use heap_meaning::{Choice, State, Stepped, Write, Writes, first_state, step};
use std::alloc::Global;
use std::marker::Model;
use std::process::Abort;
use std::test::Fail;

/// A program and a state of its runs.
#[derive(Drop)]
pub struct Machine {
    graph: Graph,
    pub state: State,
}

impl Model for Machine {
    ghost use Rattle.heap_meaning.specs.declared.states.State.{State};
    ghost use Rattle.heap_meaning.specs.Shape.{HasShape};

    ghost Value = { State };

    ghost view = { λ m. m.state };

    ghost invariant = { λ m. HasShape m.graph m.state };
}

impl Machine {
    pub fn new(alloc: Global, source: &str) -> Result<Machine, Fail> {
        let graph = graph_of(alloc, source.as_bytes())?;
        let state = first_state(alloc, &graph)?;
        Ok(Machine { graph, state })
    }

    pub fn step(&mut self, alloc: Global, choice: &Choice) -> Result<Stepped, Memory> {
        step(alloc, &self.graph, &mut self.state, choice)
    }

    pub fn frames(&self) -> usize {
        self.state.frames.items.len()
    }
}

/// A choice that is made at every step.
pub fn choice(alloc: Global, fits: bool, value: i32, writes: &[Write]) -> Result<Choice, Fail> {
    let items = Vec::from_slice(alloc, writes)?;
    Ok(Choice {
        fits,
        value,
        writes: Writes { items },
    })
}

/// Compares what is to be seen after so many steps.
fn check_seen(rt: &impl Abort, machine: &Machine, seen: &[Seen], steps: u32) {
    for seen in seen {
        if seen.steps != steps {
            continue;
        }
        let frames = machine.state.frames.items.as_slice();
        assert_eq!(rt; frames.len(), seen.frames);
        assert!(rt; seen.above < frames.len());
        let frame = &frames[frames.len() - 1 - seen.above];
        let slots = frame.slots.items.as_slice();
        assert!(rt; seen.slot < slots.len());
        assert_eq!(rt;
            slots[seen.slot],
            seen.value,
            "slot {} after {steps}",
            seen.slot
        );
    }
}

/// Compares the heap.
fn check_heap(rt: &impl Abort, machine: &Machine, heap: &[Shown]) {
    let objects = machine.state.heap.items.as_slice();
    assert_eq!(rt; objects.len(), heap.len());
    for (object, shown) in objects.iter().zip(heap) {
        assert_eq!(rt; object.kind, shown.kind);
        assert_eq!(rt; object.live, shown.live);
        assert_eq!(rt; object.cells.items.as_slice(), shown.cells);
    }
}

/// Goes through a run, and takes its last step twice.
fn check_run(rt: &impl Abort, alloc: Global, run: &Run) -> Result<(), Fail> {
    let choice = choice(alloc, run.fits, run.value, run.writes)?;
    let mut machine = Machine::new(alloc, run.source)?;
    for steps in 0..run.moves {
        check_seen(rt, &machine, run.seen, steps);
        let stepped = machine.step(alloc, &choice)?;
        assert_eq!(rt; stepped, Stepped::Moved, "step {steps} of {}", run.source);
    }
    check_seen(rt, &machine, run.seen, run.moves);
    for _ in 0..2 {
        let stepped = machine.step(alloc, &choice)?;
        assert_eq!(rt; stepped, run.last, "{}", run.source);
    }
    assert_eq!(rt; machine.frames(), run.frames, "{}", run.source);
    if let Some(heap) = run.heap {
        check_heap(rt, &machine, heap);
    }
    Ok(())
}

#[test]
fn states_are_as_worked_out(rt: HostRuntime) -> Result<(), Fail> {
    for run in &HEAP_RUNS {
        check_run(&rt, rt.alloc(), run)?;
    }
    for run in &VALUE_RUNS {
        check_run(&rt, rt.alloc(), run)?;
    }
    Ok(())
}

/// The program that an external procedure may let begin anew.
const AGAIN: &str = "int e(void); int main(void) { int x; x = e(); if (x) main(); return 0; }";

#[test]
fn main_is_called_by_the_program(rt: HostRuntime) -> Result<(), Fail> {
    let mut machine = Machine::new(rt.alloc(), AGAIN)?;
    let again = choice(rt.alloc(), true, 1, &[])?;
    let enough = choice(rt.alloc(), true, 0, &[])?;
    for steps in 0..12_u32 {
        let frames = if steps < 5 || 11 <= steps { 1 } else { 2 };
        assert_eq!(rt; machine.frames(), frames, "before step {steps}");
        let choice = if steps < 5 { &again } else { &enough };
        assert_eq!(rt; machine.step(rt.alloc(), choice)?, Stepped::Moved);
    }
    assert_eq!(rt; machine.step(rt.alloc(), &enough)?, Stepped::Ended);
    assert_eq!(rt; machine.frames(), 0);
    Ok(())
}
