// The facts Empty and Fresh of sources, at each place of each slot.
ghost use Rattle.std.specs.Prelude.{◌<◌, length};
ghost use Rattle.flow_graph.specs.FlowGraph.{flow_of};
ghost use Rattle.path_facts.specs.Tables.{AreFactsOf};

use crate::harness::graph_of;
use example_sources::{CONSTRUCTOR, JOIN, KEPT_CYCLE, LIST};
use flow_graph::Graph;
use path_facts::{Facts, facts, path_laws};
use std::alloc::Global;
use std::test::Fail;

/// A source; for each procedure with a body a line with the number of its places, and for each of its
/// slots one with the places at which it is Empty, and at which it is Fresh.
struct Example {
    source: &'static str,
    lines: &'static [&'static str],
}

const EXAMPLES: [Example; 11] = [
    // A kept cycle.
    Example {
        source: KEPT_CYCLE,
        lines: &[
            "proc 0 places 9",
            "empty [0, 1, 2, 4, 7] fresh [3, 4, 5, 7]",
            "empty [0, 1, 2, 3, 4, 5, 6, 7, 8] fresh [7]",
        ],
    },
    // A join with NULL: at the release Empty holds no more, at the allocation it does.
    Example {
        source: JOIN,
        lines: &[
            "proc 0 places 10",
            "empty [0, 1, 2, 3, 4, 5, 8] fresh [8]",
            "empty [0, 1, 2, 3, 4, 5, 6, 7, 8, 9] fresh [8]",
            "empty [0, 1, 2, 3, 8] fresh [8]",
        ],
    },
    // A constructor.
    Example {
        source: CONSTRUCTOR,
        lines: &[
            "proc 0 places 6",
            "empty [] fresh []",
            "empty [0, 1, 2, 3] fresh [4]",
            "empty [0, 1, 2, 3, 4] fresh []",
            "empty [0, 1, 2, 3, 4, 5] fresh []",
            "proc 1 places 13",
            "empty [] fresh []",
            "empty [0, 1, 2, 4] fresh [3, 4, 5, 6, 7, 8, 9, 11]",
            "empty [0, 1, 2, 3, 4, 5, 6, 7, 8, 9, 10, 11] fresh []",
            "empty [0, 1, 2, 3, 4, 6, 7] fresh []",
            "empty [0, 1, 2, 3, 4, 5, 7, 8, 9, 10, 11, 12] fresh []",
            "proc 2 places 13",
            "empty [0, 1, 2, 3, 6, 11] fresh [11]",
            "empty [0, 1, 2, 3, 4, 5, 6, 7, 11] fresh [11]",
            "empty [0, 1, 2, 3, 4, 5, 6, 7, 8, 9, 10, 11, 12] fresh [11]",
            "empty [0, 1, 3, 4, 5, 6, 7, 8, 9, 10, 11, 12] fresh [11]",
        ],
    },
    // A list.
    Example {
        source: LIST,
        lines: &[
            "proc 0 places 9",
            "empty [] fresh []",
            "empty [] fresh []",
            "empty [0, 1, 2, 4] fresh [3, 4, 5, 6, 7]",
            "empty [0, 1, 2, 3, 4, 5, 6, 7] fresh []",
            "proc 1 places 8",
            "empty [7] fresh []",
            "empty [0, 1] fresh []",
            "proc 2 places 19",
            "empty [0, 1, 2, 3, 5, 17] fresh [17]",
            "empty [0, 1, 2, 3, 4, 5, 6, 7, 8, 9, 10, 11, 12, 13, 14, 15, 16, 17, 18] fresh [17]",
            "empty [0, 1, 2, 3, 4, 5, 6, 7, 8, 9, 10, 11, 12, 13, 14, 15, 16, 17, 18] fresh [17]",
            "empty [0, 1, 2, 3, 4, 5, 6, 7, 8, 9, 10, 11, 12, 13, 14, 15, 16, 17, 18] fresh [17]",
            "empty [0, 1, 2, 3, 4, 5, 6, 7, 8, 9, 10, 11, 12, 13, 15, 16, 17, 18] fresh [17]",
            "empty [0, 1, 2, 3, 4, 5, 6, 7, 8, 9, 10, 11, 12, 13, 14, 15, 16, 17, 18] fresh [17]",
            "empty [0, 1, 2, 3, 4, 5, 6, 7, 8, 9, 10, 12, 14, 15, 16, 17, 18] fresh [17]",
            "empty [0, 1, 2, 3, 4, 5, 6, 7, 8, 9, 10, 11, 12, 13, 14, 15, 16, 17, 18] fresh [17]",
        ],
    },
    // A store takes freshness away.
    Example {
        source: "struct box { int *p; };\nint main(void) {\n  struct box *b;\n  int *a;\n  b = malloc(sizeof(struct box));\n  if (b == NULL) return 0;\n  a = malloc(sizeof(int));\n  b->p = a;\n  free(b);\n  return 0;\n}",
        lines: &[
            "proc 0 places 12",
            "empty [0, 1, 2, 3, 5, 10] fresh [4, 5, 6, 7, 8, 10]",
            "empty [0, 1, 2, 3, 4, 5, 6, 10] fresh [7, 10]",
            "empty [0, 1, 2, 3, 4, 5, 6, 7, 8, 9, 10, 11] fresh [10]",
        ],
    },
    // A copy of an empty slot.
    Example {
        source: "int main(void) {\n  int *a;\n  int *b;\n  a = NULL;\n  b = malloc(sizeof(int));\n  free(b);\n  b = a;\n  return 0;\n}",
        lines: &[
            "proc 0 places 10",
            "empty [0, 1, 2, 3, 4, 5, 6, 7, 8, 9] fresh [8]",
            "empty [0, 1, 2, 3, 4, 7, 8, 9] fresh [5, 8]",
            "empty [0, 1, 2, 3, 4, 5, 6, 7, 8, 9] fresh [8]",
        ],
    },
    // A slot that a loop fills on its second turn alone.
    Example {
        source: "int more(void);\nint main(void) {\n  int *a;\n  int *b;\n  int *c;\n  a = malloc(sizeof(int));\n  b = NULL;\n  c = NULL;\n  while (more()) {\n    c = b;\n    b = a;\n  }\n  return 0;\n}",
        lines: &[
            "proc 0 places 15",
            "empty [0, 1, 2, 3, 4, 13] fresh [5, 6, 13]",
            "empty [0, 1, 2, 3, 4, 5, 6, 13] fresh [13]",
            "empty [0, 1, 2, 3, 4, 5, 6, 13] fresh [13]",
            "empty [0, 1, 2, 3, 4, 5, 6, 7, 8, 9, 10, 11, 12, 13, 14] fresh [13]",
            "empty [0, 1, 2, 3, 4, 5, 6, 13] fresh [13]",
        ],
    },
    // A test of a field changes nothing.
    Example {
        source: "struct box { int *p; };\nint main(void) {\n  struct box *b;\n  b = malloc(sizeof(struct box));\n  if (b == NULL) return 0;\n  b->p = NULL;\n  if (b->p == NULL) return 1;\n  return 0;\n}",
        lines: &[
            "proc 0 places 12",
            "empty [0, 1, 2, 4, 10] fresh [3, 4, 5, 6, 7, 8, 9, 10, 11]",
            "empty [0, 1, 2, 3, 4, 5, 6, 7, 8, 9, 10, 11] fresh [10]",
            "empty [0, 1, 2, 3, 4, 5, 6, 7, 8, 9, 10, 11] fresh [10]",
        ],
    },
    // Code that no path reaches: there everything holds.
    Example {
        source: "int main(void) {\n  int *p;\n  return 0;\n  p = malloc(sizeof(int));\n  free(p);\n}",
        lines: &[
            "proc 0 places 7",
            "empty [0, 1, 2, 3, 4, 5, 6] fresh [3, 4, 5]",
            "empty [0, 1, 2, 3, 4, 5, 6] fresh [3, 4, 5]",
        ],
    },
    // Such code leads to a place that is reached, and takes nothing away there.
    Example {
        source: "int main(void) {\n  int *p;\n  p = NULL;\n  while (1) {\n    return 0;\n    p = malloc(sizeof(int));\n  }\n}",
        lines: &[
            "proc 0 places 8",
            "empty [0, 1, 2, 3, 4, 5, 6, 7] fresh [5, 6]",
            "empty [0, 1, 2, 3, 4, 5, 6, 7] fresh [5, 6]",
        ],
    },
    // A call and its arguments.
    Example {
        source: "int *id(int *p) { return p; }\nint main(void) {\n  int *a;\n  int *b;\n  a = malloc(sizeof(int));\n  b = id(a);\n  free(b);\n  return 0;\n}",
        lines: &[
            "proc 0 places 3",
            "empty [] fresh []",
            "empty [0, 1] fresh []",
            "proc 1 places 10",
            "empty [0, 1, 2, 3, 8] fresh [5, 8]",
            "empty [0, 1, 2, 3, 4, 5, 8] fresh [8]",
            "empty [0, 1, 2, 3, 4, 5, 6, 7, 8, 9] fresh [8]",
            "empty [0, 1, 2, 3, 5, 6, 7, 8, 9] fresh [8]",
        ],
    },
];

/// The places at which a slot is Empty, and those at which it is Fresh.
fn slot_line(
    alloc: Global,
    graph: &Graph,
    known: &Facts,
    proc: u32,
    slot: u32,
) -> Result<String, Fail>
    requires body { proc < graph.now.bodies }
    requires slot { slot < length (flow_of graph.now proc).slots }
    requires known { AreFactsOf graph.now known.now }
{
    let places = graph.places(proc).len();
    let (mut empty, mut fresh) = (Vec::new(alloc), Vec::new(alloc));
    path_laws();
    for place in 0..u32::try_from(places)? {
        if place as usize >= places {
            break;
        }
        if known.empty(proc, place, slot) {
            empty.push(place)?;
        }
        if known.fresh(proc, place, slot) {
            fresh.push(place)?;
        }
    }
    Ok(format!(in alloc; "empty {empty:?} fresh {fresh:?}")?)
}

fn list_proc(
    alloc: Global,
    graph: &Graph,
    known: &Facts,
    proc: u32,
    lines: &mut Vec<String>,
) -> Result<(), Fail>
    requires body { proc < graph.now.bodies }
    requires known { AreFactsOf graph.now known.now }
{
    let (places, slots) = (graph.places(proc).len(), graph.slots(proc).len());
    lines.push(format!(in alloc; "proc {proc} places {places}")?)?;
    for slot in 0..u32::try_from(slots)? {
        if slot as usize >= slots {
            break;
        }
        lines.push(slot_line(alloc, graph, known, proc, slot)?)?;
    }
    Ok(())
}

fn listed(alloc: Global, graph: &Graph) -> Result<Vec<String>, Fail> {
    let known = facts(alloc, graph)?;
    let mut lines = Vec::new(alloc);
    for proc in 0..graph.bodies() {
        list_proc(alloc, graph, &known, proc, &mut lines)?;
    }
    Ok(lines)
}

#[test]
fn facts_hold_at_their_places(rt: HostRuntime) -> Result<(), Fail> {
    for example in &EXAMPLES {
        let source = example.source;
        let graph = graph_of(rt.alloc(), source.as_bytes())?;
        let lines = listed(rt.alloc(), &graph)?;
        for (given, line) in lines.iter().zip(example.lines) {
            assert_eq!(rt; given.as_str(), *line, "in {source}");
        }
        assert_eq!(rt; lines.len(), example.lines.len(), "in {source}");
    }
    Ok(())
}
