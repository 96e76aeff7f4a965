// Flow graphs of sources: slots, places and edges, each listed whole.
ghost use Rattle.std.specs.Prelude.{◌<◌};

use crate::harness::graph_of;
use example_sources::{CONSTRUCTOR, JOIN, KEPT_CYCLE, LIST};
use flow_graph::Graph;
use std::alloc::{AllocError, Global};
use std::test::Fail;

/// A source, and the lines that list its flow graph.
struct Example {
    source: &'static str,
    lines: &'static [&'static str],
}

const EXAMPLES: [Example; 17] = [
    // A kept cycle.
    Example {
        source: KEPT_CYCLE,
        lines: &[
            "procs 1 bodies 1 main 0",
            "struct [Int, StructPtr(0)]",
            "proc [] -> Some(Int)",
            "slots [StructPtr(0), Int] ret Some(1)",
            "0 In: Skip -> 1",
            "1 At(1, 0): Unset(0) -> 2",
            "2 At(2, 0): New(0, false, Struct(0), One) -> 3",
            "3 At(4, 3): IsNull(0) -> 4; NotNull(0) -> 5",
            "4 At(8, 0): Set(1, 0) -> 8",
            "5 At(9, 0): Store(0, 1, 0) -> 6",
            "6 At(14, 0): Set(1, 0) -> 8",
            "7 End: Set(1, 0) -> 8",
            "8 Out",
        ],
    },
    // A join with NULL, and an external procedure.
    Example {
        source: JOIN,
        lines: &[
            "procs 2 bodies 1 main 0",
            "proc [] -> Some(Int)",
            "slots [IntPtr, Int, Int] ret Some(1)",
            "0 In: Skip -> 1",
            "1 At(1, 0): Unset(0) -> 2",
            "2 At(2, 0): Null(0) -> 3",
            "3 At(4, 0): Call(Some(2), 1, Numbers { items: [] }) -> 4",
            "4 At(4, 3): NonZero(2) -> 5; Zero(2) -> 6",
            "5 At(7, 0): New(0, false, Ints, One) -> 6",
            "6 At(8, 0): Free(0) -> 7",
            "7 At(11, 0): Set(1, 0) -> 9",
            "8 End: Set(1, 0) -> 9",
            "9 Out",
            "proc [] -> Some(Int)",
        ],
    },
    // A constructor: a string, a field's test, calls in calls.
    Example {
        source: CONSTRUCTOR,
        lines: &[
            "procs 3 bodies 3 main 2",
            "struct [CharPtr]",
            "text [97, 100, 97]",
            "proc [CharPtr] -> Some(CharPtr)",
            "slots [CharPtr, CharPtr, CharPtr, Int] ret Some(2)",
            "0 In: Skip -> 1",
            "1 At(1, 0): Unset(1) -> 3",
            "2 At(4, 0): New(1, false, Chars, Slot(3)) -> 4",
            "3 At(5, 0): Set(3, 8) -> 2",
            "4 At(7, 0): Copy(2, 1) -> 5",
            "5 Out",
            "proc [CharPtr] -> Some(StructPtr(0))",
            "slots [CharPtr, StructPtr(0), StructPtr(0), CharPtr, CharPtr] ret Some(2)",
            "0 In: Skip -> 1",
            "1 At(1, 0): Unset(1) -> 2",
            "2 At(2, 0): New(1, false, Struct(0), One) -> 3",
            "3 At(5, 3): IsNull(1) -> 4; NotNull(1) -> 7",
            "4 At(7, 0): Null(2) -> 12",
            "5 At(8, 0): Store(1, 0, 3) -> 8",
            "6 At(11, 0): Call(Some(3), 0, Numbers { items: [4] }) -> 5",
            "7 At(12, 0): Copy(4, 0) -> 6",
            "8 At(15, 0): FieldNull(1, 0) -> 9; FieldSet(1, 0) -> 11",
            "9 At(19, 0): Free(1) -> 10",
            "10 At(22, 0): Null(2) -> 12",
            "11 At(24, 0): Copy(2, 1) -> 12",
            "12 Out",
            "proc [] -> Some(Int)",
            "slots [StructPtr(0), CharPtr, Int, CharPtr] ret Some(2)",
            "0 In: Skip -> 1",
            "1 At(1, 0): Unset(0) -> 3",
            "2 At(2, 0): Call(Some(0), 1, Numbers { items: [3] }) -> 4",
            "3 At(3, 0): Text(3, 0) -> 2",
            "4 At(4, 0): Unset(1) -> 5",
            "5 At(6, 3): IsNull(0) -> 6; NotNull(0) -> 7",
            "6 At(10, 0): Set(2, 0) -> 12",
            "7 At(13, 0): Load(1, 0, 0) -> 8",
            "8 At(15, 0): Free(1) -> 9",
            "9 At(17, 0): Free(0) -> 10",
            "10 At(20, 0): Set(2, 0) -> 12",
            "11 End: Set(2, 0) -> 12",
            "12 Out",
        ],
    },
    // A list: loops, and temporaries that statements share.
    Example {
        source: LIST,
        lines: &[
            "procs 3 bodies 3 main 2",
            "struct [Int, StructPtr(0)]",
            "proc [StructPtr(0), Int] -> Some(StructPtr(0))",
            "slots [StructPtr(0), Int, StructPtr(0), StructPtr(0)] ret Some(3)",
            "0 In: Skip -> 1",
            "1 At(1, 0): Unset(2) -> 2",
            "2 At(2, 0): New(2, false, Struct(0), One) -> 3",
            "3 At(4, 3): IsNull(2) -> 4; NotNull(2) -> 5",
            "4 At(8, 0): Copy(3, 0) -> 8",
            "5 At(9, 0): Put(2, 0, 1) -> 6",
            "6 At(13, 0): Store(2, 1, 0) -> 7",
            "7 At(18, 0): Copy(3, 2) -> 8",
            "8 Out",
            "proc [StructPtr(0)] -> None",
            "slots [StructPtr(0), StructPtr(0)] ret None",
            "0 In: Skip -> 1",
            "1 At(1, 0): Unset(1) -> 2",
            "2 At(2, 0): Skip -> 3",
            "3 At(3, 3): IsNull(0) -> 7; NotNull(0) -> 4",
            "4 At(9, 0): Load(1, 0, 1) -> 5",
            "5 At(11, 0): Free(0) -> 6",
            "6 At(15, 0): Copy(0, 1) -> 2",
            "7 Out",
            "proc [] -> Some(Int)",
            "slots [StructPtr(0), Int, Int, Int, StructPtr(0), Int, StructPtr(0), Int] ret Some(2)",
            "0 In: Skip -> 1",
            "1 At(1, 0): Unset(0) -> 2",
            "2 At(2, 0): Null(0) -> 3",
            "3 At(3, 0): Unset(1) -> 5",
            "4 At(4, 0): Skip -> 8",
            "5 At(7, 0): Set(1, 0) -> 4",
            "6 At(8, 0): Arith(3, Lt, 1, 5) -> 7",
            "7 At(8, 3): NonZero(3) -> 12; Zero(3) -> 15",
            "8 At(10, 0): Set(5, 10) -> 6",
            "9 At(13, 0): Arith(1, Add, 1, 7) -> 4",
            "10 At(15, 0): Set(7, 1) -> 9",
            "11 At(18, 0): Call(Some(0), 0, Numbers { items: [6, 7] }) -> 10",
            "12 At(19, 0): Copy(6, 0) -> 13",
            "13 At(20, 0): Move(7, 1) -> 11",
            "14 At(22, 0): Call(None, 1, Numbers { items: [4] }) -> 16",
            "15 At(23, 0): Copy(4, 0) -> 14",
            "16 At(25, 0): Set(2, 0) -> 18",
            "17 End: Set(2, 0) -> 18",
            "18 Out",
        ],
    },
    // An empty body, and one of a lone semicolon.
    Example {
        source: "int main(void) { }",
        lines: &[
            "procs 1 bodies 1 main 0",
            "proc [] -> Some(Int)",
            "slots [Int] ret Some(0)",
            "0 In: Skip -> 1",
            "1 End: Set(0, 0) -> 2",
            "2 Out",
        ],
    },
    Example {
        source: "int main(void) { ; }",
        lines: &[
            "procs 1 bodies 1 main 0",
            "proc [] -> Some(Int)",
            "slots [Int] ret Some(0)",
            "0 In: Skip -> 1",
            "1 End: Set(0, 0) -> 2",
            "2 Out",
        ],
    },
    // A loop without a condition; the code after it is there.
    Example {
        source: "int main(void) { for (;;) ; return 1; }",
        lines: &[
            "procs 1 bodies 1 main 0",
            "proc [] -> Some(Int)",
            "slots [Int] ret Some(0)",
            "0 In: Skip -> 1",
            "1 At(1, 0): Skip -> 1",
            "2 At(4, 0): Set(0, 1) -> 4",
            "3 End: Set(0, 0) -> 4",
            "4 Out",
        ],
    },
    // A constant as condition makes no edges.
    Example {
        source: "int main(void) { while (1) break; return 0; }",
        lines: &[
            "procs 1 bodies 1 main 0",
            "proc [] -> Some(Int)",
            "slots [Int] ret Some(0)",
            "0 In: Skip -> 1",
            "1 At(1, 0): Skip -> 2",
            "2 At(5, 0): Set(0, 0) -> 4",
            "3 End: Set(0, 0) -> 4",
            "4 Out",
        ],
    },
    Example {
        source: "int main(void) { int x; x = !0; return x; }",
        lines: &[
            "procs 1 bodies 1 main 0",
            "proc [] -> Some(Int)",
            "slots [Int, Int] ret Some(1)",
            "0 In: Skip -> 1",
            "1 At(1, 0): Unset(0) -> 2",
            "2 At(4, 1): Set(0, 1) -> 4",
            "3 At(4, 2): Set(0, 0) -> 4",
            "4 At(7, 0): Move(1, 0) -> 6",
            "5 End: Set(1, 0) -> 6",
            "6 Out",
        ],
    },
    // A pointer that is put into itself goes by a temporary.
    Example {
        source: "int main(void) { int *p = p; return 0; }",
        lines: &[
            "procs 1 bodies 1 main 0",
            "proc [] -> Some(Int)",
            "slots [IntPtr, Int, IntPtr] ret Some(1)",
            "0 In: Skip -> 1",
            "1 At(1, 0): Unset(0) -> 2",
            "2 At(2, 0): Copy(2, 0) -> 3",
            "3 At(2, 1): Copy(0, 2) -> 4",
            "4 At(4, 0): Set(1, 0) -> 6",
            "5 End: Set(1, 0) -> 6",
            "6 Out",
        ],
    },
    Example {
        source: "struct n { struct n *next; }; int main(void) { struct n *p; p = p->next; return 0; }",
        lines: &[
            "procs 1 bodies 1 main 0",
            "struct [StructPtr(0)]",
            "proc [] -> Some(Int)",
            "slots [StructPtr(0), Int, StructPtr(0)] ret Some(1)",
            "0 In: Skip -> 1",
            "1 At(1, 0): Unset(0) -> 2",
            "2 At(4, 0): Load(2, 0, 0) -> 3",
            "3 At(4, 1): Copy(0, 2) -> 4",
            "4 At(7, 0): Set(1, 0) -> 6",
            "5 End: Set(1, 0) -> 6",
            "6 Out",
        ],
    },
    // A call as an argument; a result that is not used.
    Example {
        source: "int f(int x); int main(void) { f(f(1)); return 0; }",
        lines: &[
            "procs 2 bodies 1 main 0",
            "proc [] -> Some(Int)",
            "slots [Int, Int, Int, Int] ret Some(0)",
            "0 In: Skip -> 3",
            "1 At(2, 0): Call(Some(1), 1, Numbers { items: [2] }) -> 4",
            "2 At(3, 0): Call(Some(2), 1, Numbers { items: [3] }) -> 1",
            "3 At(4, 0): Set(3, 1) -> 2",
            "4 At(6, 0): Set(0, 0) -> 6",
            "5 End: Set(0, 0) -> 6",
            "6 Out",
            "proc [Int] -> Some(Int)",
        ],
    },
    // Integers: arithmetic, cells, counts, fields.
    Example {
        source: "struct s { int v; char c; };\nint main(void) {\n  int x = 1;\n  char *t;\n  struct s *p;\n  t = malloc(x + 2);\n  t[x] = -x;\n  x = t[x - 1];\n  p = calloc(1, sizeof(struct s));\n  p->c = x;\n  x = p->v;\n  return x;\n}",
        lines: &[
            "procs 1 bodies 1 main 0",
            "struct [Int, Char]",
            "proc [] -> Some(Int)",
            "slots [Int, CharPtr, StructPtr(0), Int, Int, Int, Int, Int] ret Some(3)",
            "0 In: Skip -> 1",
            "1 At(1, 0): Unset(0) -> 2",
            "2 At(2, 0): Set(0, 1) -> 3",
            "3 At(3, 0): Unset(1) -> 4",
            "4 At(4, 0): Unset(2) -> 7",
            "5 At(7, 0): New(1, false, Chars, Slot(4)) -> 9",
            "6 At(8, 0): Arith(4, Add, 0, 6) -> 5",
            "7 At(10, 0): Set(6, 2) -> 6",
            "8 At(11, 0): PutAt(1, 0, 5) -> 12",
            "9 At(15, 0): Neg(5, 0) -> 8",
            "10 At(19, 0): At(0, 1, 5) -> 14",
            "11 At(21, 0): Arith(5, Sub, 0, 7) -> 10",
            "12 At(23, 0): Set(7, 1) -> 11",
            "13 At(26, 0): New(2, true, Struct(0), Slot(4)) -> 15",
            "14 At(27, 0): Set(4, 1) -> 13",
            "15 At(28, 0): Put(2, 1, 0) -> 16",
            "16 At(34, 0): Get(0, 2, 0) -> 17",
            "17 At(37, 0): Move(3, 0) -> 19",
            "18 End: Set(3, 0) -> 19",
            "19 Out",
        ],
    },
    // Conditions in one another, with constants among them.
    Example {
        source: "struct n { struct n *next; };\nint f(struct n *p, struct n *q, int x) {\n  if (!p->next && (x || p == q)) x = x < 2;\n  else return 1;\n  if (x && 0) return 2;\n  if (1 || x) ;\n  return p != q || !x;\n}\nint main(void) { return 0; }",
        lines: &[
            "procs 2 bodies 2 main 1",
            "struct [StructPtr(0)]",
            "proc [StructPtr(0), StructPtr(0), Int] -> Some(Int)",
            "slots [StructPtr(0), StructPtr(0), Int, Int, Int] ret Some(3)",
            "0 In: Skip -> 1",
            "1 At(4, 0): FieldNull(0, 0) -> 2; FieldSet(0, 0) -> 6",
            "2 At(7, 3): NonZero(2) -> 5; Zero(2) -> 3",
            "3 At(8, 3): Equal(0, 1) -> 5; Differ(0, 1) -> 6",
            "4 At(13, 0): Arith(2, Lt, 2, 4) -> 7",
            "5 At(15, 0): Set(4, 2) -> 4",
            "6 At(17, 0): Set(3, 1) -> 14",
            "7 At(20, 3): NonZero(2) -> 12; Zero(2) -> 12",
            "8 At(23, 0): Set(3, 2) -> 14",
            "9 At(27, 3): NonZero(2) -> 12; Zero(2) -> 12",
            "10 At(30, 1): Set(3, 1) -> 14",
            "11 At(30, 2): Set(3, 0) -> 14",
            "12 At(31, 3): Equal(0, 1) -> 13; Differ(0, 1) -> 10",
            "13 At(35, 3): NonZero(2) -> 11; Zero(2) -> 10",
            "14 Out",
            "proc [] -> Some(Int)",
            "slots [Int] ret Some(0)",
            "0 In: Skip -> 1",
            "1 At(2, 0): Set(0, 0) -> 3",
            "2 End: Set(0, 0) -> 3",
            "3 Out",
        ],
    },
    // Where `break` and `continue` lead in each loop.
    Example {
        source: "int main(void) {\n  int i;\n  while (i < 1) { if (i) break; continue; }\n  for (i = 0; i; i++) { if (i) continue; break; }\n  return i;\n}",
        lines: &[
            "procs 1 bodies 1 main 0",
            "proc [] -> Some(Int)",
            "slots [Int, Int, Int, Int, Int] ret Some(1)",
            "0 In: Skip -> 1",
            "1 At(1, 0): Unset(0) -> 2",
            "2 At(2, 0): Skip -> 5",
            "3 At(3, 0): Arith(2, Lt, 0, 3) -> 4",
            "4 At(3, 3): NonZero(2) -> 6; Zero(2) -> 8",
            "5 At(5, 0): Set(3, 1) -> 3",
            "6 At(8, 3): NonZero(0) -> 8; Zero(0) -> 2",
            "7 At(11, 0): Skip -> 9",
            "8 At(14, 0): Set(0, 0) -> 7",
            "9 At(15, 3): NonZero(0) -> 12; Zero(0) -> 13",
            "10 At(18, 0): Arith(0, Add, 0, 4) -> 7",
            "11 At(20, 0): Set(4, 1) -> 10",
            "12 At(23, 3): NonZero(0) -> 11; Zero(0) -> 13",
            "13 At(27, 0): Move(1, 0) -> 15",
            "14 End: Set(1, 0) -> 15",
            "15 Out",
        ],
    },
    // NULL as an argument and in a store, strings in two procedures, a void call, the release of an allocation.
    Example {
        source: "struct b { char *s; };\nvoid g(struct b *p, int *q) { p->s = \"a\"; return; }\nint h(char *s) { return 0; }\nint main(void) {\n  struct b *p;\n  p = malloc(sizeof(struct b));\n  g(p, 0);\n  p->s = NULL;\n  h(\"b\");\n  free(malloc(2));\n  return 0;\n}",
        lines: &[
            "procs 3 bodies 3 main 2",
            "struct [CharPtr]",
            "text [97]",
            "text [98]",
            "proc [StructPtr(0), IntPtr] -> None",
            "slots [StructPtr(0), IntPtr, CharPtr] ret None",
            "0 In: Skip -> 2",
            "1 At(1, 0): Store(0, 0, 2) -> 3",
            "2 At(4, 0): Text(2, 0) -> 1",
            "3 Out",
            "proc [CharPtr] -> Some(Int)",
            "slots [CharPtr, Int] ret Some(1)",
            "0 In: Skip -> 1",
            "1 At(2, 0): Set(1, 0) -> 2",
            "2 Out",
            "proc [] -> Some(Int)",
            "slots [StructPtr(0), Int, Int, CharPtr, Int, CharPtr, StructPtr(0), IntPtr, CharPtr] ret Some(1)",
            "0 In: Skip -> 1",
            "1 At(1, 0): Unset(0) -> 2",
            "2 At(4, 0): New(0, false, Struct(0), One) -> 4",
            "3 At(6, 0): Call(None, 0, Numbers { items: [6, 7] }) -> 7",
            "4 At(7, 0): Copy(6, 0) -> 5",
            "5 At(8, 0): Null(7) -> 3",
            "6 At(9, 0): Store(0, 0, 8) -> 9",
            "7 At(12, 0): Null(8) -> 6",
            "8 At(14, 0): Call(Some(2), 1, Numbers { items: [5] }) -> 12",
            "9 At(15, 0): Text(5, 1) -> 8",
            "10 At(16, 0): Free(3) -> 13",
            "11 At(17, 0): New(3, false, Chars, Slot(4)) -> 10",
            "12 At(18, 0): Set(4, 2) -> 11",
            "13 At(20, 0): Set(1, 0) -> 15",
            "14 End: Set(1, 0) -> 15",
            "15 Out",
        ],
    },
    // Comparisons of pointers as values, after a return.
    Example {
        source: "struct n { struct n *next; };\nint main(void) {\n  struct n *p;\n  int x;\n  return 1;\n  x = p == NULL;\n  x = p->next == p;\n  if (0 != p->next) ;\n  { }\n}",
        lines: &[
            "procs 1 bodies 1 main 0",
            "struct [StructPtr(0)]",
            "proc [] -> Some(Int)",
            "slots [StructPtr(0), Int, Int, StructPtr(0)] ret Some(2)",
            "0 In: Skip -> 1",
            "1 At(1, 0): Unset(0) -> 2",
            "2 At(2, 0): Unset(1) -> 3",
            "3 At(4, 0): Set(2, 1) -> 13",
            "4 At(7, 1): Set(1, 1) -> 10",
            "5 At(7, 2): Set(1, 0) -> 10",
            "6 At(7, 3): IsNull(0) -> 4; NotNull(0) -> 5",
            "7 At(12, 1): Set(1, 1) -> 11",
            "8 At(12, 2): Set(1, 0) -> 11",
            "9 At(12, 3): Equal(3, 0) -> 7; Differ(3, 0) -> 8",
            "10 At(13, 0): Load(3, 0, 0) -> 9",
            "11 At(19, 0): FieldNull(0, 0) -> 12; FieldSet(0, 0) -> 12",
            "12 End: Set(2, 0) -> 13",
            "13 Out",
        ],
    },
];

/// A place with what it stands for, and its edges in order of their numbers.
fn place_line(alloc: Global, graph: &Graph, proc: u32, place: u32) -> Result<String, AllocError>
    requires { proc < graph.now.bodies }
{
    let places = graph.places(proc);
    if place as usize >= places.len() {
        return Ok(String::new(alloc));
    }
    let node = places[place as usize];
    let mut line = format!(in alloc; "{place} {node:?}")?;
    let mut before = ": ";
    for edge in graph.edges_from(proc, place) {
        let (action, to) = (&edge.action, edge.to);
        let part = format!(in alloc; "{before}{action:?} -> {to}")?;
        line.push_str(part.as_str())?;
        before = "; ";
    }
    Ok(line)
}

/// The slots of a body, the result's among them, and its places.
fn list_body(alloc: Global, graph: &Graph, proc: u32, lines: &mut Vec<String>) -> Result<(), Fail>
    requires { proc < graph.now.bodies }
{
    let (slots, ret) = (graph.slots(proc), graph.ret(proc));
    lines.push(format!(in alloc; "slots {slots:?} ret {ret:?}")?)?;
    for place in 0..u32::try_from(graph.places(proc).len())? {
        lines.push(place_line(alloc, graph, proc, place)?)?;
    }
    Ok(())
}

/// Counts, the members of each struct, the units of each string, and each procedure.
fn listed(alloc: Global, graph: &Graph) -> Result<Vec<String>, Fail> {
    let mut lines = Vec::new(alloc);
    let (procs, bodies, main) = (graph.procs(), graph.bodies(), graph.main_proc());
    lines.push(format!(in alloc; "procs {procs} bodies {bodies} main {main}")?)?;
    for structure in 0..graph.structs() {
        let members = graph.members(structure);
        lines.push(format!(in alloc; "struct {members:?}")?)?;
    }
    for number in 0..graph.texts() {
        let units = graph.text(number);
        lines.push(format!(in alloc; "text {units:?}")?)?;
    }
    for proc in 0..procs {
        let (params, result) = (graph.params(proc), graph.result(proc));
        lines.push(format!(in alloc; "proc {params:?} -> {result:?}")?)?;
        if proc < bodies {
            list_body(alloc, graph, proc, &mut lines)?;
        }
    }
    Ok(lines)
}

#[test]
fn graphs_are_as_listed(rt: HostRuntime) -> Result<(), Fail> {
    for example in &EXAMPLES {
        let source = example.source;
        let graph = graph_of(rt.alloc(), source.as_bytes())?;
        let lines = listed(rt.alloc(), &graph)?;
        for (given, line) in lines.iter().zip(example.lines) {
            assert_eq!(rt; given.as_str(), *line, "in {source}");
        }
        assert_eq!(rt; lines.len(), example.lines.len(), "in {source}");
    }
    Ok(())
}
