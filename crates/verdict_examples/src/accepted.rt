// Sources that are accepted, and what is printed of them.
use crate::harness::{expect, run};
use crate::texts::FREED;
use example_sources::{CONSTRUCTOR, JOIN, KEPT_CYCLE, LIST};
use std::alloc::Global;
use std::process::Abort;
use std::test::Fail;

/// A source and its annotation.
struct Accepted {
    source: &'static str,
    text: &'static str,
}

/// Such as propagation alone decides.
const BY_PROPAGATION: [Accepted; 9] = [
    Accepted {
        source: FREED,
        text: "accepted\nproc main() -> int\n  local p:2 owns\n",
    },
    // A transfer.
    Accepted {
        source: "int main(void) { int *p; int *q; p = malloc(sizeof(int)); q = p; free(q); return 0; }",
        text: "accepted\nproc main() -> int\n  local p:1 owns\n  local q:1 owns\n",
    },
    // A pointer that is null or has an object.
    Accepted {
        source: JOIN,
        text: "accepted\nextern pick() -> int\nproc main() -> int\n  local p:3 owns\n",
    },
    // A constructor.
    Accepted {
        source: CONSTRUCTOR,
        text: "accepted\nfield person.name owns\nproc dup(s borrows) -> owns\n  local d:2 owns\nproc person_new(s borrows) -> owns\n  local p:4 owns\nproc main() -> int\n  local q:11 owns\n  local n:12 owns\n",
    },
    // A list.
    Accepted {
        source: LIST,
        text: "accepted\nfield node.next owns\nproc push(list owns, v int) -> owns\n  local n:3 owns\nproc list_free(list owns) -> void\n  local next:10 owns\nproc main() -> int\n  local list:18 owns\nkeeps node.next\n",
    },
    // One procedure used in two ways.
    Accepted {
        source: "int *id(int *p) { return p; }\nint main(void) {\n  int *a; int *b; int *c;\n  a = malloc(sizeof(int));\n  b = id(a);\n  c = id(b);\n  free(b);\n  return 0;\n}",
        text: "accepted\nproc id(p borrows) -> borrows\nproc id(p owns) -> owns\nproc main() -> int\n  local a:3 owns\n  local b:3 owns\n  local c:3 borrows\n",
    },
    // Two procedures that call one another.
    Accepted {
        source: "struct node { int v; struct node *next; };\nvoid odd(struct node *p);\nvoid even(struct node *p) { struct node *q; if (p == NULL) return; q = p->next; free(p); odd(q); }\nvoid odd(struct node *p) { struct node *q; if (p == NULL) return; q = p->next; free(p); even(q); }\nint main(void) { even(NULL); return 0; }",
        text: "accepted\nfield node.next owns\nproc even(p owns) -> void\n  local q:3 owns\nproc odd(p owns) -> void\n  local q:4 owns\nproc main() -> int\nkeeps node.next\n",
    },
    // A cycle that is kept.
    Accepted {
        source: KEPT_CYCLE,
        text: "accepted\nfield node.next owns\nproc main() -> int\n  local a:3 owns\nkeeps node.next\n",
    },
    // A read of what was freed is no matter of owners.
    Accepted {
        source: "struct s { int v; }; int main(void) { struct s *p; int n; p = malloc(sizeof(struct s)); free(p); n = p->v; return n; }",
        text: "accepted\nproc main() -> int\n  local p:1 owns\n",
    },
];

const OTHERS: [Accepted; 11] = [
    // A recursive destructor.
    Accepted {
        source: "struct tree { struct tree *l; struct tree *r; };\nvoid tree_free(struct tree *t) {\n  if (t == NULL) return;\n  tree_free(t->l);\n  tree_free(t->r);\n  free(t);\n}\nint main(void) { return 0; }",
        text: "accepted\nfield tree.l owns\nfield tree.r owns\nproc tree_free(t owns) -> void\nproc main() -> int\nkeeps tree.l\nkeeps tree.r\n",
    },
    // Comments and an include line.
    Accepted {
        source: "#include <stdlib.h>\n/* a */int main(void) {\n/* a */  int *p;\n/* a */  p = malloc(sizeof(int));\n/* a */  free(p);\n/* a */  return 0;\n/* a */}\n",
        text: "accepted\nproc main() -> int\n  local p:3 owns\n",
    },
    // No pointer.
    Accepted {
        source: "int main(void) { int x; { int x; x = 1; } return x; }",
        text: "accepted\nproc main() -> int\n",
    },
    // A struct.
    Accepted {
        source: "struct s { int v; }; int main(void) { struct s *p; p = malloc(sizeof(struct s)); free(p); return 0; }",
        text: "accepted\nproc main() -> int\n  local p:1 owns\n",
    },
    // A copy to itself does nothing.
    Accepted {
        source: "int main(void) {\n  int *p;\n  p = malloc(sizeof(int));\n  p = p;\n  free(p);\n  return 0;\n}",
        text: "accepted\nproc main() -> int\n  local p:2 owns\n",
    },
    // A loop.
    Accepted {
        source: "int main(void) { int *p; int i; for (i = 0; i < 3; i++) { p = malloc(sizeof(int)); free(p); } return 0; }",
        text: "accepted\nproc main() -> int\n  local p:1 owns\n",
    },
    // A field that owns.
    Accepted {
        source: "struct box { char *s; };\nint main(void) {\n  struct box *a = malloc(sizeof(struct box));\n  char *t = malloc(4);\n  char *u;\n  a->s = t;\n  u = a->s;\n  free(u);\n  free(a);\n  return 0;\n}",
        text: "accepted\nfield box.s owns\nproc main() -> int\n  local a:3 owns\n  local t:4 owns\n  local u:5 owns\n",
    },
    // An owner that stays open over a call that cannot reach its object.
    Accepted {
        source: "struct box { char *s; };\nvoid tick(void);\nvoid drop(struct box *b) {\n  char *s;\n  if (b == NULL) return;\n  s = b->s;\n  tick();\n  free(s);\n  free(b);\n}\nint main(void) { return 0; }",
        text: "accepted\nfield box.s owns\nextern tick() -> void\nproc drop(b owns) -> void\n  local s:4 owns\nproc main() -> int\n",
    },
    // The source of a copy keeps what it owned.
    Accepted {
        source: "int main(void) { char *p; char *q; p = malloc(sizeof(char)); q = p; free(p); return 0; }",
        text: "accepted\nproc main() -> int\n  local p:1 owns\n  local q:1 borrows\n",
    },
    // Freeing what is null or was never set does nothing.
    Accepted {
        source: "int main(void) { int *p; free(p); p = NULL; free(p); return 0; }",
        text: "accepted\nproc main() -> int\n  local p:1 borrows\n",
    },
    // Procedures without a body.
    Accepted {
        source: "void put(int n);\nchar get(char *line, int n);\nint main(void) { put(1); return 0; }",
        text: "accepted\nextern put(int) -> void\nextern get(borrows, int) -> char\nproc main() -> int\n",
    },
];

/// Each source has its annotation by these words.
fn accept(rt: &impl Abort, alloc: Global, words: &str, rows: &[Accepted]) -> Result<(), Fail> {
    for row in rows {
        let given = run(alloc, words, row.source.as_bytes(), b"")?;
        expect(rt, &given, 0, row.text, "");
    }
    Ok(())
}

#[test]
fn accepted_by_propagation(rt: HostRuntime) -> Result<(), Fail> {
    accept(&rt, rt.alloc(), "check a.c", &BY_PROPAGATION)
}

/// Where propagation gives a certificate, no budget is spent.
#[test]
fn accepted_with_one_word(rt: HostRuntime) -> Result<(), Fail> {
    accept(&rt, rt.alloc(), "check a.c --budget 1", &BY_PROPAGATION)
}

#[test]
fn other_annotations(rt: HostRuntime) -> Result<(), Fail> {
    accept(&rt, rt.alloc(), "check a.c", &OTHERS)
}
