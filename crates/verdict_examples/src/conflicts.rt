// Sources that are in conflict.
use crate::harness::{check, expect};
use crate::texts::LEAK;
use std::alloc::Global;
use std::process::Abort;
use std::test::Fail;

/// A source, and all that is printed of it.
struct Conflicting {
    source: &'static str,
    text: &'static str,
}

const WHOLE: [Conflicting; 3] = [
    // A leak.
    Conflicting {
        source: LEAK,
        text: "conflict\nmain 3:7 New p:2\nmain 5:1 ExitOwn p:2\n",
    },
    // A double free.
    Conflicting {
        source: "int main(void) {\n  int *p;\n  p = malloc(sizeof(int));\n  free(p);\n  free(p);\n  return 0;\n}",
        text: "conflict\nmain 4:3 Freed p:2\nmain 5:3 Free p:2\n",
    },
    // A string that is freed at once.
    Conflicting {
        source: "int main(void) {\n  char *s;\n  s = \"ab\";\n  free(s);\n  return 0;\n}",
        text: "conflict\nmain 3:7 Text s:2\nmain 4:3 Free s:2\n",
    },
];

/// Sources, and a line that is printed.
const LINES: [Conflicting; 2] = [
    // Two bases are open at once.
    Conflicting {
        source: "struct node { int v; struct node *next; };\nvoid cut(struct node *prev) {\n  struct node *cur;\n  struct node *rest;\n  cur = prev->next;\n  rest = cur->next;\n  prev->next = rest;\n  free(cur);\n}\nint main(void) { return 0; }",
        text: "\ncut 7:3 OneBase prev:2.next cur:3\n",
    },
    // A field is open over a call that is lent its base.
    Conflicting {
        source: "struct box { char *s; };\nvoid look(struct box *b);\nvoid drop(struct box *b) {\n  char *s;\n  if (b == NULL) return;\n  s = b->s;\n  look(b);\n  free(s);\n  free(b);\n}\nint main(void) { return 0; }",
        text: "\ndrop 7:3 CallClosed b:3.s\n",
    },
];

/// Sources that break the rules.
const BROKEN: [&str; 7] = [
    "int main(void) { int *p; int i; for (i = 0; i < 3; i++) { p = malloc(sizeof(int)); } return 0; }",
    "struct box { char *s; };\nint main(void) {\n  struct box *a = malloc(sizeof(struct box));\n  char *t = malloc(4);\n  a->s = t;\n  free(a);\n  return 0;\n}",
    "struct node { struct node *next; }; int main(void) { struct node *a = malloc(sizeof *a); struct node *b = malloc(sizeof *b); struct node *h; struct node *c; struct node *r; b->next = NULL; a->next = b; h = a; c = h->next; r = c->next; h->next = r; free(c); while (h->next != NULL) ; free(h); return 0; }",
    "int *id(int *p) { return p; } int main(void) { id(malloc(sizeof(int))); return 0; }",
    "int *mk(void) { int *p; p = malloc(sizeof(int)); return p; } int main(void) { int *q; q = mk(); return 0; }",
    "int main(void) { char *p; char *q; p = malloc(sizeof(char)); q = p; free(p); free(q); return 0; }",
    "int main(void) { int *p; p = malloc(sizeof(int)); p = NULL; return 0; }",
];

#[test]
fn whole_texts(rt: HostRuntime) -> Result<(), Fail> {
    for row in &WHOLE {
        let given = check(rt.alloc(), row.source)?;
        expect(&rt, &given, 1, row.text, "");
    }
    Ok(())
}

#[test]
fn single_lines(rt: HostRuntime) -> Result<(), Fail> {
    for row in &LINES {
        let given = check(rt.alloc(), row.source)?;
        assert!(&rt; given.out.contains(row.text));
        assert_eq!(&rt; given.status, 1);
    }
    Ok(())
}

/// The source is in conflict.
fn conflicts(rt: &impl Abort, alloc: Global, source: &str) -> Result<(), Fail> {
    let given = check(alloc, source)?;
    assert!(rt; given.out.starts_with("conflict\n"));
    assert_eq!(rt; given.err.as_str(), "");
    assert_eq!(rt; given.status, 1);
    Ok(())
}

#[test]
fn broken_sources(rt: HostRuntime) -> Result<(), Fail> {
    for source in &BROKEN {
        conflicts(&rt, rt.alloc(), source)?;
    }
    Ok(())
}
