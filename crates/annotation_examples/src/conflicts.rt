// Texts of conflicts, and what slots are called.

use crate::programs::program_of;
use annotate::{conflict_text, slot_text};
use conflict_proof::{How, Names, read};
use example_sources::JOIN;
use std::alloc::Global;
use std::test::Fail;

/// A source, lines of a derivation from it, and the text of the conflict of their names.
struct Example {
    source: &'static str,
    derivation: &'static str,
    text: &'static str,
}

/// An object that is lost.
const LEAK: &str = "int main(void) {\n  int *p;\n  p = malloc(sizeof(int));\n  return 0;\n}";

const FREED_TWICE: &str =
    "int main(void) {\n  int *p;\n  p = malloc(sizeof(int));\n  free(p);\n  free(p);\n  return 0;\n}";

const GIVEN_BACK: &str =
    "int *id(int *p) { return p; } int main(void) { int *a; a = id(NULL); return 0; }";

const CUT: &str =
    "struct node { int v; struct node *next; };\nvoid cut(struct node *prev) {\n  struct node *cur;\n  struct node *rest;\n  cur = prev->next;\n  rest = cur->next;\n  prev->next = rest;\n  free(cur);\n}\nint main(void) { return 0; }";

const TREE: &str =
    "struct tree { struct tree *l; struct tree *r; };\nvoid tree_free(struct tree *t) {\n  if (t == NULL) return;\n  tree_free(t->l);\n  tree_free(t->r);\n  free(t);\n}\nint main(void) { return 0; }";

/// Another procedure sees an object whose field is open.
const LOOKED_AT: &str =
    "struct box { char *s; };\nvoid look(struct box *b);\nvoid drop(struct box *b) {\n  char *s;\n  if (b == NULL) return;\n  s = b->s;\n  look(b);\n  free(s);\n  free(b);\n}\nint main(void) { return 0; }";

/// A prototype whose parameters have no names, before the body.
const UNNAMED: &str =
    "int *id(int *, char);\nint *id(int *p,\n  char c) { return p; }\nint main(void) { return 0; }";

const EXAMPLES: [Example; 11] = [
    Example {
        source: LEAK,
        derivation: "clouseau derivation 1\na 0 4 0 2 0 0 0 0 : 4\na 0 17 0 5 0 0 0 0 : -6\nend 2\n",
        text: "conflict\nmain 3:7 New p:2\nmain 5:1 ExitOwn p:2\n",
    },
    Example {
        source: FREED_TWICE,
        derivation: "clouseau derivation 1\na 0 8 0 3 0 0 0 0 :\na 0 6 0 4 0 0 0 0 :\nend 2\n",
        text: "conflict\nmain 4:3 Freed p:2\nmain 5:3 Free p:2\n",
    },
    Example {
        source: CUT,
        derivation: "clouseau derivation 1\na 0 15 0 0 0 0 0 0 :\na 0 15 0 0 0 0 1 0 :\na 0 9 0 4 0 2 1 1 :\na 0 20 0 5 0 0 1 1 :\na 0 17 0 7 0 2 0 0 :\nend 5\n",
        text: "conflict\ncut 2:6 Entry prev:2\ncut 2:6 Entry prev:2.next\ncut 6:10 Load rest:4.next\ncut 7:3 OneBase prev:2.next cur:3\ncut 9:1 ExitOwn rest:4\n",
    },
    // Temporaries, and a field of the first parameter at a call.
    Example {
        source: TREE,
        derivation: "clouseau derivation 1\na 0 12 0 2 0 1 0 1 :\na 0 14 0 2 0 0 1 0 :\na 0 14 0 2 0 0 2 0 :\na 0 9 0 3 0 1 1 0 :\nend 4\n",
        text: "conflict\ntree_free 4:3 CallArg tmp\ntree_free 4:3 CallClosed t:2.l\ntree_free 4:3 CallClosed t:2.r\ntree_free 4:13 Load tmp.l\n",
    },
    // The slot is a pointer to bytes, the field that of the struct from which it is loaded.
    Example {
        source: LOOKED_AT,
        derivation: "clouseau derivation 1\na 0 9 0 3 0 1 1 0 :\na 0 14 0 4 0 0 1 0 :\nend 2\n",
        text: "conflict\ndrop 6:7 Load s:4.s\ndrop 7:3 CallClosed b:3.s\n",
    },
    // The two edges of a test have one line each.
    Example {
        source: JOIN,
        derivation: "clouseau derivation 1\na 0 21 0 4 0 0 0 0 :\na 0 21 0 4 1 0 0 0 :\nend 2\n",
        text: "conflict\nmain 4:7 Same p:3\nmain 4:7 Same p:3\n",
    },
    Example {
        source: GIVEN_BACK,
        derivation: "clouseau derivation 1\na 0 15 0 0 0 0 0 0 :\na 0 2 0 1 0 1 0 0 :\na 0 16 0 2 0 1 0 0 :\nend 3\n",
        text: "conflict\nid 1:6 Entry p:1\nid 1:26 Copy ret\nid 1:29 ExitRet ret\n",
    },
    // The field leads to a struct that is only named.
    Example {
        source: "struct a { struct d *gone; };\nint main(void) {\n  struct a *x;\n  x = NULL;\n  return 0;\n}",
        derivation: "clouseau derivation 1\na 0 19 0 1 0 0 1 0 :\nend 1\n",
        text: "conflict\nmain 3:12 Bound x:3.gone\n",
    },
    // The rules that no other example has.
    Example {
        source: LEAK,
        derivation: "clouseau derivation 1\na 0 1 0 0 0 0 0 0 :\na 0 3 0 0 0 0 0 0 :\na 0 5 0 0 0 0 0 0 :\na 0 7 0 0 0 0 0 0 :\na 0 10 0 0 0 0 0 0 :\na 0 11 0 0 0 0 0 0 :\na 0 13 0 0 0 0 0 0 :\na 0 18 0 0 0 0 0 0 :\nend 8\n",
        text: "conflict\nmain 1:5 Target p:2\nmain 1:5 Closed p:2\nmain 1:5 Text p:2\nmain 1:5 FreeField p:2\nmain 1:5 StoreOpen p:2\nmain 1:5 Store p:2\nmain 1:5 CallResult p:2\nmain 1:5 ExitClosed p:2\n",
    },
    // What the program does not have: a rule and a field, a place and slots, a procedure.
    Example {
        source: LEAK,
        derivation: "clouseau derivation 1\na 0 22 0 0 0 0 7 0 :\na 0 20 0 99 0 99 0 98 :\na 0 1 9 0 0 0 0 0 :\nend 3\n",
        text: "conflict\nmain 1:5  p:2\nmain 5:1 OneBase tmp tmp\n 0:0 Target tmp\n",
    },
    Example {
        source: LEAK,
        derivation: "clouseau derivation 1\nend 0\n",
        text: "conflict\n",
    },
];

/// A slot of a procedure of a source, and what it is called.
struct Slot {
    source: &'static str,
    proc: u32,
    slot: u32,
    text: &'static str,
}

const SLOTS: [Slot; 9] = [
    Slot {
        source: LEAK,
        proc: 0,
        slot: 0,
        text: "p:2",
    },
    Slot {
        source: LEAK,
        proc: 0,
        slot: 1,
        text: "ret",
    },
    Slot {
        source: LEAK,
        proc: 0,
        slot: 2,
        text: "tmp",
    },
    Slot {
        source: LEAK,
        proc: 1,
        slot: 0,
        text: "tmp",
    },
    Slot {
        source: CUT,
        proc: 0,
        slot: 0,
        text: "prev:2",
    },
    Slot {
        source: CUT,
        proc: 0,
        slot: 2,
        text: "rest:4",
    },
    Slot {
        source: UNNAMED,
        proc: 0,
        slot: 0,
        text: "p:2",
    },
    Slot {
        source: UNNAMED,
        proc: 0,
        slot: 1,
        text: "c:3",
    },
    Slot {
        source: UNNAMED,
        proc: 0,
        slot: 2,
        text: "ret",
    },
];

/// The names of the constraints that lines of a derivation name.
fn names_of(alloc: Global, derivation: &str) -> Result<Names, Fail> {
    let Ok(derivation) = read(alloc, derivation.as_bytes()) else {
        return Err(Fail::from("no derivation"));
    };
    let mut items = Vec::new(alloc);
    for line in &derivation.lines.items {
        if let How::Axiom(name) = line.how {
            items.push(name)?;
        }
    }
    Ok(Names { items })
}

/// The text of the conflict of some names.
fn conflicting(alloc: Global, example: &Example) -> Result<Vec<u8>, Fail> {
    let program = program_of(alloc, example.source.as_bytes())?;
    let names = names_of(alloc, example.derivation)?;
    Ok(conflict_text(alloc, &program, &names)?)
}

fn called(alloc: Global, slot: &Slot) -> Result<Vec<u8>, Fail> {
    let program = program_of(alloc, slot.source.as_bytes())?;
    Ok(slot_text(alloc, &program, slot.proc, slot.slot)?)
}

#[test]
fn conflicts(rt: HostRuntime) -> Result<(), Fail> {
    for example in &EXAMPLES {
        let text = conflicting(rt.alloc(), example)?;
        assert_eq!(rt; std::str::from_utf8(&text)?, example.text);
    }
    Ok(())
}

#[test]
fn slots(rt: HostRuntime) -> Result<(), Fail> {
    for slot in &SLOTS {
        let text = called(rt.alloc(), slot)?;
        assert_eq!(rt; std::str::from_utf8(&text)?, slot.text);
    }
    Ok(())
}
