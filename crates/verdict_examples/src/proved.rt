// What `prove` prints, and what `verify` says of it.
use crate::harness::{expect, prove, run, verify};
use crate::texts::{Altered, FREED, FREED_SECOND, HANDED, LEAK, MADE, with_altered};
use example_sources::{CONSTRUCTOR, JOIN, KEPT_CYCLE, LIST, MUTUAL, TWICE};
use std::alloc::Global;
use std::process::Abort;
use std::test::Fail;

/// A source, and what `prove` prints of it.
struct Printed(&'static str, &'static str);

/// Certificates as propagation makes them: 1 where it forces one, in the root for each group, and then for each call.
const PRINTED: [Printed; 4] = [
    Printed(FREED, FREED_SECOND),
    Printed(
        "int main(void) { int *p; int *q; p = malloc(sizeof(int)); q = p; free(q); return 0; }",
        "clouseau certificate 2\nphi\ninstance 0 0\niface\nsites\nplaces 0 0 3 00\nplaces 0 4 4 10\nplaces 0 5 5 01\nplaces 0 6 8 00\nend 1\n",
    ),
    // Nothing is asked of `id` but where `main` calls it.
    Printed(
        HANDED,
        "clouseau certificate 2\nphi\ninstance 0 0\niface 00\nsites\nplaces 0 0 2 00\ninstance 0 0\niface 11\nsites\nplaces 0 0 1 10\nplaces 0 2 2 01\ninstance 1 1\niface\nsites 1\nplaces 1 0 2 00\nplaces 1 3 3 01\nplaces 1 4 5 10\nplaces 1 6 8 00\nend 3\n",
    ),
    Printed(
        KEPT_CYCLE,
        "clouseau certificate 2\nphi 1\ninstance 0 0\niface\nsites\nplaces 0 0 2 00\nplaces 0 3 3 11\nplaces 0 4 4 00\nplaces 0 5 5 11\nplaces 0 6 8 00\nend 1\n",
    ),
];

#[test]
fn certificates_by_propagation(rt: HostRuntime) -> Result<(), Fail> {
    for row in &PRINTED {
        let given = prove(rt.alloc(), row.0)?;
        expect(&rt, &given, 0, row.1, "");
    }
    Ok(())
}

/// A source, the status of `prove`, and how the first and the last line of what it prints are.
struct Proved {
    source: &'static str,
    status: u8,
    first: &'static str,
    last: &'static str,
}

const PROVED: [Proved; 9] = [
    Proved {
        source: LIST,
        status: 0,
        first: "clouseau certificate 2\nphi 1\n",
        last: "\nend 3\n",
    },
    Proved {
        source: CONSTRUCTOR,
        status: 0,
        first: "clouseau certificate 2\nphi 1\n",
        last: "\nend 3\n",
    },
    Proved {
        source: JOIN,
        status: 0,
        first: "clouseau certificate 2\nphi\n",
        last: "\nend 1\n",
    },
    // Two instances of `id`.
    Proved {
        source: TWICE,
        status: 0,
        first: "clouseau certificate 2\nphi\n",
        last: "\nend 3\n",
    },
    // One instance for both procedures.
    Proved {
        source: MUTUAL,
        status: 0,
        first: "clouseau certificate 2\nphi 1\n",
        last: "\nend 2\n",
    },
    Proved {
        source: LEAK,
        status: 1,
        first: "clouseau derivation 1\na 0 ",
        last: "\n",
    },
    Proved {
        source: MADE,
        status: 1,
        first: "clouseau derivation 1\na ",
        last: "\n",
    },
    // Two open bases.
    Proved {
        source: "struct node { int v; struct node *next; };\nvoid cut(struct node *prev) {\n  struct node *cur;\n  struct node *rest;\n  cur = prev->next;\n  rest = cur->next;\n  prev->next = rest;\n  free(cur);\n}\nint main(void) { return 0; }",
        status: 1,
        first: "clouseau derivation 1\na ",
        last: "\n",
    },
    // What a call takes, and nobody gives.
    Proved {
        source: "int *id(int *p) { return p; } int main(void) { id(malloc(sizeof(int))); return 0; }",
        status: 1,
        first: "clouseau derivation 1\na ",
        last: "\n",
    },
];

/// What is proved of the source is valid.
fn is_valid(rt: &impl Abort, alloc: Global, row: &Proved) -> Result<(), Fail> {
    let given = prove(alloc, row.source)?;
    let text = given.out.as_str();
    assert!(rt; text.starts_with(row.first));
    assert!(rt; text.ends_with(row.last));
    assert_eq!(rt; given.status, row.status);
    let checked = verify(alloc, row.source, text)?;
    expect(rt, &checked, 0, "valid\n", "");
    Ok(())
}

#[test]
fn what_is_proved_is_valid(rt: HostRuntime) -> Result<(), Fail> {
    for row in &PROVED {
        is_valid(&rt, rt.alloc(), row)?;
    }
    Ok(())
}

/// One line costs more than one word. It is right, and refutes nothing yet.
#[test]
fn a_derivation_that_breaks_off(rt: HostRuntime) -> Result<(), Fail> {
    let given = run(rt.alloc(), "prove a.c --budget 1", LEAK.as_bytes(), b"")?;
    assert_eq!(&rt; given.status, 3);
    assert!(&rt; given.out.starts_with("clouseau derivation 1\na 0 "));
    assert!(&rt; given.out.ends_with("\nend 1\n"));
    let checked = verify(rt.alloc(), LEAK, given.out.as_str())?;
    expect(&rt, &checked, 1, "invalid line 3: NoRefutation\n", "");
    Ok(())
}

/// The line of the fields, of which the one owns, says that it borrows.
const BORROWING: Altered = Altered(2, 1, "phi 0\n", "");

#[test]
fn another_field(rt: HostRuntime) -> Result<(), Fail> {
    let given = prove(rt.alloc(), LIST)?;
    let other = with_altered(rt.alloc(), given.out.as_str(), &BORROWING)?;
    let checked = verify(rt.alloc(), LIST, other.as_str())?;
    assert_eq!(&rt; checked.status, 1);
    assert!(&rt; checked.out.ends_with(": Broken\n"));
    Ok(())
}
