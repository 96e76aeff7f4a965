// Annotations of certificates.

use crate::programs::program_of;
use annotate::annotation;
use example_sources::{CONSTRUCTOR, JOIN, KEPT_CYCLE, LIST};
use own_cert::{Certificate, read};
use std::alloc::Global;
use std::test::Fail;

/// A source, a certificate of it, and the annotation.
struct Example {
    source: &'static str,
    certificate: &'static str,
    text: &'static str,
}

/// A pointer that is made and freed.
const FREED: &str =
    "int main(void) {\n  int *p;\n  p = malloc(sizeof(int));\n  free(p);\n  return 0;\n}";

const COPIED: &str =
    "int main(void) { int *p; int *q; p = malloc(sizeof(int)); q = p; free(q); return 0; }";

/// One procedure that takes an object and gives it, and only looks at another.
const TWICE: &str =
    "int *id(int *p) { return p; }\nint main(void) {\n  int *a; int *b; int *c;\n  a = malloc(sizeof(int));\n  b = id(a);\n  c = id(b);\n  free(b);\n  return 0;\n}";

/// Two procedures that call one another.
const MUTUAL: &str =
    "struct node { int v; struct node *next; };\nvoid odd(struct node *p);\nvoid even(struct node *p) { struct node *q; if (p == NULL) return; q = p->next; free(p); odd(q); }\nvoid odd(struct node *p) { struct node *q; if (p == NULL) return; q = p->next; free(p); even(q); }\nint main(void) { even(NULL); return 0; }";

const TREE: &str =
    "struct tree { struct tree *l; struct tree *r; };\nvoid tree_free(struct tree *t) {\n  if (t == NULL) return;\n  tree_free(t->l);\n  tree_free(t->r);\n  free(t);\n}\nint main(void) { return 0; }";

const TICKED: &str =
    "struct box { char *s; };\nvoid tick(void);\nvoid drop(struct box *b) {\n  char *s;\n  if (b == NULL) return;\n  s = b->s;\n  tick();\n  free(s);\n  free(b);\n}\nint main(void) { return 0; }";

/// Prototypes whose parameters have no names, before a body and without one.
const UNNAMED: &str =
    "int *id(int *, char);\nchar look(struct box *, int n, char *, char);\nvoid hush(void);\nint *id(int *p,\n  char c) { return p; }\nint main(void) { return 0; }";

/// Structs that lead to one another: `a` to `b` and back, and on to `c`, of which it depends on its field whether it leads
/// back; `d` is only named.
const RING: &str =
    "struct a { struct b *x; char *s; struct d *gone; };\nstruct b { int n; struct a *y; struct c *z; };\nstruct c { struct a *w; };\nint main(void) { return 0; }";

/// Two rings of structs that have one in common, and a struct that only leads to them.
const RINGS: &str =
    "struct in { struct b *go; };\nstruct a { struct b *x; };\nstruct b { struct a *y; struct c *z; struct end *w; };\nstruct c { struct d *u; };\nstruct d { struct b *v; struct d *own; };\nstruct end { struct end *next; char *s; };\nint main(void) { return 0; }";

/// A procedure with two parameters.
const LOOKED_AT: &str =
    "void look(int *p, int n, char *q) { return; }\nint main(void) { return 0; }";

/// Procedures that call nothing, each a group of its own.
const ALONE: &str =
    "void first(int *p) { return; }\nvoid second(int *p) { return; }\nvoid third(int *p) { return; }\nint main(void) { return 0; }";

/// Two that call one another, with two instances that have one interface.
const PAIR: &str =
    "void g(int n);\nvoid f(int n) {\n  char *p;\n  p = malloc(4);\n  g(n);\n  free(p);\n}\nvoid g(int n) {\n  char *q;\n  q = malloc(4);\n  f(n);\n  free(q);\n}\nint main(void) {\n  f(1);\n  g(1);\n  return 0;\n}";

/// The first ten certificates are good.
const EXAMPLES: [Example; 22] = [
    Example {
        source: FREED,
        certificate: "clouseau certificate 1\nphi\ninstance 0 0\niface\nsites\nplace 0 0 0\nplace 0 1 0\nplace 0 2 0\nplace 0 3 1\nplace 0 4 0\nplace 0 5 0\nplace 0 6 0\nend 1\n",
        text: "accepted\nproc main() -> int\n  local p:2 owns\n",
    },
    Example {
        source: COPIED,
        certificate: "clouseau certificate 2\nphi\ninstance 0 0\niface\nsites\nplaces 0 0 3 00\nplaces 0 4 4 10\nplaces 0 5 5 01\nplaces 0 6 8 00\nend 1\n",
        text: "accepted\nproc main() -> int\n  local p:1 owns\n  local q:1 owns\n",
    },
    Example {
        source: JOIN,
        certificate: "clouseau certificate 2\nphi\ninstance 0 0\niface\nsites\nplaces 0 0 5 0\nplaces 0 6 6 1\nplaces 0 7 9 0\nend 1\n",
        text: "accepted\nextern pick() -> int\nproc main() -> int\n  local p:3 owns\n",
    },
    Example {
        source: CONSTRUCTOR,
        certificate: "clouseau certificate 2\nphi 1\ninstance 0 0\niface 01\nsites\nplaces 0 0 3 000\nplaces 0 4 4 010\nplaces 0 5 5 001\ninstance 1 1\niface 01\nsites 0\nplaces 1 0 2 0000000\nplaces 1 3 3 0110000\nplaces 1 4 4 0000000\nplaces 1 5 5 0110010\nplaces 1 6 7 0110000\nplaces 1 8 8 0100000\nplaces 1 9 9 0110000\nplaces 1 10 10 0000000\nplaces 1 11 11 0100000\nplaces 1 12 12 0001000\ninstance 2 2\niface\nsites 1\nplaces 2 0 3 0000\nplaces 2 4 5 1000\nplaces 2 6 6 0000\nplaces 2 7 7 1000\nplaces 2 8 8 1110\nplaces 2 9 9 1100\nplaces 2 10 12 0000\nend 3\n",
        text: "accepted\nfield person.name owns\nproc dup(s borrows) -> owns\n  local d:2 owns\nproc person_new(s borrows) -> owns\n  local p:4 owns\nproc main() -> int\n  local q:11 owns\n  local n:12 owns\n",
    },
    Example {
        source: LIST,
        certificate: "clouseau certificate 2\nphi 1\ninstance 0 0\niface 11\nsites\nplaces 0 0 2 100000\nplaces 0 3 3 101100\nplaces 0 4 4 100000\nplaces 0 5 6 101100\nplaces 0 7 7 001000\nplaces 0 8 8 000010\ninstance 1 1\niface 1\nsites\nplaces 1 0 4 1000\nplaces 1 5 5 1110\nplaces 1 6 6 0010\nplaces 1 7 7 0000\ninstance 2 2\niface\nsites 0 1\nplaces 2 0 3 000000\nplaces 2 4 4 100000\nplaces 2 5 5 000000\nplaces 2 6 10 100000\nplaces 2 11 11 000010\nplaces 2 12 12 100000\nplaces 2 13 13 000010\nplaces 2 14 14 001000\nplaces 2 15 15 100000\nplaces 2 16 18 000000\nend 3\n",
        text: "accepted\nfield node.next owns\nproc push(list owns, v int) -> owns\n  local n:3 owns\nproc list_free(list owns) -> void\n  local next:10 owns\nproc main() -> int\n  local list:18 owns\nkeeps node.next\n",
    },
    // Two instances of one procedure, the one that owns first in the certificate.
    Example {
        source: TWICE,
        certificate: "clouseau certificate 2\nphi\ninstance 0 0\niface 11\nsites\nplaces 0 0 1 10\nplaces 0 2 2 01\ninstance 0 0\niface 00\nsites\nplaces 0 0 2 00\ninstance 1 1\niface\nsites 0 1\nplaces 1 0 4 0000\nplaces 1 5 5 0001\nplaces 1 6 6 1000\nplaces 1 7 9 0100\nplaces 1 10 12 0000\nend 3\n",
        text: "accepted\nproc id(p borrows) -> borrows\nproc id(p owns) -> owns\nproc main() -> int\n  local a:3 owns\n  local b:3 owns\n  local c:3 borrows\n",
    },
    Example {
        source: MUTUAL,
        certificate: "clouseau certificate 2\nphi 1\ninstance 0 0\niface 11\nsites\nplaces 0 0 3 100000\nplaces 0 4 4 111000\nplaces 0 5 5 000010\nplaces 0 6 6 001000\nplaces 0 7 7 000000\nplaces 1 0 3 100000\nplaces 1 4 4 111000\nplaces 1 5 5 000010\nplaces 1 6 6 001000\nplaces 1 7 7 000000\ninstance 1 2\niface\nsites 0\nplaces 2 0 5 00\nend 2\n",
        text: "accepted\nfield node.next owns\nproc even(p owns) -> void\n  local q:3 owns\nproc odd(p owns) -> void\n  local q:4 owns\nproc main() -> int\nkeeps node.next\n",
    },
    Example {
        source: KEPT_CYCLE,
        certificate: "clouseau certificate 2\nphi 1\ninstance 0 0\niface\nsites\nplaces 0 0 2 00\nplaces 0 3 3 11\nplaces 0 4 4 00\nplaces 0 5 5 11\nplaces 0 6 8 00\nend 1\n",
        text: "accepted\nfield node.next owns\nproc main() -> int\n  local a:3 owns\nkeeps node.next\n",
    },
    Example {
        source: TREE,
        certificate: "clouseau certificate 2\nphi 11\ninstance 0 0\niface 1\nsites\nplaces 0 0 1 100000\nplaces 0 2 2 110100\nplaces 0 3 3 100000\nplaces 0 4 4 111100\nplaces 0 5 5 110000\nplaces 0 6 6 111000\nplaces 0 7 7 000000\ninstance 1 1\niface\nsites\nplaces 1 0 3\nend 2\n",
        text: "accepted\nfield tree.l owns\nfield tree.r owns\nproc tree_free(t owns) -> void\nproc main() -> int\nkeeps tree.l\nkeeps tree.r\n",
    },
    Example {
        source: TICKED,
        certificate: "clouseau certificate 2\nphi 1\ninstance 0 0\niface 1\nsites\nplaces 0 0 3 100\nplaces 0 4 5 111\nplaces 0 6 6 110\nplaces 0 7 7 000\ninstance 1 1\niface\nsites\nplaces 1 0 3\nend 2\n",
        text: "accepted\nfield box.s owns\nextern tick() -> void\nproc drop(b owns) -> void\n  local s:4 owns\nproc main() -> int\n",
    },
    // Before it is set, after it is set to nothing: it owns only where it is empty.
    Example {
        source: FREED,
        certificate: "clouseau certificate 2\nphi\ninstance 0 0\niface\nsites\nplaces 0 0 2 1\nplaces 0 3 6 0\nend 1\n",
        text: "accepted\nproc main() -> int\n  local p:2 borrows\n",
    },
    Example {
        source: UNNAMED,
        certificate: "clouseau certificate 2\nphi\ninstance 0 0\niface 10\nsites\nplaces 0 0 2 00\ninstance 1 1\niface\nsites\nplaces 1 0 3\nend 2\n",
        text: "accepted\nextern look(borrows, int, borrows, char) -> char\nextern hush() -> void\nproc id(p owns, c char) -> borrows\nproc main() -> int\n",
    },
    // A field that leads to a struct without a definition, and one to bytes, lead nowhere back; nor do two through a field
    // that borrows.
    Example {
        source: RING,
        certificate: "clouseau certificate 2\nphi 111110\ninstance 0 0\niface\nsites\nplaces 0 0 3\nend 1\n",
        text: "accepted\nfield a.x owns\nfield a.s owns\nfield a.gone owns\nfield b.y owns\nfield b.z owns\nfield c.w borrows\nproc main() -> int\nkeeps a.x\nkeeps b.y\n",
    },
    // Through three structs.
    Example {
        source: RING,
        certificate: "clouseau certificate 2\nphi 100011\ninstance 0 0\niface\nsites\nplaces 0 0 3\nend 1\n",
        text: "accepted\nfield a.x owns\nfield a.s borrows\nfield a.gone borrows\nfield b.y borrows\nfield b.z owns\nfield c.w owns\nproc main() -> int\nkeeps a.x\nkeeps b.z\nkeeps c.w\n",
    },
    // Two rings with one struct in common; what leads to them or away from them is on neither.
    Example {
        source: RINGS,
        certificate: "clouseau certificate 2\nphi 1111111111\ninstance 0 0\niface\nsites\nplaces 0 0 3\nend 1\n",
        text: "accepted\nfield in.go owns\nfield a.x owns\nfield b.y owns\nfield b.z owns\nfield b.w owns\nfield c.u owns\nfield d.v owns\nfield d.own owns\nfield end.next owns\nfield end.s owns\nproc main() -> int\nkeeps a.x\nkeeps b.y\nkeeps b.z\nkeeps c.u\nkeeps d.v\nkeeps d.own\nkeeps end.next\n",
    },
    // Both rings are cut.
    Example {
        source: RINGS,
        certificate: "clouseau certificate 2\nphi 1101110111\ninstance 0 0\niface\nsites\nplaces 0 0 3\nend 1\n",
        text: "accepted\nfield in.go owns\nfield a.x owns\nfield b.y borrows\nfield b.z owns\nfield b.w owns\nfield c.u owns\nfield d.v borrows\nfield d.own owns\nfield end.next owns\nfield end.s owns\nproc main() -> int\nkeeps d.own\nkeeps end.next\n",
    },
    // Interfaces in order from the front, 0 before 1; no lines for main, of which there is no instance.
    Example {
        source: LOOKED_AT,
        certificate: "clouseau certificate 2\nphi\ninstance 0 0\niface 10\nsites\ninstance 0 0\niface 11\nsites\ninstance 0 0\niface 00\nsites\ninstance 0 0\niface 01\nsites\nend 4\n",
        text: "accepted\nproc look(p borrows, n int, q borrows) -> void\nproc look(p borrows, n int, q owns) -> void\nproc look(p owns, n int, q borrows) -> void\nproc look(p owns, n int, q owns) -> void\n",
    },
    // An interface that ends comes before one that goes on.
    Example {
        source: LOOKED_AT,
        certificate: "clouseau certificate 2\nphi\ninstance 0 0\niface 11\nsites\ninstance 0 0\niface 1\nsites\ninstance 0 0\niface\nsites\ninstance 0 0\niface 01\nsites\nend 4\n",
        text: "accepted\nproc look(p borrows, n int, q borrows) -> void\nproc look(p borrows, n int, q owns) -> void\nproc look(p owns, n int, q borrows) -> void\nproc look(p owns, n int, q owns) -> void\n",
    },
    // Groups in order, whatever the order of the certificate.
    Example {
        source: ALONE,
        certificate: "clouseau certificate 2\nphi\ninstance 3 3\niface\nsites\ninstance 2 2\niface 1\nsites\ninstance 1 1\niface 0\nsites\ninstance 2 2\niface 0\nsites\ninstance 0 0\niface 1\nsites\ninstance 1 1\niface 1\nsites\nend 6\n",
        text: "accepted\nproc first(p owns) -> void\nproc second(p borrows) -> void\nproc second(p owns) -> void\nproc third(p borrows) -> void\nproc third(p owns) -> void\nproc main() -> int\n",
    },
    // The order is that of the interfaces of the whole group.
    Example {
        source: MUTUAL,
        certificate: "clouseau certificate 2\nphi 0\ninstance 0 1\niface 10\nsites\ninstance 0 0\niface 01\nsites\ninstance 1 2\niface\nsites 0\nend 3\n",
        text: "accepted\nfield node.next borrows\nproc even(p borrows) -> void\n  local q:3 borrows\nproc even(p owns) -> void\n  local q:3 borrows\nproc odd(p owns) -> void\n  local q:4 borrows\nproc odd(p borrows) -> void\n  local q:4 borrows\nproc main() -> int\n",
    },
    // Of two instances with one interface the one with the smaller entry is first.
    Example {
        source: PAIR,
        certificate: "clouseau certificate 2\nphi\ninstance 0 1\niface\nsites\nplaces 0 0 7 0\nplaces 1 0 7 1\ninstance 0 0\niface\nsites\nplaces 0 0 7 1\nplaces 1 0 7 0\ninstance 1 2\niface\nsites 0 1\nend 3\n",
        text: "accepted\nproc f(n int) -> void\n  local p:3 owns\nproc f(n int) -> void\n  local p:3 borrows\nproc g(n int) -> void\n  local q:9 borrows\nproc g(n int) -> void\n  local q:9 owns\nproc main() -> int\n",
    },
    // Bits and instances that are lacking count as zeros and as none.
    Example {
        source: LIST,
        certificate: "clouseau certificate 1\nphi\ninstance 0 0\niface\nsites\nend 1\n",
        text: "accepted\nfield node.next borrows\nproc push(list borrows, v int) -> borrows\n  local n:3 borrows\n",
    },
];

/// The certificate of a text.
fn certificate_of(alloc: Global, text: &str) -> Result<Certificate, Fail> {
    match read(alloc, text.as_bytes()) {
        Ok(certificate) => Ok(certificate),
        Err(_) => Err(Fail::from("no certificate")),
    }
}

/// The annotation of a certificate.
fn annotated(alloc: Global, example: &Example) -> Result<Vec<u8>, Fail> {
    let program = program_of(alloc, example.source.as_bytes())?;
    let certificate = certificate_of(alloc, example.certificate)?;
    Ok(annotation(alloc, &program, &certificate)?)
}

#[test]
fn annotations(rt: HostRuntime) -> Result<(), Fail> {
    for example in &EXAMPLES {
        let text = annotated(rt.alloc(), example)?;
        assert_eq!(rt; std::str::from_utf8(&text)?, example.text);
    }
    Ok(())
}
