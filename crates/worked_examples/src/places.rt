// Sources that spell no tree, each with the byte of the first token that cannot follow, and the deepest and longest that
// do.
use crate::harness::parsed;
use c_parser::ParseError;
use std::alloc::{AllocError, Global};
use std::test::Fail;

/// Sources and the place of each one's refusal.
const PLACES: [(&str, u32); 80] = [
    ("int f(int) {", 11),
    ("int f(int a,) {", 12),
    ("int f(void) { else }", 14),
    ("int f(void) { for (int i = 0, *p; ; ) ;", 39),
    ("int f(void) { if (1) int x; }", 21),
    ("int f(void) { p = malloc(sizeof *p * n + 1); }", 39),
    ("int f(void) { p = malloc(n / sizeof(int)); }", 29),
    ("int f(void) { p = malloc(n + m * sizeof(int)); }", 33),
    ("int f(void) { p = malloc(sizeof(int) * sizeof(int)); }", 39),
    ("int f(void) { p = malloc(sizeof(int) / 2); }", 37),
    ("int f(void) { p = malloc(sizeof p); }", 32),
    ("int f(void) { p = malloc(sizeof(p)); }", 32),
    ("int f(void) { p = malloc(); }", 25),
    ("int f(void) { p = calloc(1, 2); }", 28),
    ("int f(void) { p = (int)malloc(4); }", 22),
    ("int f(void) { p = (int *)x; }", 25),
    ("int f(void) { x = 1 }", 20),
    ("int f(void) { x; }", 15),
    ("int f(void) { 1; }", 15),
    ("int f(void) { (x)++; }", 17),
    ("int f(void) { x[1]++; }", 18),
    ("int f(void) { f()->x++; }", 20),
    ("int f(void) { f() = 1; }", 18),
    ("int f(void) { x + 1 = 2; }", 16),
    ("int f(void) { a = b = c; }", 20),
    ("int f(void) { a = ; }", 18),
    ("int f(void) { a = b c; }", 20),
    ("int f(void) { return 1", 22),
    ("int f(void) { } }", 16),
    ("int f(void) ", 11),
    ("int", 3),
    ("static", 6),
    ("static struct", 13),
    ("struct s x;", 9),
    ("struct s { };", 11),
    ("struct s { int a; }", 19),
    ("struct s { struct s a; };", 20),
    ("int f(struct s);", 14),
    ("x", 0),
    ("int f(void x);", 11),
    // What may not stand after or in an `if`, a `while` and a `for`.
    ("int f(void) { if (1) ; else ; else ; }", 30),
    ("int f(void) { if (1) ; else int x; }", 28),
    ("int f(void) { while (1) int x; }", 24),
    ("int f(void) { for (;;) int x; }", 23),
    ("int f(void) { for (;) ; }", 20),
    ("int f(void) { for (int i) ; }", 24),
    ("int f(void) { for (;; int i) ; }", 22),
    ("int f(void) { if () ; }", 18),
    ("int f(void) { while x ; }", 20),
    // Where no unit may stand, and what may not follow one.
    ("int f(void) { p = malloc(n * sizeof *p * m); }", 39),
    ("int f(void) { p = malloc(sizeof *p * sizeof *q); }", 37),
    ("int f(void) { p = malloc(sizeof *p / n); }", 35),
    ("int f(void) { p = malloc(sizeof *p + n); }", 35),
    ("int f(void) { p = malloc(sizeof *p->q); }", 34),
    ("int f(void) { p = malloc(n + sizeof *p); }", 29),
    ("int f(void) { p = malloc((sizeof *p) * n); }", 26),
    ("int f(void) { p = malloc(n * (sizeof *p)); }", 30),
    ("int f(void) { p = malloc(-sizeof *p); }", 26),
    ("int f(void) { p = calloc(n, sizeof *p * 2); }", 38),
    ("int f(void) { p = calloc(sizeof *p, n); }", 25),
    ("int f(void) { x = sizeof *p; }", 18),
    // Statements.
    ("int f(void) { !x = 1; }", 14),
    ("int f(void) { 1->a; }", 18),
    ("int f(void) { f()++; }", 17),
    ("int f(void) { x->a[1]--; }", 21),
    ("int f(void) { f(1,); }", 18),
    ("int f(void) { free p; }", 19),
    ("int f(void) { break }", 20),
    ("int f(void) { goto x; }", 14),
    ("int f(void) { x = --y; }", 18),
    // Declarations.
    ("int f(void) { static int x; }", 14),
    ("int f(void) { int; }", 17),
    ("int f(void) { int x y; }", 20),
    ("int f(void) { struct s x; }", 23),
    ("int f(void) { struct s; }", 22),
    ("const struct s { int a; };", 15),
    ("int x;", 5),
    ("void *f(void);", 5),
    ("int f(void, int a);", 10),
    ("int f(int a, void);", 13),
];

/// What a source begins with, what follows so many times, what it ends with, and the place of its refusal where it has
/// one.
const LONG: [(&str, &str, usize, &str, Option<u32>); 16] = [
    ("int f(void) { x = ", "(", 20_000, "", Some(215)),
    ("int f(void) { x = ", "!", 20_000, "", Some(215)),
    ("int f(void) ", "{", 20_000, "", Some(212)),
    ("int f(void) { x = 1", " + 1", 197, "; }", None),
    ("int f(void) { x = 1", " + 1", 198, "; }", Some(808)),
    ("int f(void) { x = 1", " + 1", 199, "; }", Some(808)),
    // The last `if` of 197 is the 198th statement from the body's block on, and its condition the 200th level.
    ("int f(void) { if (a) ; ", "else if (a) ; ", 196, "}", None),
    (
        "int f(void) { if (a) ; ",
        "else if (a) ; ",
        197,
        "}",
        Some(2_772),
    ),
    (
        "int f(void) { if (a) ; ",
        "else if (a) ; ",
        200,
        "}",
        Some(2_772),
    ),
    ("int f(void) { ", "x = 1; ", 20_000, "}", None),
    ("int f(int a", ", int a", 100_000, ");", None),
    ("struct s { int a", ", a", 20_000, "; };", None),
    ("struct s { ", "int a; ", 20_000, "};", None),
    ("", "static ", 20_000, "int f();", None),
    ("", "const ", 20_000, "int f();", None),
    ("int f(void) { f(1", ", 1", 20_000, "); }", None),
];

/// A statement in so many blocks inside the body's, and the place of its refusal where it has one.
const DEEP: [(usize, &str, Option<u32>); 57] = [
    // Four levels are left to the statement.
    (195, "(x)->a = 1;", None),
    (195, "((x))->a = 1;", Some(209)),
    (195, "1->a->b = 1;", None),
    (195, "1->a->b->c = 1;", Some(215)),
    (195, "malloc(sizeof *p)->a = 1;", None),
    (195, "malloc(4)->a = 1;", Some(215)),
    (195, "calloc(1, 1)->a = 1;", Some(208)),
    (195, "(int *)malloc(sizeof *p)[0] = 1;", None),
    (195, "(int *)malloc(sizeof(int))[0] = 1;", Some(228)),
    (195, "p = malloc(1 * 2);", Some(223)),
    (195, "p = malloc(1 / 2);", Some(221)),
    (195, "p = malloc(1 + 2);", Some(221)),
    (195, "p = malloc(1 * sizeof *p);", None),
    (195, "p = malloc(1 * sizeof(int));", None),
    // Three.
    (196, "(x)->a = 1;", Some(209)),
    (196, "malloc(sizeof *p)->a = 1;", Some(209)),
    (196, "1->a = 1;", None),
    (196, "1->a = !1;", None),
    (196, "1[-1] = 1;", Some(211)),
    (196, "x++;", None),
    (196, "f();", None),
    (196, "f(1);", Some(211)),
    (196, "f()->a = 1;", Some(212)),
    (196, "free(x);", None),
    (196, "free((x));", Some(214)),
    (196, "if (x) ;", None),
    (196, "p = malloc(4);", Some(220)),
    (196, "p = malloc(sizeof *p * 1);", Some(230)),
    // Two.
    (197, "1->a = 1;", Some(210)),
    (197, "\"s\"[0] = 1;", Some(210)),
    (197, "x = 1;", None),
    (197, "x->a = 1;", Some(211)),
    (197, "x++;", Some(211)),
    (197, "f();", Some(211)),
    (197, "free(x);", Some(210)),
    (197, "if (x) ;", Some(210)),
    (197, "while (x) ;", Some(210)),
    (197, "for (;;) ;", None),
    (197, "for (x = 1;;) ;", Some(215)),
    (197, "for (; x;) ;", Some(217)),
    (197, "return 1;", None),
    (197, "return -1;", Some(217)),
    (197, "int x = 1;", None),
    (197, "int x = -1;", Some(218)),
    (197, "{ ; }", None),
    // One.
    (198, ";", None),
    (198, "x = 1;", Some(211)),
    (198, "int x;", None),
    (198, "int x = 1;", Some(217)),
    (198, "return;", None),
    (198, "return 1;", Some(218)),
    (198, "break;", None),
    (198, "for (;;) ;", Some(211)),
    (198, "{ ; }", Some(213)),
    // None.
    (199, "", None),
    (199, ";", Some(212)),
    (199, "int x;", Some(212)),
];

/// The front, the piece so many times, and the end.
fn long(
    alloc: Global,
    front: &str,
    piece: &str,
    times: usize,
    end: &str,
) -> Result<String, AllocError> {
    let mut source = String::from_str(alloc, front)?;
    for _ in 0..times {
        source.push_str(piece)?;
    }
    source.push_str(end)?;
    Ok(source)
}

fn refusal(alloc: Global, source: &str) -> Result<Option<ParseError>, Fail> {
    Ok(parsed(alloc, source.as_bytes())?.err())
}

#[test]
fn refusals_are_at_the_first_token_that_cannot_follow(rt: HostRuntime) -> Result<(), Fail> {
    for (source, place) in &PLACES {
        let given = refusal(rt.alloc(), source)?;
        assert_eq!(rt; given, Some(ParseError::Parse(*place)), "in {source}");
    }
    for (blocks, statement, place) in &DEEP {
        let front = long(rt.alloc(), "int f(void) {", "{", *blocks, statement)?;
        let source = long(rt.alloc(), front.as_str(), "}", *blocks, "}")?;
        let given = refusal(rt.alloc(), source.as_str())?;
        assert_eq!(rt; given, place.map(ParseError::Parse), "in {blocks} blocks");
    }
    Ok(())
}

#[test]
fn long_sources_are_read(rt: HostRuntime) -> Result<(), Fail> {
    for (front, piece, times, end, place) in &LONG {
        let source = long(rt.alloc(), front, piece, *times, end)?;
        let given = refusal(rt.alloc(), source.as_str())?;
        assert_eq!(rt; given, place.map(ParseError::Parse), "after {front}");
    }
    Ok(())
}
