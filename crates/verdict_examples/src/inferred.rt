// What is inferred over calls: the instances of certificates, what a called procedure says to its callers, fields of which one can
// own, and the least budgets of refutations.
use crate::harness::{check, expect, prove, run, verify};
use example_sources::{CONSTRUCTOR, LIST, TWICE};
use std::alloc::Global;
use std::process::Abort;
use std::test::Fail;

/// An object that `mk` hands out and `main` frees.
const MADE: &str =
    "int *mk(void) { int *p; p = malloc(sizeof(int)); return p; } int main(void) { int *q; q = mk(); free(q); return 0; }";

/// The same twice.
const MADE_TWICE: &str =
    "int *mk(void) { int *p; p = malloc(sizeof(int)); return p; } int main(void) { int *q; int *r; q = mk(); r = mk(); free(q); free(r); return 0; }";

/// An object that is handed on by two calls of one procedure.
const HANDED_TWICE: &str =
    "int *id(int *p) { return p; } int main(void) { int *a; int *b; int *c; a = malloc(sizeof(int)); b = id(a); c = id(b); free(c); return 0; }";

/// Three procedures that call one another, two of which are called from outside.
const RING: &str = "
struct node { int v; struct node *next; };
void one(struct node *p);
void two(struct node *p);
void three(struct node *p);
void one(struct node *p) { struct node *q; if (p == NULL) return; q = p->next; free(p); two(q); }
void two(struct node *p) { struct node *q; if (p == NULL) return; q = p->next; free(p); three(q); }
void three(struct node *p) { struct node *q; if (p == NULL) return; q = p->next; free(p); one(q); }
int main(void) { one(NULL); two(NULL); return 0; }";

/// Twelve procedures, each of which calls the one before it twice.
const CHAIN: &str = "
struct node { int v; struct node *next; };
struct node *f0(struct node *p) { return p; }
struct node *f1(struct node *p) { struct node *q; q = f0(p); return f0(q); }
struct node *f2(struct node *p) { struct node *q; q = f1(p); return f1(q); }
struct node *f3(struct node *p) { struct node *q; q = f2(p); return f2(q); }
struct node *f4(struct node *p) { struct node *q; q = f3(p); return f3(q); }
struct node *f5(struct node *p) { struct node *q; q = f4(p); return f4(q); }
struct node *f6(struct node *p) { struct node *q; q = f5(p); return f5(q); }
struct node *f7(struct node *p) { struct node *q; q = f6(p); return f6(q); }
struct node *f8(struct node *p) { struct node *q; q = f7(p); return f7(q); }
struct node *f9(struct node *p) { struct node *q; q = f8(p); return f8(q); }
struct node *f10(struct node *p) { struct node *q; q = f9(p); return f9(q); }
struct node *f11(struct node *p) { struct node *q; q = f10(p); return f10(q); }
int main(void) { struct node *a; struct node *b; a = malloc(sizeof(struct node)); b = f11(a); free(b); return 0; }";

/// An object that a field of each of three structs holds, of which just one can own it.
const THREE_FIELDS: &str = "
struct a { char *s; struct b *b; };
struct b { char *s; struct c *c; };
struct c { char *s; };
struct a *make(void) {
  struct a *x = malloc(sizeof(struct a));
  struct b *y = malloc(sizeof(struct b));
  struct c *z = malloc(sizeof(struct c));
  char *t = malloc(4);
  x->s = t;
  y->s = t;
  z->s = t;
  y->c = z;
  x->b = y;
  return x;
}
int main(void) { return 0; }";

/// In `mk` the pointer owns after the allocation, and the result at the exit. In `main` the pointer owns from the call to the free.
const MADE_TEXT: &str = "clouseau certificate 2
phi
instance 0 0
iface 1
sites
places 0 0 2 00
places 0 3 3 10
places 0 4 4 01
instance 1 1
iface
sites 0
places 1 0 2 0
places 1 3 3 1
places 1 4 6 0
end 2
";

const CONSTRUCTOR_TEXT: &str = "clouseau certificate 2
phi 1
instance 0 0
iface 01
sites
places 0 0 3 000
places 0 4 4 010
places 0 5 5 001
instance 1 1
iface 01
sites 0
places 1 0 2 0000000
places 1 3 3 0110000
places 1 4 4 0000000
places 1 5 5 0110010
places 1 6 7 0110000
places 1 8 8 0100000
places 1 9 9 0110000
places 1 10 10 0000000
places 1 11 11 0100000
places 1 12 12 0001000
instance 2 2
iface
sites 1
places 2 0 3 0000
places 2 4 5 1000
places 2 6 6 0000
places 2 7 7 1000
places 2 8 8 1110
places 2 9 9 1100
places 2 10 12 0000
end 3
";

const LIST_TEXT: &str = "clouseau certificate 2
phi 1
instance 0 0
iface 11
sites
places 0 0 2 100000
places 0 3 3 101100
places 0 4 4 100000
places 0 5 6 101100
places 0 7 7 001000
places 0 8 8 000010
instance 1 1
iface 1
sites
places 1 0 4 1000
places 1 5 5 1110
places 1 6 6 0010
places 1 7 7 0000
instance 2 2
iface
sites 0 1
places 2 0 3 000000
places 2 4 4 100000
places 2 5 5 000000
places 2 6 10 100000
places 2 11 11 000010
places 2 12 12 100000
places 2 13 13 000010
places 2 14 14 001000
places 2 15 15 100000
places 2 16 18 000000
end 3
";

/// The same three procedures, entered by the first and by the second.
const RING_TEXT: &str = "clouseau certificate 2
phi 1
instance 0 0
iface 111
sites
places 0 0 3 100000
places 0 4 4 111000
places 0 5 5 000010
places 0 6 6 001000
places 0 7 7 000000
places 1 0 3 100000
places 1 4 4 111000
places 1 5 5 000010
places 1 6 6 001000
places 1 7 7 000000
places 2 0 3 100000
places 2 4 4 111000
places 2 5 5 000010
places 2 6 6 001000
places 2 7 7 000000
instance 0 1
iface 111
sites
places 0 0 3 100000
places 0 4 4 111000
places 0 5 5 000010
places 0 6 6 001000
places 0 7 7 000000
places 1 0 3 100000
places 1 4 4 111000
places 1 5 5 000010
places 1 6 6 001000
places 1 7 7 000000
places 2 0 3 100000
places 2 4 4 111000
places 2 5 5 000010
places 2 6 6 001000
places 2 7 7 000000
instance 1 3
iface
sites 0 1
places 3 0 7 00
end 3
";

/// What is proved of a source has this text, and is valid.
fn is_proved(rt: &impl Abort, alloc: Global, source: &str, text: &str) -> Result<(), Fail> {
    let given = prove(alloc, source)?;
    expect(rt, &given, 0, text, "");
    let checked = verify(alloc, source, text)?;
    expect(rt, &checked, 0, "valid\n", "");
    Ok(())
}

/// Each of their bits is forced.
#[test]
fn certificates_over_calls(rt: HostRuntime) -> Result<(), Fail> {
    is_proved(&rt, rt.alloc(), MADE, MADE_TEXT)?;
    is_proved(&rt, rt.alloc(), CONSTRUCTOR, CONSTRUCTOR_TEXT)?;
    is_proved(&rt, rt.alloc(), LIST, LIST_TEXT)?;
    is_proved(&rt, rt.alloc(), RING, RING_TEXT)
}

/// The certificate of a source, which is valid.
fn certified(rt: &impl Abort, alloc: Global, source: &str) -> Result<String, Fail> {
    let given = prove(alloc, source)?;
    assert_eq!(rt; given.status, 0);
    let checked = verify(alloc, source, given.out.as_str())?;
    expect(rt, &checked, 0, "valid\n", "");
    Ok(given.out)
}

/// How many lines of a text begin so.
fn count_of(text: &str, first: &str) -> u32 {
    let mut count = 0u32;
    for line in text.lines() {
        if line.starts_with(first) {
            count = count.saturating_add(1);
        }
    }
    count
}

/// One call hands the object on, the other only looks at it.
#[test]
fn used_in_two_ways(rt: HostRuntime) -> Result<(), Fail> {
    let text = certified(&rt, rt.alloc(), TWICE)?;
    assert_eq!(&rt; count_of(text.as_str(), "instance 0 "), 2);
    assert_eq!(&rt; count_of(text.as_str(), "instance 1 "), 1);
    let first = text.contains("\nsites 0 1\n");
    assert!(&rt; first || text.contains("\nsites 1 0\n"));
    Ok(())
}

/// Each call gives an object.
#[test]
fn used_in_one_way(rt: HostRuntime) -> Result<(), Fail> {
    let text = certified(&rt, rt.alloc(), MADE_TWICE)?;
    assert_eq!(&rt; count_of(text.as_str(), "instance 0 "), 1);
    assert!(&rt; text.contains("\nsites 0 0\n"));
    Ok(())
}

/// Both calls hand the object on. An instance that neither of them names may be there besides.
#[test]
fn handed_on_twice(rt: HostRuntime) -> Result<(), Fail> {
    let text = certified(&rt, rt.alloc(), HANDED_TWICE)?;
    let first = text.contains("\nsites 0 0\n");
    assert!(&rt; first || text.contains("\nsites 1 1\n"));
    assert!(&rt; count_of(text.as_str(), "instance 0 ") <= 2);
    Ok(())
}

/// Each procedure of the chain hands on what it is given, or only looks at it, whatever the number of ways to it.
#[test]
fn few_instances_of_a_chain(rt: HostRuntime) -> Result<(), Fail> {
    let text = certified(&rt, rt.alloc(), CHAIN)?;
    for group in 0..13 {
        let first = format!(in rt.alloc(); "instance {group} ")?;
        let count = count_of(text.as_str(), first.as_str());
        assert!(&rt; count == 1 || count == 2, "{count} of {group}");
    }
    Ok(())
}

/// The fields that hold a struct own it; of the three that hold the one text just one does.
#[test]
fn one_of_three_fields(rt: HostRuntime) -> Result<(), Fail> {
    certified(&rt, rt.alloc(), THREE_FIELDS)?;
    let given = check(rt.alloc(), THREE_FIELDS)?;
    let text = given.out.as_str();
    assert_eq!(&rt; count_of(text, "field a.b owns"), 1);
    assert_eq!(&rt; count_of(text, "field b.c owns"), 1);
    assert_eq!(&rt; count_of(text, "field a.s "), 1);
    let first = count_of(text, "field a.s owns");
    let second = count_of(text, "field b.s owns");
    let third = count_of(text, "field c.s owns");
    assert!(&rt; matches!((first, second, third), (1, 0, 0) | (0, 1, 0) | (0, 0, 1)));
    Ok(())
}

/// An object that is handed on by two calls of one procedure, and lost at the end.
const LOST_AFTER_TWO_CALLS: &str =
    "int *id(int *p) { return p; } int main(void) { int *a; int *b; int *c; a = malloc(sizeof(int)); b = id(a); c = id(b); return 0; }";

/// Whether a line of a derivation is carried to this call of the second group.
fn is_carried(text: &str, site: &str) -> bool {
    for line in text.lines() {
        if line.starts_with("i 1 ") && line.contains(site) {
            return true;
        }
    }
    false
}

/// That `id` gives an object where it takes one says at the first call that the second takes one, and at the second that it gives
/// one, which is lost. Without either of them all can be met: nothing in `main` says whether the first call gives an object.
#[test]
fn lost_after_two_calls(rt: HostRuntime) -> Result<(), Fail> {
    let given = prove(rt.alloc(), LOST_AFTER_TWO_CALLS)?;
    assert_eq!(&rt; given.status, 1);
    assert!(&rt; is_carried(given.out.as_str(), " 0 :"));
    assert!(&rt; is_carried(given.out.as_str(), " 1 :"));
    let checked = verify(rt.alloc(), LOST_AFTER_TWO_CALLS, given.out.as_str())?;
    expect(&rt, &checked, 0, "valid\n", "");
    Ok(())
}

/// A source in conflict, and the least budget that suffices for a refutation.
struct Least(&'static str, u32);

const LEAST: [Least; 4] = [
    // The new object's clause, that of the exit, the one that keeps the variable's bit between them, one resolvent, and the two empty
    // lines: 2 + 2 + 3 + 2 + 1 + 1 words.
    Least(
        "int main(void) { int *p; p = malloc(sizeof(int)); return 0; }",
        11,
    ),
    // After the first free the variable does not own, before the second it does; and two empty lines: 2 + 2 + 1 + 1 words.
    Least(
        "int main(void) { int *p; p = malloc(sizeof(int)); free(p); free(p); return 0; }",
        6,
    ),
    // After the first allocation the variable owns, before the second it does not.
    Least(
        "int main(void) { int *p; p = malloc(sizeof(int)); p = malloc(sizeof(int)); free(p); return 0; }",
        6,
    ),
    // In `drop` the variable owns at the free, and so at the entry, and so what is passed: 2 + 3 + 2 + 3 + 2 words. In `main` it owns
    // at the free and so at the call, 2 + 3 + 2; what is passed owns, 2 + 3 + 2; of the two just one does, 3 + 2 + 1. In the root 1.
    Least(
        "void drop(int *p) { free(p); } int main(void) { int *a; a = malloc(sizeof(int)); drop(a); free(a); return 0; }",
        33,
    ),
];

/// A budget from this one on suffices, and no smaller one does.
fn is_least(rt: &impl Abort, alloc: Global, least: &Least) -> Result<(), Fail> {
    for budget in 1..41 {
        let words = format!(in alloc; "check a.c --budget {budget}")?;
        let given = run(alloc, words.as_str(), least.0.as_bytes(), b"")?;
        let status = if budget < least.1 { 3 } else { 1 };
        assert_eq!(rt; given.status, status, "{budget} words in {}", least.0);
    }
    Ok(())
}

#[test]
fn least_budgets(rt: HostRuntime) -> Result<(), Fail> {
    for least in &LEAST {
        is_least(&rt, rt.alloc(), least)?;
    }
    Ok(())
}
