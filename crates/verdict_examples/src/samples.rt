// Samples, which read no file.
use crate::harness::{check, expect, prove, run, verify};
use clouseau_core::sample;
use std::test::Fail;

/// The sample of one procedure.
const ONE: &str = "struct node { int v; struct node *next; };
struct node *f0(struct node *p) { return p; }
int main(void) { struct node *a; struct node *b; a = malloc(sizeof(struct node)); b = f0(a); free(b); return 0; }
";

/// The sample of three.
const THREE: &str = "struct node { int v; struct node *next; };
struct node *f0(struct node *p) { return p; }
struct node *f1(struct node *p) { struct node *q; q = f0(p); return f0(q); }
struct node *f2(struct node *p) { struct node *q; q = f1(p); return f1(q); }
int main(void) { struct node *a; struct node *b; a = malloc(sizeof(struct node)); b = f2(a); free(b); return 0; }
";

/// Words, and what they are answered.
struct Sample(&'static str, &'static str);

const SAMPLES: [Sample; 5] = [
    Sample("sample 1", "sample 1 accepted\n"),
    Sample("sample 0001", "sample 1 accepted\n"),
    Sample("sample 1 --budget 1", "sample 1 accepted\n"),
    Sample("sample 3", "sample 3 accepted\n"),
    Sample("sample 40", "sample 40 accepted\n"),
];

#[test]
fn samples_are_accepted(rt: HostRuntime) -> Result<(), Fail> {
    for row in &SAMPLES {
        let given = run(rt.alloc(), row.0, b"", b"")?;
        expect(&rt, &given, 0, row.1, "");
    }
    Ok(())
}

#[test]
fn texts_of_samples(rt: HostRuntime) -> Result<(), Fail> {
    let one = sample(rt.alloc(), 1)?;
    assert_eq!(&rt; one.as_slice(), ONE.as_bytes());
    let three = sample(rt.alloc(), 3)?;
    assert_eq!(&rt; three.as_slice(), THREE.as_bytes());
    Ok(())
}

/// Propagation asks nothing of f0 but where `main` calls it, so that it has an instance that borrows, and one for that call.
const ONE_ANNOTATION: &str = "accepted
field node.next borrows
proc f0(p borrows) -> borrows
proc f0(p owns) -> owns
proc main() -> int
  local a:3 owns
  local b:3 owns
";

#[test]
fn annotation_of_a_sample(rt: HostRuntime) -> Result<(), Fail> {
    let given = check(rt.alloc(), ONE)?;
    expect(&rt, &given, 0, ONE_ANNOTATION, "");
    Ok(())
}

/// How many instances a certificate has.
fn instances(text: &str) -> u32 {
    let mut count = 0u32;
    for line in text.lines() {
        if line.starts_with("instance ") {
            count = count.wrapping_add(1);
        }
    }
    count
}

/// Each procedure of a sample takes and gives, or does neither; so that it has two instances at most, and `main` has one.
#[test]
fn certificate_of_a_sample(rt: HostRuntime) -> Result<(), Fail> {
    let given = prove(rt.alloc(), THREE)?;
    assert_eq!(&rt; given.status, 0);
    let count = instances(given.out.as_str());
    assert!(&rt; 4 <= count && count <= 7);
    let checked = verify(rt.alloc(), THREE, given.out.as_str())?;
    expect(&rt, &checked, 0, "valid\n", "");
    Ok(())
}
