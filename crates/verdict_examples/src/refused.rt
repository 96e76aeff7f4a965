// Sources that are refused, and names under which nothing is held.
use crate::harness::{check, expect, run};
use crate::texts::{FREED, LEAK};
use example_sources::LIST;
use std::test::Fail;

/// A source, and why it is refused.
struct Refused(&'static str, &'static str);

const REFUSED: [Refused; 16] = [
    // An empty file.
    Refused("", "no int main(void)\n"),
    // Sources that are cut.
    Refused("int main(void) { /* x", "1:18: no token\n"),
    Refused("int main(void) { char *s; s = \"ab", "1:31: no token\n"),
    Refused("int main(void) {", "1:17: not in the grammar\n"),
    // One cause of each kind.
    Refused("int main(void) { return 012; }", "1:25: no token\n"),
    Refused(
        "int main(void) {\n  return 0\n}",
        "3:1: not in the grammar\n",
    ),
    Refused(
        "int main(void) { int x; x = malloc(4); return 0; }",
        "1:25: type rule 13\n",
    ),
    Refused(
        "int f(int a); int f(char a) { return a; } int main(void) { return 0; }",
        "1:15: type rule 3\n",
    ),
    Refused("int main(void) {\n  return n;\n}", "2:10: type rule 6\n"),
    Refused("int main(int a) { return a; }", "no int main(void)\n"),
    // Of two causes the one that is sought first, wherever it stands: tokens, the tree, rules of types, and then `main`.
    Refused("} int main(void) { return 012; }", "1:27: no token\n"),
    Refused("int f(void) { return x; } 012", "1:27: no token\n"),
    Refused(
        "int main(void) { x = 1; return 0 }",
        "1:34: not in the grammar\n",
    ),
    Refused("int f(void) { return x }", "1:24: not in the grammar\n"),
    Refused("int f(void) { return x; }", "1:22: type rule 6\n"),
    Refused(
        "int f(void) { int *p; p = malloc(4); return 0; }",
        "1:23: type rule 13\n",
    ),
];

#[test]
fn refused_sources(rt: HostRuntime) -> Result<(), Fail> {
    for row in &REFUSED {
        let given = check(rt.alloc(), row.0)?;
        expect(&rt, &given, 2, "", row.1);
    }
    Ok(())
}

/// A source is refused by every command in the same way, and before the text is read.
const COMMANDS: [&str; 4] = ["check a.c", "prove a.c", "verify a.c t", "verify a.c u"];

#[test]
fn refused_by_every_command(rt: HostRuntime) -> Result<(), Fail> {
    for words in &COMMANDS {
        let given = run(rt.alloc(), words, b"int main(void) {", b"")?;
        expect(&rt, &given, 2, "", "1:17: not in the grammar\n");
    }
    Ok(())
}

/// Words, and why they are answered with no verdict. There are the files `a.c` and `t` alone.
const UNREAD: [Refused; 9] = [
    Refused("check b.c", "cannot read b.c\n"),
    Refused("prove b.c", "cannot read b.c\n"),
    Refused("check ", "cannot read \n"),
    Refused("prove -", "cannot read -\n"),
    Refused("check -- --", "cannot read --\n"),
    Refused("check A.c", "cannot read A.c\n"),
    Refused("verify b.c t", "cannot read b.c\n"),
    Refused("verify b.c u", "cannot read b.c\n"),
    Refused("verify a.c u", "cannot read u\n"),
];

#[test]
fn names_without_a_file(rt: HostRuntime) -> Result<(), Fail> {
    for row in &UNREAD {
        let given = run(rt.alloc(), row.0, LEAK.as_bytes(), b"")?;
        expect(&rt, &given, 4, "", row.1);
    }
    Ok(())
}

/// Every part of a source that ends before the last brace.
#[test]
fn cut_sources(rt: HostRuntime) -> Result<(), Fail> {
    for cut in 0..LIST.len() {
        let Some(part) = LIST.as_bytes().get(..cut) else {
            return Err(Fail::from("no part"));
        };
        let given = run(rt.alloc(), "check a.c", part, b"")?;
        assert_eq!(&rt; given.status, 2);
        assert!(&rt; given.out.is_empty());
    }
    Ok(())
}

/// A byte that is no text at all, in the source and under a name.
#[test]
fn bytes_that_are_no_text(rt: HostRuntime) -> Result<(), Fail> {
    let given = run(rt.alloc(), "check a.c", b"int main(void) {\n\xff", b"")?;
    expect(&rt, &given, 2, "", "2:1: no token\n");
    let given = run(rt.alloc(), "verify a.c t", FREED.as_bytes(), b"\xff")?;
    expect(&rt, &given, 1, "invalid line 1: Form\n", "");
    Ok(())
}
