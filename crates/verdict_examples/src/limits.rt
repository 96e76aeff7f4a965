// Sources at the limits and past them.
use crate::harness::{expect, run};
use crate::texts::FREED;
use std::alloc::{AllocError, Global};
use std::test::Fail;

/// The bytes, followed by blanks up to a length.
fn padded(alloc: Global, bytes: &[u8], len: usize) -> Result<Vec<u8>, AllocError> {
    let mut all = Vec::from_slice(alloc, bytes)?;
    all.resize(len, b' ')?;
    Ok(all)
}

#[test]
fn the_longest_source(rt: HostRuntime) -> Result<(), Fail> {
    let source = padded(rt.alloc(), FREED.as_bytes(), 4_194_304)?;
    let given = run(rt.alloc(), "check a.c", source.as_slice(), b"")?;
    expect(
        &rt,
        &given,
        0,
        "accepted\nproc main() -> int\n  local p:2 owns\n",
        "",
    );
    Ok(())
}

/// A source and a blank more than may be; the byte that begins no token comes later.
#[test]
fn a_longer_source(rt: HostRuntime) -> Result<(), Fail> {
    let source = padded(rt.alloc(), b"@", 4_194_305)?;
    let given = run(rt.alloc(), "check a.c", source.as_slice(), b"")?;
    expect(&rt, &given, 2, "", "too long: a.c\n");
    Ok(())
}

/// A text, a part so many times, each time with its number and a semicolon, and a text.
fn repeated(
    alloc: Global,
    first: &str,
    part: &str,
    count: u32,
    last: &str,
) -> Result<String, AllocError> {
    let mut source = String::from_str(alloc, first)?;
    for number in 0..count {
        write!(source, "{part}{number}; ")?;
    }
    source.push_str(last)?;
    Ok(source)
}

/// A source by its parts, and the line with which it is refused.
struct Limit {
    first: &'static str,
    part: &'static str,
    count: u32,
    last: &'static str,
    line: &'static str,
}

const LIMITS: [Limit; 6] = [
    Limit {
        first: "struct s { ",
        part: "int a",
        count: 65,
        last: "}; int main(void) { return 0; }",
        line: "limit fields 65\n",
    },
    // Fields come before parameters.
    Limit {
        first: "struct s { ",
        part: "int a",
        count: 65,
        last: "}; void f(int *a, int *b, int *c, int *d, int *e, int *f, int *g, int *h, int *i); int main(void) { return 0; }",
        line: "limit fields 65\n",
    },
    Limit {
        first: "struct s { ",
        part: "int a",
        count: 64,
        last: "}; void f(int *a, int *b, int *c, int *d, int *e, int *f, int *g, int *h, int *i); int main(void) { return 0; }",
        line: "limit params 9\n",
    },
    // Types and `main` come before limits.
    Limit {
        first: "struct s { ",
        part: "int a",
        count: 65,
        last: "};",
        line: "no int main(void)\n",
    },
    Limit {
        first: "struct s { ",
        part: "int a",
        count: 65,
        last: "int a0; }; int main(void) { return 0; }",
        line: "1:591: type rule 2\n",
    },
    // A pointer at each of 2,895 and four places.
    Limit {
        first: "int main(void) { ",
        part: "int *p",
        count: 2_895,
        last: "return 0; }",
        line: "limit unknowns 8392605\n",
    },
];

/// The text is not there: limits come before it is read.
#[test]
fn past_the_limits(rt: HostRuntime) -> Result<(), Fail> {
    for limit in &LIMITS {
        let source = repeated(rt.alloc(), limit.first, limit.part, limit.count, limit.last)?;
        let given = run(rt.alloc(), "verify a.c u", source.as_bytes(), b"")?;
        expect(&rt, &given, 2, "", limit.line);
    }
    Ok(())
}

/// The most members that a struct may have.
#[test]
fn within_the_limits(rt: HostRuntime) -> Result<(), Fail> {
    let source = repeated(
        rt.alloc(),
        "struct s { ",
        "int a",
        64,
        "}; int main(void) { return 0; }",
    )?;
    let given = run(rt.alloc(), "check a.c", source.as_bytes(), b"")?;
    expect(&rt, &given, 0, "accepted\nproc main() -> int\n", "");
    Ok(())
}

/// The annotation of a `main` with so many pointers, which are set nowhere.
fn annotation(alloc: Global, pointers: u32) -> Result<String, AllocError> {
    let mut text = String::from_str(alloc, "accepted\nproc main() -> int\n")?;
    for number in 0..pointers {
        write!(text, "  local p{number}:1 borrows\n")?;
    }
    Ok(text)
}

/// A pointer at each of 2,894 and four places: 8,386,812 unknowns, of 8,388,608 that may be.
#[test]
fn nearly_the_most_unknowns(rt: HostRuntime) -> Result<(), Fail> {
    let source = repeated(
        rt.alloc(),
        "int main(void) { ",
        "int *p",
        2_894,
        "return 0; }",
    )?;
    let given = run(rt.alloc(), "check a.c", source.as_bytes(), b"")?;
    let text = annotation(rt.alloc(), 2_894)?;
    expect(&rt, &given, 0, text.as_str(), "");
    Ok(())
}

fn push_times(out: &mut String, text: &str, times: u32) -> Result<(), AllocError> {
    for _ in 0..times {
        out.push_str(text)?;
    }
    Ok(())
}

/// A body that holds so many blocks, each in the one before.
fn nested(alloc: Global, blocks: u32) -> Result<String, AllocError> {
    let mut source = String::from_str(alloc, "int main(void) {")?;
    push_times(&mut source, "{", blocks)?;
    push_times(&mut source, "}", blocks)?;
    source.push_str("}")?;
    Ok(source)
}

/// The body is the first of the 200 blocks that may stand in one another.
#[test]
fn blocks_in_one_another(rt: HostRuntime) -> Result<(), Fail> {
    let most = nested(rt.alloc(), 199)?;
    let given = run(rt.alloc(), "check a.c", most.as_bytes(), b"")?;
    expect(&rt, &given, 0, "accepted\nproc main() -> int\n", "");
    let more = nested(rt.alloc(), 200)?;
    let given = run(rt.alloc(), "check a.c", more.as_bytes(), b"")?;
    expect(&rt, &given, 2, "", "1:216: not in the grammar\n");
    Ok(())
}
