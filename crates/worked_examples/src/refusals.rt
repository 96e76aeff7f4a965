// Sources that are refused, with the place and the cause.
use crate::harness::refused_with;
use std::alloc::{AllocError, Global};
use std::test::Fail;

/// A source and the line that says why it is refused, empty where it has a program.
struct Refused {
    source: &'static [u8],
    line: &'static [u8],
}

const REFUSALS: [Refused; 46] = [
    // No token.
    Refused {
        source: b"int main(void) { /* x",
        line: b"1:18: no token\n",
    },
    Refused {
        source: b"int main(void) { char *s; s = \"ab",
        line: b"1:31: no token\n",
    },
    Refused {
        source: b"int main(void) { return 012; }",
        line: b"1:25: no token\n",
    },
    Refused {
        source: b"int main(void) { return 2147483648; }",
        line: b"1:25: no token\n",
    },
    Refused {
        source: b"int main(void) { int *9p; return 0; }",
        line: b"1:23: no token\n",
    },
    Refused {
        source: b"012",
        line: b"1:1: no token\n",
    },
    Refused {
        source: b"\"\\012\"",
        line: b"1:1: no token\n",
    },
    // A token, but no item begins with it.
    Refused {
        source: b"\"\\08\"",
        line: b"1:1: not in the grammar\n",
    },
    // The grammar.
    Refused {
        source: b"int main(void) {",
        line: b"1:17: not in the grammar\n",
    },
    Refused {
        source: b"int main(void) { return 0 }",
        line: b"1:27: not in the grammar\n",
    },
    Refused {
        source: b"int main(void) { return 0; } int",
        line: b"1:33: not in the grammar\n",
    },
    Refused {
        source: b"intmain(void) { return 0; }",
        line: b"1:1: not in the grammar\n",
    },
    Refused {
        source: b"int main(void) { int **p; return 0; }",
        line: b"1:23: not in the grammar\n",
    },
    Refused {
        source: b"int main(void) { int *free; return 0; }",
        line: b"1:23: not in the grammar\n",
    },
    Refused {
        source: b"int main(void) { int *while; return 0; }",
        line: b"1:23: not in the grammar\n",
    },
    Refused {
        source: b"struct s { }; int main(void) { return 0; }",
        line: b"1:12: not in the grammar\n",
    },
    Refused {
        source: b"int main(void) { int x; int y; x+++y; return 0; }",
        line: b"1:35: not in the grammar\n",
    },
    // Lines end with a line feed alone, and a column is a byte.
    Refused {
        source: b"int main(void) {\n  return x;\n}\n",
        line: b"2:10: type rule 6\n",
    },
    Refused {
        source: b"int main(void) {\r\n\treturn x;\r\n}",
        line: b"2:9: type rule 6\n",
    },
    Refused {
        source: b"/* \xc3\xa9 */ x",
        line: b"1:10: not in the grammar\n",
    },
    Refused {
        source: b"int main(void) {\n\n",
        line: b"1:17: not in the grammar\n",
    },
    // The rules of types.
    Refused {
        source: b"int main(void) { int x; x = malloc(4); return 0; }",
        line: b"1:25: type rule 13\n",
    },
    Refused {
        source: b"int f(int a); int f(char a) { return a; } int main(void) { return 0; }",
        line: b"1:15: type rule 3\n",
    },
    Refused {
        source: b"int main(void) { return x; }",
        line: b"1:25: type rule 6\n",
    },
    Refused {
        source: b"int main(void) { p = NULL; return 0; }",
        line: b"1:18: type rule 6\n",
    },
    Refused {
        source: b"int main(void) { free(p); return 0; }",
        line: b"1:23: type rule 6\n",
    },
    Refused {
        source: b"int main(void) { int *p; p = q; return 0; }",
        line: b"1:30: type rule 6\n",
    },
    Refused {
        source: b"int main(void) { int *p; int *p; return 0; }",
        line: b"1:30: type rule 5\n",
    },
    Refused {
        source: b"int main(void) { int *p; char *q; q = NULL; p = q; return 0; }",
        line: b"1:45: type rule 13\n",
    },
    Refused {
        source: b"int main(void) { int *p; p = malloc(sizeof(char)); return 0; }",
        line: b"1:26: type rule 13\n",
    },
    Refused {
        source: b"int main(void) { int *p; p = malloc(4); return 0; }",
        line: b"1:26: type rule 13\n",
    },
    Refused {
        source: b"struct s { int v; char v; }; int main(void) { return 0; }",
        line: b"1:24: type rule 2\n",
    },
    // Of two broken rules the first by its place is named.
    Refused {
        source: b"int main(void) { x = 1; break; return 0; }",
        line: b"1:18: type rule 6\n",
    },
    Refused {
        source: b"int main(void) { break; x = 1; return 0; }",
        line: b"1:18: type rule 17\n",
    },
    // No `main`.
    Refused {
        source: b"",
        line: b"no int main(void)\n",
    },
    Refused {
        source: b"int main(void);",
        line: b"no int main(void)\n",
    },
    Refused {
        source: b"int main(int a) { return a; }",
        line: b"no int main(void)\n",
    },
    Refused {
        source: b"char main(void) { return 0; }",
        line: b"no int main(void)\n",
    },
    Refused {
        source: b"void main(void) { }",
        line: b"no int main(void)\n",
    },
    // The order: tokens, grammar, types, `main`, and what is judged.
    Refused {
        source: b"} int main(void) { return 012; }",
        line: b"1:27: no token\n",
    },
    Refused {
        source: b"int main(void) { x = 1; return 0 }",
        line: b"1:34: not in the grammar\n",
    },
    Refused {
        source: b"int f(void) { return x; }",
        line: b"1:22: type rule 6\n",
    },
    Refused {
        source: b"int f(int a); int f(char a);",
        line: b"1:15: type rule 3\n",
    },
    Refused {
        source: b"struct s { int *v; };",
        line: b"no int main(void)\n",
    },
    Refused {
        source: b"int f(void); int main(void) { return 012; }",
        line: b"1:38: no token\n",
    },
    Refused {
        source: b"int f(void); int main(void) { return f(); }",
        line: b"",
    },
];

#[test]
fn refusals_name_their_place(rt: HostRuntime) -> Result<(), Fail> {
    for refused in &REFUSALS {
        let line = refused_with(rt.alloc(), refused.source)?;
        assert_eq!(rt; line.as_slice(), refused.line);
    }
    let mut every = Vec::new(rt.alloc());
    for byte in 0..=255u8 {
        every.push(byte)?;
    }
    let line = refused_with(rt.alloc(), every.as_slice())?;
    assert_eq!(rt; line.as_slice(), b"1:1: no token\n".as_slice());
    Ok(())
}

/// What a source has so many of.
#[derive(Clone, Copy)]
enum Counted {
    Structs,
    Members,
    Procs,
    Params,
    Blocks,
}

/// Some bytes, so many of that kind, and some bytes.
fn source_with(
    alloc: Global,
    first: &str,
    kind: Counted,
    count: u32,
    last: &str,
) -> Result<Vec<u8>, AllocError> {
    let mut source = Vec::from_slice(alloc, first.as_bytes())?;
    for number in 0..count {
        let part = match kind {
            Counted::Structs => format!(in alloc; "struct s{number} {{ int v; }};\n")?,
            Counted::Members => format!(in alloc; "int a{number}; ")?,
            Counted::Procs => format!(in alloc; "int f{number}(void);\n")?,
            Counted::Params => format!(in alloc; ", int *a{number}")?,
            Counted::Blocks => format!(in alloc; "{{")?,
        };
        source.extend_from_slice(part.as_bytes())?;
    }
    if matches!(kind, Counted::Blocks) {
        for _ in 0..count {
            source.push(b'}')?;
        }
    }
    source.extend_from_slice(last.as_bytes())?;
    Ok(source)
}

/// A source that has so many of a kind between its first and its last bytes, and the line.
struct Limit {
    first: &'static str,
    kind: Counted,
    count: u32,
    last: &'static str,
    line: &'static str,
}

/// A `main` that names one struct more.
const NAMING: &str = "int main(void) { struct t *p; return 0; }";

const MAIN: &str = "int main(void) { return 0; }";

const AFTER_MEMBERS: &str = "}; int main(void) { return 0; }";

const AFTER_PARAMS: &str = "); int main(void) { return 0; }";

const LIMITS: [Limit; 13] = [
    Limit {
        first: "",
        kind: Counted::Structs,
        count: 1_023,
        last: NAMING,
        line: "",
    },
    Limit {
        first: "",
        kind: Counted::Structs,
        count: 1_024,
        last: NAMING,
        line: "limit structs 1025\n",
    },
    Limit {
        first: "struct s { ",
        kind: Counted::Members,
        count: 64,
        last: AFTER_MEMBERS,
        line: "",
    },
    Limit {
        first: "struct s { ",
        kind: Counted::Members,
        count: 65,
        last: AFTER_MEMBERS,
        line: "limit fields 65\n",
    },
    Limit {
        first: "",
        kind: Counted::Procs,
        count: 4_095,
        last: MAIN,
        line: "",
    },
    Limit {
        first: "",
        kind: Counted::Procs,
        count: 4_096,
        last: MAIN,
        line: "limit procs 4097\n",
    },
    Limit {
        first: "int f(int n",
        kind: Counted::Params,
        count: 8,
        last: AFTER_PARAMS,
        line: "",
    },
    Limit {
        first: "int f(int n",
        kind: Counted::Params,
        count: 9,
        last: AFTER_PARAMS,
        line: "limit params 9\n",
    },
    // A broken rule and a missing `main` come before a limit.
    Limit {
        first: "struct s { ",
        kind: Counted::Members,
        count: 65,
        last: "}; int main(void) { return x; }",
        line: "1:614: type rule 6\n",
    },
    Limit {
        first: "int main(void) { return x; } struct s { ",
        kind: Counted::Members,
        count: 65,
        last: "};",
        line: "1:25: type rule 6\n",
    },
    Limit {
        first: "struct s { ",
        kind: Counted::Members,
        count: 65,
        last: "};",
        line: "no int main(void)\n",
    },
    // The body's block is the first of 200 that may stand in one another.
    Limit {
        first: "int main(void) {",
        kind: Counted::Blocks,
        count: 199,
        last: "}",
        line: "",
    },
    Limit {
        first: "int main(void) {",
        kind: Counted::Blocks,
        count: 200,
        last: "}",
        line: "1:216: not in the grammar\n",
    },
];

#[test]
fn limits_are_told(rt: HostRuntime) -> Result<(), Fail> {
    for limit in &LIMITS {
        let source = source_with(rt.alloc(), limit.first, limit.kind, limit.count, limit.last)?;
        let line = refused_with(rt.alloc(), source.as_slice())?;
        assert_eq!(rt; line.as_slice(), limit.line.as_bytes());
    }
    Ok(())
}
