use super::*;
use c_tree::Name;
use std::alloc::{AllocError, Global};

static READINGS: [(&[u8], &[&str]); 21] = [
    (b"", &[]),
    (
        b"x+++y;",
        &["name x", "mark ++", "mark +", "name y", "mark ;"],
    ),
    (b"a-->b", &["name a", "mark --", "mark >", "name b"]),
    (b"a/b", &["name a", "mark /", "name b"]),
    (b"int _x9 NULL", &["word int", "name _x9", "word NULL"]),
    (b"0 2147483647", &["number 0", "number 2147483647"]),
    (b"\"\\08\"", &["text [0, 56]"]),
    (b"\"\\n\\\"\xff'\"", &["text [10, 34, 255, 39]"]),
    (b"'\\0''\"'", &["char 0", "char 34"]),
    (b"/**/", &[]),
    (b"/*\xff*/1", &["number 1"]),
    (b"/* /* */ */", &["mark *", "mark /"]),
    (b"a // b", &["name a"]),
    (b"a\r\nb", &["name a", "name b"]),
    (b"#include <a.h>\nb", &["name b"]),
    (b"#include", &[]),
    (b"# \tinclude", &[]),
    (b"#includes", &[]),
    (b"/* a */ #include <x>", &[]),
    (b"x /*\n*/ #include <y>\nz", &["name x", "name z"]),
    (b"#include <a> /* b\nc", &["name c"]),
];

static STUCK: [(&[u8], u32); 21] = [
    (b"012", 0),
    (b"2147483648", 0),
    (b"1x", 0),
    (b"0x1", 0),
    (b".5", 0),
    (b"1..2", 0),
    (b"\"\\012\"", 0),
    (b"'\\08'", 0),
    (b"''", 0),
    (b"'\xff'", 0),
    (b"\"a\nb\"", 0),
    (b"a \xff", 2),
    (b"a & b", 2),
    (b" #", 1),
    (b"# define A", 0),
    (b"x #include <y>", 2),
    (b"#\x0binclude", 0),
    (b"x\n/* y", 2),
    (b"int main(void) { /* x", 17),
    (b"int main(void) { char *s; s = \"ab", 30),
    (b"int main(void) { return 012; }", 24),
];

fn text(name: &Name) -> &str {
    std::str::from_utf8(&name.items).unwrap_or("")
}

fn shown(alloc: Global, kind: &TokenKind) -> Result<String, AllocError> {
    match kind {
        TokenKind::Name(name) => format!(in alloc; "name {}", text(name)),
        TokenKind::Word(name) => format!(in alloc; "word {}", text(name)),
        TokenKind::Num(n) => format!(in alloc; "number {n}"),
        TokenKind::Text(units) => format!(in alloc; "text {:?}", units.items),
        TokenKind::Char(unit) => format!(in alloc; "char {unit}"),
        TokenKind::Mark(name) => format!(in alloc; "mark {}", text(name)),
    }
}

#[test]
fn reads(rt: HostRuntime) {
    for (source, want) in READINGS.iter() {
        assert!(rt; source.len() <= 4194304);
        let found = tokens(rt.alloc(), source).expect(&rt, "tokens");
        assert_eq!(rt; found.len(), want.len(), "{source:?}");
        for (token, kind) in found.iter().zip(want.iter()) {
            let shown = shown(rt.alloc(), &token.kind).expect(&rt, "memory");
            assert_eq!(rt; shown.as_str(), *kind, "{source:?}");
        }
    }
}

#[test]
fn gets_stuck(rt: HostRuntime) {
    for (source, place) in STUCK.iter() {
        assert!(rt; source.len() <= 4194304);
        let found = tokens(rt.alloc(), source).err();
        assert_eq!(rt; found, Some(LexError::Lex(*place)), "{source:?}");
    }
}

#[test]
fn places_tokens(rt: HostRuntime) {
    let found = tokens(rt.alloc(), b"/* a\n */ ab\n\t==").expect(&rt, "tokens");
    let spans = [(9, 11, 2, 5), (13, 15, 3, 2)];
    assert_eq!(rt; found.len(), spans.len());
    for (token, (start, end, line, col)) in found.iter().zip(spans.iter()) {
        assert_eq!(rt; (token.at.start, token.at.end), (*start, *end));
        assert_eq!(rt; (token.at.line, token.at.col), (*line, *col));
    }
    reading_laws();
}

#[test]
fn prints_errors(rt: HostRuntime) {
    let printed = format!(in rt.alloc(); "{} {}", LexError::Memory, LexError::Lex(7));
    assert_eq!(rt; printed.expect(&rt, "memory").as_str(), "Memory Lex");
}
