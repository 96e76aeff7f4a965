// Texts that are cut, or of which a line is missing or stands twice.
use crate::harness::{expect, prove, run, verify};
use crate::texts::{
    FREED, FREED_SECOND, LEAK, LEAK_TEXT, MADE, MADE_TEXT, first_lines, with_line_twice,
    without_line,
};
use example_sources::LIST;
use std::alloc::Global;
use std::process::Abort;
use std::test::Fail;

/// The text is none at all, as is seen at that line.
fn is_no_text(
    rt: &impl Abort,
    alloc: Global,
    source: &str,
    text: &[u8],
    line: usize,
) -> Result<(), Fail> {
    let given = run(alloc, "verify a.c t", source.as_bytes(), text)?;
    let told = format!(in alloc; "invalid line {line}: Form\n")?;
    expect(rt, &given, 1, told.as_str(), "");
    Ok(())
}

/// Where a text ends after a line but the last, the next is missing.
fn ends_early(rt: &impl Abort, alloc: Global, source: &str, text: &str) -> Result<(), Fail> {
    for kept in 0..text.lines().count() {
        let part = first_lines(alloc, text, kept)?;
        is_no_text(rt, alloc, source, part.as_bytes(), kept.wrapping_add(1))?;
    }
    Ok(())
}

#[test]
fn a_certificate_that_ends_early(rt: HostRuntime) -> Result<(), Fail> {
    let given = prove(rt.alloc(), LIST)?;
    assert_eq!(&rt; given.status, 0);
    ends_early(&rt, rt.alloc(), LIST, given.out.as_str())
}

#[test]
fn a_derivation_that_ends_early(rt: HostRuntime) -> Result<(), Fail> {
    ends_early(&rt, rt.alloc(), MADE, MADE_TEXT)
}

/// The line in which the next byte stands, counted from 1.
fn next_line(bytes: &[u8]) -> usize {
    let mut line = 1usize;
    for byte in bytes {
        if *byte == b'\n' {
            line = line.wrapping_add(1);
        }
    }
    line
}

/// Where a text ends within a line, or before its line feed, that line is missing.
fn is_cut(rt: &impl Abort, alloc: Global, source: &str, text: &str) -> Result<(), Fail> {
    for cut in 0..text.len() {
        let Some(part) = text.as_bytes().get(..cut) else {
            return Err(Fail::from("no part"));
        };
        is_no_text(rt, alloc, source, part, next_line(part))?;
    }
    Ok(())
}

#[test]
fn a_certificate_that_is_cut(rt: HostRuntime) -> Result<(), Fail> {
    is_cut(&rt, rt.alloc(), FREED, FREED_SECOND)
}

#[test]
fn a_derivation_that_is_cut(rt: HostRuntime) -> Result<(), Fail> {
    is_cut(&rt, rt.alloc(), LEAK, LEAK_TEXT)
}

/// Each line of a certificate is needed, and none stands twice.
fn is_invalid(rt: &impl Abort, alloc: Global, source: &str, text: &str) -> Result<(), Fail> {
    let given = verify(alloc, source, text)?;
    assert!(rt; given.out.starts_with("invalid line "));
    assert_eq!(rt; given.status, 1);
    Ok(())
}

#[test]
fn a_certificate_without_a_line(rt: HostRuntime) -> Result<(), Fail> {
    let given = prove(rt.alloc(), LIST)?;
    let text = given.out.as_str();
    for line in 0..text.lines().count() {
        let other = without_line(rt.alloc(), text, line.wrapping_add(1))?;
        is_invalid(&rt, rt.alloc(), LIST, other.as_str())?;
    }
    Ok(())
}

#[test]
fn a_certificate_with_a_line_twice(rt: HostRuntime) -> Result<(), Fail> {
    let given = prove(rt.alloc(), LIST)?;
    let text = given.out.as_str();
    for line in 0..text.lines().count() {
        let other = with_line_twice(rt.alloc(), text, line.wrapping_add(1))?;
        is_invalid(&rt, rt.alloc(), LIST, other.as_str())?;
    }
    Ok(())
}

/// The count in the last of the 17 lines, which is the 16th then, is that of one line more. Without the first line it is no
/// derivation, and without the last the 17th is missing.
#[test]
fn a_derivation_without_a_line(rt: HostRuntime) -> Result<(), Fail> {
    for line in 1..18 {
        let other = without_line(rt.alloc(), MADE_TEXT, line)?;
        let bad = match line {
            1 => 1,
            17 => 17,
            _ => 16,
        };
        is_no_text(&rt, rt.alloc(), MADE, other.as_bytes(), bad)?;
    }
    Ok(())
}

/// The count is that of a line less. The first line may not come again; nor may the last, which is the 18th then.
#[test]
fn a_derivation_with_a_line_twice(rt: HostRuntime) -> Result<(), Fail> {
    for line in 1..18 {
        let other = with_line_twice(rt.alloc(), MADE_TEXT, line)?;
        let bad = if line == 1 { 2 } else { 18 };
        is_no_text(&rt, rt.alloc(), MADE, other.as_bytes(), bad)?;
    }
    Ok(())
}
