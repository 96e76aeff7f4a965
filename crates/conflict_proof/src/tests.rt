use crate::{
    BadLine, CheckError, ConstraintName, Derivation, How, Line, Lines, Reason, TextError, decimal,
    literals, print, read,
};
use c_tree::Memory;
use std::alloc::Global;
use std::test::Fail;
use zo_core::{Clause, Lit};

/// The derivation of a source that frees one object twice.
const TWICE: &str = "clouseau derivation 1\n\
    a 0 4 0 2 0 0 0 0 : 4\n\
    a 0 21 0 3 0 0 0 0 : -4 6\n\
    r 0 1 2 : 6\n\
    a 0 17 0 5 0 0 0 0 : -6\n\
    r 0 3 4 :\n\
    i 1 5 0 :\n\
    end 6\n";

fn axiom(rule: u8, place: u32) -> How {
    How::Axiom(ConstraintName {
        proc: 0,
        place,
        edge: 0,
        rule,
        slot: 0,
        field: 0,
        other: 0,
    })
}

/// That derivation as a value.
fn twice(alloc: Global) -> Result<Derivation, Memory> {
    let mut items = Vec::new(alloc);
    let group = 0;
    items.push(Line {
        group,
        how: axiom(4, 2),
        lits: Clause::of(alloc, &[Lit(4)])?,
    })?;
    items.push(Line {
        group,
        how: axiom(21, 3),
        lits: Clause::of(alloc, &[Lit(-4), Lit(6)])?,
    })?;
    items.push(Line {
        group,
        how: How::Resolve(1, 2),
        lits: Clause::of(alloc, &[Lit(6)])?,
    })?;
    items.push(Line {
        group,
        how: axiom(17, 5),
        lits: Clause::of(alloc, &[Lit(-6)])?,
    })?;
    items.push(Line {
        group,
        how: How::Resolve(3, 4),
        lits: Clause::of(alloc, &[])?,
    })?;
    items.push(Line {
        group: 1,
        how: How::Inst(5, 0),
        lits: Clause::of(alloc, &[])?,
    })?;
    Ok(Derivation {
        lines: Lines { items },
    })
}

#[test]
fn prints(rt: HostRuntime) -> Result<(), Fail> {
    let alloc = rt.alloc();
    let text = print(alloc, &twice(alloc)?)?;
    assert!(&rt; text.as_slice() == TWICE.as_bytes());
    let empty = Derivation {
        lines: Lines {
            items: Vec::new(alloc),
        },
    };
    let text = print(alloc, &empty)?;
    assert!(&rt; text.as_slice() == "clouseau derivation 1\nend 0\n".as_bytes());
    Ok(())
}

/// The line at which these bytes are refused, or 0 where they are read and print as they were.
fn refused(alloc: Global, text: &[u8]) -> Result<u64, Memory> {
    match read(alloc, text) {
        Ok(value) => Ok(if print(alloc, &value)?.as_slice() == text {
            0
        } else {
            999
        }),
        Err(
            TextError::Invalid(
                BadLine {
                    line,
                    reason: Reason::Form,
                },
            ),
        ) => Ok(line),
        Err(_) => Ok(1000),
    }
}

#[test]
fn reads_back(rt: HostRuntime) -> Result<(), Fail> {
    let alloc = rt.alloc();
    assert!(&rt; refused(alloc, TWICE.as_bytes())? == 0);
    assert!(&rt; refused(alloc, b"clouseau derivation 1\nend 0\n")? == 0);
    let wide =
        b"clouseau derivation 1\na 4294967295 255 0 0 255 0 0 4294967295 : 1 -2 3 -4 2147483647\nend 1\n";
    assert!(&rt; refused(alloc, wide)? == 0);
    Ok(())
}

#[test]
fn refuses(rt: HostRuntime) -> Result<(), Fail> {
    let alloc = rt.alloc();
    let cases: [(&str, u64); 26] = [
        ("", 1),
        ("clouseau derivation 1", 1),
        ("clouseau derivation 2\nend 0\n", 1),
        ("clouseau derivation 1\r\nend 0\n", 1),
        ("clouseau derivation 1\n", 2),
        ("clouseau derivation 1\nend 0", 2),
        ("clouseau derivation 1\nend 1\n", 2),
        ("clouseau derivation 1\nend 00\n", 2),
        ("clouseau derivation 1\nend 0 \n", 2),
        ("clouseau derivation 1\nend 0\n\n", 3),
        ("clouseau derivation 1\nend 0\nx", 3),
        ("clouseau derivation 1\nr 0 1 2 : 6\n", 3),
        ("clouseau derivation 1\nr 0 1 2 : 6", 2),
        ("clouseau derivation 1\nr 0 1 2 : 6\nr 0 1 2 :6\nend 2\n", 3),
        (
            "clouseau derivation 1\nr 0 1 2 : 6\nr 0 1 2 : 6 \nend 2\n",
            3,
        ),
        (
            "clouseau derivation 1\nr 0 1 2 : 6\nr 0 01 2 : 6\nend 2\n",
            3,
        ),
        (
            "clouseau derivation 1\nr 0 1 2 : 6\nr 0 1 4294967296 : 6\nend 2\n",
            3,
        ),
        ("clouseau derivation 1\nr 0 1 2 : 0\nend 1\n", 2),
        ("clouseau derivation 1\nr 0 1 2 : 2147483648\nend 1\n", 2),
        ("clouseau derivation 1\nr 0 1 2 : 6 6\nend 1\n", 2),
        ("clouseau derivation 1\nr 0 1 2 : 6 -5\nend 1\n", 2),
        ("clouseau derivation 1\nr 0 1 2 : 6\r\nend 1\n", 2),
        ("clouseau derivation 1\na 0 256 0 2 0 0 0 0 : 4\nend 1\n", 2),
        ("clouseau derivation 1\na 0 4 0 2 256 0 0 0 : 4\nend 1\n", 2),
        ("clouseau derivation 1\na 0 4 0 2 0 0 0 : 4\nend 1\n", 2),
        ("clouseau derivation 1\nx 0 1 2 : 6\nend 1\n", 2),
    ];
    for case in cases {
        assert!(&rt; refused(alloc, case.0.as_bytes())? == case.1);
    }
    Ok(())
}

#[test]
fn numbers(rt: HostRuntime) -> Result<(), Fail> {
    let alloc = rt.alloc();
    assert!(&rt; decimal(b"18446744073709551615", 0) == Some((18446744073709551615, 20)));
    assert!(&rt; decimal(b"18446744073709551616", 0) == None);
    assert!(&rt; decimal(b"a07", 1) == None);
    assert!(&rt; decimal(b"a0x", 1) == Some((0, 2)));
    assert!(&rt; decimal(b"7", 1) == None);
    match literals(alloc, b"r 0 1 2 : -4 6\n", 9)? {
        Some((clause, end)) => {
            assert!(&rt; clause.lits() == [Lit(-4), Lit(6)].as_slice());
            assert!(&rt; end == 14);
        }
        None => assert!(&rt; false),
    }
    assert!(&rt; literals(alloc, b": 4", 1)?.is_none());
    Ok(())
}

#[test]
fn names_and_words(rt: HostRuntime) -> Result<(), Fail> {
    let alloc = rt.alloc();
    let first = ConstraintName {
        proc: 1,
        place: 2,
        edge: 0,
        rule: 21,
        slot: 9,
        field: 9,
        other: 9,
    };
    let second = ConstraintName {
        proc: 1,
        place: 2,
        edge: 1,
        rule: 1,
        slot: 0,
        field: 0,
        other: 0,
    };
    assert!(&rt; first < second);
    let bad = BadLine {
        line: 3,
        reason: Reason::Form,
    };
    let shown = format!(in alloc;
        "{} {} {}",
        TextError::Memory,
        TextError::Invalid(bad),
        CheckError::Invalid(bad)
    )?;
    assert!(&rt; shown.as_str() == "Memory Invalid Invalid");
    Ok(())
}

/// A change to one line.
#[derive(Clone, Copy)]
enum Edit<'a> {
    LeftOut,
    Doubled,
    Cut,
    Behind(&'a [u8]),
    BeforeDigit(&'a [u8]),
}

/// Adds the line with these bytes before its first digit.
fn put_before_digit(out: &mut Vec<u8>, line: &[u8], bytes: &[u8]) -> Result<(), Memory> {
    let mut found = false;
    for byte in line {
        if !found && byte.is_ascii_digit() {
            out.extend_from_slice(bytes)?;
            found = true;
        }
        out.push(*byte)?;
    }
    Ok(())
}

/// Adds the line as it is changed.
fn put_edited(out: &mut Vec<u8>, line: &[u8], edit: Edit<'_>) -> Result<(), Memory> {
    match edit {
        Edit::LeftOut => return Ok(()),
        Edit::Doubled => {
            out.extend_from_slice(line)?;
            out.push(b'\n')?;
            out.extend_from_slice(line)?;
        }
        Edit::Cut => {
            if let Some((_, front)) = line.split_last() {
                out.extend_from_slice(front)?;
            }
        }
        Edit::Behind(bytes) => {
            out.extend_from_slice(line)?;
            out.extend_from_slice(bytes)?;
        }
        Edit::BeforeDigit(bytes) => put_before_digit(out, line, bytes)?,
    }
    out.push(b'\n')?;
    Ok(())
}

/// The line at which the text is refused once its line `at` is changed.
fn refused_with(alloc: Global, at: u64, edit: Edit<'_>) -> Result<u64, Memory> {
    let mut out = Vec::new(alloc);
    let mut number = 0u64;
    for line in TWICE.lines() {
        number = number.saturating_add(1);
        if number == at {
            put_edited(&mut out, line.as_bytes(), edit)?;
        } else {
            out.extend_from_slice(line.as_bytes())?;
            out.push(b'\n')?;
        }
    }
    refused(alloc, &out)
}

#[test]
fn each_line_changed(rt: HostRuntime) -> Result<(), Fail> {
    let alloc = rt.alloc();
    for at in 1u64..9 {
        let left_out = if at == 1 {
            1
        } else if at == 8 {
            8
        } else {
            7
        };
        let doubled = if at == 1 { 2 } else { 9 };
        assert!(&rt; refused_with(alloc, at, Edit::LeftOut)? == left_out);
        assert!(&rt; refused_with(alloc, at, Edit::Doubled)? == doubled);
        assert!(&rt; refused_with(alloc, at, Edit::Cut)? == at);
        assert!(&rt; refused_with(alloc, at, Edit::Behind(b" "))? == at);
        assert!(&rt; refused_with(alloc, at, Edit::Behind(b"\r"))? == at);
        assert!(&rt; refused_with(alloc, at, Edit::BeforeDigit(b"0"))? == at);
        assert!(&rt; refused_with(alloc, at, Edit::BeforeDigit(b"99999999999"))? == at);
    }
    Ok(())
}
