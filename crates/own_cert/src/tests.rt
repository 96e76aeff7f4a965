ghost use Rattle.std.specs.Prelude.{◌≤◌, length, IfOk};
ghost use Rattle.own_cert.specs.declared.lines.Version.TheVariants.{First};
ghost use Rattle.own_cert.specs.Text.{lines_of};

use crate::{
    Bits, Certificate, Instance, Instances, Numbers, PlaceBits, Rows, line_in_2, print, read,
    version,
};
use c_tree::Memory;
use conflict_proof::{BadLine, Reason, TextError};
use std::alloc::Global;
use std::test::Fail;

/// The certificate of a source that frees one object, in both texts.
const ONE: &str = "clouseau certificate 1\nphi\ninstance 0 0\niface\nsites\n\
    place 0 0 0\nplace 0 1 0\nplace 0 2 0\nplace 0 3 1\nplace 0 4 0\nplace 0 5 0\nplace 0 6 0\nend 1\n";

const ONE_BY_RUNS: &str = "clouseau certificate 2\nphi\ninstance 0 0\niface\nsites\n\
    places 0 0 2 0\nplaces 0 3 3 1\nplaces 0 4 6 0\nend 1\n";

/// The certificate of a source with a call, in both texts.
const CALL: &str = "clouseau certificate 1\nphi\ninstance 0 0\niface 11\nsites\n\
    place 0 0 10\nplace 0 1 10\nplace 0 2 01\ninstance 1 1\niface\nsites 0\n\
    place 1 0 00\nplace 1 1 00\nplace 1 2 00\nplace 1 3 01\nplace 1 4 10\nplace 1 5 10\n\
    place 1 6 00\nplace 1 7 00\nplace 1 8 00\nend 2\n";

const CALL_BY_RUNS: &str = "clouseau certificate 2\nphi\ninstance 0 0\niface 11\nsites\n\
    places 0 0 1 10\nplaces 0 2 2 01\ninstance 1 1\niface\nsites 0\n\
    places 1 0 2 00\nplaces 1 3 3 01\nplaces 1 4 5 10\nplaces 1 6 8 00\nend 2\n";

/// The first of them as a value.
fn one(alloc: Global) -> Result<Certificate, Memory>
    ensures { IfOk result (λ c. 13 ≤ length (lines_of First c)) }
{
    let mut rows = Vec::new(alloc);
    for place in 0u32..7 {
        let items = Vec::from_slice(alloc, &[place == 3])?;
        rows.push(PlaceBits {
            proc: 0,
            place,
            bits: Bits { items },
        })?;
    }
    let mut instances = Vec::new(alloc);
    instances.push(Instance {
        group: 0,
        entry: 0,
        iface: Bits {
            items: Vec::new(alloc),
        },
        sites: Numbers {
            items: Vec::new(alloc),
        },
        places: Rows { items: rows },
    })?;
    Ok(Certificate {
        phi: Bits {
            items: Vec::new(alloc),
        },
        instances: Instances { items: instances },
    })
}

/// Whether these bytes are read, and printed as the others.
fn prints_as(alloc: Global, text: &str, printed: &str) -> Result<bool, Memory> {
    match read(alloc, text.as_bytes()) {
        Ok(value) => Ok(print(alloc, &value)?.as_slice() == printed.as_bytes()),
        Err(_) => Ok(false),
    }
}

#[test]
fn both_texts(rt: HostRuntime) -> Result<(), Fail> {
    let alloc = rt.alloc();
    let text = print(alloc, &one(alloc)?)?;
    assert!(&rt; text.as_slice() == ONE_BY_RUNS.as_bytes());
    for case in [
        (ONE, ONE_BY_RUNS),
        (ONE_BY_RUNS, ONE_BY_RUNS),
        (CALL, CALL_BY_RUNS),
        (CALL_BY_RUNS, CALL_BY_RUNS),
    ] {
        assert!(&rt; prints_as(alloc, case.0, case.1)?);
    }
    assert!(&rt; version(ONE.as_bytes()) == 1);
    assert!(&rt; version(ONE_BY_RUNS.as_bytes()) == 2);
    assert!(&rt; version(b"clouseau certificate 2") == 1);
    Ok(())
}

#[test]
fn reads_back(rt: HostRuntime) -> Result<(), Fail> {
    let alloc = rt.alloc();
    for text in [
        "clouseau certificate 2\nphi\nend 0\n",
        "clouseau certificate 2\nphi 1\nend 0\n",
        "clouseau certificate 2\nphi 01101001\ninstance 0 0\niface 10110100\nsites\nend 1\n",
        "clouseau certificate 2\nphi\ninstance 3 4\niface\nsites 0 1 2\nplaces 0 0 5\nend 1\n",
        "clouseau certificate 2\nphi\ninstance 4294967295 4294967295\niface\nsites 4294967295\n\
            places 4294967295 4294967294 4294967295 1\nend 1\n",
        "clouseau certificate 2\nphi\ninstance 0 0\niface\nsites\n\
            places 0 0 1 1\nplaces 1 2 3 1\nplaces 1 5 5 1\nend 1\n",
        "clouseau certificate 2\nphi\ninstance 0 0\niface\nsites\nplaces 0 3 3 0\nplaces 0 0 2 0\nend 1\n",
        "clouseau certificate 2\nphi\ninstance 0 0\niface\nsites\nplaces 0 0 0 0\nplaces 0 0 0 0\nend 1\n",
        "clouseau certificate 2\nphi\ninstance 0 0\niface\nsites\nplaces 0 0 0 1\n\
            instance 0 0\niface\nsites\nplaces 0 1 1 1\nend 2\n",
        "clouseau certificate 2\nphi\ninstance 0 0\niface\nsites\nplaces 0 0 0 1\nplaces 0 1 1\nend 1\n",
    ] {
        assert!(&rt; prints_as(alloc, text, text)?);
    }
    Ok(())
}

/// The line at which these bytes are refused, and 0 where they are read.
fn refused(alloc: Global, text: &[u8]) -> u64 {
    match read(alloc, text) {
        Ok(_) => 0,
        Err(
            TextError::Invalid(
                BadLine {
                    line,
                    reason: Reason::Form,
                },
            ),
        ) => line,
        Err(_) => 1000,
    }
}

#[test]
fn refuses(rt: HostRuntime) -> Result<(), Fail> {
    let alloc = rt.alloc();
    let cases: [(&str, u64); 22] = [
        ("", 1),
        ("clouseau certificate 2", 1),
        ("clouseau certificate 3\nphi\nend 0\n", 1),
        ("clouseau certificate 2\r\nphi\nend 0\n", 1),
        ("clouseau certificate 2\n", 2),
        ("clouseau certificate 2\nphi 2\nend 0\n", 2),
        ("clouseau certificate 2\nphi \nend 0\n", 2),
        ("clouseau certificate 2\nphi  1\nend 0\n", 2),
        ("clouseau certificate 2\nphi\nend 1\n", 3),
        ("clouseau certificate 2\nphi\nend 00\n", 3),
        ("clouseau certificate 2\nphi\nend 0", 3),
        ("clouseau certificate 2\nphi\nend 0\n\n", 4),
        ("clouseau certificate 2\nphi\nend 0\nx", 4),
        ("clouseau certificate 2\nphi\nplaces 0 0 0 1\n", 3),
        ("clouseau certificate 2\nphi\ninstance 0 4294967296\n", 3),
        (
            "clouseau certificate 2\nphi\ninstance 0 0\niface\nsites 00\n",
            5,
        ),
        (
            "clouseau certificate 2\nphi\ninstance 0 0\niface\nsites\nplace 0 0 1\n",
            6,
        ),
        (
            "clouseau certificate 1\nphi\ninstance 0 0\niface\nsites\nplaces 0 0 0 1\n",
            6,
        ),
        (
            "clouseau certificate 2\nphi\ninstance 0 0\niface\nsites\nplaces 0 1 0 1\n",
            6,
        ),
        (
            "clouseau certificate 2\nphi\ninstance 0 0\niface\nsites\nplaces 0 0 0 10\nplaces 0 1 1 10\nend 1\n",
            7,
        ),
        (
            "clouseau certificate 2\nphi\ninstance 0 0\niface\nsites\nplaces 0 0 1 1\nplaces 1 0 16777214 1\nend 1\n",
            7,
        ),
        (
            "clouseau certificate 2\nphi\ninstance 0 0\niface\nsites\nplaces 0 0 16777215 11111111111111111\nend 1\n",
            6,
        ),
    ];
    for case in cases {
        assert!(&rt; refused(alloc, case.0.as_bytes()) == case.1);
    }
    Ok(())
}

#[test]
fn lines(rt: HostRuntime) -> Result<(), Fail> {
    let alloc = rt.alloc();
    let certificate = one(alloc)?;
    let held = [1u64, 2, 3, 4, 5, 6, 6, 6, 7, 8, 8, 8, 9];
    for i in 0usize..13 {
        assert!(&rt; line_in_2(&certificate, i as u64 + 1) == held[i]);
    }
    Ok(())
}

/// A change to one line: how often it stands there, whether its last byte is cut, what is put before its first
/// digit and what behind it.
#[derive(Clone, Copy)]
struct Edit<'a> {
    times: u8,
    cut: bool,
    before: &'a [u8],
    behind: &'a [u8],
}

/// Where the first digit of a line is, or its end.
fn first_digit(line: &[u8]) -> usize
    ensures { result ≤ length line.now }
{
    for (at, byte) in line.iter().enumerate() {
        if byte.is_ascii_digit() {
            return at;
        }
    }
    line.len()
}

/// Adds the line as it is changed.
fn put_edited(out: &mut Vec<u8>, line: &[u8], edit: Edit<'_>) -> Result<(), Memory> {
    let (front, back) = line.split_at(first_digit(line));
    for _ in 0..edit.times {
        out.extend_from_slice(front)?;
        out.extend_from_slice(edit.before)?;
        out.extend_from_slice(back)?;
        if edit.cut {
            out.pop();
        }
        out.extend_from_slice(edit.behind)?;
        out.push(b'\n')?;
    }
    Ok(())
}

/// The line at which the text is refused once its line `at` is changed.
fn refused_with(alloc: Global, at: u64, edit: Edit<'_>) -> Result<u64, Memory> {
    let whole = Edit {
        times: 1,
        cut: false,
        before: b"",
        behind: b"",
    };
    let mut out = Vec::new(alloc);
    let mut number = 0u64;
    for line in ONE.lines() {
        number = number.saturating_add(1);
        let change = if number == at { edit } else { whole };
        put_edited(&mut out, line.as_bytes(), change)?;
    }
    Ok(refused(alloc, &out))
}

#[test]
fn each_line_changed(rt: HostRuntime) -> Result<(), Fail> {
    let alloc = rt.alloc();
    let whole = Edit {
        times: 1,
        cut: false,
        before: b"",
        behind: b"",
    };
    for at in 1u64..14 {
        // A place's line may be missing or stand twice: that is for the check of its value to refuse.
        let is_place = at > 5 && at < 13;
        let left_out = if is_place { 0 } else { at };
        let doubled = if is_place { 0 } else { at + 1 };
        assert!(&rt; refused_with(alloc, at, Edit { times: 0, ..whole })? == left_out);
        assert!(&rt; refused_with(alloc, at, Edit { times: 2, ..whole })? == doubled);
        assert!(&rt; refused_with(alloc, at, Edit { cut: true, ..whole })? == at);
        assert!(&rt;
            refused_with(
                alloc,
                at,
                Edit {
                    behind: b" ",
                    ..whole
                }
            )? == at
        );
        assert!(&rt;
            refused_with(
                alloc,
                at,
                Edit {
                    behind: b"\r",
                    ..whole
                }
            )? == at
        );
        assert!(&rt;
            refused_with(
                alloc,
                at,
                Edit {
                    before: b"0",
                    ..whole
                }
            )? == at
        );
        assert!(&rt;
            refused_with(
                alloc,
                at,
                Edit {
                    before: b"99999999999",
                    ..whole
                }
            )? == at
        );
    }
    match ONE.as_bytes().split_last() {
        Some((_, front)) => assert!(&rt; refused(alloc, front) == 13),
        None => assert!(&rt; false),
    }
    Ok(())
}
