// Files and outputs that fail.
ghost use Rattle.std.specs.Prelude.{◌<◌};

use crate::harness::{NONE_FAILS, PIECE, ROOM, expect, files, run_on, sink};
use crate::texts::{FREED, FREED_TEXT};
use example_sources::LIST;
use std::alloc::Global;
use std::process::Abort;
use std::test::Fail;

/// The source is not read where that call of the files fails, which pass so many bytes in a call.
fn is_not_read(
    rt: &impl Abort,
    alloc: Global,
    source: &str,
    piece: usize,
    call: u32,
) -> Result<(), Fail>
    requires { 0 < piece }
{
    let mut files = files(alloc, source.as_bytes(), b"", piece, call)?;
    let mut out = sink(alloc, ROOM, PIECE, NONE_FAILS)?;
    let mut err = sink(alloc, ROOM, PIECE, NONE_FAILS)?;
    let given = run_on(alloc, "check a.c", &mut files, &mut out, &mut err)?;
    expect(rt, &given, 4, "", "cannot read a.c\n");
    Ok(())
}

/// The first call opens the file, and it has more than nine pieces of 16 bytes.
#[test]
fn files_that_fail(rt: HostRuntime) -> Result<(), Fail> {
    for call in 1..11 {
        is_not_read(&rt, rt.alloc(), LIST, 16, call)?;
    }
    Ok(())
}

#[test]
fn a_file_that_fails_between(rt: HostRuntime) -> Result<(), Fail> {
    is_not_read(&rt, rt.alloc(), FREED, 8, 4)
}

/// What fails where the files pass 8 bytes in a call: one opens the source, ten give its 78 bytes, and one gives none; the next
/// opens the text.
struct Failing(u32, &'static str);

const FAILING: [Failing; 5] = [
    Failing(1, "cannot read a.c\n"),
    Failing(11, "cannot read a.c\n"),
    Failing(12, "cannot read a.c\n"),
    Failing(13, "cannot read t\n"),
    Failing(15, "cannot read t\n"),
];

#[test]
fn a_text_that_fails(rt: HostRuntime) -> Result<(), Fail> {
    for row in &FAILING {
        let mut files = files(
            rt.alloc(),
            FREED.as_bytes(),
            FREED_TEXT.as_bytes(),
            8,
            row.0,
        )?;
        let mut out = sink(rt.alloc(), ROOM, PIECE, NONE_FAILS)?;
        let mut err = sink(rt.alloc(), ROOM, PIECE, NONE_FAILS)?;
        let given = run_on(rt.alloc(), "verify a.c t", &mut files, &mut out, &mut err)?;
        expect(&rt, &given, 4, "", row.1);
    }
    Ok(())
}

/// The annotation of the list.
const LIST_ANNOTATION: &str = "accepted
field node.next owns
proc push(list owns, v int) -> owns
  local n:3 owns
proc list_free(list owns) -> void
  local next:10 owns
proc main() -> int
  local list:18 owns
keeps node.next
";

/// Where a call fails to an output that takes one byte in each, the bytes before are given.
fn gives_before(rt: &impl Abort, alloc: Global, before: u32) -> Result<(), Fail> {
    let mut files = files(alloc, LIST.as_bytes(), b"", PIECE, NONE_FAILS)?;
    let mut out = sink(alloc, ROOM, 1, before.wrapping_add(1))?;
    let mut err = sink(alloc, ROOM, PIECE, NONE_FAILS)?;
    let given = run_on(alloc, "check a.c", &mut files, &mut out, &mut err)?;
    assert_eq!(rt; given.out.len(), before as usize);
    assert!(rt; LIST_ANNOTATION.starts_with(given.out.as_str()));
    assert!(rt; given.err.is_empty());
    assert_eq!(rt; given.status, 5);
    Ok(())
}

#[test]
fn outputs_that_fail(rt: HostRuntime) -> Result<(), Fail> {
    for before in 0..10 {
        gives_before(&rt, rt.alloc(), before)?;
    }
    Ok(())
}

/// Words, how many bytes `out` takes in all and in a call, which call fails, and what it is given.
struct Broken {
    words: &'static str,
    room: usize,
    piece: usize,
    call: u32,
    out: &'static str,
}

const BROKEN: [Broken; 8] = [
    Broken {
        words: "check a.c",
        room: ROOM,
        piece: 16,
        call: 2,
        out: "accepted\nproc ma",
    },
    // No room for more.
    Broken {
        words: "check a.c",
        room: 10,
        piece: 16,
        call: NONE_FAILS,
        out: "accepted\np",
    },
    Broken {
        words: "check a.c",
        room: 0,
        piece: 16,
        call: NONE_FAILS,
        out: "",
    },
    // A byte less than the text has.
    Broken {
        words: "verify a.c t",
        room: 5,
        piece: 16,
        call: NONE_FAILS,
        out: "valid",
    },
    Broken {
        words: "prove a.c",
        room: ROOM,
        piece: 16,
        call: 1,
        out: "",
    },
    Broken {
        words: "prove a.c",
        room: ROOM,
        piece: 10,
        call: 3,
        out: "clouseau certificate",
    },
    Broken {
        words: "verify a.c t",
        room: ROOM,
        piece: 2,
        call: 3,
        out: "vali",
    },
    Broken {
        words: "sample 1",
        room: ROOM,
        piece: 7,
        call: 2,
        out: "sample ",
    },
];

/// Runs the words of the row.
fn run_broken(rt: &impl Abort, alloc: Global, row: &Broken) -> Result<(), Fail> {
    if row.piece == 0 {
        return Err(Fail::from("no piece"));
    }
    let mut files = files(
        alloc,
        FREED.as_bytes(),
        FREED_TEXT.as_bytes(),
        PIECE,
        NONE_FAILS,
    )?;
    let mut out = sink(alloc, row.room, row.piece, row.call)?;
    let mut err = sink(alloc, ROOM, PIECE, NONE_FAILS)?;
    let given = run_on(alloc, row.words, &mut files, &mut out, &mut err)?;
    expect(rt, &given, 5, row.out, "");
    Ok(())
}

#[test]
fn parts_of_texts(rt: HostRuntime) -> Result<(), Fail> {
    for row in &BROKEN {
        run_broken(&rt, rt.alloc(), row)?;
    }
    Ok(())
}

/// Words of which something is told on `err`, which fails at the call of that number and takes 4 bytes in each; and what it is
/// given.
struct Untold(&'static str, u32, &'static str);

const UNTOLD: [Untold; 5] = [
    Untold("check b.c", 1, ""),
    Untold("check b.c", 3, "cannot r"),
    Untold("check a.c", 2, "no i"),
    Untold("verify a.c t", 5, "no int main(void"),
    Untold("check", 2, "usag"),
];

#[test]
fn refusals_that_are_not_told(rt: HostRuntime) -> Result<(), Fail> {
    for row in &UNTOLD {
        let mut files = files(rt.alloc(), b"", b"", PIECE, NONE_FAILS)?;
        let mut out = sink(rt.alloc(), ROOM, PIECE, NONE_FAILS)?;
        let mut err = sink(rt.alloc(), ROOM, 4, row.1)?;
        let given = run_on(rt.alloc(), row.0, &mut files, &mut out, &mut err)?;
        expect(&rt, &given, 5, "", row.2);
    }
    Ok(())
}

/// An output to which nothing is given may fail.
#[test]
fn outputs_that_are_not_used(rt: HostRuntime) -> Result<(), Fail> {
    let mut files = files(rt.alloc(), FREED.as_bytes(), b"", PIECE, NONE_FAILS)?;
    let mut out = sink(rt.alloc(), ROOM, PIECE, NONE_FAILS)?;
    let mut err = sink(rt.alloc(), 0, PIECE, 1)?;
    let given = run_on(rt.alloc(), "check a.c", &mut files, &mut out, &mut err)?;
    assert_eq!(&rt; given.status, 0);
    let mut broken = sink(rt.alloc(), 0, PIECE, 1)?;
    let mut other = sink(rt.alloc(), ROOM, PIECE, NONE_FAILS)?;
    let given = run_on(rt.alloc(), "check b.c", &mut files, &mut broken, &mut other)?;
    expect(&rt, &given, 4, "", "cannot read b.c\n");
    Ok(())
}
