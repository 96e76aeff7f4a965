// Words and budgets.
use crate::harness::{expect, run};
use crate::texts::{FREED, LEAK, MADE};
use std::test::Fail;

/// Words that are no command, none at all among them. There is no file `b.c`: words are judged before a file is read.
const NO_COMMANDS: [&str; 32] = [
    "",
    " ",
    "check",
    "check a.c t",
    "prove a.c t",
    "verify a.c",
    "verify a.c t u",
    "sample",
    "sample 1 2",
    "Check a.c",
    "judge a.c",
    "a.c check",
    "--help",
    "-h",
    "--version",
    "check --help",
    "check a.c --version",
    "check -x",
    "check a.c --budget 0",
    "check a.c --budget 100000001",
    "check a.c --budget 0000000005",
    "check a.c --budget five",
    "check a.c --budget -5",
    "check a.c --budget",
    "check a.c --budget=",
    "check a.c --budget 5 --budget 6",
    "sample 0",
    "sample 4001",
    "sample 10000",
    "sample a.c",
    "prove b.c --budget 0",
    "verify b.c",
];

/// The line that they are answered with.
const USAGE: &str =
    "usage: clouseau check FILE, prove FILE, verify FILE TEXT or sample N, with --budget WORDS\n";

#[test]
fn no_commands(rt: HostRuntime) -> Result<(), Fail> {
    for words in &NO_COMMANDS {
        let given = run(rt.alloc(), words, FREED.as_bytes(), b"")?;
        expect(&rt, &given, 6, "", USAGE);
    }
    Ok(())
}

/// The same command in other words.
const COMMANDS: [&str; 8] = [
    "check a.c",
    "check -- a.c",
    "-- check a.c",
    "check a.c --budget 100000000",
    "check a.c --budget=4000000",
    "--budget 000000256 check a.c",
    "check --budget=256 a.c",
    "check a.c --",
];

#[test]
fn commands(rt: HostRuntime) -> Result<(), Fail> {
    for words in &COMMANDS {
        let given = run(rt.alloc(), words, FREED.as_bytes(), b"")?;
        expect(
            &rt,
            &given,
            0,
            "accepted\nproc main() -> int\n  local p:2 owns\n",
            "",
        );
    }
    Ok(())
}

/// Words with a budget, the status, and what they are answered of a leak.
struct Budget(&'static str, u8, &'static str);

/// Each refutation of the leak costs 11 words at least. What propagation refutes needs no more than 16 words for each unknown
/// and two more, in each group and in the root: here 16 * (1 + 1) * (6 + 2), which is 256.
const BUDGETS: [Budget; 5] = [
    Budget("check a.c --budget 1", 3, "undecided 1\n"),
    Budget("check a.c --budget 10", 3, "undecided 10\n"),
    Budget("check a.c --budget=000000010", 3, "undecided 10\n"),
    Budget(
        "check a.c --budget=256",
        1,
        "conflict\nmain 3:7 New p:2\nmain 5:1 ExitOwn p:2\n",
    ),
    Budget(
        "check a.c",
        1,
        "conflict\nmain 3:7 New p:2\nmain 5:1 ExitOwn p:2\n",
    ),
];

#[test]
fn budgets_on_a_leak(rt: HostRuntime) -> Result<(), Fail> {
    for row in &BUDGETS {
        let given = run(rt.alloc(), row.0, LEAK.as_bytes(), b"")?;
        expect(&rt, &given, row.1, row.2, "");
    }
    Ok(())
}

#[test]
fn a_budget_that_suffices(rt: HostRuntime) -> Result<(), Fail> {
    // 16 * (2 + 1) * (11 + 2)
    let given = run(rt.alloc(), "check a.c --budget 624", MADE.as_bytes(), b"")?;
    assert_eq!(&rt; given.status, 1);
    Ok(())
}
