// Derivations that refute, and the same with one thing altered.

use crate::programs::program_of;
use conflict_proof::{
    BadLine, CheckError, ConstraintName, Derivation, Names, Reason, TextError, read,
};
use proof_checker::{check_derivation, check_derivation_in};
use std::alloc::{AllocError, Global};
use std::test::Fail;
use transfer_rules::{Program, Scope};

/// An object that is lost at the end of `main`.
const LEAK: &str = "int main(void) { int *p; p = malloc(sizeof(int)); return 0; }";

/// The pointer p owns after the allocation (place 3, unknown 4), so at the exit (place 5, unknown 6), where it must not.
const LEAK_LINES: [&str; 6] = [
    "a 0 4 0 2 0 0 0 0 : 4",
    "a 0 21 0 3 0 0 0 0 : -4 6",
    "r 0 1 2 : 6",
    "a 0 17 0 5 0 0 0 0 : -6",
    "r 0 3 4 :",
    "i 1 5 0 :",
];

/// An object that `mk` hands out and `main` loses.
const MADE: &str =
    "int *mk(void) { int *p; p = malloc(sizeof(int)); return p; } int main(void) { int *q; q = mk(); return 0; }";

/// In `mk`, unknowns 8, 10 and 11 are that p owns after the allocation, and that p and the result own at the exit; 1 is that
/// `mk` gives ownership. In `main`, 1 is that the call gives it, and 5 and 7 that q owns after the call and at the exit.
const MADE_LINES: [&str; 15] = [
    "a 0 4 0 2 0 0 0 0 : 8",
    "a 0 2 0 3 0 1 0 0 : -8 10 11",
    "r 0 1 2 : 10 11",
    "a 0 17 0 4 0 0 0 0 : -10",
    "r 0 3 4 : 11",
    "a 0 16 0 4 0 1 0 0 : 1 -11",
    "r 0 5 6 : 1",
    "i 1 7 0 : 1",
    "a 1 13 1 2 0 0 0 0 : -1 5",
    "r 1 8 9 : 5",
    "a 1 21 1 3 0 0 0 0 : -5 7",
    "r 1 10 11 : 7",
    "a 1 17 1 5 0 0 0 0 : -7",
    "r 1 12 13 :",
    "i 2 14 1 :",
];

/// A procedure that frees an object with a field, called with nothing.
const EMPTIED: &str =
    "struct box { char *s; }; void drop(struct box *a) { free(a); } int main(void) { drop(NULL); return 0; }";

/// The number of a line, another line in its place, and what is wrong with that one.
struct Altered(u32, &'static str, Reason);

/// One line of `MADE_LINES` altered.
const ALTERED: [Altered; 45] = [
    // Groups that do not exist; the root is 2.
    Altered(1, "a 3 4 0 2 0 0 0 0 : 8", Reason::Range),
    Altered(1, "a 4294967295 4 0 2 0 0 0 0 : 8", Reason::Range),
    Altered(15, "i 3 14 1 :", Reason::Range),
    // Unknowns that are not there: `mk` has 11, `main` 7 and the root 1.
    Altered(1, "a 0 4 0 2 0 0 0 0 : 12", Reason::Range),
    Altered(10, "r 1 8 9 : 5 8", Reason::Range),
    Altered(15, "i 2 14 1 : 2", Reason::Range),
    // Lines that do not exist, that are later, and the line itself.
    Altered(3, "r 0 0 2 : 10 11", Reason::Range),
    Altered(3, "r 0 1 4294967295 : 10 11", Reason::Range),
    Altered(3, "r 0 1 4 : 10 11", Reason::Range),
    Altered(3, "r 0 3 2 : 10 11", Reason::Range),
    Altered(8, "i 1 0 0 : 1", Reason::Range),
    Altered(8, "i 1 9 0 : 1", Reason::Range),
    Altered(8, "i 1 8 0 : 1", Reason::Range),
    // Names of another group, at the root, and of no constraint.
    Altered(1, "a 1 4 0 2 0 0 0 0 : 7", Reason::Axiom),
    Altered(15, "a 2 4 0 2 0 0 0 0 :", Reason::Axiom),
    Altered(1, "a 0 5 0 2 0 0 0 0 : 8", Reason::Axiom),
    Altered(1, "a 0 4 0 9 0 0 0 0 : 8", Reason::Axiom),
    Altered(1, "a 0 4 2 2 0 0 0 0 : 8", Reason::Axiom),
    // Clauses of another name, in the other sign, with a literal too many and one too few.
    Altered(2, "a 0 4 0 2 0 0 0 0 : -8 10 11", Reason::Axiom),
    Altered(1, "a 0 4 0 2 0 0 0 0 : -8", Reason::Axiom),
    Altered(1, "a 0 4 0 2 0 0 0 0 : 8 9", Reason::Axiom),
    Altered(2, "a 0 2 0 3 0 1 0 0 : 10 11", Reason::Axiom),
    // Lines of another group, the first and the second.
    Altered(10, "r 1 7 9 : 5", Reason::Resolvent),
    Altered(10, "r 1 9 7 : 5", Reason::Resolvent),
    Altered(3, "r 1 1 2 : 5", Reason::Resolvent),
    // A literal left out, one too many, one in the other sign.
    Altered(3, "r 0 1 2 : 10", Reason::Resolvent),
    Altered(3, "r 0 1 2 : 7 10 11", Reason::Resolvent),
    Altered(3, "r 0 1 2 : -10 11", Reason::Resolvent),
    // No unknown is there in both signs.
    Altered(3, "r 0 1 1 : 8", Reason::Resolvent),
    Altered(5, "r 0 1 4 : 8", Reason::Resolvent),
    // Sites that are not there.
    Altered(8, "i 1 7 1 : 1", Reason::Inst),
    Altered(8, "i 1 7 4294967295 : 1", Reason::Inst),
    Altered(8, "i 0 7 0 : 1", Reason::Inst),
    Altered(15, "i 2 14 2 :", Reason::Inst),
    // Lines of groups that the site does not call.
    Altered(15, "i 2 14 0 :", Reason::Inst),
    Altered(15, "i 2 7 1 : 1", Reason::Inst),
    // A line that mentions a place of the procedure.
    Altered(8, "i 1 5 0 : 1", Reason::Inst),
    Altered(8, "i 1 6 0 : 1", Reason::Inst),
    // Another clause than what is carried.
    Altered(8, "i 1 7 0 :", Reason::Inst),
    Altered(8, "i 1 7 0 : -1", Reason::Inst),
    Altered(8, "i 1 7 0 : 2", Reason::Inst),
    Altered(8, "i 1 7 0 : 1 2", Reason::Inst),
    // Range comes before the others.
    Altered(1, "a 0 5 0 2 0 0 0 0 : 12", Reason::Range),
    Altered(3, "r 1 1 4 : 10", Reason::Range),
    Altered(8, "i 1 9 9 : 1", Reason::Range),
];

/// The lines of a derivation, and the first line of its text that is faulty, with the reason; none where it refutes.
struct Example {
    source: &'static str,
    lines: &'static [&'static str],
    bad: Option<(u64, Reason)>,
}

const EXAMPLES: [Example; 16] = [
    Example {
        source: LEAK,
        lines: &LEAK_LINES,
        bad: None,
    },
    Example {
        source: MADE,
        lines: &MADE_LINES,
        bad: None,
    },
    // No line at all.
    Example {
        source: LEAK,
        lines: &[],
        bad: Some((2, Reason::NoRefutation)),
    },
    // The last line is that of a group.
    Example {
        source: LEAK,
        lines: &[
            "a 0 4 0 2 0 0 0 0 : 4",
            "a 0 21 0 3 0 0 0 0 : -4 6",
            "r 0 1 2 : 6",
            "a 0 17 0 5 0 0 0 0 : -6",
            "r 0 3 4 :",
        ],
        bad: Some((7, Reason::NoRefutation)),
    },
    // The empty line of the root is not the last.
    Example {
        source: LEAK,
        lines: &[
            "a 0 4 0 2 0 0 0 0 : 4",
            "a 0 21 0 3 0 0 0 0 : -4 6",
            "r 0 1 2 : 6",
            "a 0 17 0 5 0 0 0 0 : -6",
            "r 0 3 4 :",
            "i 1 5 0 :",
            "a 0 4 0 2 0 0 0 0 : 4",
        ],
        bad: Some((9, Reason::NoRefutation)),
    },
    // The last line is one of the root, and not empty: the interface of `mk` at the root's site of its group.
    Example {
        source: MADE,
        lines: &[
            "a 0 4 0 2 0 0 0 0 : 8",
            "a 0 2 0 3 0 1 0 0 : -8 10 11",
            "r 0 1 2 : 10 11",
            "a 0 17 0 4 0 0 0 0 : -10",
            "r 0 3 4 : 11",
            "a 0 16 0 4 0 1 0 0 : 1 -11",
            "r 0 5 6 : 1",
            "i 2 7 0 : 1",
        ],
        bad: Some((10, Reason::NoRefutation)),
    },
    Example {
        source: LEAK,
        lines: &["a 0 4 0 2 0 0 0 0 : 4"],
        bad: Some((3, Reason::NoRefutation)),
    },
    // A resolvent with a literal left out.
    Example {
        source: LEAK,
        lines: &[
            "a 0 4 0 2 0 0 0 0 : 4",
            "a 0 21 0 3 0 0 0 0 : -4 6",
            "r 0 1 2 :",
            "a 0 17 0 5 0 0 0 0 : -6",
            "r 0 3 4 :",
            "i 1 5 0 :",
        ],
        bad: Some((4, Reason::Resolvent)),
    },
    Example {
        source: LEAK,
        lines: &[
            "a 0 4 0 2 0 0 0 0 : -4",
            "a 0 21 0 3 0 0 0 0 : -4 6",
            "r 0 1 2 : 6",
            "a 0 17 0 5 0 0 0 0 : -6",
            "r 0 3 4 :",
            "i 1 5 0 :",
        ],
        bad: Some((2, Reason::Axiom)),
    },
    // Two clauses that hold two unknowns in opposite signs have no resolvent.
    Example {
        source: MADE,
        lines: &[
            "a 1 13 1 2 0 0 0 0 : -1 5",
            "a 1 13 1 2 0 0 0 0 : 1 -5",
            "r 1 1 2 :",
        ],
        bad: Some((4, Reason::Resolvent)),
    },
    Example {
        source: MADE,
        lines: &[
            "a 1 13 1 2 0 0 0 0 : -1 5",
            "a 1 13 1 2 0 0 0 0 : 1 -5",
            "r 1 1 2 : -5 5",
        ],
        bad: Some((4, Reason::Form)),
    },
    // The premises in either order, and one line for two.
    Example {
        source: LEAK,
        lines: &[
            "a 0 21 0 3 0 0 0 0 : -4 6",
            "a 0 4 0 2 0 0 0 0 : 4",
            "r 0 1 2 : 6",
            "r 0 2 1 : 6",
            "a 0 17 0 5 0 0 0 0 : -6",
            "r 0 5 4 :",
            "i 1 6 0 :",
        ],
        bad: None,
    },
    // Of two faulty lines the first counts, whatever the reasons.
    Example {
        source: LEAK,
        lines: &["r 0 1 2 : 4", "a 9 4 0 2 0 0 0 0 : 4"],
        bad: Some((2, Reason::Range)),
    },
    Example {
        source: LEAK,
        lines: &["a 0 4 0 2 0 0 0 0 : 5", "a 9 4 0 2 0 0 0 0 : 4"],
        bad: Some((2, Reason::Axiom)),
    },
    // The field of a freed object does not own: it stands for itself in the caller, and in the root.
    Example {
        source: EMPTIED,
        lines: &[
            "a 0 15 0 0 0 0 1 0 : -4",
            "a 0 21 0 0 0 0 1 0 : 4 -6",
            "r 0 1 2 : -6",
            "a 0 7 0 1 0 0 1 0 : -1 6",
            "r 0 3 4 : -1",
            "i 1 5 0 : -1",
            "i 2 5 0 : -1",
            "i 2 6 1 : -1",
        ],
        bad: Some((10, Reason::NoRefutation)),
    },
    // The unknown of the place does not.
    Example {
        source: EMPTIED,
        lines: &[
            "a 0 15 0 0 0 0 1 0 : -4",
            "a 0 21 0 0 0 0 1 0 : 4 -6",
            "r 0 1 2 : -6",
            "a 0 7 0 1 0 0 1 0 : -1 6",
            "i 1 4 0 : -1",
        ],
        bad: Some((6, Reason::Inst)),
    },
];

/// Names of the constraints of `LEAK`: that the allocated pointer owns, and that it does not at the exit.
const ALLOCATED: ConstraintName = ConstraintName {
    proc: 0,
    place: 2,
    edge: 0,
    rule: 4,
    slot: 0,
    field: 0,
    other: 0,
};

const AT_EXIT: ConstraintName = ConstraintName {
    proc: 0,
    place: 5,
    edge: 0,
    rule: 17,
    slot: 0,
    field: 0,
    other: 0,
};

/// A name that stands before all, and one that stands after all of `LEAK`.
const ZEROS: ConstraintName = ConstraintName {
    proc: 0,
    place: 0,
    edge: 0,
    rule: 0,
    slot: 0,
    field: 0,
    other: 0,
};

const LAST: ConstraintName = ConstraintName {
    proc: 1,
    place: 0,
    edge: 0,
    rule: 0,
    slot: 0,
    field: 0,
    other: 0,
};

/// A scope, and the first faulty line of `LEAK_LINES` in it. The line that names a constraint of Same is right in all of them.
struct Scoped {
    keep: &'static [ConstraintName],
    after: ConstraintName,
    without: &'static [ConstraintName],
    bad: Option<(u64, Reason)>,
}

const SCOPED: [Scoped; 8] = [
    Scoped {
        keep: &[],
        after: ZEROS,
        without: &[],
        bad: None,
    },
    Scoped {
        keep: &[ALLOCATED, AT_EXIT],
        after: LAST,
        without: &[],
        bad: None,
    },
    Scoped {
        keep: &[AT_EXIT],
        after: LAST,
        without: &[],
        bad: Some((2, Reason::Axiom)),
    },
    Scoped {
        keep: &[ALLOCATED],
        after: LAST,
        without: &[],
        bad: Some((5, Reason::Axiom)),
    },
    Scoped {
        keep: &[],
        after: ZEROS,
        without: &[AT_EXIT],
        bad: Some((5, Reason::Axiom)),
    },
    Scoped {
        keep: &[],
        after: ALLOCATED,
        without: &[],
        bad: Some((2, Reason::Axiom)),
    },
    Scoped {
        keep: &[ALLOCATED],
        after: ALLOCATED,
        without: &[],
        bad: None,
    },
    // A name that is kept counts, also where it is left out.
    Scoped {
        keep: &[ALLOCATED, AT_EXIT],
        after: ZEROS,
        without: &[ALLOCATED, AT_EXIT],
        bad: None,
    },
];

/// The text of these lines.
fn text_of(alloc: Global, lines: &[&str]) -> Result<String, AllocError> {
    let mut text = String::from_str(alloc, "clouseau derivation 1\n")?;
    for line in lines {
        text.push_str(line)?;
        text.push_str("\n")?;
    }
    write!(text, "end {}\n", lines.len())?;
    Ok(text)
}

fn bad_of(bad: BadLine) -> Option<(u64, Reason)> {
    Some((bad.line, bad.reason))
}

/// What is wrong with a derivation.
fn fault_of(answer: Result<(), CheckError>) -> Result<Option<(u64, Reason)>, Fail> {
    match answer {
        Ok(()) => Ok(None),
        Err(CheckError::Invalid(bad)) => Ok(bad_of(bad)),
        Err(CheckError::Memory) => Err(Fail::from("memory")),
    }
}

/// The first line of a text that cannot be read, or that is faulty; none where the derivation refutes.
fn judged(alloc: Global, program: &Program, lines: &[&str]) -> Result<Option<(u64, Reason)>, Fail> {
    let text = text_of(alloc, lines)?;
    match read(alloc, text.as_bytes()) {
        Ok(derivation) => fault_of(check_derivation(alloc, program, &derivation)),
        Err(TextError::Invalid(bad)) => Ok(bad_of(bad)),
        Err(TextError::Memory) => Err(Fail::from("memory")),
    }
}

/// The lines with one of them altered.
fn with_one(alloc: Global, altered: &Altered) -> Result<Vec<&'static str>, AllocError> {
    let mut lines = Vec::new(alloc);
    let mut number = 0u32;
    for line in MADE_LINES {
        number = number.wrapping_add(1);
        lines.push(if number == altered.0 { altered.1 } else { line })?;
    }
    Ok(lines)
}

fn names_of(alloc: Global, names: &[ConstraintName]) -> Result<Names, AllocError> {
    let items = names.to_vec(alloc)?;
    Ok(Names { items })
}

fn scope_of(alloc: Global, scoped: &Scoped) -> Result<Scope, AllocError> {
    let keep = names_of(alloc, scoped.keep)?;
    let without = names_of(alloc, scoped.without)?;
    Ok(Scope {
        keep,
        after: scoped.after,
        without,
    })
}

/// The derivation of `LEAK`.
fn leak_derivation(alloc: Global) -> Result<Derivation, Fail> {
    let text = text_of(alloc, &LEAK_LINES)?;
    match read(alloc, text.as_bytes()) {
        Ok(derivation) => Ok(derivation),
        Err(_) => Err(Fail::from("not read")),
    }
}

fn judged_in(
    alloc: Global,
    program: &Program,
    scoped: &Scoped,
) -> Result<Option<(u64, Reason)>, Fail> {
    let derivation = leak_derivation(alloc)?;
    let scope = scope_of(alloc, scoped)?;
    fault_of(check_derivation_in(alloc, program, &derivation, &scope))
}

#[test]
fn derivations(rt: HostRuntime) -> Result<(), Fail> {
    for row in &EXAMPLES {
        let program = program_of(rt.alloc(), row.source.as_bytes())?;
        assert_eq!(rt; judged(rt.alloc(), &program, row.lines)?, row.bad);
    }
    Ok(())
}

#[test]
fn altered_lines(rt: HostRuntime) -> Result<(), Fail> {
    let program = program_of(rt.alloc(), MADE.as_bytes())?;
    for row in &ALTERED {
        let lines = with_one(rt.alloc(), row)?;
        let bad = Some((u64::from(row.0) + 1, row.2));
        assert_eq!(rt; judged(rt.alloc(), &program, lines.as_slice())?, bad);
    }
    Ok(())
}

#[test]
fn scopes(rt: HostRuntime) -> Result<(), Fail> {
    let program = program_of(rt.alloc(), LEAK.as_bytes())?;
    for row in &SCOPED {
        assert_eq!(rt; judged_in(rt.alloc(), &program, row)?, row.bad);
    }
    Ok(())
}
