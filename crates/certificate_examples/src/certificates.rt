// Certificates against their programs: what is good, and the first fault of what is not.

use crate::programs::program_of;
use crate::texts::{Altered, FREED, FREED_TEXT, HANDED, HANDED_TEXT, KEPT_TEXT};
use cert_checker::{check_certificate, check_certificate_in};
use conflict_proof::{BadLine, CheckError, ConstraintName, Names, TextError};
use example_sources::KEPT_CYCLE;
use own_cert::read;
use std::alloc::{AllocError, Global};
use std::process::Abort;
use std::test::Fail;
use transfer_rules::{Program, Scope};

/// The instance of `main` in `HANDED`, and the end of a text that has no other.
const MAIN_ALONE: &str = "instance 1 1
iface
sites 0
place 1 0 00
place 1 1 00
place 1 2 00
place 1 3 01
place 1 4 10
place 1 5 10
place 1 6 00
place 1 7 00
place 1 8 00
end 1
";

/// Alterations of the text of `HANDED`.
const OF_HANDED: [Altered; 21] = [
    // As it is.
    Altered(1, 0, "", "good"),
    // A bit more than there are fields.
    Altered(2, 1, "phi 1\n", "2 Range"),
    // No such group.
    Altered(3, 1, "instance 2 0\n", "3 Range"),
    // The entry is in another group.
    Altered(3, 1, "instance 0 1\n", "3 Range"),
    // A bit less.
    Altered(4, 1, "iface 1\n", "4 Range"),
    // There are no sites.
    Altered(5, 1, "sites 0\n", "5 Range"),
    // Not the place due.
    Altered(6, 1, "place 0 1 10\n", "6 Range"),
    // A bit less at a place.
    Altered(7, 1, "place 0 1 1\n", "7 Range"),
    // A place is missing, before another instance.
    Altered(8, 1, "", "8 Range"),
    // A place is missing at the end.
    Altered(20, 1, "", "20 Range"),
    // A bit less at the last place.
    Altered(20, 1, "place 1 8 0\n", "20 Range"),
    // A site less.
    Altered(11, 1, "sites\n", "11 Range"),
    // A site that names its own instance.
    Altered(11, 1, "sites 1\n", "11 Site"),
    // A site that names none.
    Altered(11, 1, "sites 7\n", "11 Site"),
    // Without the instance that the site names; its number is that of main's own.
    Altered(3, 19, MAIN_ALONE, "5 Site"),
    // An instance twice; that of main is missing, which comes later.
    Altered(
        9,
        12,
        "instance 0 0\niface 11\nsites\nplace 0 0 10\nplace 0 1 10\nplace 0 2 01\n",
        "10 Twice",
    ),
    // No instance of main.
    Altered(9, 13, "end 1\n", "9 Missing"),
    // No instances.
    Altered(3, 19, "end 0\n", "3 Missing"),
    // The result owns, and the interface says not.
    Altered(4, 1, "iface 10\n", "8 Broken"),
    // A false constraint before a wrong site.
    Altered(
        4,
        8,
        "iface 10\nsites\nplace 0 0 10\nplace 0 1 10\nplace 0 2 01\ninstance 1 1\niface\nsites 7\n",
        "8 Broken",
    ),
    // A wrong shape before a false constraint.
    Altered(
        5,
        4,
        "sites 0\nplace 0 0 10\nplace 0 1 10\nplace 0 2 00\n",
        "5 Range",
    ),
];

/// Of that of `FREED`.
const OF_FREED: [Altered; 5] = [
    // As it is.
    Altered(1, 0, "", "good"),
    // It owns what it has freed.
    Altered(10, 1, "place 0 4 1\n", "10 Broken"),
    // It does not own what it has made.
    Altered(9, 1, "place 0 3 0\n", "9 Broken"),
    // No such group.
    Altered(3, 1, "instance 1 0\n", "3 Range"),
    // The last line is missing.
    Altered(13, 1, "", "13 Form"),
];

/// Of that of the node that refers to itself.
const OF_KEPT: [Altered; 2] = [
    // As it is.
    Altered(1, 0, "", "good"),
    // A member is open that does not own.
    Altered(2, 1, "phi 0\n", "9 Broken"),
];

/// Of that of `FREED`, where only the rule is in force that always is, that what is not touched stays as it was.
const OF_FREED_IN_NONE: [Altered; 2] = [
    // What it makes and frees is not asked after.
    Altered(9, 1, "place 0 3 0\n", "good"),
    // What it owns after the call it does not own at the exit, to which the edge from there leads.
    Altered(10, 1, "place 0 4 1\n", "12 Broken"),
];

/// The text with lines replaced.
fn text_of(alloc: Global, text: &str, altered: &Altered) -> Result<String, AllocError> {
    let Altered(from, count, with, _) = altered;
    let mut out = String::new(alloc);
    let mut number = 0usize;
    for line in text.lines() {
        number = number.wrapping_add(1);
        if number == *from {
            out.push_str(with)?;
        }
        if number < *from || number.wrapping_sub(*from) >= *count {
            out.push_str(line)?;
            out.push_str("\n")?;
        }
    }
    Ok(out)
}

fn fault_text(alloc: Global, bad: BadLine) -> Result<String, Fail> {
    Ok(format!(in alloc; "{} {:?}", bad.line, bad.reason)?)
}

/// What the check of a certificate answers, or the reader of its text; in a scope, where one is given.
fn answer_text(
    alloc: Global,
    program: &Program,
    text: &str,
    scope: Option<&Scope>,
) -> Result<String, Fail> {
    let certificate = match read(alloc, text.as_bytes()) {
        Ok(certificate) => certificate,
        Err(TextError::Invalid(bad)) => return fault_text(alloc, bad),
        Err(TextError::Memory) => return Err(Fail::from("memory")),
    };
    let answer = match scope {
        Some(scope) => check_certificate_in(alloc, program, &certificate, scope),
        None => check_certificate(alloc, program, &certificate),
    };
    match answer {
        Ok(()) => Ok(String::from_str(alloc, "good")?),
        Err(CheckError::Invalid(bad)) => fault_text(alloc, bad),
        Err(CheckError::Memory) => Err(Fail::from("memory")),
    }
}

/// Each of these alterations has its answer.
fn judged(
    alloc: Global,
    rt: &impl Abort,
    source: &str,
    text: &str,
    rows: &[Altered],
    scope: Option<&Scope>,
) -> Result<(), Fail> {
    let program = program_of(alloc, source.as_bytes())?;
    for row in rows {
        let text = text_of(alloc, text, row)?;
        let answer = answer_text(alloc, &program, text.as_str(), scope)?;
        assert_eq!(rt; answer.as_str(), row.3);
    }
    Ok(())
}

/// The scope in which no name is.
fn no_names(alloc: Global) -> Scope {
    let after = ConstraintName {
        proc: u32::MAX,
        place: 0,
        edge: 0,
        rule: 0,
        slot: 0,
        field: 0,
        other: 0,
    };
    let keep = Names {
        items: Vec::new(alloc),
    };
    let without = Names {
        items: Vec::new(alloc),
    };
    Scope {
        keep,
        after,
        without,
    }
}

#[test]
fn handed(rt: HostRuntime) -> Result<(), Fail> {
    judged(rt.alloc(), &rt, HANDED, HANDED_TEXT, &OF_HANDED, None)
}

#[test]
fn freed(rt: HostRuntime) -> Result<(), Fail> {
    judged(rt.alloc(), &rt, FREED, FREED_TEXT, &OF_FREED, None)
}

#[test]
fn kept(rt: HostRuntime) -> Result<(), Fail> {
    judged(rt.alloc(), &rt, KEPT_CYCLE, KEPT_TEXT, &OF_KEPT, None)
}

#[test]
fn in_no_names(rt: HostRuntime) -> Result<(), Fail> {
    let scope = no_names(rt.alloc());
    judged(
        rt.alloc(),
        &rt,
        FREED,
        FREED_TEXT,
        &OF_FREED_IN_NONE,
        Some(&scope),
    )
}
