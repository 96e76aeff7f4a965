// The clauses of a group that are in force in a scope, each with the name of its constraint.
ghost use Rattle.std.specs.Prelude.{◌<◌, length};

use crate::programs::{has_group, program_of};
use crate::sources::{FREED, HANDED};
use crate::texts::{push_lits, push_name, read_name};
use conflict_proof::Names;
use std::alloc::{AllocError, Global};
use std::process::Abort;
use std::test::Fail;
use transfer_rules::{ClauseTable, Scope, group_clauses};

/// A scope: names that are kept, a name after which all are in, and names that are left out.
#[derive(Drop)]
struct Parts {
    keep: &'static str,
    after: &'static str,
    without: &'static str,
}

/// The names of lines.
fn read_names(alloc: Global, lines: &str) -> Result<Names, Fail> {
    let mut items = Vec::new(alloc);
    for line in lines.lines() {
        items.push(read_name(line)?)?;
    }
    Ok(Names { items })
}

fn scope_of(alloc: Global, parts: &Parts) -> Result<Scope, Fail> {
    let after = read_name(parts.after)?;
    let keep = read_names(alloc, parts.keep)?;
    let without = read_names(alloc, parts.without)?;
    Ok(Scope {
        keep,
        after,
        without,
    })
}

/// Adds a line: the name and the literals of a clause.
fn push_row(text: &mut String, table: &ClauseTable, number: usize) -> Result<(), AllocError>
    requires { number < length table.now }
{
    push_name(text, &table.name(number))?;
    text.push_str(":")?;
    push_lits(text, table.lits(number))?;
    text.push_str("\n")
}

/// The clauses of a table, a line each.
fn rows(alloc: Global, table: &ClauseTable) -> Result<String, Fail> {
    let mut text = String::from_str(alloc, "\n")?;
    for number in 0..table.len() {
        push_row(&mut text, table, number)?;
    }
    Ok(text)
}

/// Fails where other clauses of a source's first group are in force.
fn check(
    rt: &impl Abort,
    alloc: Global,
    source: &str,
    parts: &Parts,
    lines: &str,
) -> Result<(), Fail> {
    let scope = scope_of(alloc, parts)?;
    let program = program_of(alloc, source)?;
    if !has_group(&program, 0) {
        return Err(Fail::from("no group"));
    }
    let table = group_clauses(alloc, &program, 0, &scope)?;
    let text = rows(alloc, &table)?;
    assert_eq!(rt; text.as_str(), lines, "in {source}");
    Ok(())
}

#[test]
fn all_names(rt: HostRuntime) -> Result<(), Fail> {
    const LINES: &str = "
 0 2 0 4 0 0 0: 4
 0 3 0 6 0 0 0: 4
 0 3 0 8 0 0 0: -5
 0 4 0 21 0 0 0: -5 7
 0 4 0 21 0 0 0: 5 -7
 0 6 0 17 0 0 0: -7
";
    let parts = Parts {
        keep: "",
        after: " 0 0 0 0 0 0 0",
        without: "",
    };
    check(&rt, rt.alloc(), FREED, &parts, LINES)
}

// After a name it is out itself, and what is left out is out; that an unknown keeps its value is always in force.
#[test]
fn names_that_are_left_out(rt: HostRuntime) -> Result<(), Fail> {
    const LINES: &str = "
 0 3 0 8 0 0 0: -5
 0 4 0 21 0 0 0: -5 7
 0 4 0 21 0 0 0: 5 -7
";
    let parts = Parts {
        keep: "",
        after: " 0 3 0 6 0 0 0",
        without: " 0 4 0 21 0 0 0\n 0 6 0 17 0 0 0\n",
    };
    check(&rt, rt.alloc(), FREED, &parts, LINES)
}

// What is kept is in, left out or not.
#[test]
fn names_that_are_kept(rt: HostRuntime) -> Result<(), Fail> {
    const LINES: &str = "
 0 2 0 4 0 0 0: 4
 0 3 0 8 0 0 0: -5
 0 4 0 21 0 0 0: -5 7
 0 4 0 21 0 0 0: 5 -7
";
    let parts = Parts {
        keep: " 0 2 0 4 0 0 0\n 0 3 0 8 0 0 0\n",
        after: " 0 9 0 0 0 0 0",
        without: " 0 2 0 4 0 0 0\n",
    };
    check(&rt, rt.alloc(), FREED, &parts, LINES)
}

// All names from one place on, and what every scope has of the place before.
#[test]
fn names_from_a_place_on(rt: HostRuntime) -> Result<(), Fail> {
    const LINES: &str = "
 0 0 0 21 0 0 0: -3 5
 0 0 0 21 0 0 0: 3 -5
 0 1 0 2 1 0 0: -7 -8
 0 1 0 2 1 0 0: 5 -8
 0 1 0 2 1 0 0: 5 -7
 0 1 0 2 1 0 0: -5 7 8
 0 2 0 16 1 0 0: 2 -8
 0 2 0 16 1 0 0: -2 8
 0 2 0 17 0 0 0: -7
";
    let parts = Parts {
        keep: "",
        after: " 0 1 0 0 0 0 0",
        without: "",
    };
    check(&rt, rt.alloc(), HANDED, &parts, LINES)
}
