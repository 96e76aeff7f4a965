// Names and clauses as text.
ghost use Rattle.std.specs.Prelude.{◌<◌, length};

use conflict_proof::{ConstraintName, fill};
use std::alloc::{AllocError, Global};
use std::test::Fail;
use transfer_rules::{Program, clauses_of};
use zo_core::{Clause, Lit};

/// The name whose numbers a line begins with, each after a space.
pub fn read_name(line: &str) -> Result<ConstraintName, Fail> {
    let mut numbers = [0; 7];
    if fill(line.as_bytes(), &mut numbers).is_none() {
        return Err(Fail::from("no name"));
    }
    let [proc, place, edge, rule, slot, field, other] = numbers;
    Ok(ConstraintName {
        proc,
        place,
        edge: u8::try_from(edge)?,
        rule: u8::try_from(rule)?,
        slot,
        field,
        other,
    })
}

/// Adds the numbers of a name, each after a space.
pub fn push_name(text: &mut String, name: &ConstraintName) -> Result<(), AllocError> {
    let (proc, place, edge, rule) = (name.proc, name.place, name.edge, name.rule);
    let (slot, field, other) = (name.slot, name.field, name.other);
    write!(text, " {proc} {place} {edge} {rule} {slot} {field} {other}")
}

/// Adds literals, each after a space.
pub fn push_lits(text: &mut String, lits: &[Lit]) -> Result<(), AllocError> {
    for lit in lits {
        let number = lit.0;
        write!(text, " {number}")?;
    }
    Ok(())
}

/// Adds clauses: a colon before the first, semicolons before the others.
fn push_clauses(text: &mut String, clauses: &[Clause]) -> Result<(), AllocError> {
    let mut mark = ":";
    for clause in clauses {
        text.push_str(mark)?;
        push_lits(text, clause.lits())?;
        mark = ";";
    }
    Ok(())
}

/// Adds a line: a name, and the clauses that a group has of it, or `none` where it has no such constraint.
pub fn push_found(
    alloc: Global,
    text: &mut String,
    program: &Program,
    group: u32,
    name: &ConstraintName,
) -> Result<(), Fail>
    requires { group < length program.now.groups }
{
    push_name(text, name)?;
    match clauses_of(alloc, program, group, name)? {
        Some(clauses) => push_clauses(text, &clauses)?,
        None => text.push_str(": none")?,
    }
    text.push_str("\n")?;
    Ok(())
}
