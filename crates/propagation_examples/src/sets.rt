// The literals that propagation forces in a group or in the root, and how many unknowns these have.
ghost use Rattle.std.specs.Prelude.{◌≡◌, ◌≤◌, length, nat_le};

use crate::programs::{all_names, program_of};
use crate::sources::{APART, FREED, HANDED, LEAK, MADE};
use std::alloc::{AllocError, Global};
use std::process::Abort;
use std::test::Fail;
use transfer_rules::Program;
use unit_answers::{Layout, closures, layout};
use zo_core::Lit;

/// Literals, each after a space.
fn lits_text(alloc: Global, lits: &[Lit]) -> Result<String, AllocError> {
    let mut text = String::new(alloc);
    for lit in lits {
        let number = lit.0;
        write!(text, " {number}")?;
    }
    Ok(text)
}

/// Whether a group has this number, or the root.
fn is_group_or_root(program: &Program, group: u32) -> bool
    ensures { result ≡ nat_le group (length program.now.groups) }
{
    group as usize <= program.groups.items.len()
}

/// What propagation forces in a group or in the root.
fn forced(alloc: Global, program: &Program, group: u32) -> Result<String, Fail>
    requires { group ≤ length program.now.groups }
{
    let scope = all_names(alloc);
    let sets = closures(alloc, program, &scope)?;
    let text = lits_text(alloc, sets.of(group))?;
    Ok(text)
}

/// The same where literals are given.
fn forced_by(alloc: Global, program: &Program, group: u32, given: &[Lit]) -> Result<String, Fail>
    requires { group ≤ length program.now.groups }
{
    let scope = all_names(alloc);
    let sets = closures(alloc, program, &scope)?;
    let lits = sets.closed(alloc, program, &scope, group, given)?;
    let text = lits_text(alloc, &lits)?;
    Ok(text)
}

/// Fails where other literals are forced in a group of a source.
fn check(rt: &impl Abort, alloc: Global, source: &str, group: u32, lits: &str) -> Result<(), Fail> {
    let program = program_of(alloc, source)?;
    if !is_group_or_root(&program, group) {
        return Err(Fail::from("no such group"));
    }
    let text = forced(alloc, &program, group)?;
    assert_eq!(rt; text.as_str(), lits, "in group {group} of {source}");
    Ok(())
}

/// Fails where others are forced by literals that are given.
fn check_given(
    rt: &impl Abort,
    alloc: Global,
    source: &str,
    group: u32,
    given: &[Lit],
    lits: &str,
) -> Result<(), Fail> {
    let program = program_of(alloc, source)?;
    if !is_group_or_root(&program, group) {
        return Err(Fail::from("no such group"));
    }
    let text = forced_by(alloc, &program, group, given)?;
    assert_eq!(rt; text.as_str(), lits, "in group {group} of {source}");
    Ok(())
}

#[test]
fn sets_of_groups(rt: HostRuntime) -> Result<(), Fail> {
    let alloc = rt.alloc();
    check(&rt, alloc, FREED, 0, " 4 -5 -7")?;
    check(&rt, alloc, LEAK, 0, " 4 -4 6 -6")?;
    check(&rt, alloc, HANDED, 0, " -7")?;
    check(&rt, alloc, HANDED, 1, " 1 2 -9 10 11 13 -15 -19")?;
    check(&rt, alloc, MADE, 0, " 1 8 -10 11")?;
    check(&rt, alloc, MADE, 1, " 1 -1 5 -5 7 -7")
}

// What the groups say of fields and of the interfaces of their first procedures.
#[test]
fn sets_of_the_root(rt: HostRuntime) -> Result<(), Fail> {
    let alloc = rt.alloc();
    check(&rt, alloc, FREED, 1, "")?;
    check(&rt, alloc, HANDED, 2, "")?;
    check(&rt, alloc, MADE, 2, " 1")?;
    check(&rt, alloc, APART, 3, " 1 -1 2 3")
}

#[test]
fn sets_with_literals_given(rt: HostRuntime) -> Result<(), Fail> {
    let alloc = rt.alloc();
    check_given(&rt, alloc, FREED, 0, &[], " 4 -5 -7")?;
    check_given(&rt, alloc, FREED, 0, &[Lit(1)], " 1 4 -5 -7")?;
    check_given(&rt, alloc, HANDED, 0, &[Lit(1)], " 1 2 3 5 -7 8")?;
    check_given(&rt, alloc, HANDED, 0, &[Lit(-8)], " -1 -2 -3 -5 -7 -8")?;
    check_given(&rt, alloc, HANDED, 2, &[Lit(2), Lit(-1)], " -1 2")
}

/// How many unknowns each group has and last the root, each number after a space.
fn counts_text(alloc: Global, layout: &Layout) -> Result<String, AllocError> {
    let mut text = String::new(alloc);
    for group in &layout.groups {
        let count = group.count;
        write!(text, " {count}")?;
    }
    Ok(text)
}

fn check_counts(rt: &impl Abort, alloc: Global, source: &str, counts: &str) -> Result<(), Fail> {
    let program = program_of(alloc, source)?;
    let layout = layout(alloc, &program)?;
    let text = counts_text(alloc, &layout)?;
    assert_eq!(rt; text.as_str(), counts, "in {source}");
    Ok(())
}

#[test]
fn unknowns_of_groups(rt: HostRuntime) -> Result<(), Fail> {
    let alloc = rt.alloc();
    check_counts(&rt, alloc, FREED, " 7 0")?;
    check_counts(&rt, alloc, HANDED, " 8 20 2")?;
    check_counts(&rt, alloc, MADE, " 11 7 1")
}
