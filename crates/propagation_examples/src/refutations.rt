// Refutations by propagation alone, under budgets of words.
use crate::programs::{all_names, program_of};
use crate::sources::{ACCEPTED, LEAK, MADE};
use std::alloc::Global;
use std::process::Abort;
use std::test::Fail;
use unit_answers::closures;
use unit_refutation::{Refutation, refutation};

/// Whether lines refute, and how many they are.
fn outcome(made: &Refutation) -> (bool, usize) {
    match made {
        Refutation::Whole(derivation) => (true, derivation.lines.items.len()),
        Refutation::Over(derivation) => (false, derivation.lines.items.len()),
    }
}

/// The outcome for a source under a budget; none where propagation refutes nothing.
fn refuted(alloc: Global, source: &str, budget: u32) -> Result<Option<(bool, usize)>, Fail> {
    let program = program_of(alloc, source)?;
    let scope = all_names(alloc);
    let sets = closures(alloc, &program, &scope)?;
    let made = refutation(alloc, &program, &scope, &sets, budget)?;
    Ok(made.as_ref().map(outcome))
}

/// Fails where the lines for a source under a budget do not refute, or are not so many.
fn check_whole(
    rt: &impl Abort,
    alloc: Global,
    source: &str,
    budget: u32,
    lines: usize,
) -> Result<(), Fail> {
    let found = refuted(alloc, source, budget)?;
    assert_eq!(rt; found, Some((true, lines)), "{budget} words in {source}");
    Ok(())
}

/// Fails where these are not the lines up to the first that costs more than the budget.
fn check_over(
    rt: &impl Abort,
    alloc: Global,
    source: &str,
    budget: u32,
    lines: usize,
) -> Result<(), Fail> {
    let found = refuted(alloc, source, budget)?;
    assert_eq!(rt; found, Some((false, lines)), "{budget} words in {source}");
    Ok(())
}

#[test]
fn nothing_is_refuted_where_owners_can_be_told(rt: HostRuntime) -> Result<(), Fail> {
    for source in ACCEPTED {
        let found = refuted(rt.alloc(), source, 1)?;
        assert!(rt; found.is_none(), "{source}");
    }
    Ok(())
}

// The new object's clause, that of the exit, the one that keeps the variable's bit between them, one resolvent, and the two
// empty lines: 2 + 2 + 3 + 2 + 1 + 1 words.
#[test]
fn leak(rt: HostRuntime) -> Result<(), Fail> {
    let alloc = rt.alloc();
    check_whole(&rt, alloc, LEAK, 256, 6)?;
    check_whole(&rt, alloc, LEAK, 11, 6)?;
    check_over(&rt, alloc, LEAK, 10, 6)?;
    check_over(&rt, alloc, LEAK, 9, 5)?;
    check_over(&rt, alloc, LEAK, 1, 1)
}

// In `mk` the clauses of the new object, of the copy to the result and of the exit, twice, and a resolvent for each literal but
// the first, and one between: 2 + 4 + 3 + 2 + 2 + 3 + 2 words. In `main` what is carried to the call, the clauses of the result,
// of the variable's bit and of the exit, two resolvents and the empty line: 2 + 3 + 2 + 3 + 2 + 2 + 1. In the root 1. They are 34
// in all; the bound for two groups of at most 11 unknowns is 16 * (2 + 1) * (11 + 2).
#[test]
fn object_that_is_handed_out(rt: HostRuntime) -> Result<(), Fail> {
    let alloc = rt.alloc();
    check_whole(&rt, alloc, MADE, 624, 15)?;
    check_whole(&rt, alloc, MADE, 34, 15)?;
    check_over(&rt, alloc, MADE, 33, 15)?;
    check_over(&rt, alloc, MADE, 1, 1)
}
