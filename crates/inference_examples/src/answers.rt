// The calls that the tests are about, over the text of a source. Each stands here once, so that few proofs read its whole contract.
ghost use Rattle.std.specs.Prelude.{◌≡◌, ◌<◌, ◌≤◌, [], IsTrue};
ghost use Rattle.verdict_meaning.specs.Derivations.{cost_of};

use call_summary::{Inferred, infer, infer_in, infer_with};
use conflict_proof::{Derivation, Line, Lines, Names};
use example_sources::MOST_BYTES;
use source_program::load_source;
use std::alloc::Global;
use std::test::Fail;
use transfer_rules::{Program, Scope};

/// A budget that is not spent here.
pub const AMPLE: u64 = 4_000_000;

/// The most words that known lines may cost.
const MOST_WORDS: u64 = 268_435_456;

/// Which of the three answers it is.
#[derive(Clone, Copy, Debug, PartialEq, Eq)]
pub enum Verdict {
    Accepted,
    Refuted,
    Undecided,
}

/// The program of a source that breaks no rule and is within the limits.
fn program_of(alloc: Global, source: &str) -> Result<Program, Fail> {
    if source.len() > MOST_BYTES {
        return Err(Fail::from("too long"));
    }
    Ok(load_source(alloc, source.as_bytes())?)
}

fn verdict_of(inferred: &Inferred) -> Verdict {
    match inferred {
        Inferred::Accepted(_) => Verdict::Accepted,
        Inferred::Refuted(_, _) => Verdict::Refuted,
        Inferred::Undecided(_) => Verdict::Undecided,
    }
}

/// The verdict on a source.
pub fn verdict_on(alloc: Global, source: &str) -> Result<Verdict, Fail> {
    let program = program_of(alloc, source)?;
    let inferred = infer(alloc, &program, AMPLE)?;
    Ok(verdict_of(&inferred))
}

/// The names that the refutation of a source uses.
pub fn used_names(alloc: Global, source: &str) -> Result<Names, Fail> {
    let program = program_of(alloc, source)?;
    match infer(alloc, &program, AMPLE)? {
        Inferred::Refuted(_, names) => Ok(names),
        _ => Err(Fail::from("not refuted")),
    }
}

/// The verdict on a source in a scope.
pub fn verdict_in(alloc: Global, source: &str, scope: &Scope) -> Result<Verdict, Fail> {
    let program = program_of(alloc, source)?;
    let inferred = infer_in(alloc, &program, AMPLE, scope)?;
    Ok(verdict_of(&inferred))
}

/// No lines.
fn no_lines(alloc: Global) -> Derivation
    ensures { result.lines ≡ [] }
{
    Derivation {
        lines: Lines {
            items: Vec::new(alloc),
        },
    }
}

/// Whether lines cost no more than known ones may.
fn are_few(lines: &[Line]) -> bool
    ensures { IsTrue result → cost_of lines.now ≤ 268435456 }
{
    let mut words = 0u64;
    for line in lines {
        words += line.lits.lits().len() as u64 + 1;
        if words > MOST_WORDS {
            return false;
        }
    }
    true
}

/// The verdicts on a source where no lines are known, under the first budget, and where those of that answer are, under the second.
pub fn verdicts_in_turn(
    alloc: Global,
    source: &str,
    first: u64,
    second: u64,
) -> Result<[Verdict; 2], Fail>
    requires first { 0 < first }
    requires first_budget { first ≤ 100000000 }
    requires second { 0 < second }
    requires second_budget { second ≤ 100000000 }
{
    let program = program_of(alloc, source)?;
    let none = no_lines(alloc);
    let before = infer_with(alloc, &program, first, &none)?;
    if !are_few(before.lines.lines.items.as_slice()) {
        return Err(Fail::from("too many lines"));
    }
    let after = infer_with(alloc, &program, second, &before.lines)?;
    Ok([verdict_of(&before.inferred), verdict_of(&after.inferred)])
}
