//! The texts of verdicts.

ghost use Rattle.std.specs.Prelude.{◌≡◌, ◌++◌, IfOk, OnOk, decimal};
ghost use Rattle.clouseau_core.specs.Texts.{undecided_line, invalid_line, reason_word, sample_line};
ghost use Rattle.clouseau_core.specs.Judged.{IsCheckText, proved_text, verdict_word, IsTextBy};

use crate::way::Way;
use annotate::{annotation, conflict_text};
use c_tree::Memory;
use call_summary::Inferred;
use conflict_proof::{BadLine, Reason};
use itoa::Buffer;
use std::alloc::Global;
use transfer_rules::Program;

/// The text that `check` gives to `out` for what was inferred of a program under a budget: who owns, by a certificate; which
/// constraints are in conflict; or that the budget was spent. The one refusal is want of memory.
pub fn verdict_text(
    alloc: Global,
    program: &Program,
    inferred: &Inferred,
    budget: u64,
) -> Result<Vec<u8>, Memory>
    ensures { IfOk result (λ text. IsCheckText program.now budget inferred.now text.items) }
{
    match inferred {
        Inferred::Accepted(certificate) => annotation(alloc, program, certificate),
        Inferred::Refuted(_, used) => conflict_text(alloc, program, used),
        Inferred::Undecided(_) => undecided_line(alloc, budget),
    }
}

/// The text that tells what was inferred.
pub(crate) fn text_by(
    alloc: Global,
    way: Way,
    program: &Program,
    inferred: &Inferred,
    budget: u64,
) -> Result<Vec<u8>, Memory>
    ensures { IfOk result (λ text. IsTextBy way program.now budget inferred.now text.items) }
{
    match way {
        Way::Check => verdict_text(alloc, program, inferred, budget),
        Way::Prove => proved_text(alloc, inferred),
        Way::Sample(count) => sample_line(alloc, count, verdict_word(inferred)),
    }
}

/// The certificate's text, or the derivation's.
fn proved_text(alloc: Global, inferred: &Inferred) -> Result<Vec<u8>, Memory>
    ensures { IfOk result (λ text. text.items ≡ proved_text inferred.now) }
{
    match inferred {
        Inferred::Accepted(certificate) => own_cert::print(alloc, certificate),
        Inferred::Refuted(derivation, _) => conflict_proof::print(alloc, derivation),
        Inferred::Undecided(derivation) => conflict_proof::print(alloc, derivation),
    }
}

fn verdict_word(inferred: &Inferred) -> &'static [u8]
    ensures { result.now ≡ verdict_word inferred.now }
{
    match inferred {
        Inferred::Accepted(_) => b"accepted",
        Inferred::Refuted(_, _) => b"conflict",
        Inferred::Undecided(_) => b"undecided",
    }
}

fn sample_line(alloc: Global, count: u32, word: &[u8]) -> Result<Vec<u8>, Memory>
    ensures { IfOk result (λ line. line.items ≡ sample_line count word.now) }
{
    let mut line = Vec::from_slice(alloc, b"sample ")?;
    push_number(u64::from(count), &mut line)?;
    line.extend_from_slice(b" ")?;
    line.extend_from_slice(word)?;
    line.extend_from_slice(b"\n")?;
    Ok(line)
}

fn undecided_line(alloc: Global, budget: u64) -> Result<Vec<u8>, Memory>
    ensures { IfOk result (λ line. line.items ≡ undecided_line budget) }
{
    let mut line = Vec::from_slice(alloc, b"undecided ")?;
    push_number(budget, &mut line)?;
    line.extend_from_slice(b"\n")?;
    Ok(line)
}

/// The line that names the first fault of a text.
pub(crate) fn invalid_line(alloc: Global, bad: BadLine) -> Result<Vec<u8>, Memory>
    ensures { IfOk result (λ line. line.items ≡ invalid_line bad) }
{
    let mut line = Vec::from_slice(alloc, b"invalid line ")?;
    push_number(bad.line, &mut line)?;
    line.extend_from_slice(b": ")?;
    line.extend_from_slice(reason_word(bad.reason))?;
    line.extend_from_slice(b"\n")?;
    Ok(line)
}

fn reason_word(reason: Reason) -> &'static [u8]
    ensures { result.now ≡ reason_word reason }
{
    match reason {
        Reason::Form => b"Form",
        Reason::Range => b"Range",
        Reason::Site => b"Site",
        Reason::Twice => b"Twice",
        Reason::Missing => b"Missing",
        Reason::Broken => b"Broken",
        Reason::Axiom => b"Axiom",
        Reason::Resolvent => b"Resolvent",
        Reason::Inst => b"Inst",
        Reason::NoRefutation => b"NoRefutation",
    }
}

fn push_number(number: u64, text: &mut Vec<u8>) -> Result<(), Memory>
    ensures { OnOk result (text.new.items ≡ text.old.items ++ decimal number) }
{
    let mut digits = Buffer::new();
    text.extend_from_slice(digits.format(number).as_bytes())?;
    Ok(())
}
