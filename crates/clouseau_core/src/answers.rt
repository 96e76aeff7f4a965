//! The answer to the words.

ghost use Rattle.std.specs.Prelude.{◌≡◌, [], ℕ, List, IfOk};
ghost use Rattle.command_words.specs.Asked.{HasRanges, task_of};
ghost use Rattle.clouseau_core.specs.declared.report.Verdict.{Verdict};
ghost use Rattle.clouseau_core.specs.Texts.{usage_line};
ghost use Rattle.clouseau_core.specs.Answers.{IsAnswer, IsDone};

use crate::report::Verdict;
use crate::sampling::sampled;
use crate::sources::judged_file;
use crate::verifying::verified;
use crate::way::Way;
use c_tree::Memory;
use command_words::{Command, Words, Work, asked};
use io_edge::Files;
use std::alloc::Global;

/// A verdict with its texts, one of which is empty.
#[derive(Drop)]
pub(crate) struct Answer {
    pub(crate) verdict: Verdict,
    pub(crate) out: Vec<u8>,
    pub(crate) err: Vec<u8>,
}

/// What the words are answered.
pub(crate) fn answer_to<F: Files>(
    alloc: Global,
    words: &Words,
    files: &mut F,
) -> Result<Answer, Memory>
    ensures answer { IfOk result (λ a. IsAnswer words.now (F.held files.old) (F.faults files.old) (F.faults files.new) a.verdict a.out.items a.err.items) }
    ensures same { (n : List ℕ) → F.held files.new n ≡ F.held files.old n }
{
    let found = asked(alloc, words)?;
    match found {
        Some(command) => done(alloc, command, files),
        None => unasked(alloc),
    }
}

/// What words that are no command are answered.
fn unasked(alloc: Global) -> Result<Answer, Memory>
    ensures { IfOk result (λ a. (a.verdict ≡ Verdict.Usage) × (a.out.items ≡ []) × (a.err.items ≡ usage_line)) }
{
    let line = Vec::from_slice(
        alloc,
        b"usage: clouseau check FILE, prove FILE, verify FILE TEXT or sample N, with --budget WORDS\n",
    )?;
    Ok(on_err(alloc, Verdict::Usage, line))
}

/// What a command is answered.
fn done<F: Files>(alloc: Global, command: Command, files: &mut F) -> Result<Answer, Memory>
    requires { HasRanges command }
    ensures answer { IfOk result (λ a. IsDone (task_of command.entry.work) command.entry.budget (F.held files.old) (F.faults files.old) (F.faults files.new) a.verdict a.out.items a.err.items) }
    ensures same { (n : List ℕ) → F.held files.new n ≡ F.held files.old n }
{
    let budget = command.budget;
    match command.work {
        Work::Check { file } => judged_file(alloc, files, file, Way::Check, budget),
        Work::Prove { file } => judged_file(alloc, files, file, Way::Prove, budget),
        Work::Verify { file, text } => verified(alloc, files, file, text),
        Work::Sample { count } => sampled(alloc, count, budget),
    }
}

/// An answer whose text is on `out`.
pub(crate) fn on_out(alloc: Global, verdict: Verdict, out: Vec<u8>) -> Answer
    ensures { (result.verdict ≡ verdict) × (result.out.items ≡ out.items) × (result.err.items ≡ []) }
{
    Answer {
        verdict,
        out,
        err: Vec::new(alloc),
    }
}

/// An answer whose text is on `err`.
pub(crate) fn on_err(alloc: Global, verdict: Verdict, err: Vec<u8>) -> Answer
    ensures { (result.verdict ≡ verdict) × (result.out.items ≡ []) × (result.err.items ≡ err.items) }
{
    Answer {
        verdict,
        out: Vec::new(alloc),
        err,
    }
}
