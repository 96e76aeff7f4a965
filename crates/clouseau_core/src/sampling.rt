//! The answer on a sample.

ghost use Rattle.std.specs.Prelude.{◌≡◌, ◌≤◌, [], IfOk};
ghost use Rattle.source_program.specs.Texts.{refusal_line};
ghost use Rattle.clouseau_core.specs.declared.report.Verdict.{Verdict};
ghost use Rattle.clouseau_core.specs.Answers.{IsOnSample};

use crate::answers::{Answer, on_err};
use crate::judging::judged;
use crate::report::Verdict;
use crate::way::Way;
use c_tree::Memory;
use command_words::sample_source;
use source_program::{Failure, Refusal, load_source, refusal_line};
use std::alloc::Global;

/// The verdict on the sample of so many procedures.
pub(crate) fn sampled(alloc: Global, count: u32, budget: u64) -> Result<Answer, Memory>
    requires some { 1 ≤ count }
    requires most { count ≤ 4000 }
    requires budget { budget ≤ 100000000 }
    ensures { IfOk result (λ a. IsOnSample count budget a.verdict a.out.items a.err.items) }
{
    let source = sample_source(alloc, count)?;
    match load_source(alloc, source.as_slice()) {
        Ok(program) => judged(alloc, Way::Sample(count), &program, budget),
        Err(Failure::Refused(refusal)) => refused(alloc, refusal, source.as_slice()),
        Err(Failure::Memory) => Err(Memory),
    }
}

/// The refusal of a source that has no name.
fn refused(alloc: Global, refusal: Refusal, source: &[u8]) -> Result<Answer, Memory>
    ensures { IfOk result (λ a. (a.verdict ≡ Verdict.Refused refusal) × (a.out.items ≡ []) × (a.err.items ≡ refusal_line source.now [] refusal)) }
{
    let line = refusal_line(alloc, refusal, source, "")?;
    Ok(on_err(alloc, Verdict::Refused(refusal), line))
}
