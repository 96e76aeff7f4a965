//! The answer on the source in a file.

ghost use Rattle.std.specs.Prelude.{◌≡◌, ◌≤◌, [], ℕ, List, IfOk};
ghost use Rattle.clouseau_core.specs.Answers.{IsOnFile, IsErrorText};

use crate::answers::{Answer, on_err};
use crate::judging::judged;
use crate::report::Verdict;
use crate::way::Way;
use c_tree::Memory;
use io_edge::Files;
use source_program::{LoadError, line_on, load};
use std::alloc::Global;

/// The verdict on the source under a name, told in this way, or why there is none.
pub(crate) fn judged_file<F: Files>(
    alloc: Global,
    files: &mut F,
    name: &str,
    way: Way,
    budget: u64,
) -> Result<Answer, Memory>
    requires { budget ≤ 100000000 }
    ensures answer { IfOk result (λ a. IsOnFile way budget (F.held files.old) (F.faults files.old) (F.faults files.new) name.now a.verdict a.out.items a.err.items) }
    ensures same { (n : List ℕ) → F.held files.new n ≡ F.held files.old n }
{
    match load(alloc, files, name) {
        Ok(program) => judged(alloc, way, &program, budget),
        Err(error) => unloaded(alloc, error, name),
    }
}

/// The answer where no program was loaded.
pub(crate) fn unloaded(alloc: Global, error: LoadError, name: &str) -> Result<Answer, Memory>
    ensures { IfOk result (λ a. IsErrorText name.now error a.verdict a.err.items × (a.out.items ≡ [])) }
{
    match error {
        LoadError::Memory => Err(Memory),
        LoadError::ReadFault => {
            let line = line_on(alloc, b"cannot read ", name)?;
            Ok(on_err(alloc, Verdict::ReadFault, line))
        }
        LoadError::Refused { refusal, text } => {
            Ok(on_err(alloc, Verdict::Refused(refusal), text.items))
        }
    }
}
