//! The answer on a text that is to show a verdict on a source.

ghost use Rattle.std.specs.Prelude.{◌≡◌, ◌≤◌, [], ℕ, List, IfOk, length};
ghost use Rattle.clouseau_core.specs.Answers.{IsOnText, IsTextAnswer, IsVerdictOnText};

use crate::answers::{Answer, on_err, on_out};
use crate::report::Verdict;
use crate::sources::unloaded;
use crate::texts::invalid_line;
use c_tree::Memory;
use conflict_proof::CheckError;
use io_edge::{Files, ReadError, read_file};
use source_program::{Refusal, line_on, load};
use std::alloc::Global;
use text_checker::verify;
use transfer_rules::Program;

/// The most bytes that a text on a source may have.
const MOST_TEXT_BYTES: usize = 268_435_456;

/// Whether the text under the second name shows a verdict on the source under the first.
pub(crate) fn verified<F: Files>(
    alloc: Global,
    files: &mut F,
    file: &str,
    text: &str,
) -> Result<Answer, Memory>
    ensures answer { IfOk result (λ a. IsOnText (F.held files.old) (F.faults files.old) (F.faults files.new) file.now text.now a.verdict a.out.items a.err.items) }
    ensures same { (n : List ℕ) → F.held files.new n ≡ F.held files.old n }
{
    match load(alloc, files, file) {
        Ok(program) => verified_file(alloc, files, &program, text),
        Err(error) => unloaded(alloc, error, file),
    }
}

/// Whether the text under a name shows a verdict on a program.
fn verified_file<F: Files>(
    alloc: Global,
    files: &mut F,
    program: &Program,
    name: &str,
) -> Result<Answer, Memory>
    ensures answer { IfOk result (λ a. IsTextAnswer program.now (F.held files.old) (F.faults files.old) (F.faults files.new) name.now a.verdict a.out.items a.err.items) }
    ensures same { (n : List ℕ) → F.held files.new n ≡ F.held files.old n }
    ensures later { F.faults files.old ≤ F.faults files.new }
{
    match read_file(alloc, files, name, MOST_TEXT_BYTES) {
        Ok(bytes) => verified_bytes(alloc, program, bytes.as_slice()),
        Err(ReadError::ReadFault) => {
            let line = line_on(alloc, b"cannot read ", name)?;
            Ok(on_err(alloc, Verdict::ReadFault, line))
        }
        Err(ReadError::TooLong) => {
            let line = line_on(alloc, b"too long: ", name)?;
            Ok(on_err(alloc, Verdict::Refused(Refusal::TooLong), line))
        }
        Err(ReadError::Memory) => Err(Memory),
    }
}

/// Whether the bytes show a verdict on a program.
fn verified_bytes(alloc: Global, program: &Program, bytes: &[u8]) -> Result<Answer, Memory>
    ensures { IfOk result (λ a. IsVerdictOnText program.now bytes.now a.verdict a.out.items × (a.err.items ≡ [])) }
{
    match verify(alloc, program, bytes) {
        Ok(()) => {
            let line = Vec::from_slice(alloc, b"valid\n")?;
            Ok(on_out(alloc, Verdict::Valid, line))
        }
        Err(CheckError::Invalid(bad)) => {
            let line = invalid_line(alloc, bad)?;
            Ok(on_out(alloc, Verdict::Invalid(bad), line))
        }
        Err(CheckError::Memory) => Err(Memory),
    }
}
