ghost use Rattle.std.specs.Prelude.{◌≡◌, ◌≤◌, ℕ, List, IfOk, IfErr};
ghost use Rattle.source_program.specs.Texts.{refusal_line};
ghost use Rattle.source_program.specs.Loading.{IsLoaded, IsLoadFailure, IsSaid};

use crate::failure::Failure;
use crate::lines::refusal_line;
use crate::refusal::Refusal;
use crate::source::{MOST_BYTES, load_source};
use c_tree::Memory;
use io_edge::{Bytes, Files, ReadError, read_file};
use std::alloc::Global;
use thiserror::Error;
use transfer_rules::Program;

/// Why no program was loaded.
#[derive(Debug, Drop, Error)]
pub enum LoadError {
    /// Want of memory.
    #[error("Memory")]
    Memory,
    /// The files hold nothing under the name, or their count of faults rose.
    #[error("ReadFault")]
    ReadFault,
    /// The source is refused: why, and the line that says so.
    #[error("Refused")]
    Refused { refusal: Refusal, text: Bytes },
}

/// The program of the source that the files hold under a name.
///
/// ReadFault comes where the files tell that they hold nothing under the name, and else only where their count of faults rose
/// in this call. Refused has its cause: more than 4,194,304 bytes, or that of the bytes. What is held under a name stays as it
/// was.
pub fn load<F: Files>(alloc: Global, files: &mut F, name: &str) -> Result<Program, LoadError>
    ensures program { IfOk result (λ p. IsLoaded (F.held files.old name.now) p) }
    ensures cause { IfErr result (IsLoadFailure (F.held files.old name.now) name.now (F.faults files.old) (F.faults files.new)) }
    ensures same { (n : List ℕ) → F.held files.new n ≡ F.held files.old n }
    ensures later { F.faults files.old ≤ F.faults files.new }
{
    let bytes = match read_file(alloc, files, name, MOST_BYTES) {
        Ok(bytes) => bytes,
        Err(ReadError::ReadFault) => return Err(LoadError::ReadFault),
        Err(ReadError::TooLong) => return Err(refused(alloc, Refusal::TooLong, b"", name)),
        Err(ReadError::Memory) => return Err(LoadError::Memory),
    };
    match load_source(alloc, bytes.as_slice()) {
        Ok(program) => Ok(program),
        Err(Failure::Refused(refusal)) => Err(refused(alloc, refusal, bytes.as_slice(), name)),
        Err(Failure::Memory) => Err(LoadError::Memory),
    }
}

/// The refusal of a source of that name with its line, or want of memory.
fn refused(alloc: Global, refusal: Refusal, source: &[u8], name: &str) -> LoadError
    ensures { IsSaid refusal (refusal_line source.now name.now refusal) result }
{
    match refusal_line(alloc, refusal, source, name) {
        Ok(items) => LoadError::Refused {
            refusal,
            text: Bytes { items },
        },
        Err(Memory) => LoadError::Memory,
    }
}
