ghost use Rattle.std.specs.Prelude.{◌≡◌, ◌+◌, ◌<◌, ◌≤◌, ◌⊎◌, ℕ, List, length, IfOk, OnOk, OnErr, Err};
ghost use Rattle.std.specs.Io.KnownBytes.{Appends, IsAtEnd};
ghost use Rattle.io_edge.specs.Held.{Absent};
ghost use Rattle.io_edge.specs.Faults.{Rose};
ghost use Rattle.io_edge.specs.Reading.{IsContent, IsOver, TakesAtMost};
ghost use Rattle.io_edge.specs.Writing.{AppendsPart};

use crate::{Failed, Files, ReadError, Sink};
use std::alloc::Global;

// The most bytes that one call asks of a file.
const PIECE: usize = 4096;

/// The bytes of the file of a name, of which there may be at most `most`.
///
/// ReadFault comes where the files tell that they hold nothing under the name, and else only where
/// their count of faults rose in this call. TooLong comes only where the file gave more than `most`
/// bytes, and Ok only where it gave at most so many. At most `most + 1` bytes are taken: all of
/// them at Ok, and just `most + 1` at TooLong. What is held under a name stays as it was.
pub fn read_file<F: Files>(
    alloc: Global,
    files: &mut F,
    name: &str,
    most: usize,
) -> Result<Vec<u8>, ReadError>
    ensures same { (n : List ℕ) → F.held files.new n ≡ F.held files.old n }
    ensures later { F.faults files.old ≤ F.faults files.new }

    ensures content { IfOk result (λ v. IsContent (F.held files.old name.now) v.items) }
    ensures fits { IfOk result (λ v. length v.items ≤ most) }
    ensures end { OnOk result (IsAtEnd (F.left files.new)) }

    ensures too_long { result ≡ Err ReadError.TooLong →
        IsOver (F.held files.old name.now) (F.left files.new) most }
    ensures fault { result ≡ Err ReadError.ReadFault →
        (F.held files.old name.now ≡ Absent) ⊎ Rose (F.faults files.old) (F.faults files.new) }
    ensures absent { F.held files.old name.now ≡ Absent → result ≡ Err ReadError.ReadFault }

    // What a failure leaves. After one to open the file no byte is left.
    ensures taken_at_fault { result ≡ Err ReadError.ReadFault → IsAtEnd (F.left files.new)
        ⊎ TakesAtMost (F.held files.old name.now) (F.left files.new) (most + 1) }
    ensures taken_at_memory { result ≡ Err ReadError.Memory →
        TakesAtMost (F.held files.old name.now) (F.left files.new) (most + 1) }
{
    let Ok(()) = files.open(name) else {
        return Err(ReadError::ReadFault);
    };
    let mut bytes = Vec::new(alloc);
    let mut piece = [0u8; PIECE];
    loop {
        let room = (most - bytes.len()).min(PIECE - 1) + 1;
        let Ok(n) = files.next(&mut piece[..room]) else {
            return Err(ReadError::ReadFault);
        };
        if n == 0 {
            return Ok(bytes);
        }
        if n > most - bytes.len() {
            return Err(ReadError::TooLong);
        }
        let Ok(()) = bytes.extend_from_slice(&piece[..n]) else {
            return Err(ReadError::Memory);
        };
    }
}

/// Gives all of the bytes to a sink, in as many calls as it takes, and takes no memory.
///
/// Fails only where the sink's count of faults rose in this call. The sink was then given a part of
/// the bytes, from the front on. Where there are no bytes to give, the sink is not called.
pub fn write_all<S: Sink>(sink: &mut S, bytes: &[u8]) -> Result<(), Failed>
    ensures all { OnOk result (Appends (S.given sink.old) (S.given sink.new) bytes.now) }
    ensures part { OnErr result (AppendsPart (S.given sink.old) (S.given sink.new) bytes.now) }
    ensures later { S.faults sink.old ≤ S.faults sink.new }
    ensures cause { OnErr result (Rose (S.faults sink.old) (S.faults sink.new)) }
{
    let mut at = 0;
    while at < bytes.len() {
        at += sink.put(&bytes[at..])?;
    }
    Ok(())
}
