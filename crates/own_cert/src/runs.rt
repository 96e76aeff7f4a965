//! Runs of places, and the room of a certificate's second text.

ghost use Rattle.std.specs.Prelude.{◌≡◌, ◌≤◌, ◌<◌, ◌+◌, ◌++◌, ◌∷◌, [], length, take, OnOk, MatchOption};
ghost use Rattle.std.specs.List.{All};
ghost use Rattle.own_cert.specs.Text.{goes_on, printed_version};
ghost use Rattle.own_cert.specs.Runs.{rows_of, room_after, room_after_rows, after_last, more_of_run};
ghost use Rattle.own_cert.specs.Values.{IsRow};

use crate::certificate::{Certificate, PlaceBits};
use crate::lines::{Run, Version};
use crate::lists::{Bits, Rows};
use c_tree::Memory;
use std::alloc::Global;

/// How many places, and how many bits of places, still fit.
#[derive(Clone, Copy)]
pub(crate) struct Room {
    pub places: usize,
    pub bits: usize,
}

/// The text that is printed: the second one where it has room for the certificate.
pub(crate) fn printed_version(c: &Certificate) -> Version
    ensures { result ≡ printed_version c.now }
{
    let mut room = Room {
        places: 1 << 24,
        bits: 1 << 28,
    };
    for instance in &c.instances.items {
        match room_after_rows(room, &instance.places.items) {
            Some(left) => room = left,
            None => return Version::First,
        }
    }
    Version::Second
}

/// The room that rows leave, and None where they don't fit.
fn room_after_rows(room: Room, rows: &[PlaceBits]) -> Option<Room>
    ensures { result ≡ room_after_rows room rows.now }
{
    let mut bits = room.bits;
    for row in rows {
        bits = bits.checked_sub(row.bits.items.len())?;
    }
    let places = room.places.checked_sub(rows.len())?;
    Some(Room { places, bits })
}

/// The room that a run leaves, and None where it doesn't fit.
pub(crate) fn room_after(room: Room, run: &Run) -> Option<Room>
    requires { run.now.first ≤ run.now.last }
    ensures { result ≡ room_after room run.now }
{
    let count = (run.last - run.first) as usize + 1;
    let places = room.places.checked_sub(count)?;
    let bits = room
        .bits
        .checked_sub(run.bits.items.len().checked_mul(count)?)?;
    Some(Room { places, bits })
}

/// Whether places that begin so go on where a row ends.
fn goes_on(row: &PlaceBits, proc: u32, first: u32, bits: &[bool]) -> bool
    ensures { result ≡ goes_on row.now (record { proc = proc; first = first; last = first; bits = bits.now }) }
{
    row.proc == proc && row.place as u64 + 1 == first as u64 && row.bits.items.as_slice() == bits
}

/// Whether a run goes on where rows end.
pub(crate) fn after_last(rows: &[PlaceBits], run: &Run) -> bool
    ensures { result ≡ after_last rows.now run.now }
{
    match rows.last() {
        Some(row) => goes_on(row, run.proc, run.first, &run.bits.items),
        None => false,
    }
}

/// How many rows after a row go on with its run.
pub(crate) fn more_of_run(row: &PlaceBits, rows: &[PlaceBits]) -> usize
    ensures count { result ≡ more_of_run row.now rows.now }
    ensures within { result ≤ length rows.now }
    ensures is { All IsRow (take result rows.now) }
{
    let mut last = row;
    let mut n = 0;
    for next in rows {
        if !goes_on(last, next.proc, next.place, &next.bits.items) {
            return n;
        }
        last = next;
        n += 1;
    }
    n
}

/// Adds the rows of a run.
pub(crate) fn push_run(alloc: Global, rows: &mut Rows, run: Run) -> Result<(), Memory>
    requires { run.first ≤ run.last }
    ensures { OnOk result (rows.new ≡ rows.old ++ rows_of run) }
{
    let Run {
        proc,
        first,
        last,
        bits,
    } = run;
    // once, since a short line may stand for very many rows
    rows.items.reserve((last - first) as usize + 1)?;
    for place in first..last {
        let copy = Bits {
            items: Vec::from_slice(alloc, &bits.items)?,
        };
        rows.items.push(PlaceBits {
            proc,
            place,
            bits: copy,
        })?;
    }
    rows.items.push(PlaceBits {
        proc,
        place: last,
        bits,
    })?;
    Ok(())
}
