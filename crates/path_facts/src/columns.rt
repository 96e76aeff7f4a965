ghost use Rattle.std.specs.Prelude.{◌≡◌, ℕ, ◌<◌, Some, None, true, false, length};
ghost use Rattle.std.specs.List.{All};
ghost use Rattle.path_facts.specs.Columns.{but};
ghost use Rattle.path_facts.specs.Tracks.{track_of, IsTracked};
ghost use Rattle.path_facts.specs.Bits.{unreached_bit, empty_bit, fresh_bit};
ghost use Rattle.path_facts.specs.Rows.{HasBits, Names, Becomes, TakesArgs, GetsResult, Passes};

use crate::row::Row;
use flow_graph::Action;

/// The bit that says that no path to a place is known. Of a tracked slot, bit 2 * track + 1 says that it is Empty, and
/// the next one that it is Fresh.
pub(crate) const UNREACHED: usize = 0;

/// Whether a row says that a slot is Empty.
pub(crate) fn is_empty(row: &Row, tracks: &[Option<u32>], slot: u32) -> bool
    requires bits { HasBits tracks.now row.now }
    requires slot { slot < length tracks.now }
    ensures { result ≡ empty_bit tracks.now row.now slot }
{
    match tracks[slot as usize] {
        Some(track) => row.has(2 * track as usize + 1),
        None => true,
    }
}

/// Whether a row says that a slot is Fresh.
pub(crate) fn is_fresh(row: &Row, tracks: &[Option<u32>], slot: u32) -> bool
    requires bits { HasBits tracks.now row.now }
    requires slot { slot < length tracks.now }
    ensures { result ≡ fresh_bit tracks.now row.now slot }
{
    match tracks[slot as usize] {
        Some(track) => row.has(2 * track as usize + 2),
        None => row.has(UNREACHED),
    }
}

/// Says whether a slot is Empty, as it is where it is not tracked.
pub(crate) fn put_empty(row: &mut Row, tracks: &[Option<u32>], slot: u32, value: bool)
    requires bits { HasBits tracks.now row.old }
    requires slot { slot < length tracks.now }
    requires value { track_of tracks.now slot ≡ None → value ≡ true }
    ensures bits { HasBits tracks.now row.new }
    ensures becomes { Becomes tracks.now row.old row.new (but slot value (empty_bit tracks.now row.old)) (fresh_bit tracks.now row.old) }
{
    if let Some(track) = tracks[slot as usize] {
        row.put(2 * track as usize + 1, value);
    }
}

/// Says whether a slot is Fresh in the row of a reached place, where it is not unless it is tracked.
pub(crate) fn put_fresh(row: &mut Row, tracks: &[Option<u32>], slot: u32, value: bool)
    requires bits { HasBits tracks.now row.old }
    requires slot { slot < length tracks.now }
    requires value { track_of tracks.now slot ≡ None → value ≡ false }
    requires reached { unreached_bit row.old ≡ false }
    ensures bits { HasBits tracks.now row.new }
    ensures becomes { Becomes tracks.now row.old row.new (empty_bit tracks.now row.old) (but slot value (fresh_bit tracks.now row.old)) }
{
    if let Some(track) = tracks[slot as usize] {
        row.put(2 * track as usize + 2, value);
    }
}

/// Says that a slot has no value, or is null.
fn clear(row: &mut Row, tracks: &[Option<u32>], slot: u32)
    requires bits { HasBits tracks.now row.old }
    requires slot { slot < length tracks.now }
    requires reached { unreached_bit row.old ≡ false }
    ensures bits { HasBits tracks.now row.new }
    ensures becomes { Becomes tracks.now row.old row.new (but slot true (empty_bit tracks.now row.old)) (but slot false (fresh_bit tracks.now row.old)) }
{
    put_empty(row, tracks, slot, true);
    put_fresh(row, tracks, slot, false);
}

/// Says of a tracked slot whether it is Empty and whether it is Fresh.
fn put_both(row: &mut Row, tracks: &[Option<u32>], slot: u32, empty: bool, fresh: bool)
    requires bits { HasBits tracks.now row.old }
    requires slot { IsTracked tracks.now slot }
    requires reached { unreached_bit row.old ≡ false }
    ensures bits { HasBits tracks.now row.new }
    ensures becomes { Becomes tracks.now row.old row.new (but slot empty (empty_bit tracks.now row.old)) (but slot fresh (fresh_bit tracks.now row.old)) }
{
    put_empty(row, tracks, slot, empty);
    put_fresh(row, tracks, slot, fresh);
}

/// Takes the arguments of a call, which have no value from there on.
fn take_args(row: &mut Row, tracks: &[Option<u32>], args: &[u32])
    requires bits { HasBits tracks.now row.old }
    requires args { All (λ u. u < length tracks.now) args.now }
    requires reached { unreached_bit row.old ≡ false }
    ensures bits { HasBits tracks.now row.new }
    ensures becomes { TakesArgs tracks.now args.now row.old row.new }
{
    for arg in args {
        clear(row, tracks, *arg);
    }
}

/// Gives the result of a call to its slot.
fn give_result(row: &mut Row, tracks: &[Option<u32>], to: Option<u32>)
    requires bits { HasBits tracks.now row.old }
    requires slot { (x : ℕ) → to ≡ Some x → IsTracked tracks.now x }
    requires reached { unreached_bit row.old ≡ false }
    ensures { GetsResult tracks.now to row.old row.new }
{
    if let Some(slot) = to {
        put_both(row, tracks, slot, false, false);
    }
}

/// Makes of the facts before an action, at a reached place, those after it.
pub(crate) fn pass(row: &mut Row, tracks: &[Option<u32>], action: &Action)
    requires bits { HasBits tracks.now row.old }
    requires names { Names tracks.now action.now }
    requires reached { unreached_bit row.old ≡ false }
    ensures { Passes tracks.now action.now row.old row.new }
{
    match action {
        Action::Unset(slot) => clear(row, tracks, *slot),
        Action::Null(slot) => clear(row, tracks, *slot),
        Action::Text(slot, _) => put_both(row, tracks, *slot, false, false),
        Action::Copy(slot, from) => {
            let empty = is_empty(row, tracks, *from);
            put_both(row, tracks, *slot, empty, false);
            put_fresh(row, tracks, *from, false);
        }
        Action::New(slot, _, _, _) => put_both(row, tracks, *slot, false, true),
        Action::Free(slot) => put_fresh(row, tracks, *slot, false),
        Action::Load(slot, _, _) => put_both(row, tracks, *slot, false, false),
        Action::Store(_, _, slot) => put_fresh(row, tracks, *slot, false),
        Action::IsNull(slot) => put_empty(row, tracks, *slot, true),
        Action::Call(to, _, args) => {
            take_args(row, tracks, &args.items);
            give_result(row, tracks, *to);
        }
        _ => {}
    }
}
