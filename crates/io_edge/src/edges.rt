ghost use Rattle.std.specs.Prelude.{◌≡◌, ◌<◌, ◌≤◌, ◌⊎◌, ℕ, List, Option, length, IfOk, OnOk, OnErr};
ghost use Rattle.std.specs.Io.KnownBytes.{IsAtEnd, ReadConsumes, WriteAppends};
ghost use Rattle.io_edge.specs.Held.{Held, Absent, Opens};
ghost use Rattle.io_edge.specs.Faults.{Rose};

use crate::Failed;

/// Files that are read by name, one at a time, from the front on.
///
/// Files may tell what they hold under a name and what is left of the open file, and they count
/// faults. No call changes what is held under a name, and the count never falls. It stands still at
/// the greatest `u64`: wherever it is said to rise, it rises or stands there.
pub trait Files {
    /// What is held under each name, which goes by its UTF-8 bytes.
    ghost held: { Self → List ℕ → Held };

    /// The bytes that are left of the open file, where they are told: none before the first `open`
    /// and after one that failed.
    ghost left: { Self → Option (List ℕ) };

    /// How many faults there were.
    ghost faults: { Self → ℕ };

    /// Opens the file of a name, from its first byte, in place of the one that was open.
    ///
    /// Fails where the files tell that they hold nothing under the name, and else only where the
    /// count of faults rose in this call. After a failure no bytes are left.
    fn open(&mut self, name: &str) -> Result<(), Failed>
        ensures same { (n : List ℕ) → held self.new n ≡ held self.old n }
        ensures opened { OnOk result (Opens (held self.old name.now) (left self.new)) }
        ensures closed { OnErr result (IsAtEnd (left self.new)) }
        ensures later { faults self.old ≤ faults self.new }
        ensures cause { OnErr result
            ((held self.old name.now ≡ Absent) ⊎ Rose (faults self.old) (faults self.new)) };

    /// Moves the next bytes of the open file to the front of `into`, and answers how many they are:
    /// at most as many as `into` holds, and 0 exactly where none was left or no file is open. What
    /// lies behind them in `into` is of no meaning.
    ///
    /// Fails only where the count of faults rose in this call, and then no byte was taken.
    fn next(&mut self, into: &mut [u8]) -> Result<usize, Failed>
        requires { 0 < length into.old }
        ensures same { (n : List ℕ) → held self.new n ≡ held self.old n }
        ensures bound { IfOk result (λ n. n ≤ length into.new) }
        ensures bytes { ReadConsumes (left self.old) (left self.new) result into.new }
        ensures later { faults self.old ≤ faults self.new }
        ensures cause { OnErr result (Rose (faults self.old) (faults self.new)) };
}

/// What takes bytes, in the order in which they are given.
///
/// A sink may tell the bytes that it was given, and it counts faults as [`Files`] do. A sink that
/// takes nothing counts that as a fault.
pub trait Sink {
    /// The bytes given so far, where they are told.
    ghost given: { Self → Option (List ℕ) };

    /// How many faults there were.
    ghost faults: { Self → ℕ };

    /// Gives the first of the bytes, at least one, and answers how many were given.
    ///
    /// Fails only where the count of faults rose in this call, and then none was given.
    fn put(&mut self, bytes: &[u8]) -> Result<usize, Failed>
        requires { 0 < length bytes.now }
        ensures count { IfOk result (λ n. (0 < n) × (n ≤ length bytes.now)) }
        ensures bytes { WriteAppends (given self.old) (given self.new) result bytes.now }
        ensures later { faults self.old ≤ faults self.new }
        ensures cause { OnErr result (Rose (faults self.old) (faults self.new)) };
}
