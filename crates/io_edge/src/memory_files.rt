ghost use Rattle.std.specs.Prelude.{◌≡◌, ◌+◌, ◌^◌, ◌<◌, ◌≤◌, ◌⊎◌, ◌↔◌, ℕ, List, [], Some, length, take, min, IfOk, OnOk, OnErr, IsErr, MatchOption};
ghost use Rattle.std.specs.Io.KnownBytes.{IsAtEnd, ReadConsumes};
ghost use Rattle.std.specs.Str.{bytes_eq};
ghost use Rattle.io_edge.specs.Held.{Absent, Whole, Opens};
ghost use Rattle.io_edge.specs.Faults.{Rose, raised};
ghost use Rattle.io_edge.specs.Memory.{held_under, bytes_at, rest_of};

use crate::calls::count_call;
use crate::{Failed, Files, NamedFile, NamedFiles, Numbers};

/// Files in memory that tell all of their bytes, give them in pieces of a chosen size, and fail at
/// chosen calls.
///
/// Under each name they hold the bytes of its first record. The calls of `open` and `next` are
/// numbered together, from 1. Those whose numbers stand in `failing` fail, each with a fault; no
/// other call counts one. No call takes memory.
#[derive(Drop)]
pub struct MemFiles {
    files: NamedFiles,
    piece: usize,
    failing: Numbers,
    current: Option<usize>,
    at: usize,
    calls: u64,
    faults: u64,

    ghost some_piece: { 0 < piece },
}

impl MemFiles {
    ghost use Rattle.io_edge.specs.MemFiles.{files_of, piece_of, failing_of, left_of, calls_of, faults_of};

    /// Files that give at most `piece` bytes a call. None of them is open, and no call was counted.
    pub fn new(files: NamedFiles, piece: usize, failing: Numbers) -> MemFiles
        requires { 0 < piece }
        ensures files { files_of result ≡ files }
        ensures piece { piece_of result ≡ piece }
        ensures failing { failing_of result ≡ failing }
        ensures left { left_of result ≡ [] }
        ensures calls { calls_of result ≡ 0 }
        ensures faults { faults_of result ≡ 0 }
    {
        MemFiles {
            files,
            piece,
            failing,
            current: None,
            at: 0,
            calls: 0,
            faults: 0,
        }
    }
}

impl Files for MemFiles {
    ghost use Rattle.io_edge.specs.MemFiles.{files_of, piece_of, left_of, calls_of, faults_of, IsFailing, KeepsSettings};

    ghost held = { λ s n. held_under (files_of s) n };

    ghost left = { λ s. Some (left_of s) };

    ghost faults = { faults_of };

    /// Fails exactly where the call's number says so, and then counts a fault, or where no record
    /// has the name, which by itself counts none.
    fn open(&mut self, name: &str) -> Result<(), Failed>
        ensures same { (n : List ℕ) →
            held_under (files_of self.new) n ≡ held_under (files_of self.old) n }
        ensures opened { OnOk result
            (Opens (held_under (files_of self.old) name.now) (Some (left_of self.new))) }
        ensures closed { OnErr result (IsAtEnd (Some (left_of self.new))) }
        ensures later { faults_of self.old ≤ faults_of self.new }
        ensures cause { OnErr result ((held_under (files_of self.old) name.now ≡ Absent)
            ⊎ Rose (faults_of self.old) (faults_of self.new)) }

        ensures settings { KeepsSettings self.old self.new }
        ensures counted { calls_of self.new ≡ raised (calls_of self.old) }
        ensures fails { IsErr result ↔
            (IsFailing self.old ⊎ (held_under (files_of self.old) name.now ≡ Absent)) }
        ensures fault { IsFailing self.old → faults_of self.new ≡ raised (faults_of self.old) }
        ensures no_fault { ¬ IsFailing self.old → faults_of self.new ≡ faults_of self.old }
    {
        self.current = None;
        count_call(&self.failing, &mut self.calls, &mut self.faults)?;
        self.at = 0;
        let files = &self.files;
        self.current = place_of(&files.items, name);
        if self.current.is_some() {
            Ok(())
        } else {
            Err(Failed)
        }
    }

    /// Fails exactly where the call's number says so, and then counts a fault. Gives as many bytes
    /// as are left, fit the piece and fit `into`.
    fn next(&mut self, into: &mut [u8]) -> Result<usize, Failed>
        requires { 0 < length into.old }
        ensures same { (n : List ℕ) →
            held_under (files_of self.new) n ≡ held_under (files_of self.old) n }
        ensures bound { IfOk result (λ n. n ≤ length into.new) }
        ensures bytes { ReadConsumes
            (Some (left_of self.old)) (Some (left_of self.new)) result into.new }
        ensures later { faults_of self.old ≤ faults_of self.new }
        ensures cause { OnErr result (Rose (faults_of self.old) (faults_of self.new)) }

        ensures settings { KeepsSettings self.old self.new }
        ensures counted { calls_of self.new ≡ raised (calls_of self.old) }
        ensures fails { IsErr result ↔ IsFailing self.old }
        ensures fault { OnErr result (faults_of self.new ≡ raised (faults_of self.old)) }
        ensures no_fault { OnOk result (faults_of self.new ≡ faults_of self.old) }
        ensures count { IfOk result (λ n.
            n ≡ min (length (left_of self.old)) (min (piece_of self.old) (length into.new))) }
    {
        count_call(&self.failing, &mut self.calls, &mut self.faults)?;
        let left = left_bytes(&self.files, self.current, self.at);
        let n = copy_front(left, self.piece, into);
        self.at += n;
        Ok(n)
    }
}

// The place of the first record of a name.
fn place_of(files: &[NamedFile], name: &str) -> Option<usize>
    ensures { MatchOption result (held_under files.now name.now ≡ Absent)
        (λ place. held_under files.now name.now ≡ Whole (bytes_at files.now place)) }
{
    for (place, file) in files.iter().enumerate() {
        if is_named(file, name) {
            return Some(place);
        }
    }
    None
}

fn is_named(file: &NamedFile, name: &str) -> bool
    ensures { result ≡ bytes_eq file.now.name name.now }
{
    let own = &file.name;
    own.items.as_slice() == name.as_bytes()
}

// The bytes of the open record from `at` on.
fn left_bytes(files: &NamedFiles, current: Option<usize>, at: usize) -> &[u8]
    ensures bytes { result.now ≡ rest_of files.now current at }
    ensures fits { at + length result.now < 2 ^ 64 }
{
    let Some(place) = current else {
        return &[];
    };
    let Some(file) = files.items.get(place) else {
        return &[];
    };
    let bytes = &file.bytes;
    bytes.items.get(at..).unwrap_or(&[])
}

// Copies as many bytes to the front of `into` as there are, fit the piece and fit `into`.
fn copy_front(left: &[u8], piece: usize, into: &mut [u8]) -> usize
    ensures count { result ≡ min (length left.now) (min piece (length into.new)) }
    ensures bytes { take result into.new ≡ take result left.now }
{
    let n = left.len().min(piece).min(into.len());
    into[..n].copy_from_slice(&left[..n]);
    n
}
