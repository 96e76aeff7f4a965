ghost use Rattle.std.specs.Prelude.{◌≡◌, ◌-◌, ◌<◌, ◌≤◌, ◌↔◌, [], Some, length, min, vec_len, vec_capacity, IfOk, OnOk, OnErr, IsErr, IsOkUnless};
ghost use Rattle.std.specs.Io.KnownBytes.{WriteAppends};
ghost use Rattle.io_edge.specs.Faults.{Rose, raised};

use crate::calls::count_call;
use crate::{Failed, Numbers, ReadError, Sink};
use std::alloc::Global;

/// A sink in memory that tells all of its bytes, takes them in pieces of a chosen size up to a
/// chosen room, and fails at chosen calls.
///
/// The calls of `put` are numbered from 1. Those whose numbers stand in `failing` fail, and so do
/// those that find no room; each of them counts a fault. Once the sink is made no call takes
/// memory.
#[derive(Drop)]
pub struct MemSink {
    bytes: Vec<u8>,
    room: usize,
    piece: usize,
    failing: Numbers,
    calls: u64,
    faults: u64,

    ghost some_piece: { 0 < piece },
    ghost within_room: { vec_len bytes ≤ room },
    ghost reserved: { room ≤ vec_capacity bytes },
}

impl MemSink {
    ghost use Rattle.io_edge.specs.MemSink.{given_of, room_of, piece_of, failing_of, calls_of, faults_of};

    /// A sink for at most `room` bytes, in pieces of at most `piece`. It was given none, and no
    /// call was counted. Reserves the room, and is refused only for want of memory.
    pub fn new(
        alloc: Global,
        room: usize,
        piece: usize,
        failing: Numbers,
    ) -> Result<MemSink, ReadError>
        requires { 0 < piece }
        ensures refused { IsOkUnless result ReadError.Memory }
        ensures room { IfOk result (λ s. room_of s ≡ room) }
        ensures piece { IfOk result (λ s. piece_of s ≡ piece) }
        ensures failing { IfOk result (λ s. failing_of s ≡ failing) }
        ensures given { IfOk result (λ s. given_of s ≡ []) }
        ensures calls { IfOk result (λ s. calls_of s ≡ 0) }
        ensures faults { IfOk result (λ s. faults_of s ≡ 0) }
    {
        let Ok(bytes) = Vec::with_capacity(alloc, room) else {
            return Err(ReadError::Memory);
        };
        Ok(MemSink {
            bytes,
            room,
            piece,
            failing,
            calls: 0,
            faults: 0,
        })
    }

    /// The bytes given so far.
    pub fn given(&self) -> &[u8]
        ensures { result.now ≡ given_of self.now }
    {
        &self.bytes
    }
}

impl Sink for MemSink {
    ghost use Rattle.io_edge.specs.MemSink.{given_of, room_of, piece_of, calls_of, faults_of, IsFailing, KeepsSettings};

    ghost given = { λ s. Some (given_of s) };

    ghost faults = { faults_of };

    /// Fails exactly where the call's number says so or where no room is left. Takes as many bytes
    /// as there are, fit the piece and fit the room that is left.
    #[tactic(auto, using(crate::proofs::Counts::raised_rose))]
    fn put(&mut self, bytes: &[u8]) -> Result<usize, Failed>
        requires { 0 < length bytes.now }
        ensures count { IfOk result (λ n. (0 < n) × (n ≤ length bytes.now)) }
        ensures bytes { WriteAppends
            (Some (given_of self.old)) (Some (given_of self.new)) result bytes.now }
        ensures later { faults_of self.old ≤ faults_of self.new }
        ensures cause { OnErr result (Rose (faults_of self.old) (faults_of self.new)) }

        ensures settings { KeepsSettings self.old self.new }
        ensures counted { calls_of self.new ≡ raised (calls_of self.old) }
        ensures fails { IsErr result ↔ IsFailing self.old }
        ensures fault { OnErr result (faults_of self.new ≡ raised (faults_of self.old)) }
        ensures no_fault { OnOk result (faults_of self.new ≡ faults_of self.old) }
        ensures taken { IfOk result (λ n. n ≡ min (length bytes.now)
            (min (piece_of self.old) (room_of self.old - length (given_of self.old)))) }
    {
        count_call(&self.failing, &mut self.calls, &mut self.faults)?;
        let room = self.room - self.bytes.len();
        if room == 0 {
            self.faults = self.faults.saturating_add(1);
            return Err(Failed);
        }
        let n = bytes.len().min(self.piece).min(room);
        // The room was reserved, so this takes no memory and cannot fail.
        let _ = self.bytes.extend_from_slice(&bytes[..n]);
        Ok(n)
    }
}
