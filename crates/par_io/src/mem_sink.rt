ghost use Rattle.std.specs.Prelude.{◌≡◌, ◌≢◌, ℕ, ◌+◌, ◌-◌, ◌<◌, ◌≤◌, ◌↔◌, ◌⊎◌, [], ◌++◌};
ghost use Rattle.std.specs.Prelude.{Some, None, IfOk, IsSome, IsErr, IsTrue, OnOk, OnErr, length};
ghost use Rattle.std.specs.Prelude.{take, min, vec_capacity, vec_len, true, false};
ghost use Rattle.par_io.specs.Causes.{untouched_sink, AppendsFront, raised};

use crate::outside::{PutFailed, Sink};
use par_base::memory::NoMemory;
use std::alloc::Global;

// A put that is set to fail, and how many of its bytes it is to keep.
#[derive(Clone, Copy, Drop)]
struct FailingPut {
    call: u64,
    keep: u64,
}

/// Bytes in memory, as many as its room, with one put that can be set to fail.
#[derive(Drop)]
pub struct MemSink {
    held: Vec<u8>,
    room: u64,
    failing: Option<FailingPut>,
    // Puts made so far, up to the last number that can be set to fail.
    puts: u64,
    faults: u64,
    ghost reserved: { room ≤ vec_capacity held },
    ghost within: { vec_len held ≤ room },
}

impl MemSink {
    ghost use Rattle.par_io.specs.MemSink.{bytes_of, room_of, room_left, next_put, counts_of};
    ghost use Rattle.par_io.specs.MemSink.{put_keeps, taken};

    /// An empty sink with room for that many bytes, none of whose puts is set to fail.
    pub fn new(alloc: Global, room: u64) -> Result<MemSink, NoMemory>
        ensures empty { IfOk result (λ sink. bytes_of sink ≡ []) }
        ensures room { IfOk result (λ sink. room_of sink ≡ room) }
        ensures none_set { IfOk result (λ sink. (call : ℕ) → put_keeps sink call ≡ None) }
        ensures counts { IfOk result (λ sink. counts_of sink ≡ untouched_sink) }
    {
        Ok(MemSink {
            held: Vec::with_capacity(alloc, room as usize)?,
            room,
            failing: None,
            puts: 0,
            faults: 0,
        })
    }

    /// The bytes put so far.
    pub fn bytes(&self) -> &[u8]
        ensures { result.now ≡ bytes_of self.now }
    {
        self.held.as_slice()
    }

    /// Lets one put fail, counted from 1 since the sink was made, and keep the first `keep` of its
    /// bytes, or as many as fit. No other put is set to fail from then on.
    pub fn fail_put(&mut self, call: u64, keep: u64)
        ensures set { put_keeps self.new call ≡ Some keep }
        ensures others { (other : ℕ) → other ≢ call → put_keeps self.new other ≡ None }
        ensures held { bytes_of self.new ≡ bytes_of self.old }
        ensures room { room_of self.new ≡ room_of self.old }
        ensures counts { counts_of self.new ≡ counts_of self.old }
    {
        self.failing = Some(FailingPut { call, keep });
    }

    // Counts a put, and tells how many of its bytes it is to keep where it is set to fail.
    fn begin_put(&mut self) -> Option<u64>
        ensures fails { result ≡ put_keeps self.old (next_put self.old) }
        ensures counted { (counts_of self.new).puts ≡ raised (counts_of self.old).puts }
        ensures failing { self.new.failing ≡ self.old.failing }
        ensures held { bytes_of self.new ≡ bytes_of self.old }
        ensures room { room_of self.new ≡ room_of self.old }
        ensures faults { (counts_of self.new).faults ≡ (counts_of self.old).faults }
    {
        let before = self.puts;
        self.puts = before.saturating_add(1);
        match self.failing {
            Some(set) if before < set.call && set.call - before == 1 => Some(set.keep),
            _ => None,
        }
    }

    // Lets in as many of the bytes as fit, and tells whether all did.
    fn fill(&mut self, bytes: &[u8]) -> bool
        ensures held { bytes_of self.new
            ≡ bytes_of self.old ++ take (room_left self.old) bytes.now }
        ensures fits { IsTrue result ↔ (length bytes.now ≤ room_left self.old) }
        ensures failing { self.new.failing ≡ self.old.failing }
        ensures room { room_of self.new ≡ room_of self.old }
        ensures counts { counts_of self.new ≡ counts_of self.old }
    {
        let left = self.room as usize - self.held.len();
        let count = bytes.len().min(left);
        self.held.extend_from_slice(&bytes[..count]).unwrap();
        count == bytes.len()
    }

    // Lets in the bytes that the next put takes, and tells whether it is to succeed.
    fn let_in(&mut self, bytes: &[u8]) -> bool
        ensures held { bytes_of self.new ≡ bytes_of self.old ++ taken self.old bytes.now }
        ensures fails { (result ≡ false) ↔
            (IsSome (put_keeps self.old (next_put self.old))
            ⊎ (room_left self.old < length bytes.now)) }
        ensures counted { (counts_of self.new).puts ≡ raised (counts_of self.old).puts }
        ensures failing { self.new.failing ≡ self.old.failing }
        ensures room { room_of self.new ≡ room_of self.old }
        ensures faults { (counts_of self.new).faults ≡ (counts_of self.old).faults }
    {
        match self.begin_put() {
            None => self.fill(bytes),
            Some(keep) => {
                let kept = bytes.len().min(keep as usize);
                self.fill(&bytes[..kept]);
                false
            }
        }
    }
}

impl Sink for MemSink {
    ghost use Rattle.par_io.specs.MemSink.{bytes_of, room_of, room_left, next_put, counts_of};
    ghost use Rattle.par_io.specs.MemSink.{put_keeps, taken};

    ghost held = { λ s. Some (bytes_of s) };

    ghost counts = { counts_of };

    ghost counts_faults_alone = { true };

    fn put(&mut self, bytes: &[u8]) -> Result<(), PutFailed>
        ensures held { bytes_of self.new ≡ bytes_of self.old ++ taken self.old bytes.now }
        ensures failed { IsErr result ↔
            (IsSome (put_keeps self.old (next_put self.old))
            ⊎ (room_left self.old < length bytes.now)) }
        ensures front { OnErr result
            (AppendsFront (Some (bytes_of self.old)) (Some (bytes_of self.new)) bytes.now) }
        ensures room { room_of self.new ≡ room_of self.old }
        ensures counted { (counts_of self.new).puts ≡ raised (counts_of self.old).puts }
        ensures setting { (call : ℕ) → put_keeps self.new call ≡ put_keeps self.old call }
        ensures no_fault { OnOk result
            ((counts_of self.new).faults ≡ (counts_of self.old).faults) }
        ensures fault { OnErr result
            ((counts_of self.new).faults ≡ raised (counts_of self.old).faults) }
    {
        if !self.let_in(bytes) {
            self.faults = self.faults.saturating_add(1);
            return Err(PutFailed);
        }
        Ok(())
    }
}
