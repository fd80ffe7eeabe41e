ghost use Rattle.std.specs.Prelude.{◌≡◌, ◌<◌, ◌≤◌, ◌==◌, ◌||◌, [], length, take, min, is_some, is_ok, not, IfOk, MatchResult, Some};
ghost use Rattle.std.specs.Io.{WritesAtMost};
ghost use Rattle.std.specs.Io.KnownBytes.{WriteAppends};
ghost use Rattle.clk_io.specs.Counts.{counted, CountsFault};
ghost use Rattle.clk_io.specs.Memory.{is_listed, taken_after, taken_failed};

use crate::faults::{Failed, NoMemory};
use crate::mem_source::fails_at;
use crate::sinks::Sink;
use std::alloc::Global;
use std::marker::Model;

/// A sink in memory whose faults are arranged. It tells its bytes.
#[derive(Drop)]
pub struct MemSink {
    bytes: Vec<u8>,
    room: usize,
    most: usize,
    fail_at: Vec<u32>,
    calls: u64,
    faults: u64,
}

impl Model for MemSink {
    ghost use Rattle.std.specs.Prelude.{◌+◌, ◌<◌, ◌≤◌, vec_len, vec_capacity};
    ghost use Rattle.clk_io.specs.Memory.{Taken};

    ghost Value = { Taken };

    ghost view = { λ s. record { written = s.bytes.items; room = s.room; most = s.most; fail_at = s.fail_at.items; calls = s.calls; faults = s.faults } };

    ghost invariant = { λ s. (vec_len s.bytes + s.room ≤ vec_capacity s.bytes) × (0 < s.most) };
}

impl MemSink {
    /// An empty sink that takes at most `most` bytes a call and `room` bytes in all, and whose
    /// calls with the listed numbers fail; the first call is 1. The memory is taken here.
    pub fn new(
        alloc: Global,
        most: usize,
        room: usize,
        fail_at: Vec<u32>,
    ) -> Result<MemSink, NoMemory>
        requires { 0 < most }
        ensures { IfOk result (λ s. s ≡ record { written = []; room = room; most = most; fail_at = fail_at.items; calls = 0; faults = 0 }) }
    {
        let bytes = Vec::with_capacity(alloc, room)?;
        Ok(MemSink {
            bytes,
            room,
            most,
            fail_at,
            calls: 0,
            faults: 0,
        })
    }

    /// What was written.
    pub fn written(&self) -> &[u8]
        ensures { result.now ≡ self.now.written }
    {
        &self.bytes
    }

    /// How many faults it has had.
    pub fn faults(&self) -> u64
        ensures { result ≡ self.now.faults }
    {
        self.faults
    }
}

impl Sink for MemSink {
    ghost written = { λ s. Some s.written };

    ghost faults = { λ s. s.faults };

    fn write(&mut self, bytes: &[u8]) -> Result<usize, Failed>
        requires { 0 < length bytes.now }
        ensures bound { WritesAtMost result bytes.now }
        ensures some { IfOk result (λ n. 0 < n) }
        ensures bytes { WriteAppends (Some self.old.written) (Some self.new.written) result bytes.now }
        ensures tells { is_some (Some self.new.written) ≡ is_some (Some self.old.written) }
        ensures later { self.old.faults ≤ self.new.faults }
        ensures counts { CountsFault self.old.faults self.new.faults result }

        // It fails exactly where that was arranged or no room is left, and else takes as much as it
        // can.
        ensures fails { is_ok result ≡ not (is_listed self.old.fail_at (counted self.old.calls) || (self.old.room == 0)) }
        ensures most { IfOk result (λ n. n ≡ min (min (length bytes.now) self.old.most) self.old.room) }
        ensures after { MatchResult result (λ n. self.new ≡ taken_after self.old (take n bytes.now)) (λ _. self.new ≡ taken_failed self.old) }
    {
        self.calls = self.calls.saturating_add(1);
        if fails_at(&self.fail_at, self.calls) || self.room == 0 {
            self.faults = self.faults.saturating_add(1);
            return Err(Failed);
        }
        let count = bytes.len().min(self.most).min(self.room);
        self.bytes.extend_from_slice(&bytes[..count]).unwrap();
        self.room -= count;
        Ok(count)
    }
}
