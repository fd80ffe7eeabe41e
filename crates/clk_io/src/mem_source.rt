ghost use Rattle.std.specs.Prelude.{◌≡◌, ◌<◌, ◌≤◌, ◌-◌, length, drop, take, min, is_some, is_ok, not, IfOk, MatchResult, Some};
ghost use Rattle.std.specs.Io.{ReadsAtMost};
ghost use Rattle.std.specs.Io.KnownBytes.{ReadConsumes};
ghost use Rattle.clk_io.specs.Counts.{counted, CountsFault};
ghost use Rattle.clk_io.specs.Memory.{is_listed, given_after, given_failed};

use crate::faults::Failed;
use crate::sources::Source;
use std::marker::Model;

/// A source in memory whose faults are arranged. It tells its bytes.
#[derive(Drop)]
pub struct MemSource {
    bytes: Vec<u8>,
    at: usize,
    fail_at: Vec<u32>,
    calls: u64,
    faults: u64,
}

impl Model for MemSource {
    ghost use Rattle.std.specs.Prelude.{◌≤◌, drop, vec_len};
    ghost use Rattle.clk_io.specs.Memory.{Given};

    ghost Value = { Given };

    ghost view = { λ s. record { left = drop s.at s.bytes.items; fail_at = s.fail_at.items; calls = s.calls; faults = s.faults } };

    ghost invariant = { λ s. s.at ≤ vec_len s.bytes };
}

impl MemSource {
    /// A source of these bytes, whose calls with the listed numbers fail; the first call is 1.
    pub fn new(bytes: Vec<u8>, fail_at: Vec<u32>) -> MemSource
        ensures { result ≡ record { left = bytes.items; fail_at = fail_at.items; calls = 0; faults = 0 } }
    {
        MemSource {
            bytes,
            at: 0,
            fail_at,
            calls: 0,
            faults: 0,
        }
    }

    /// How many faults it has had.
    pub fn faults(&self) -> u64
        ensures { result ≡ self.now.faults }
    {
        self.faults
    }
}

/// The call's number is among those that fail.
pub(crate) fn fails_at(fail_at: &[u32], call: u64) -> bool
    ensures { result ≡ is_listed fail_at.now call }
{
    fail_at.iter().any(|number| u64::from(*number) == call)
}

// Copies the front of `from` to the front of `into`, as much as fits, and answers how much.
fn copy_front(from: &[u8], into: &mut [u8]) -> usize
    ensures count { result ≡ min (length from.now) (length into.old) }
    ensures copied { take result into.new ≡ take result from.now }
{
    let count = from.len().min(into.len());
    into[..count].copy_from_slice(&from[..count]);
    count
}

impl Source for MemSource {
    ghost left = { λ s. Some s.left };

    ghost faults = { λ s. s.faults };

    fn read(&mut self, into: &mut [u8]) -> Result<usize, Failed>
        requires { 0 < length into.old }
        ensures bound { ReadsAtMost result into.new }
        ensures bytes { ReadConsumes (Some self.old.left) (Some self.new.left) result into.new }
        ensures tells { is_some (Some self.new.left) ≡ is_some (Some self.old.left) }
        ensures later { self.old.faults ≤ self.new.faults }
        ensures counts { CountsFault self.old.faults self.new.faults result }

        // It fails exactly where that was arranged, and else gives as much as it can.
        ensures fails { is_ok result ≡ not (is_listed self.old.fail_at (counted self.old.calls)) }
        ensures most { IfOk result (λ n. n ≡ min (length self.old.left) (length into.old)) }
        ensures after { MatchResult result (λ n. self.new ≡ given_after self.old n) (λ _. self.new ≡ given_failed self.old) }
    {
        self.calls = self.calls.saturating_add(1);
        if fails_at(&self.fail_at, self.calls) {
            self.faults = self.faults.saturating_add(1);
            return Err(Failed);
        }
        let count = copy_front(&self.bytes[self.at..], into);
        self.at += count;
        Ok(count)
    }
}
