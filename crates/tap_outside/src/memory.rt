//! A source and a sink in memory, which tell their bytes and fail at listed calls.

ghost use Rattle.std.specs.Prelude.{◌≡◌, ℕ, ◌+◌, ◌^◌, ◌<◌, ◌≤◌, ◌↔◌, List, [], ◌∷◌, ◌++◌, length, take, drop, min, Some, IfOk, OnOk, IsErr, OnErr, IsErrOf, IsOkAnd, IsTrue, Contains};
ghost use Rattle.tap_ground.specs.Counts.{one_more};
ghost use Rattle.tap_outside.specs.Memory.{EndsWell, failed_calls};

use crate::{Failed, Sink, SinkErr, Source};
use std::alloc::Global;
use std::marker::Model;

/// Bytes in memory as a source, which fails at listed calls.
///
/// To a contract it is the bytes left, the number of calls that are over, the numbers of the calls
/// that fail, and the greatest piece that it gives.
#[derive(Drop)]
pub struct MemSource {
    bytes: Vec<u8>,
    given: usize,
    calls: u64,
    fails: Vec<u32>,
    most: usize,
}

impl Model for MemSource {
    ghost use Rattle.std.specs.Prelude.{◌≤◌, drop, vec_len};
    ghost use Rattle.tap_outside.specs.Memory.{Supply};

    ghost Value = { Supply };

    ghost view = { λ s. record {
      left = drop s.given s.bytes.items;
      calls = s.calls;
      fails = s.fails.items;
      most = s.most;
    } };

    ghost invariant = { λ s. (s.given ≤ vec_len s.bytes) × (1 ≤ s.most) };
}

impl MemSource {
    /// A source of these bytes, in pieces of at most `most`, whose calls with a listed number, from
    /// 0, fail. It takes no memory.
    pub fn new(bytes: Vec<u8>, fails: Vec<u32>, most: usize) -> MemSource
        requires { 1 ≤ most }
        ensures { result ≡ record { left = bytes.items; calls = 0; fails = fails.items; most = most } }
    {
        MemSource {
            bytes,
            given: 0,
            calls: 0,
            fails,
            most,
        }
    }
}

impl Source for MemSource {
    ghost left = { λ s. Some s.left };

    ghost faults = { λ s. failed_calls s.fails s.calls };

    ghost ends_well = { EndsWell };

    /// Exactly the listed calls fail. Another gives as many bytes as it can.
    fn read(&mut self, room: &mut [u8]) -> Result<usize, Failed>
        requires { 0 < length room.old }

        ensures fits { IfOk result (λ n. n ≤ length room.old) }
        ensures taken { IfOk result (λ n. self.old.left ≡ take n room.new ++ self.new.left) }
        ensures end { IfOk result (λ n. n ≡ 0 → self.new.left ≡ []) }
        ensures unchanged { OnErr result (self.new.left ≡ self.old.left) }

        ensures no_fault { OnOk result (
            failed_calls self.new.fails self.new.calls ≡ failed_calls self.old.fails self.old.calls) }
        ensures fault { OnErr result (
            failed_calls self.new.fails self.new.calls ≡ one_more (failed_calls self.old.fails self.old.calls)) }
        ensures well { EndsWell self.old → IsOkAnd result (λ n. 0 < n → EndsWell self.new) }
        ensures none_listed { self.old.fails ≡ [] → failed_calls self.new.fails self.new.calls ≡ 0 }

        ensures failing { IsErr result ↔ Contains self.old.fails self.old.calls }
        ensures amount { IfOk result (λ n. n ≡ min (min self.old.most (length room.old)) (length self.old.left)) }
        ensures given { IfOk result (λ n. room.new ≡ take n self.old.left ++ drop n room.old) }
        ensures left { IfOk result (λ n. self.new
            ≡ record self.old { left = drop n self.old.left; calls = one_more self.old.calls }) }
        ensures failed { OnErr result (self.new ≡ record self.old { calls = one_more self.old.calls }) }
        ensures room { OnErr result (room.new ≡ room.old) }
    {
        let call = self.calls;
        self.calls = call.saturating_add(1);
        if is_listed(&self.fails, call) {
            return Err(Failed);
        }
        let left = &self.bytes[self.given..];
        let n = self.most.min(room.len()).min(left.len());
        room[..n].copy_from_slice(&left[..n]);
        self.given += n;
        Ok(n)
    }
}

/// Memory as a sink, which fails at listed calls.
///
/// To a contract it is the bytes written, the number of calls that are over, the numbers of the
/// calls that fail, and the greatest piece that it takes.
#[derive(Drop)]
pub struct MemSink {
    bytes: Vec<u8>,
    calls: u64,
    fails: Vec<u32>,
    most: usize,
}

impl Model for MemSink {
    ghost use Rattle.std.specs.Prelude.{◌≤◌};
    ghost use Rattle.tap_outside.specs.Memory.{Store};

    ghost Value = { Store };

    ghost view = { λ s. record { written = s.bytes.items; calls = s.calls; fails = s.fails.items; most = s.most } };

    ghost invariant = { λ s. 1 ≤ s.most };
}

impl MemSink {
    /// An empty sink that takes pieces of at most `most`, and whose calls with a listed number,
    /// from 0, fail.
    pub fn new(alloc: Global, fails: Vec<u32>, most: usize) -> MemSink
        requires { 1 ≤ most }
        ensures { result ≡ record { written = []; calls = 0; fails = fails.items; most = most } }
    {
        MemSink {
            bytes: Vec::new(alloc),
            calls: 0,
            fails,
            most,
        }
    }

    /// The bytes that it has taken.
    pub fn bytes(&self) -> &[u8]
        ensures { result.now ≡ self.now.written }
    {
        &self.bytes
    }
}

impl Sink for MemSink {
    ghost written = { λ s. Some s.written };

    ghost faults = { λ s. failed_calls s.fails s.calls };

    ghost is_reliable = { λ s. s.fails ≡ [] };

    /// Exactly the listed calls fail. Another takes as many bytes as it can, where it finds memory.
    fn write(&mut self, piece: &[u8]) -> Result<usize, SinkErr>
        requires { 0 < length piece.now }

        ensures some { IfOk result (λ n. (1 ≤ n) × (n ≤ length piece.now)) }
        ensures appended { IfOk result (λ n. self.new.written ≡ self.old.written ++ take n piece.now) }
        ensures unchanged { OnErr result (self.new.written ≡ self.old.written) }

        ensures no_fault { OnOk result (
            failed_calls self.new.fails self.new.calls ≡ failed_calls self.old.fails self.old.calls) }
        ensures fault { IsErrOf result SinkErr.Failed →
            failed_calls self.new.fails self.new.calls ≡ one_more (failed_calls self.old.fails self.old.calls) }
        ensures no_memory { IsErrOf result SinkErr.NoMemory →
            failed_calls self.new.fails self.new.calls ≡ failed_calls self.old.fails self.old.calls }
        ensures reliable { self.old.fails ≡ [] → (self.new.fails ≡ []) × (IsErrOf result SinkErr.Failed → ⊥) }
        ensures none_listed { self.old.fails ≡ [] → failed_calls self.new.fails self.new.calls ≡ 0 }

        ensures failing { IsErrOf result SinkErr.Failed ↔ Contains self.old.fails self.old.calls }
        ensures amount { IfOk result (λ n. n ≡ min self.old.most (length piece.now)) }
        ensures written { IfOk result (λ n. self.new
            ≡ record self.old { written = self.old.written ++ take n piece.now; calls = one_more self.old.calls }) }
        ensures calls { OnErr result (self.new ≡ record self.old { calls = one_more self.old.calls }) }
    {
        let call = self.calls;
        self.calls = call.saturating_add(1);
        if is_listed(&self.fails, call) {
            return Err(SinkErr::Failed);
        }
        let n = self.most.min(piece.len());
        self.bytes.extend_from_slice(&piece[..n])?;
        Ok(n)
    }
}

// Whether a call fails.
fn is_listed(fails: &[u32], call: u64) -> bool
    ensures listed { IsTrue result ↔ Contains fails.now call }
    ensures small { IsTrue result → call < 2 ^ 32 }
{
    fails.iter().any(|k| u64::from(*k) == call)
}
