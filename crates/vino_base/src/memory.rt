//! A source and a sink in memory, of which chosen calls fail.

ghost use Rattle.std.specs.Prelude.{◌≡◌, ◌<◌, ◌≤◌, ◌++◌, true, [], length, min, take, drop, IfOk, is_ok, Some};
ghost use Rattle.std.specs.Result.{is_err, IsErr};
ghost use Rattle.std.specs.Bool.{IsTrue};
ghost use Rattle.std.specs.Io.KnownBytes.{ReadConsumes, WriteAppends};
ghost use Rattle.vino_base.specs.Streams.{IsUsed};
ghost use Rattle.vino_base.specs.declared.health.Health.TheVariants.{Sound};
ghost use Rattle.vino_base.specs.Calls.{call_fails};
ghost use Rattle.vino_base.specs.Memory.{given, source_after, source_seen, buffer_after, sink_after, sink_seen};

use crate::calls::{CallPlan, counted_up};
use crate::health::Health;
use crate::streams::{Failed, Sink, Source};
use std::alloc::Global;
use std::marker::Model;

/// Gives the bytes that it was made with.
#[derive(Drop)]
pub struct MemSource {
    bytes: Vec<u8>,
    at: usize,
    plan: CallPlan,
    faults: u64,
    health: Health,
}

impl Model for MemSource {
    ghost use Rattle.std.specs.Prelude.{◌≤◌, drop, vec_len};
    ghost use Rattle.vino_base.specs.Memory.{SourceState};

    ghost Value = { SourceState };

    ghost view = { λ s. record {
      rest = drop s.at s.bytes.items;
      plan = s.plan;
      faults = s.faults;
      health = s.health;
    } };

    ghost invariant = { λ s. s.at ≤ vec_len s.bytes };
}

impl MemSource {
    /// The k-th read, counted from 1, fails exactly where k is in `fails`. No fault was counted
    /// yet.
    pub fn new(bytes: Vec<u8>, fails: Vec<u64>) -> MemSource
        ensures { result ≡ record {
          rest = bytes.items;
          plan = record { made = 0; failing = fails.items };
          faults = 0;
          health = Sound;
        } }
    {
        MemSource {
            bytes,
            at: 0,
            plan: CallPlan::new(fails),
            faults: 0,
            health: Health::Sound,
        }
    }
}

impl Source for MemSource {
    ghost seen = { source_seen };

    fn read(&mut self, buf: &mut [u8]) -> Result<usize, Failed>
        ensures bound { IfOk result (λ n. n ≤ length buf.old) }
        ensures contents { ReadConsumes (source_seen self.old).rest (source_seen self.new).rest result buf.new }
        ensures used { IsUsed (source_seen self.old).device (source_seen self.new).device (is_err result) }
        ensures fails { is_err result ≡ call_fails self.old.plan }
        ensures taken { IfOk result (λ n. n ≡ given (length buf.old) self.old) }
        ensures buffer { buf.new ≡ buffer_after buf.old self.old }
        ensures after { self.new ≡ source_after (length buf.old) self.old }
    {
        let fails = self.plan.next_fails();
        self.health = self.health.after(fails);
        if fails {
            self.faults = counted_up(self.faults);
            return Err(Failed);
        }
        let n = copy_front(&self.bytes[self.at..], buf);
        self.at += n;
        Ok(n)
    }
}

/// Copies as much of the front of `from` as there is room for.
fn copy_front(from: &[u8], to: &mut [u8]) -> usize
    ensures count { result ≡ min (length to.old) (length from.now) }
    ensures copied { to.new ≡ take result from.now ++ drop result to.old }
    ensures parted { from.now ≡ take result to.new ++ drop result from.now }
    ensures end { result ≡ 0 → 0 < length to.old → from.now ≡ [] }
{
    let n = to.len().min(from.len());
    to[..n].copy_from_slice(&from[..n]);
    n
}

/// Keeps the bytes that it is given.
#[derive(Drop)]
pub struct MemSink {
    got: Vec<u8>,
    plan: CallPlan,
    faults: u64,
    health: Health,
}

impl Model for MemSink {
    ghost use Rattle.vino_base.specs.Memory.{SinkState};

    ghost Value = { SinkState };

    ghost view = { λ s. record {
      got = s.got.items;
      plan = s.plan;
      faults = s.faults;
      health = s.health;
    } };
}

impl MemSink {
    /// The k-th write, counted from 1, fails where k is in `fails`, and else only where there is no
    /// memory for its bytes. No fault was counted yet.
    pub fn new(alloc: Global, fails: Vec<u64>) -> MemSink
        ensures { result ≡ record {
          got = [];
          plan = record { made = 0; failing = fails.items };
          faults = 0;
          health = Sound;
        } }
    {
        MemSink {
            got: Vec::new(alloc),
            plan: CallPlan::new(fails),
            faults: 0,
            health: Health::Sound,
        }
    }

    /// The bytes that it took.
    pub fn bytes(&self) -> &[u8]
        ensures { result.now ≡ self.now.got }
    {
        self.got.as_slice()
    }
}

impl Sink for MemSink {
    ghost seen = { sink_seen };

    fn write(&mut self, buf: &[u8]) -> Result<usize, Failed>
        ensures bound { IfOk result (λ n. n ≤ length buf.now) }
        ensures moves { 0 < length buf.now → IfOk result (λ n. 0 < n) }
        ensures contents { WriteAppends (sink_seen self.old).got (sink_seen self.new).got result buf.now }
        ensures used { IsUsed (sink_seen self.old).device (sink_seen self.new).device (is_err result) }
        ensures fails { call_fails self.old.plan ≡ true → IsErr result }
        ensures whole { IfOk result (λ n. n ≡ length buf.now) }
        ensures after { self.new ≡ sink_after (is_ok result) buf.now self.old }
    {
        let takes = !self.plan.next_fails() && self.got.extend_from_slice(buf).is_ok();
        self.health = self.health.after(!takes);
        if takes {
            return Ok(buf.len());
        }
        self.faults = counted_up(self.faults);
        Err(Failed)
    }
}
