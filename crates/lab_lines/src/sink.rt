//! A sink that keeps what it takes, and the borders of the writes.

ghost use Rattle.std.specs.Prelude.{◌≡◌, ◌≤◌, ◌<◌, length, IfOk, is_ok};
ghost use Rattle.std.specs.Io.KnownBytes.{WriteAppends};
ghost use Rattle.std.specs.Result.{is_err};
ghost use Rattle.vino_base.specs.Streams.{IsUsed};
ghost use Rattle.lab_lines.specs.Kept as spec;

use std::alloc::Global;
use std::marker::Model;
use vino_base::{Failed, Sink};

/// Keeps the bytes that it takes, and where each write of them ended.
#[derive(Drop)]
pub struct LineSink {
    got: Vec<u8>,
    ends: Vec<usize>,
    faults: u64,
}

impl Model for LineSink {
    ghost use Rattle.lab_lines.specs.Kept as spec;

    ghost Value = { spec.Kept };

    ghost view = { λ s. record { got = s.got.items; ends = s.ends.items; faults = s.faults } };
}

impl LineSink {
    /// Nothing was taken yet.
    pub fn new(alloc: Global) -> LineSink
        ensures { result ≡ spec.nothing_kept }
    {
        LineSink {
            got: Vec::new(alloc),
            ends: Vec::new(alloc),
            faults: 0,
        }
    }

    /// All bytes that it took.
    pub fn bytes(&self) -> &[u8]
        ensures { result.now ≡ self.now.got }
    {
        self.got.as_slice()
    }

    /// Where each write ended, in their order.
    pub fn ends(&self) -> &[usize]
        ensures { result.now ≡ self.now.ends }
    {
        self.ends.as_slice()
    }

    /// Puts bytes and their end behind the others, if there is memory for both.
    fn keep(&mut self, bytes: &[u8]) -> bool
        ensures { self.new ≡ spec.kept_if result bytes.now self.old }
    {
        let end = self.got.len() + bytes.len();
        if self.ends.push(end).is_err() {
            return false;
        }
        if self.got.extend_from_slice(bytes).is_err() {
            let _ = self.ends.pop();
            return false;
        }
        true
    }
}

impl Sink for LineSink {
    ghost seen = { spec.kept_seen };

    fn write(&mut self, buf: &[u8]) -> Result<usize, Failed>
        ensures bound { IfOk result (λ n. n ≤ length buf.now) }
        ensures moves { 0 < length buf.now → IfOk result (λ n. 0 < n) }
        ensures contents { WriteAppends (spec.kept_seen self.old).got (spec.kept_seen self.new).got
            result buf.now }
        ensures used { IsUsed (spec.kept_seen self.old).device (spec.kept_seen self.new).device
            (is_err result) }
        ensures whole { IfOk result (λ n. n ≡ length buf.now) }
        ensures after { self.new ≡ spec.kept_after (is_ok result) buf.now self.old }
    {
        if self.keep(buf) {
            return Ok(buf.len());
        }
        self.faults = self.faults.saturating_add(1);
        Err(Failed)
    }
}
