//! std's readers and writers as a source and a sink.

ghost use Rattle.std.specs.Prelude.{◌≡◌, None};

use std::io::{Read, Write};
use vino_base::{Failed, Sink, Source};

/// A source over a reader.
#[derive(Drop)]
pub struct StreamSource<R> {
    inner: R,
    faults: u64,
}

impl<R> StreamSource<R> {
    /// A source that reads from `inner`. No fault was counted yet.
    pub fn new(inner: R) -> StreamSource<R>
        ensures inner { result.inner ≡ inner }
        ensures faults { result.faults ≡ 0 }
    {
        StreamSource { inner, faults: 0 }
    }
}

impl<R: Read> Source for StreamSource<R> {
    ghost seen = { λ s. record { rest = None; device = record { faults = s.faults; health = None } } };

    fn read(&mut self, buf: &mut [u8]) -> Result<usize, Failed> {
        match self.inner.read(buf) {
            Ok(n) => Ok(n),
            Err(_) => {
                self.faults = self.faults.saturating_add(1);
                Err(Failed)
            }
        }
    }
}

/// A sink over a writer. A write that takes nothing of some bytes is a fault too.
#[derive(Drop)]
pub struct StreamSink<W> {
    inner: W,
    faults: u64,
}

impl<W> StreamSink<W> {
    /// A sink that writes to `inner`. No fault was counted yet.
    pub fn new(inner: W) -> StreamSink<W>
        ensures inner { result.inner ≡ inner }
        ensures faults { result.faults ≡ 0 }
    {
        StreamSink { inner, faults: 0 }
    }
}

impl<W: Write> Sink for StreamSink<W> {
    ghost seen = { λ s. record { got = None; device = record { faults = s.faults; health = None } } };

    fn write(&mut self, buf: &[u8]) -> Result<usize, Failed> {
        match self.inner.write(buf) {
            Ok(n) if n > 0 || buf.is_empty() => Ok(n),
            _ => {
                self.faults = self.faults.saturating_add(1);
                Err(Failed)
            }
        }
    }
}
