//! Output that is gathered, so that many events share one call of the system.
//!
//! Nobody outside can tell: what is gathered is written before the program waits for more input,
//! before it writes a block of a file, and at its end. Until then only its memory has changed.

ghost use Rattle.std.specs.Prelude.{◌≡◌, None};

use crate::file_disk::FileDisk;
use crate::streams::StreamSource;
use std::alloc::Global;
use std::cell::RefCell;
use std::io::{self, BufWriter, Read, Write};
use vino_base::{Disk, Failed, Sink, Source};

/// The most bytes that are gathered.
const GATHERED_BYTES: usize = 65_536;

/// An output, which gathers what is written. Once a write to its writer has failed, nothing more is
/// written there.
#[derive(Drop)]
pub struct Output<W: Write + Drop> {
    writer: RefCell<Option<BufWriter<W>>>,
}

impl<W: Write + Drop> Output<W> {
    /// An output to `inner`, with room for what it gathers. Fails where there is no memory.
    pub fn new(alloc: Global, inner: W) -> io::Result<Output<W>> {
        let writer = BufWriter::with_capacity(alloc, GATHERED_BYTES, inner)?;
        Ok(Output {
            writer: RefCell::new(Some(writer)),
        })
    }

    /// Writes what is gathered. Whether no write has failed so far.
    pub fn hand_on(&self) -> bool {
        match self.writer.try_borrow_mut() {
            Ok(mut writer) => hand_on(&mut writer),
            Err(_) => false,
        }
    }

    /// Gathers these bytes; what has no room is written. Whether no write has failed so far.
    fn gather(&self, bytes: &[u8]) -> bool {
        match self.writer.try_borrow_mut() {
            Ok(mut writer) => gather(&mut writer, bytes),
            Err(_) => false,
        }
    }
}

/// Writes what is gathered, unless a write has failed before.
fn hand_on<W: Write + Drop>(writer: &mut Option<BufWriter<W>>) -> bool {
    let done = match writer {
        Some(writer) => writer.flush().is_ok(),
        None => false,
    };
    forget_unless(done, writer)
}

/// Gathers these bytes, unless a write has failed before.
fn gather<W: Write + Drop>(writer: &mut Option<BufWriter<W>>, bytes: &[u8]) -> bool {
    let done = match writer {
        Some(writer) => writer.write_all(bytes).is_ok(),
        None => false,
    };
    forget_unless(done, writer)
}

/// After a failed write the writer is forgotten, with what it had gathered.
fn forget_unless<W: Write + Drop>(done: bool, writer: &mut Option<BufWriter<W>>) -> bool
    ensures { result ≡ done }
{
    if done {
        return true;
    }
    if let Some(failed) = writer.take() {
        failed.into_parts();
    }
    false
}

/// The sink of an output: it takes all bytes at once. A write that fails later counts as a fault of
/// the next call.
#[derive(Drop)]
pub struct GatheringSink<'a, W: Write + Drop> {
    output: &'a Output<W>,
    faults: u64,
}

impl<'a, W: Write + Drop> GatheringSink<'a, W> {
    /// The sink of `output`. No fault was counted yet.
    pub fn new(output: &'a Output<W>) -> GatheringSink<'a, W>
        ensures faults { result.faults ≡ 0 }
    {
        GatheringSink { output, faults: 0 }
    }
}

impl<'a, W: Write + Drop> Sink for GatheringSink<'a, W> {
    ghost seen = { λ s. record { got = None; device = record { faults = s.faults; health = None } } };

    fn write(&mut self, buf: &[u8]) -> Result<usize, Failed> {
        if self.output.gather(buf) {
            return Ok(buf.len());
        }
        self.faults = self.faults.saturating_add(1);
        Err(Failed)
    }
}

/// A source over a reader that has an output written before it reads. Once that has failed, the
/// source has ended.
#[derive(Drop)]
pub struct PromptSource<'a, R, W: Write + Drop> {
    source: StreamSource<R>,
    output: &'a Output<W>,
}

impl<'a, R, W: Write + Drop> PromptSource<'a, R, W> {
    /// What `inner` gives, once `output` is written. No fault was counted yet.
    pub fn new(inner: R, output: &'a Output<W>) -> PromptSource<'a, R, W>
        ensures faults { result.source.faults ≡ 0 }
    {
        PromptSource {
            source: StreamSource::new(inner),
            output,
        }
    }
}

impl<'a, R: Read, W: Write + Drop> Source for PromptSource<'a, R, W> {
    ghost seen = { λ s. record {
      rest = None;
      device = record { faults = s.source.faults; health = None };
    } };

    fn read(&mut self, buf: &mut [u8]) -> Result<usize, Failed> {
        if self.output.hand_on() {
            self.source.read(buf)
        } else {
            Ok(0)
        }
    }
}

/// A file as a disk that has an output written before it writes a block. Once that has failed, each
/// write of a block fails, and the file stays.
#[derive(Drop)]
pub struct OrderedDisk<'a, W: Write + Drop> {
    disk: FileDisk,
    output: &'a Output<W>,
}

impl<'a, W: Write + Drop> OrderedDisk<'a, W> {
    /// The blocks of `disk`, behind what `output` gathers.
    pub fn new(disk: FileDisk, output: &'a Output<W>) -> OrderedDisk<'a, W>
        ensures disk { result.disk ≡ disk }
    {
        OrderedDisk { disk, output }
    }
}

impl<'a, W: Write + Drop> Disk for OrderedDisk<'a, W> {
    ghost seen = { λ d. record {
      size = d.disk.size;
      known = None;
      plan = None;
      faults = d.disk.faults;
    } };

    ghost lent = { λ d. d.disk.block };

    fn size(&self) -> u32 {
        self.disk.size()
    }

    fn read_block(&mut self, b: u32) -> Result<(), Failed> {
        self.disk.read_block(b)
    }

    fn block(&self) -> &[u8; 512] {
        self.disk.block()
    }

    fn write_block(&mut self, b: u32, from: &[u8; 512]) -> Result<(), Failed> {
        if !self.output.hand_on() {
            return Err(self.disk.failed());
        }
        self.disk.write_block(b, from)
    }
}
