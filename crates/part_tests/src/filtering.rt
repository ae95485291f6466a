//! What the filters write over sources and sinks that fail.

ghost use Rattle.std.specs.Prelude.{◌≡◌, ◌<◌, ◌≤◌, None, length, IfOk};
ghost use Rattle.std.specs.Io.KnownBytes.{ReadConsumes, WriteAppends};
ghost use Rattle.mem_disk.specs.Faults.{HasCause};

use commands::{asm, box_image, check_image, dis, reseal_image};
use graft_loader::Keys;
use mem_disk::{Failed, MemSink, MemSource, Sink, Source};
use std::alloc::Global;
use std::process::Abort;
use std::test::Fail;

/// Gives a few bytes at a time, and fails at one call.
#[derive(Drop)]
struct SlowSource {
    bytes: Vec<u8>,
    at: usize,
    calls: u64,
    failing: u64,
    faults: u64,
}

impl Source for SlowSource {
    ghost seen = { λ s. record { rest = None; device = record { faults = s.faults; health = None } } };

    fn read(&mut self, buf: &mut [u8]) -> Result<usize, Failed> {
        self.calls = self.calls.saturating_add(1);
        if self.calls == self.failing {
            self.faults = self.faults.saturating_add(1);
            return Err(Failed);
        }
        let at = self.at.min(self.bytes.len());
        let left = &self.bytes[at..];
        let n = left.len().min(buf.len()).min(5);
        buf[..n].copy_from_slice(&left[..n]);
        self.at = at + n;
        Ok(n)
    }
}

/// Takes a few bytes at a time, and fails at one call, or where there is no memory.
#[derive(Drop)]
struct SlowSink {
    got: Vec<u8>,
    calls: u64,
    failing: u64,
    faults: u64,
}

impl Sink for SlowSink {
    ghost seen = { λ s. record { got = None; device = record { faults = s.faults; health = None } } };

    fn write(&mut self, buf: &[u8]) -> Result<usize, Failed> {
        self.calls = self.calls.saturating_add(1);
        let n = buf.len().min(3);
        if self.calls != self.failing && self.got.extend_from_slice(&buf[..n]).is_ok() {
            return Ok(n);
        }
        self.faults = self.faults.saturating_add(1);
        Err(Failed)
    }
}

fn slow_source(alloc: Global, bytes: &[u8], failing: u64) -> Result<SlowSource, Fail> {
    Ok(SlowSource {
        bytes: Vec::from_slice(alloc, bytes)?,
        at: 0,
        calls: 0,
        failing,
        faults: 0,
    })
}

fn slow_sink(alloc: Global, failing: u64) -> SlowSink {
    SlowSink {
        got: Vec::new(alloc),
        calls: 0,
        failing,
        faults: 0,
    }
}

fn run_command<S: Source, K: Sink>(alloc: Global, word: &str, src: &mut S, out: &mut K) -> u8 {
    match word {
        "box" => box_image(alloc, &KEYS, false, src, out),
        "box keep" => box_image(alloc, &KEYS, true, src, out),
        "check" => check_image(alloc, &KEYS, src, out),
        "reseal" => reseal_image(alloc, &KEYS, src, out),
        "asm" => asm(alloc, src, out),
        _ => dis(alloc, src, out),
    }
}

const KEYS: Keys = Keys {
    first: [7; 32],
    second: None,
};

const RET: &str = "5647523001000000000000001a00000000000000\n";

/// The same, boxed. Another program computed the seal.
const SEALED: &str =
    "5647523102000000010000000000000000000000000000001a00000000000000a6ced61cf85546b0e83d146af58\
    3bacfac81ca9c755132b003bd6017eada7f4e\n";

/// The same with the flag keep.
const KEEPING: &str =
    "5647523102000000010000000000000001000000000000001a00000000000000bb439fec280afa944b1b90f1d41\
    1f393247a634d1f623949754a5f933344d1bc\n";

#[test]
fn a_failing_read_writes_nothing(rt: HostRuntime) -> Result<(), Fail> {
    let alloc = rt.alloc();
    for (word, input, output) in [
        ("asm", "ret\n# and this\n", RET),
        ("dis", RET, "ret\n"),
        ("box", RET, SEALED),
        ("box keep", RET, KEEPING),
        ("check", SEALED, "ok 1 0\n"),
        ("reseal", SEALED, SEALED),
        ("reseal", KEEPING, KEEPING),
    ] {
        // So many calls give bytes, and one more says that there are none left.
        let calls = (input.len() as u64 + 4) / 5 + 1;
        for failing in 1..calls + 2 {
            let mut src = slow_source(alloc, input.as_bytes(), failing)?;
            let mut out = MemSink::new(alloc, Vec::new(alloc));
            let status = run_command(alloc, word, &mut src, &mut out);
            if failing <= calls {
                assert_eq!(rt; status, 3, "{word} {failing}");
                assert!(rt; out.bytes().is_empty(), "{word} {failing}");
            } else {
                assert_eq!(rt; status, 0, "{word} {failing}");
                assert!(rt; out.bytes() == output.as_bytes(), "{word}");
            }
        }
    }
    Ok(())
}

#[test]
fn a_failing_write_leaves_a_part(rt: HostRuntime) -> Result<(), Fail> {
    let alloc = rt.alloc();
    for (word, input, output) in [
        ("asm", "ret\n", RET),
        ("dis", RET, "ret\n"),
        ("dis", "00", "input S6\n"),
        ("check", SEALED, "ok 1 0\n"),
        ("reseal", SEALED, SEALED),
    ] {
        let calls = (output.len() as u64 + 2) / 3;
        for failing in 1..calls + 1 {
            let mut src = slow_source(alloc, input.as_bytes(), 0)?;
            let mut out = slow_sink(alloc, failing);
            assert_eq!(rt;
                run_command(alloc, word, &mut src, &mut out),
                4,
                "{word} {failing}"
            );
            let part = out.got.len();
            assert_eq!(rt; part as u64, 3 * (failing - 1), "{word} {failing}");
            assert!(rt;
                output.as_bytes().starts_with(out.got.as_slice()),
                "{word} {failing}"
            );
        }
        let mut src = slow_source(alloc, input.as_bytes(), 0)?;
        let mut out = slow_sink(alloc, 0);
        assert!(rt; run_command(alloc, word, &mut src, &mut out) < 3, "{word}");
        assert!(rt; out.got.as_slice() == output.as_bytes(), "{word}");
    }
    Ok(())
}
