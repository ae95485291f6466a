//! The run loop.

ghost use Rattle.std.specs.Prelude.{◌≡◌, ◌≢◌, ◌==◌, ◌+◌, ◌-◌, ◌<◌, ◌≤◌, ◌^◌, ℕ, List, [], ◌∷◌};
ghost use Rattle.std.specs.Prelude.{◌++◌, length, false, Err, OnOk, IfOk, MatchResult, replicate};
ghost use Rattle.std.specs.Prelude.{◌⊎◌, drop};
ghost use Rattle.std.specs.Io.KnownBytes.{Appends, Consumes, IsAtEnd};
ghost use Rattle.vino_base.specs.Streams.{AppendsPart, IsUsed};
ghost use Rattle.script_model.specs.Script.{LINE_BYTES};
ghost use Rattle.script_text.specs.Syntax.{words_seen};
ghost use Rattle.vino_top.specs.Bounds.{IsSessionOver, CanTake};
ghost use Rattle.vino_top.specs.declared.run.Stop.TheVariants.{SinkFailed};
ghost use Rattle.vino_top.specs.Run.{Place, place_with, run_moment, TakesOrStops, FeedsOrStops};
ghost use Rattle.vino_top.specs.Run.{WritesLast, devices, Ran, Broke, Lacked, stop_status};
ghost use Rattle.vino_top.specs.Run.{is_sink_failed};
ghost use Rattle.vino_top.specs.Standing.{seen_of, IsBegun, last_bytes, last_status};
ghost use Rattle.vino_base.specs.Disks.{DiskSeen};

use crate::session::{Buffers, Session};
use call_pieces::{Calls, Policy};
use graft_loader::Keys;
use kernel_data::NoMemory;
use script_text::{Fed, LineBuf, OwnWord};
use std::alloc::Global;
use vino_base::{Disk, Sink, Source, write_all};

/// The most bytes of a script.
const SCRIPT_BYTES: usize = 16_777_216;

/// Why a run stops within a script, but for a refused line.
#[derive(Clone, Copy, Debug, PartialEq, Eq)]
pub enum Stop {
    /// The sink failed.
    SinkFailed,
    /// There was no memory for the image of a line.
    NoMemory,
}

/// With what a script is run: where the images' memory is taken, the keys of their seals, and the
/// words that are added to the fixed ones.
#[derive(Clone, Copy)]
pub struct Loading<'a> {
    pub alloc: Global,
    pub keys: &'a Keys,
    pub own: &'a [OwnWord<'a>],
}

/// The run of a script: its session, the line that is being read, and what a line leaves behind.
#[derive(Drop)]
pub struct ScriptRun<C: Calls, B: Policy> {
    pub session: Session<C, B>,
    pub line: LineBuf,
    pub out: Buffers,
}

impl<C: Calls, B: Policy> ScriptRun<C, B> {
    /// Before the first byte, over this session.
    pub fn new(alloc: Global, session: Session<C, B>) -> Result<ScriptRun<C, B>, NoMemory>
        ensures session { IfOk result (λ r. r.session ≡ session) }
        ensures line { IfOk result (λ r. r.line ≡ []) }
    {
        let line = LineBuf::new(alloc)?;
        let out = Buffers::new(alloc)?;
        Ok(ScriptRun { session, line, out })
    }
}

/// So many zero bytes.
pub fn zeros(alloc: Global, n: usize) -> Result<Vec<u8>, NoMemory>
    ensures { IfOk result (λ v. v.items ≡ replicate n 0) }
{
    match vec![in alloc; 0u8; n] {
        Ok(v) => Ok(v),
        Err(_) => Err(NoMemory),
    }
}

/// What a line writes is written.
fn write_lines<C: Calls, B: Policy, K: Sink>(
    reader: &ScriptRun<C, B>,
    out: &mut K,
) -> Result<(), Stop>
    ensures sink { IsUsed (K.seen out.old).device (K.seen out.new).device (is_sink_failed result) }
    ensures contents { MatchResult result
        (λ _. Appends (K.seen out.old).got (K.seen out.new).got reader.now.out.lines)
        (λ stop. (stop ≡ SinkFailed)
        × AppendsPart (K.seen out.old).got (K.seen out.new).got reader.now.out.lines) }
{
    match write_all(out, reader.out.lines.as_slice()) {
        Ok(()) => Ok(()),
        Err(_) => Err(Stop::SinkFailed),
    }
}

/// A line that stands whole in what was read is run, and what it writes is written.
fn run_whole<C: Calls, B: Policy, K: Sink, D: Disk>(
    alloc: Global,
    keys: &Keys,
    own: &[OwnWord<'_>],
    reader: &mut ScriptRun<C, B>,
    text: &[u8],
    out: &mut K,
    disk: &mut D,
) -> Result<(), Stop>
    requires can { CanTake C.Meaning.meaning (D.seen disk.old).size 1 reader.old }
    requires fresh { reader.old.line ≡ [] }
    requires short { length text.now ≤ LINE_BYTES }
    ensures within { IsSessionOver C.Meaning.meaning (D.seen disk.new).size reader.new.session }
    ensures taken { TakesOrStops
        (place_with (words_seen own.now) C.Meaning.meaning keys.now (D.seen disk.old).size) text.now
        (run_moment reader.old (K.seen out.old) (D.seen disk.old))
        (run_moment reader.new (K.seen out.new) (D.seen disk.new)) result }
{
    if let Err(_) = reader
        .session
        .run_line_with(alloc, keys, own, text, disk, &mut reader.out)
    {
        return Err(Stop::NoMemory);
    }
    write_lines(reader, out)
}

/// The line has ended: it is run, and what it writes is written.
fn end_line<C: Calls, B: Policy, K: Sink, D: Disk>(
    alloc: Global,
    keys: &Keys,
    own: &[OwnWord<'_>],
    reader: &mut ScriptRun<C, B>,
    out: &mut K,
    disk: &mut D,
) -> Result<(), Stop>
    requires { CanTake C.Meaning.meaning (D.seen disk.old).size 1 reader.old }
    ensures within { IsSessionOver C.Meaning.meaning (D.seen disk.new).size reader.new.session }
    ensures taken { TakesOrStops
        (place_with (words_seen own.now) C.Meaning.meaning keys.now (D.seen disk.old).size)
        reader.old.line
        (run_moment reader.old (K.seen out.old) (D.seen disk.old))
        (run_moment reader.new (K.seen out.new) (D.seen disk.new)) result }
{
    if let Err(_) = reader.session.run_line_with(
        alloc,
        keys,
        own,
        reader.line.line(),
        disk,
        &mut reader.out,
    ) {
        return Err(Stop::NoMemory);
    }
    reader.line.clear();
    write_lines(reader, out)
}

/// The line is too long with this byte.
fn end_long<C: Calls, B: Policy, K: Sink>(
    reader: &mut ScriptRun<C, B>,
    byte: u8,
    out: &mut K,
) -> Result<(), Stop>
    requires lines { reader.old.session.lines < 2 ^ 32 - 2 }
    requires long { length reader.old.line ≡ LINE_BYTES }
    ensures within { (size : ℕ) → IsSessionOver C.Meaning.meaning size reader.old.session →
        IsSessionOver C.Meaning.meaning size reader.new.session }
    ensures taken { (c : Place) (d : DiskSeen) → TakesOrStops c (reader.old.line ++ byte ∷ [])
        (run_moment reader.old (K.seen out.old) d) (run_moment reader.new (K.seen out.new) d) result }
{
    reader.session.refuse_long(&mut reader.out);
    reader.line.clear();
    write_lines(reader, out)
}

/// One byte of the script.
fn take_byte<C: Calls, B: Policy, K: Sink, D: Disk>(
    alloc: Global,
    keys: &Keys,
    own: &[OwnWord<'_>],
    reader: &mut ScriptRun<C, B>,
    byte: u8,
    out: &mut K,
    disk: &mut D,
) -> Result<(), Stop>
    requires { CanTake C.Meaning.meaning (D.seen disk.old).size 1 reader.old }
    ensures within { IsSessionOver C.Meaning.meaning (D.seen disk.new).size reader.new.session }
    ensures fed { FeedsOrStops
        (place_with (words_seen own.now) C.Meaning.meaning keys.now (D.seen disk.old).size)
        (byte ∷ [])
        (run_moment reader.old (K.seen out.old) (D.seen disk.old))
        (run_moment reader.new (K.seen out.new) (D.seen disk.new)) result }
{
    match reader.line.push(byte) {
        Fed::More => Ok(()),
        Fed::Line => end_line(alloc, keys, own, reader, out, disk),
        Fed::TooLong => end_long(reader, byte, out),
    }
}

/// The bytes from a place on.
fn behind(bytes: &[u8], at: usize) -> &[u8]
    requires { at ≤ length bytes.now }
    ensures { result.now ≡ drop at bytes.now }
{
    &bytes[at..]
}

/// Some bytes of the script. A line that stands whole among them is run from where it stands; of
/// others the bytes are put to the line at once, and then comes what ends it.
fn feed<C: Calls, B: Policy, K: Sink, D: Disk>(
    alloc: Global,
    keys: &Keys,
    own: &[OwnWord<'_>],
    reader: &mut ScriptRun<C, B>,
    bytes: &[u8],
    out: &mut K,
    disk: &mut D,
) -> Result<(), Stop>
    requires { CanTake C.Meaning.meaning (D.seen disk.old).size (length bytes.now) reader.old }
    ensures within { IsSessionOver C.Meaning.meaning (D.seen disk.new).size reader.new.session }
    ensures fed { FeedsOrStops
        (place_with (words_seen own.now) C.Meaning.meaning keys.now (D.seen disk.old).size)
        bytes.now
        (run_moment reader.old (K.seen out.old) (D.seen disk.old))
        (run_moment reader.new (K.seen out.new) (D.seen disk.new)) result }
{
    let mut at = 0;
    while at < bytes.len() {
        let rest = behind(bytes, at);
        if let Some(end) = reader.line.next_whole(rest) {
            let text = &rest[..end];
            if let Err(stop) = run_whole(alloc, keys, own, reader, text, out, disk) {
                return Err(stop);
            }
            at += end + 1;
            continue;
        }
        at += reader.line.put_plain(rest);
        if at == bytes.len() {
            continue;
        }
        if let Err(stop) = take_byte(alloc, keys, own, reader, bytes[at], out, disk) {
            return Err(stop);
        }
        at += 1;
    }
    Ok(())
}

/// Writes the last lines of a run, which ends with this status.
fn write_last<C: Calls, B: Policy, K: Sink>(reader: &ScriptRun<C, B>, status: u8, out: &mut K) -> u8
    requires { (status ≡ 0) ⊎ (status ≡ 2) }
    ensures { WritesLast reader.now.out.lines status (K.seen out.old) (K.seen out.new) result }
{
    match write_all(out, reader.out.lines.as_slice()) {
        Ok(()) => status,
        Err(_) => 4,
    }
}

/// The input has ended: bytes behind the last newline are refused, and else a line is written for
/// each call that is left.
fn finish<C: Calls, B: Policy, K: Sink>(reader: &mut ScriptRun<C, B>, out: &mut K) -> u8
    requires lines { reader.old.session.lines < 2 ^ 32 - 2 }
    requires within { (size : ℕ) × IsSessionOver C.Meaning.meaning size reader.old.session }
    ensures { WritesLast (last_bytes (seen_of reader.old.session) reader.old.line)
        (last_status reader.old.line) (K.seen out.old) (K.seen out.new) result }
{
    if reader.line.line().is_empty() {
        reader.session.left(&mut reader.out);
        return write_last(reader, 0, out);
    }
    reader.session.say_unfinished(&mut reader.out);
    write_last(reader, 2, out)
}

/// The status of a run that stopped.
fn status_of(stop: Stop) -> u8
    ensures { result ≡ stop_status stop }
{
    match stop {
        Stop::SinkFailed => 4,
        Stop::NoMemory => 5,
    }
}

/// Runs the script that the source gives, to its end or to the first thing that stops it. The
/// status.
pub fn run_to_end<C: Calls, B: Policy, S: Source, K: Sink, D: Disk>(
    loading: Loading<'_>,
    reader: &mut ScriptRun<C, B>,
    buf: &mut [u8],
    src: &mut S,
    out: &mut K,
    disk: &mut D,
) -> u8
    requires begun { IsBegun (seen_of reader.old.session) }
    requires within { IsSessionOver C.Meaning.meaning (D.seen disk.old).size reader.old.session }
    requires line { reader.old.line ≡ [] }
    requires room { 0 < length buf.old }
    ensures ran { result ≢ 4 → result ≢ 5 →
        Ran (place_with (words_seen loading.entry.own.now) C.Meaning.meaning loading.entry.keys.now
        (D.seen disk.old).size)
        (devices (S.seen src.old) (K.seen out.old) (D.seen disk.old))
        (devices (S.seen src.new) (K.seen out.new) (D.seen disk.new)) result }
    ensures broke { result ≡ 4 → Broke
        (place_with (words_seen loading.entry.own.now) C.Meaning.meaning loading.entry.keys.now
        (D.seen disk.old).size)
        (devices (S.seen src.old) (K.seen out.old) (D.seen disk.old))
        (devices (S.seen src.new) (K.seen out.new) (D.seen disk.new)) }
    ensures lacked { result ≡ 5 → Lacked
        (place_with (words_seen loading.entry.own.now) C.Meaning.meaning loading.entry.keys.now
        (D.seen disk.old).size)
        (devices (S.seen src.old) (K.seen out.old) (D.seen disk.old))
        (devices (S.seen src.new) (K.seen out.new) (D.seen disk.new)) }
    ensures statuses { (result ≡ 0) ⊎ (result ≡ 2) ⊎ (result ≡ 3) ⊎ (result ≡ 4) ⊎ (result ≡ 5)
        ⊎ (result ≡ 7) }
    ensures source { IsUsed (S.seen src.old).device (S.seen src.new).device (result == 3) }
    ensures sink { IsUsed (K.seen out.old).device (K.seen out.new).device (result == 4) }
{
    let mut left = SCRIPT_BYTES + 1;
    while left > 0 {
        let room = left.min(buf.len());
        match src.read(&mut buf[..room]) {
            Err(_) => return 3,
            Ok(0) => return finish(reader, out),
            Ok(n) => {
                let script = n.min(left - 1);
                left -= n;
                let bytes = &buf[..script];
                if let Err(stop) = feed(
                    loading.alloc,
                    loading.keys,
                    loading.own,
                    reader,
                    bytes,
                    out,
                    disk,
                ) {
                    return status_of(stop);
                }
                if reader.session.refused {
                    return 2;
                }
            }
        }
    }
    7
}
