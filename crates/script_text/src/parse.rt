//! `parse_line`: what a line of a script says.

ghost use Rattle.std.specs.Prelude.{◌≡◌, ℕ, ◌≤◌, ◌<◌, List, [], ◌∷◌, length, option_map, slice_index};
ghost use Rattle.std.specs.Result.{OnErr};
ghost use Rattle.script_model.specs.declared.Command.TheVariants as command_is;
ghost use Rattle.script_model.specs.Bare.{call_with};
ghost use Rattle.script_model.specs.Bytes.{hex_word};
ghost use Rattle.script_model.specs.Script.{WRITE_DIGITS, IMAGE_DIGITS, amount_at, name_word};
ghost use Rattle.script_model.specs.Script.{open_by, write_by, serve_by, stream_write_by, call_of};
ghost use Rattle.script_model.specs.Script.{happens_by, loads_by, entry_of, is_blank, parsed_line};
ghost use Rattle.script_text.specs.Answers.{IsParsed, SetsWithin, with_entry};
ghost use Rattle.script_text.specs.Syntax.{words_seen};

use crate::commands::{OwnWord, named};
use crate::digits::name;
use crate::hexes::{loaded, written};
use crate::image_bytes::ImageBytes;
use crate::words::{Reading, WordsRead, read_words, skip};
use arrayvec::ArrayVec;
use script_model::{BLOCK_BYTES, BareCall, BareEvent, CallName, Command, Kind};

/// What a line says.
#[derive(Drop)]
pub enum Entry<'a> {
    /// An empty line, or one that begins with `#`.
    Blank,
    /// How many frames the cache has, 2 to 64.
    Frames(u8),
    /// A kind of object, 0 to 7 in the order of `Object`, and how many ticks a call waits for it, 1
    /// to 1,000.
    Patience(u8, u32),
    /// What root has of each kind of amount at first.
    Grant(u32),
    /// The kernel begins.
    Boot,
    /// An event of the kernel. The bytes of its system call stand in the buffer beside.
    Happens(BareEvent),
    /// A slot, and the bytes of a sealed image for it.
    Image(u32, ImageBytes<'a>),
    /// All rows of the kernel's state are asked for.
    Raw,
}

/// Why a line is refused. The codes are those of `docs/FORMATS.md`.
#[derive(Clone, Copy, Debug, PartialEq, Eq)]
pub enum ScriptFault {
    /// S1: another number of words, an empty word, or a kind that isn't listed.
    BadWord,
    /// S2: a word that is no number, hex or name as asked, or a set-up number outside its range.
    BadNumber,
    /// S4: a set-up line or `boot` after `boot`, or an event line before it.
    WrongPlace,
    /// S5: the first word is no command.
    UnknownCommand,
}

/// An empty line, or one that begins with `#`.
fn is_blank_line(line: &[u8]) -> bool
    ensures { result ≡ is_blank line.now }
{
    line.is_empty() || line[0] == b'#'
}

/// A number that was read, 0 past their end.
fn at(numbers: &[u32], i: usize) -> u32
    ensures { result ≡ slice_index numbers.now i }
{
    if i < numbers.len() { numbers[i] } else { 0 }
}

/// A kind of amount by its place in their list.
fn amount(place: u32) -> Kind
    ensures { result ≡ amount_at place }
{
    match place {
        0 => Kind::Steps,
        1 => Kind::Records,
        _ => Kind::Locks,
    }
}

/// The file that `open` names.
fn open(last: &[u8], bytes: &mut ArrayVec<u8, BLOCK_BYTES>) -> Option<BareCall>
    ensures { option_map (λ c. call_with c bytes.new.items) result ≡ open_by (name_word last.now) }
{
    if name(last, bytes) {
        Some(BareCall::OpenName)
    } else {
        None
    }
}

/// The bytes that `write` puts into block i of a file, from off on.
fn write(
    fd: u32,
    i: u32,
    off: u32,
    last: &[u8],
    bytes: &mut ArrayVec<u8, BLOCK_BYTES>,
) -> Option<BareCall>
    ensures { option_map (λ c. call_with c bytes.new.items) result
        ≡ write_by fd i off (hex_word WRITE_DIGITS last.now) }
{
    if written(last, bytes) {
        Some(BareCall::Write {
            descriptor: fd,
            block: i,
            offset: off,
        })
    } else {
        None
    }
}

/// The bytes that `serve` hands to the handlers of a port.
fn serve(port: u32, last: &[u8], bytes: &mut ArrayVec<u8, BLOCK_BYTES>) -> Option<BareCall>
    ensures { option_map (λ c. call_with c bytes.new.items) result
        ≡ serve_by port (hex_word WRITE_DIGITS last.now) }
{
    if written(last, bytes) {
        Some(BareCall::Serve(port))
    } else {
        None
    }
}

/// The bytes that `swrite` hands to the point of stream writes.
fn stream_write(
    fd: u32,
    i: u32,
    off: u32,
    last: &[u8],
    bytes: &mut ArrayVec<u8, BLOCK_BYTES>,
) -> Option<BareCall>
    ensures { option_map (λ c. call_with c bytes.new.items) result
        ≡ stream_write_by fd i off (hex_word WRITE_DIGITS last.now) }
{
    if written(last, bytes) {
        Some(BareCall::StreamWrite {
            descriptor: fd,
            block: i,
            offset: off,
        })
    } else {
        None
    }
}

/// A system call by its numbers, of which the first is the process, and by its last word.
fn call(
    verb: CallName,
    n: &[u32],
    last: &[u8],
    bytes: &mut ArrayVec<u8, BLOCK_BYTES>,
) -> Option<BareCall>
    ensures { option_map (λ c. call_with c bytes.new.items) result ≡ call_of verb n.now last.now }
{
    match verb {
        CallName::Spawn => Some(BareCall::Spawn),
        CallName::Exit => Some(BareCall::Exit),
        CallName::Yield => Some(BareCall::Yield),
        CallName::Sync => Some(BareCall::Sync),
        CallName::Open => open(last, bytes),
        CallName::Close => Some(BareCall::CloseFd(at(n, 1))),
        CallName::Read => Some(BareCall::Read {
            descriptor: at(n, 1),
            block: at(n, 2),
            offset: at(n, 3),
            length: at(n, 4),
        }),
        CallName::Write => write(at(n, 1), at(n, 2), at(n, 3), last, bytes),
        CallName::Lock => Some(BareCall::TakeLock(at(n, 1))),
        CallName::Unlock => Some(BareCall::FreeLock(at(n, 1))),
        CallName::Poke => Some(BareCall::Poke(at(n, 1), at(n, 2))),
        CallName::Peek => Some(BareCall::Peek(at(n, 1))),
        CallName::Tune => Some(BareCall::Tune {
            kind: at(n, 1),
            parameter: at(n, 2),
            value: at(n, 3),
        }),
        CallName::Default => Some(BareCall::Choose(at(n, 1), at(n, 2))),
        CallName::Give => Some(BareCall::Give {
            receiver: at(n, 1),
            kind: amount(at(n, 2)),
            amount: at(n, 3),
        }),
        CallName::Install => Some(BareCall::Install {
            point: at(n, 1),
            slot: at(n, 2),
            limit: at(n, 3),
        }),
        CallName::Remove => Some(BareCall::Remove(at(n, 1))),
        CallName::Fund => Some(BareCall::Fund {
            point: at(n, 1),
            kind: amount(at(n, 2)),
            amount: at(n, 3),
        }),
        CallName::Bill => Some(BareCall::Bill(at(n, 1))),
        CallName::Serve => serve(at(n, 1), last, bytes),
        CallName::StreamRead => Some(BareCall::StreamRead {
            descriptor: at(n, 1),
            block: at(n, 2),
            offset: at(n, 3),
            length: at(n, 4),
        }),
        CallName::StreamWrite => stream_write(at(n, 1), at(n, 2), at(n, 3), last, bytes),
    }
}

/// `frames n`.
fn frames(n: u32) -> Result<Entry<'static>, ScriptFault>
    ensures answer { (bytes : List ℕ) →
        IsParsed result bytes (entry_of command_is.Frames (n ∷ []) []) }
    ensures limits { SetsWithin result }
{
    if n >= 2 && n <= 64 {
        Ok(Entry::Frames(n as u8))
    } else {
        Err(ScriptFault::BadNumber)
    }
}

/// `patience K n`.
fn patience(kind: u32, n: u32) -> Result<Entry<'static>, ScriptFault>
    requires { kind < 8 }
    ensures answer { (bytes : List ℕ) →
        IsParsed result bytes (entry_of command_is.Patience (kind ∷ n ∷ []) []) }
    ensures limits { SetsWithin result }
{
    if n >= 1 && n <= 1000 {
        Ok(Entry::Patience(kind as u8, n))
    } else {
        Err(ScriptFault::BadNumber)
    }
}

/// A system call as an event.
fn happens(
    verb: CallName,
    n: &[u32],
    last: &[u8],
    bytes: &mut ArrayVec<u8, BLOCK_BYTES>,
) -> Result<Entry<'static>, ScriptFault>
    ensures answer { IsParsed result bytes.new.items
        (happens_by (slice_index n.now 0) (call_of verb n.now last.now)) }
    ensures limits { SetsWithin result }
{
    let Some(call) = call(verb, n, last, bytes) else {
        return Err(ScriptFault::BadNumber);
    };
    Ok(Entry::Happens(BareEvent::Sys(at(n, 0), call)))
}

/// `image k HEX`.
fn image<'a>(slot: u32, last: &'a [u8]) -> Result<Entry<'a>, ScriptFault>
    ensures answer { (bytes : List ℕ) → IsParsed result bytes (loads_by slot (hex_word IMAGE_DIGITS last.now)) }
    ensures limits { SetsWithin result }
{
    match loaded(last) {
        Some(bytes) => Ok(Entry::Image(slot, bytes)),
        None => Err(ScriptFault::BadNumber),
    }
}

/// A command by its numbers and its last word.
fn entry_said<'a>(
    command: Command,
    n: &[u32],
    last: &'a [u8],
    bytes: &mut ArrayVec<u8, BLOCK_BYTES>,
) -> Result<Entry<'a>, ScriptFault>
    requires { command ≡ command_is.Patience → slice_index n.now 0 < 8 }
    ensures answer { IsParsed result bytes.new.items (entry_of command n.now last.now) }
    ensures limits { SetsWithin result }
{
    match command {
        Command::Frames => frames(at(n, 0)),
        Command::Patience => patience(at(n, 0), at(n, 1)),
        Command::Grant => Ok(Entry::Grant(at(n, 0))),
        Command::Boot => Ok(Entry::Boot),
        Command::Tick => Ok(Entry::Happens(BareEvent::Tick)),
        Command::Step => Ok(Entry::Happens(BareEvent::Step(at(n, 0), at(n, 1)))),
        Command::Raw => Ok(Entry::Raw),
        Command::Image => image(at(n, 0), last),
        Command::Call(name) => happens(name, n, last, bytes),
    }
}

/// What a line says, with these words added, before or after `boot`, or why it is refused.
fn line_said<'a>(
    own: &[OwnWord<'_>],
    line: &'a [u8],
    booted: bool,
    bytes: &mut ArrayVec<u8, BLOCK_BYTES>,
) -> Result<Entry<'a>, ScriptFault>
    requires { length line.now ≤ 65536 }
    ensures answer { IsParsed result bytes.new.items
        (parsed_line (words_seen own.now) booted line.now) }
    ensures limits { SetsWithin result }
{
    bytes.clear();
    if is_blank_line(line) {
        return Ok(Entry::Blank);
    }
    let Some(syntax) = named(own, line) else {
        return Err(ScriptFault::UnknownCommand);
    };
    if syntax.sets_up == booted {
        return Err(ScriptFault::WrongPlace);
    }
    let mut words = WordsRead {
        numbers: ArrayVec::new(),
        last: &line[..0],
    };
    match read_words(syntax.forms, skip(line, syntax.size), &mut words) {
        Reading::BadWord => Err(ScriptFault::BadWord),
        Reading::BadNumber => Err(ScriptFault::BadNumber),
        Reading::Said => entry_said(syntax.command, words.numbers.as_slice(), words.last, bytes),
    }
}

/// What a line says, before or after `boot`, which is put where it is lent, so that it isn't moved;
/// or why it is refused. The line stands without its newline. The words `own` are added to the
/// fixed ones, and are looked at only where the first word of the line isn't fixed.
///
/// The name of an `open` and the bytes of a `write`, a `swrite` and a `serve` go to `bytes`, which
/// has none for other lines.
/// No memory is taken: the bytes of an image are decoded later.
pub fn parse_line<'a>(
    own: &[OwnWord<'_>],
    line: &'a [u8],
    booted: bool,
    bytes: &mut ArrayVec<u8, BLOCK_BYTES>,
    entry: &mut Entry<'a>,
) -> Result<(), ScriptFault>
    requires { length line.now ≤ 65536 }
    ensures answer { IsParsed (with_entry result entry.new) bytes.new.items
        (parsed_line (words_seen own.now) booted line.now) }
    ensures limits { SetsWithin (with_entry result entry.new) }
    ensures kept { OnErr result (entry.new ≡ entry.old) }
{
    *entry = line_said(own, line, booted, bytes)?;
    Ok(())
}
