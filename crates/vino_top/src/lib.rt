//! The top call: it does all that the program does.
//!
//! What it writes is said by the definitions of `kernel_model`. `docs/PROMISES.md` reads the
//! clauses aloud.
#![tactic(auto)]

ghost use Rattle.std.specs.Prelude.{◌≡◌, ◌==◌, ◌⊎◌, true, false, List, [], ℕ, String, Vec, map, string_bytes};
ghost use Rattle.std.specs.Io.KnownBytes.{Appends};
ghost use Rattle.vino_base.specs.Streams.{AppendsPart, IsUsed};
ghost use Rattle.script_model.specs.Text.{line, usage_text};
ghost use Rattle.script_model.specs.Opening.{opening_policy};
ghost use Rattle.call_pieces.specs.Shelf.{IsShelf, pol_of, first_choice};
ghost use Rattle.vino_top.specs.Standing.{seen_of, IsBegun};
ghost use Rattle.vino_top.specs.Bounds.{IsStock, IsSessionOver};
ghost use Rattle.commands.specs.Words.{asked_by};
ghost use Rattle.vino_top.specs.TextLaw.{TextDecides};
ghost use Rattle.script_text.specs.Syntax.{words_seen};
ghost use Rattle.vino_top.specs.Run.{place_with, place_over, devices};
ghost use Rattle.vino_top.specs.Does.{Does, RunAnswers};

mod demo;
pub mod laws;
mod lines;
mod loading;
mod rows;
mod run;
pub mod session;

pub use crate::lines::Lines;
use crate::run::Loading;
pub use crate::session::Buffers;
use call_pieces::{Beside, Calls, Plain, Policy};
use commands::{Asked, read_words};
pub use demo_text::demo_script;
use event_points::EventPoints;
pub use graft_loader::Keys;
pub use script_text::{CallName, OwnWord, no_words};
use std::alloc::Global;
use stream_points::StreamPoints;
use vino_base::{Disk, Sink, Source, write_all};

/// All calls of the program: those of stream points and of event points, beside all others.
pub type AllCalls = Beside<StreamPoints, Beside<EventPoints, Plain>>;

/// How far a script of the program has come.
pub type Session<B> = session::Session<AllCalls, B>;

/// How many bytes are read at once, at most.
const READ_BYTES: usize = 65_536;

/// Does what the words ask. `run KEYS` runs the script that the source gives, whose images are
/// sealed under these keys. `box KEYS` boxes and seals the raw image that it gives, with the flag
/// keep where `keep` stands behind; `check KEYS` says whether a sealed image can be used, and
/// `reseal KEYS` seals one anew under the last key. `asm`, `dis` and `lang` assemble, disassemble
/// and compile what it gives. `audit KEYS` says whether the lines behind the first line `%%` are what
/// `run KEYS` writes for the script before it. `demo N` runs the script that `demo_script` gives for N and tells of
/// it in one line. For other words the usage line is written.
///
/// The words are those after the program's own name. The answer is the exit status: 0 for an input
/// that was done to its end, 1 for words that aren't in the grammar, 2 for a refused line, 3 for a
/// source and 4 for a sink that failed, 5 for want of memory, 6 for an image that is refused, 7 for
/// an input of more than 16,777,216 bytes, 8 for a claim that isn't what the script writes.
pub fn vino<S: Source, K: Sink, D: Disk>(
    alloc: Global,
    words: &[String],
    src: &mut S,
    out: &mut K,
    disk: &mut D,
    shelf: Vec<Box<dyn Policy>>,
) -> u8
    // The shelf has the seven stock policies, with their parameters at boot.
    requires shelf { IsShelf (map ⟦<Box<dyn Policy> as Policy>⟧.seen shelf.items) }
    requires stock { pol_of (map ⟦<Box<dyn Policy> as Policy>⟧.seen shelf.items) first_choice
        ≡ opening_policy }
    // What is done for what the words ask: the status, the bytes read and written, and the disk.
    ensures does { Does (asked_by (map (λ (w : _). string_bytes w) words.now))
        (devices (S.seen src.old) (K.seen out.old) (D.seen disk.old))
        (devices (S.seen src.new) (K.seen out.new) (D.seen disk.new)) result }
    // No other status comes.
    ensures statuses { (result ≡ 0) ⊎ (result ≡ 1) ⊎ (result ≡ 2) ⊎ (result ≡ 3) ⊎ (result ≡ 4)
        ⊎ (result ≡ 5) ⊎ (result ≡ 6) ⊎ (result ≡ 7) ⊎ (result ≡ 8) }
    // A source or a sink is blamed only where its count of faults rose, and none is called again
    // behind a call that failed.
    ensures source { IsUsed (S.seen src.old).device (S.seen src.new).device (result == 3) }
    ensures sink { IsUsed (K.seen out.old).device (K.seen out.new).device (result == 4) }
{
    match read_words(words) {
        Asked::Run(keys) => {
            run_script::<AllCalls, Box<dyn Policy>, S, K, D>(alloc, &keys, src, out, disk, shelf)
        }
        Asked::Box(keys, keep) => commands::box_image(alloc, &keys, keep, src, out),
        Asked::Check(keys) => commands::check_image(alloc, &keys, src, out),
        Asked::Reseal(keys) => commands::reseal_image(alloc, &keys, src, out),
        Asked::Asm => commands::asm(alloc, src, out),
        Asked::Dis => commands::dis(alloc, src, out),
        Asked::Lang => commands::lang(alloc, src, out),
        Asked::Audit(keys) => commands::audit(alloc, &keys, src, out),
        Asked::Demo(n) => demo::demo(alloc, n, out, disk, shelf),
        Asked::Nothing => write_usage(out),
    }
}

/// Over the definitions, too, the text of its lines alone says which line of a run is refused, with
/// which status the run ends, and which refusal it writes last: neither keys nor blocks nor failing
/// calls of the disk come into it.
pub fn text_decides()
    ensures { TextDecides }
{}

/// Runs the script that the source gives, in a kernel over a table of calls, with these keys for
/// its images. The answer is the exit status. The program does so for `run KEYS`, over `AllCalls`.
pub fn run_script<C: Calls, B: Policy, S: Source, K: Sink, D: Disk>(
    alloc: Global,
    keys: &Keys,
    src: &mut S,
    out: &mut K,
    disk: &mut D,
    shelf: Vec<B>,
) -> u8
    requires { IsStock (map B.seen shelf.items) }
    ensures { RunAnswers (place_over C.Meaning.meaning keys.now (D.seen disk.old).size)
        (devices (S.seen src.old) (K.seen out.old) (D.seen disk.old))
        (devices (S.seen src.new) (K.seen out.new) (D.seen disk.new)) result }
{
    run_script_with::<C, B, S, K, D>(alloc, keys, no_words(), src, out, disk, shelf)
}

/// Runs a script as `run_script` does, with these words added to the fixed ones.
pub fn run_script_with<C: Calls, B: Policy, S: Source, K: Sink, D: Disk>(
    alloc: Global,
    keys: &Keys,
    own: &[OwnWord<'_>],
    src: &mut S,
    out: &mut K,
    disk: &mut D,
    shelf: Vec<B>,
) -> u8
    requires { IsStock (map B.seen shelf.items) }
    ensures { RunAnswers
        (place_with (words_seen own.now) C.Meaning.meaning keys.now (D.seen disk.old).size)
        (devices (S.seen src.old) (K.seen out.old) (D.seen disk.old))
        (devices (S.seen src.new) (K.seen out.new) (D.seen disk.new)) result }
{
    let Ok(session) = session::Session::new(alloc, shelf) else {
        return 5;
    };
    match run::ScriptRun::new(alloc, session) {
        Err(_) => 5,
        Ok(reader) => start::<C, B, S, K, D>(Loading { alloc, keys, own }, reader, src, out, disk),
    }
}

/// Writes the usage line.
fn write_usage<K: Sink>(out: &mut K) -> u8
    ensures cases { (result ≡ 1) × Appends (K.seen out.old).got (K.seen out.new).got (line usage_text)
        ⊎ (result ≡ 4) × AppendsPart (K.seen out.old).got (K.seen out.new).got
        (line usage_text) }
    ensures sink { IsUsed (K.seen out.old).device (K.seen out.new).device (result == 4) }
{
    match write_all(out, line_text::usage()) {
        Ok(()) => 1,
        Err(_) => 4,
    }
}

/// Runs a script from its beginning.
fn start<C: Calls, B: Policy, S: Source, K: Sink, D: Disk>(
    loading: Loading<'_>,
    mut reader: run::ScriptRun<C, B>,
    src: &mut S,
    out: &mut K,
    disk: &mut D,
) -> u8
    requires begun { IsBegun (seen_of reader.session) }
    requires within { (size : ℕ) → IsSessionOver C.Meaning.meaning size reader.session }
    requires line { reader.line ≡ [] }
    ensures { RunAnswers
        (place_with (words_seen loading.entry.own.now) C.Meaning.meaning loading.entry.keys.now
        (D.seen disk.old).size)
        (devices (S.seen src.old) (K.seen out.old) (D.seen disk.old))
        (devices (S.seen src.new) (K.seen out.new) (D.seen disk.new)) result }
{
    match run::zeros(loading.alloc, READ_BYTES) {
        Err(_) => 5,
        Ok(mut buf) => run::run_to_end(loading, &mut reader, &mut buf, src, out, disk),
    }
}
