//! The words `box`, `check`, `reseal`, `asm`, `dis`, `lang` and `audit` of the program: filters that
//! read a whole input and write one answer.
//!
//! What they answer is said by the definitions of `kernel_model`; docs/FORMATS.md tells the
//! formats.
#![tactic(auto)]

ghost use Rattle.std.specs.Prelude.{◌≡◌, ◌≢◌, ◌==◌, ◌⊎◌, ◌≤◌, [], true, length, IfOk, OnErr};
ghost use Rattle.std.specs.Io.KnownBytes.{Appends};
ghost use Rattle.vino_base.specs.Streams.{AppendsPart, IsUsed};
ghost use Rattle.script_model.specs.Outcome as outcome;
ghost use Rattle.script_model.specs.Filters as spec;
ghost use Rattle.commands.specs.Views.{ending_of, filter_of, is_of_images, is_audit};
ghost use Rattle.commands.specs.Filtered.{Filtered};

mod answer;
mod command_line;
mod hex_line;
mod image_to_text;
mod input;
mod program_to_image;
mod raw_to_sealed;
mod sealed_to_sealed;
mod sealed_to_sizes;
mod text;
mod text_to_image;
mod text_to_verdict;

use crate::answer::{Answer, Filter};
use crate::image_to_text::dis_answer;
use crate::input::{Ending, read_all};
use crate::program_to_image::lang_answer;
use crate::raw_to_sealed::box_answer;
use crate::sealed_to_sealed::reseal_answer;
use crate::sealed_to_sizes::check_answer;
use crate::text_to_image::asm_answer;
use crate::text_to_verdict::audit_answer;
pub use command_line::{Asked, read_words};
use graft_loader::Keys;
use script_model::NoMemory;
use std::alloc::Global;
use vino_base::{Sink, Source, write_all};

/// The answer to an input that was taken so far and ended so.
fn answer_to(alloc: Global, word: Filter, taken: &[u8], ending: Ending) -> Result<Answer, NoMemory>
    requires { ending_of ending ≡ outcome.End → length taken.now ≤ outcome.SCRIPT_BYTES }
    ensures answer { IfOk result
        (λ a. spec.IsFilterAnswer (filter_of word) taken.now (ending_of ending) a) }
    ensures memory { OnErr result (ending_of ending ≡ outcome.End) }
{
    match (ending, word) {
        (Ending::End, Filter::Box(keys, keep)) => box_answer(alloc, &keys, keep, taken),
        (Ending::End, Filter::Check(keys)) => check_answer(alloc, &keys, taken),
        (Ending::End, Filter::Reseal(keys)) => reseal_answer(alloc, &keys, taken),
        (Ending::End, Filter::Asm) => asm_answer(alloc, taken),
        (Ending::End, Filter::Dis) => dis_answer(alloc, taken),
        (Ending::End, Filter::Lang) => lang_answer(alloc, taken),
        (Ending::End, Filter::Audit(keys)) => audit_answer(alloc, &keys, taken),
        (Ending::Fault, _) => Ok(Answer::new(3, Vec::new(alloc))),
        (Ending::Over, _) => Ok(Answer::new(7, Vec::new(alloc))),
    }
}

/// Writes an answer. Its status, or 4 where the sink fails.
fn write_answer<K: Sink>(answer: &Answer, out: &mut K) -> u8
    requires { answer.now.status ≢ 4 }
    ensures whole { result ≢ 4 → (result ≡ answer.now.status)
        × Appends (K.seen out.old).got (K.seen out.new).got answer.now.written }
    ensures part { result ≡ 4 → AppendsPart (K.seen out.old).got (K.seen out.new).got
        answer.now.written }
    ensures used { IsUsed (K.seen out.old).device (K.seen out.new).device (result == 4) }
{
    match write_all(out, answer.text()) {
        Ok(()) => answer.status(),
        Err(_) => 4,
    }
}

/// Reads the input and writes the answer to it.
fn filter<S: Source, K: Sink>(alloc: Global, word: Filter, src: &mut S, out: &mut K) -> u8
    ensures statuses { (result ≡ 0) ⊎ (result ≡ 2) ⊎ (result ≡ 3) ⊎ (result ≡ 4) ⊎ (result ≡ 5)
        ⊎ (result ≡ 6) × (is_of_images word ≡ true) ⊎ (result ≡ 7)
        ⊎ (result ≡ 8) × (is_audit word ≡ true) }
    ensures filtered { Filtered (filter_of word) (S.seen src.old) (S.seen src.new) (K.seen out.old)
        (K.seen out.new) result }
{
    let mut input = Vec::new(alloc);
    let Ok(ending) = read_all(alloc, src, &mut input) else {
        return 5;
    };
    let Ok(answer) = answer_to(alloc, word, input.as_slice(), ending) else {
        return 5;
    };
    write_answer(&answer, out)
}

/// Reads assembler text and writes the raw image as one line of lower-case hex, or the line that is
/// refused and why, as `asm LINE CODE`.
///
/// The answer is the exit status: 0 for an image, 2 for a refusal, 3 for a source and 4 for a sink
/// that failed, 5 for want of memory, 7 for a text of more than 16,777,216 bytes. Nothing is
/// written with 3, 5 and 7.
pub fn asm<S: Source, K: Sink>(alloc: Global, src: &mut S, out: &mut K) -> u8
    // No other status comes.
    ensures statuses { (result ≡ 0) ⊎ (result ≡ 2) ⊎ (result ≡ 3) ⊎ (result ≡ 4) ⊎ (result ≡ 5)
        ⊎ (result ≡ 7) }
    // What it does to its source and its sink, by the status.
    ensures filtered { Filtered spec.Asm (S.seen src.old) (S.seen src.new) (K.seen out.old)
        (K.seen out.new) result }
{
    filter(alloc, Filter::Asm, src, out)
}

/// Reads a text of the graft language and writes a raw image of its program as one line of
/// lower-case hex, or the line that is refused and why, as `lang LINE CODE`.
///
/// The answer is the exit status: 0 for an image, 2 for a refusal, 3 for a source and 4 for a sink
/// that failed, 5 for want of memory, 7 for a text of more than 16,777,216 bytes. Nothing is
/// written with 3, 5 and 7.
pub fn lang<S: Source, K: Sink>(alloc: Global, src: &mut S, out: &mut K) -> u8
    // No other status comes.
    ensures statuses { (result ≡ 0) ⊎ (result ≡ 2) ⊎ (result ≡ 3) ⊎ (result ≡ 4) ⊎ (result ≡ 5)
        ⊎ (result ≡ 7) }
    // What it does to its source and its sink, by the status.
    ensures filtered { Filtered spec.Lang (S.seen src.old) (S.seen src.new) (K.seen out.old)
        (K.seen out.new) result }
{
    filter(alloc, Filter::Lang, src, out)
}

/// Reads one line of hex, the bytes of a raw image, and writes the image's text, or why the line
/// (`input S2`, `input S6` or `input S1`) or the image (`L1`, `L2`, `L4` or `L6 PC`) is refused.
///
/// The answer is the exit status: 0 for an image, 2 for a refusal, 3 for a source and 4 for a sink
/// that failed, 5 for want of memory, 7 for an input of more than 16,777,216 bytes. Nothing is
/// written with 3, 5 and 7.
pub fn dis<S: Source, K: Sink>(alloc: Global, src: &mut S, out: &mut K) -> u8
    // No other status comes.
    ensures statuses { (result ≡ 0) ⊎ (result ≡ 2) ⊎ (result ≡ 3) ⊎ (result ≡ 4) ⊎ (result ≡ 5)
        ⊎ (result ≡ 7) }
    // What it does to its source and its sink, by the status.
    ensures filtered { Filtered spec.Dis (S.seen src.old) (S.seen src.new) (K.seen out.old)
        (K.seen out.new) result }
{
    filter(alloc, Filter::Dis, src, out)
}

/// Reads one line of hex, the bytes of a raw image, boxes its code and writes the image sealed
/// under the last key, as one that keeps the segments of its grafts where that is asked, as one
/// line of lower-case hex; or why the line (`input S2`, `input S6` or
/// `input S1`), the image (`L1`, `L2`, `L4` or `L6 PC`) or its code (`Register PC`, `Jump PC`,
/// `Call PC`, `End` or `TooLarge`) is refused.
///
/// The answer is the exit status: 0 for an image, 2 for a refused line, 3 for a source and 4 for a
/// sink that failed, 5 for want of memory, 6 for an image or code that is refused, 7 for an input
/// of more than 16,777,216 bytes. Nothing is written with 3, 5 and 7.
pub fn box_image<S: Source, K: Sink>(
    alloc: Global,
    keys: &Keys,
    keep: bool,
    src: &mut S,
    out: &mut K,
) -> u8
    // No other status comes.
    ensures statuses { (result ≡ 0) ⊎ (result ≡ 2) ⊎ (result ≡ 3) ⊎ (result ≡ 4) ⊎ (result ≡ 5)
        ⊎ (result ≡ 6) ⊎ (result ≡ 7) }
    // What it does to its source and its sink, by the status.
    ensures filtered { Filtered (spec.Box keys.now keep) (S.seen src.old) (S.seen src.new)
        (K.seen out.old) (K.seen out.new) result }
{
    filter(alloc, Filter::Box(*keys, keep), src, out)
}

/// Reads one line of hex, the bytes of a sealed image, loads it under its key and writes how many
/// instructions and data bytes it has, as `ok N D`; or why the line (`input S2`, `input S6` or
/// `input S1`) or the image (`L1` to `L13`, with the place) is refused.
///
/// The answer is the exit status: 0 for an image, 2 for a refused line, 3 for a source and 4 for a
/// sink that failed, 5 for want of memory, 6 for an image that is refused, 7 for an input of more
/// than 16,777,216 bytes. Nothing is written with 3, 5 and 7.
pub fn check_image<S: Source, K: Sink>(alloc: Global, keys: &Keys, src: &mut S, out: &mut K) -> u8
    // No other status comes.
    ensures statuses { (result ≡ 0) ⊎ (result ≡ 2) ⊎ (result ≡ 3) ⊎ (result ≡ 4) ⊎ (result ≡ 5)
        ⊎ (result ≡ 6) ⊎ (result ≡ 7) }
    // What it does to its source and its sink, by the status.
    ensures filtered { Filtered (spec.Check keys.now) (S.seen src.old) (S.seen src.new) (K.seen out.old)
        (K.seen out.new) result }
{
    filter(alloc, Filter::Check(*keys), src, out)
}

/// Reads one line of hex, the bytes of a sealed image, loads it under its key and writes its code,
/// data and flag, sealed anew under the last key, as one line of lower-case hex; or why the line (`input
/// S2`, `input S6` or `input S1`) or the image (`L1` to `L13`, with the place) is refused.
///
/// The answer is the exit status: 0 for an image, 2 for a refused line, 3 for a source and 4 for a
/// sink that failed, 5 for want of memory, 6 for an image that is refused, 7 for an input of more
/// than 16,777,216 bytes. Nothing is written with 3, 5 and 7.
pub fn reseal_image<S: Source, K: Sink>(alloc: Global, keys: &Keys, src: &mut S, out: &mut K) -> u8
    // No other status comes.
    ensures statuses { (result ≡ 0) ⊎ (result ≡ 2) ⊎ (result ≡ 3) ⊎ (result ≡ 4) ⊎ (result ≡ 5)
        ⊎ (result ≡ 6) ⊎ (result ≡ 7) }
    // What it does to its source and its sink, by the status.
    ensures filtered { Filtered (spec.Reseal keys.now) (S.seen src.old) (S.seen src.new) (K.seen out.old)
        (K.seen out.new) result }
{
    filter(alloc, Filter::Reseal(*keys), src, out)
}

/// Reads a script, a line `%%` and a claim of what `run` with these keys writes for the script over
/// the sample disk, none of whose calls fails. It writes `yes`, or `no L` with the number, from 1,
/// of the first line that differs or that only one of the two has; or `input S6` where no line is
/// `%%`.
///
/// The answer is the exit status: 0 for `yes`, 2 for an input without a line `%%`, 3 for a source
/// and 4 for a sink that failed, 5 for want of memory, 7 for an input of more than 16,777,216
/// bytes, 8 for `no L`. Nothing is written with 3, 5 and 7.
pub fn audit<S: Source, K: Sink>(alloc: Global, keys: &Keys, src: &mut S, out: &mut K) -> u8
    // No other status comes.
    ensures statuses { (result ≡ 0) ⊎ (result ≡ 2) ⊎ (result ≡ 3) ⊎ (result ≡ 4) ⊎ (result ≡ 5)
        ⊎ (result ≡ 7) ⊎ (result ≡ 8) }
    // What it does to its source and its sink, by the status.
    ensures filtered { Filtered (spec.Audit keys.now) (S.seen src.old) (S.seen src.new)
        (K.seen out.old) (K.seen out.new) result }
{
    filter(alloc, Filter::Audit(*keys), src, out)
}
