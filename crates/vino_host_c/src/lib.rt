//! The library for hosts in C (hosting/vino_host.h): one export for each function of `vino_host`.
#![tactic(auto)]

ghost use Rattle.std.specs.Prelude.{◌≡◌, ◌≢◌, ◌≤◌, ◌+◌, cond, drop, length, true, false, Ok};
ghost use Rattle.graft_code.specs.Images as model;
ghost use Rattle.vino_host.specs.Codes.{is_drop};
ghost use Rattle.vino_host.specs.Tables.{records_of, undone};
ghost use Rattle.vino_host.specs.Calls.{found_in, call_says, resumed, pause_in, is_call, is_resumable};
ghost use Rattle.vino_host.specs.Calls.{MISUSED_ANSWER, filled};
ghost use Rattle.vino_host.specs.Loaded.{keys_of, verdict_of};
ghost use Rattle.vino_host.specs.Plugins.{content_of, image_of, is_whole};
ghost use Rattle.vino_host.specs.Sentences.{sentence, refusal_sentence};

use std::alloc::Global;
use vino_host::{Answer, Call, KeyPair, Request, Word};

/// Loads a sealed image under one or two keys: 0, or the number of its refusal L1 to L13 with the
/// place of the instruction, 14 where there is no memory, or 15 where it needs more bytes than the
/// plug-in has, with how many it needs. Where it isn't 0, the plug-in's bytes stay as they were.
#[unsafe(no_mangle)]
pub extern "C" fn vino_load(
    alloc: Global,
    keys: &KeyPair,
    image: &[u8],
    plugin: &mut [u8],
    place: &mut u32,
) -> u32
    ensures loaded { result ≡ 0 → model.load (keys_of keys.now) image.now ≡ Ok (image_of plugin.new) }
    ensures whole { result ≡ 0 → is_whole plugin.new ≡ true }
    ensures says { result ≢ 14 → verdict_of (length plugin.old)
        (model.load (keys_of keys.now) image.now) ≡ (result, place.new) }
    ensures kept { result ≢ 0 → plugin.new ≡ plugin.old }
    ensures behind { result ≡ 0 → drop (32 + length (content_of plugin.new)) plugin.new
        ≡ drop (32 + length (content_of plugin.new)) plugin.old }
    ensures size { length plugin.new ≡ length plugin.old }
{
    vino_host::load(alloc, keys, image, plugin, place)
}

/// Says whether a loaded plug-in is still what was loaded: 0 where its mark is the SHA-256 of its
/// content, else 16.
#[unsafe(no_mangle)]
pub extern "C" fn vino_check(plugin: &[u8]) -> u32
    ensures { result ≡ cond (is_whole plugin.now) 0 16 }
{
    if vino_host::is_whole(plugin) { 0 } else { 16 }
}

/// Calls a plug-in, as `vino_host::begin` does: for at most as many instructions as the request
/// says, with at most 512 bytes fed. Gives the kind of the answer: `RETURNED`, `WAITING`, 1 to 31
/// for the cause of a drop, which leaves segment and table as they were, or `MISUSED` where nothing
/// was done.
#[unsafe(no_mangle)]
pub extern "C" fn vino_begin(
    plugin: &[u8],
    call: &mut Call,
    request: &Request,
    bytes: &[u8],
    segment: &mut [u8; 4096],
    table: &mut [Word],
    answer: &mut Answer,
) -> u32
    ensures says { is_call request.now bytes.now ≡ true →
        found_in answer.new call.new segment.new table.new
        ≡ call_says plugin.now request.now bytes.now segment.old table.old }
    ensures misused { is_call request.now bytes.now ≡ false →
        found_in answer.new call.new segment.new table.new
        ≡ found_in MISUSED_ANSWER call.old segment.old table.old }
    ensures call { is_call request.now bytes.now ≡ false → call.new ≡ call.old }
    ensures segment { is_drop answer.new.kind ≡ true → segment.new ≡ segment.old }
    ensures table { is_drop answer.new.kind ≡ true → table.new ≡ table.old }
    ensures kept_segment { is_call request.now bytes.now ≡ true → call.new.state ≡ 1 →
        call.new.segment ≡ segment.old }
    ensures kept_table { is_call request.now bytes.now ≡ true → call.new.state ≡ 1 →
        undone (records_of call.new.log) table.new ≡ table.old }
    ensures limit { answer.new.steps ≤ request.now.limit }
    ensures kind { result ≡ answer.new.kind }
{
    *answer = vino_host::begin(plugin, call, request, bytes, segment, table);
    answer.kind
}

/// Answers a call that waits, as `vino_host::resume` does: with a word (how is 0) or a refusal (how
/// is 3 or 4). Gives the kind of the answer, as `vino_begin` does; `MISUSED` also where the call
/// doesn't wait.
#[unsafe(no_mangle)]
pub extern "C" fn vino_resume(
    plugin: &[u8],
    call: &mut Call,
    how: u32,
    word: u32,
    segment: &mut [u8; 4096],
    table: &mut [Word],
    answer: &mut Answer,
) -> u32
    ensures says { is_resumable call.old how ≡ true →
        found_in answer.new call.new segment.new table.new
        ≡ resumed plugin.now (pause_in call.old segment.old) how word table.old }
    ensures misused { is_resumable call.old how ≡ false →
        found_in answer.new call.new segment.new table.new
        ≡ found_in MISUSED_ANSWER call.old segment.old table.old }
    ensures call { is_resumable call.old how ≡ false → call.new ≡ call.old }
    ensures segment { is_drop answer.new.kind ≡ true → segment.new ≡ call.old.segment }
    ensures table { is_drop answer.new.kind ≡ true →
        table.new ≡ undone (records_of call.old.log) table.old }
    ensures kept_segment { call.new.state ≡ 1 → call.new.segment ≡ call.old.segment }
    ensures kept_table { call.new.state ≡ 1 → undone (records_of call.new.log) table.new
        ≡ undone (records_of call.old.log) table.old }
    ensures limit { answer.new.steps ≤ call.old.limit }
    ensures kind { result ≡ answer.new.kind }
{
    *answer = vino_host::resume(plugin, call, how, word, segment, table);
    answer.kind
}

/// Puts what the kind of an answer says in words into 64 bytes: at most 63 bytes of ASCII, and
/// zeros behind. A number that is no kind has a sentence too.
#[unsafe(no_mangle)]
pub extern "C" fn vino_sentence(kind: u32, text: &mut [u8; 64])
    ensures { text.new ≡ filled 64 (sentence kind) }
{
    vino_host::put_sentence(kind, text);
}

/// Puts what `vino_load` or `vino_check` answered in words into 64 bytes: at most 63 bytes of ASCII,
/// and zeros behind. A number that is no answer has a sentence too.
#[unsafe(no_mangle)]
pub extern "C" fn vino_refusal_sentence(code: u32, text: &mut [u8; 64])
    ensures { text.new ≡ filled 64 (refusal_sentence code) }
{
    vino_host::put_refusal_sentence(code, text);
}
