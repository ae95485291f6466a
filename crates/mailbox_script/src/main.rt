//! A program over a table of calls of one's own that runs the script of its standard input, over the
//! sample disk: letters between processes, and a graft that posts a letter and is dropped. Its
//! scripts have two words of their own, `post` and `take`, beside the fixed ones.
#![tactic(auto)]

ghost use Rattle.std.specs.Prelude.{◌≡◌, map};
ghost use Rattle.vino_top.specs.Bounds.{IsStock};
ghost use Rattle.vino_top.specs.Does.{RunAnswers};
ghost use Rattle.vino_top.specs.Run.{place_with, devices};
ghost use Rattle.script_text.specs.Syntax.{words_seen};
ghost use Rattle.mailbox_script.specs.Office.{office, office_words};

use call_pieces::{Beside, Plain};
use graft_points::{
    Policy, RaNext, RaNone, RaSeq, SchedNice, SchedRound, VictimLru, VictimMark, is_stock, put_last,
};
use mailboxes::Mailboxes;
use mem_disk::{Disk, MemDisk, Sink, Source};
use real_edge::{StreamSink, StreamSource};
use std::alloc::{AllocError, Global};
use std::process::ExitCode;
use vino_top::{CallName, Keys, OwnWord, run_script_with};

/// The calls of this kernel: letters, beside the plain calls.
type OfficeCalls = Beside<Mailboxes, Plain>;

/// The key of the script's images.
const KEYS: Keys = Keys {
    first: [0; 32],
    second: None,
};

fn main(rt: HostRuntime) -> ExitCode {
    ExitCode::from(run(&rt).unwrap_or(5))
}

/// Runs the script over the sample disk: the exit status, or none for want of memory before anything
/// was done.
fn run(rt: &HostRuntime) -> Option<u8> {
    let mut disk = MemDisk::sample(rt.alloc(), Vec::new(rt.alloc())).ok()?;
    run_stock(rt, &mut disk).ok()
}

/// Runs the script of the standard input over the stock policies.
fn run_stock<D: Disk>(rt: &HostRuntime, disk: &mut D) -> Result<u8, AllocError> {
    let alloc = rt.alloc();
    let mut shelf: Vec<Box<dyn Policy>> = Vec::new(alloc);
    put_last(&mut shelf, Box::new(alloc, RaNone::new())?, 0, None)?;
    put_last(&mut shelf, Box::new(alloc, RaSeq::new())?, 1, Some(2))?;
    put_last(&mut shelf, Box::new(alloc, RaNext::new())?, 2, Some(1))?;
    put_last(&mut shelf, Box::new(alloc, VictimLru::new())?, 3, None)?;
    put_last(&mut shelf, Box::new(alloc, VictimMark::new())?, 4, Some(0))?;
    put_last(&mut shelf, Box::new(alloc, SchedRound::new())?, 5, None)?;
    put_last(&mut shelf, Box::new(alloc, SchedNice::new())?, 6, Some(0))?;
    if !is_stock(&shelf) {
        unreachable!()
    }
    let mut source = StreamSource::new(rt.stdin());
    let mut sink = StreamSink::new(rt.stdout());
    Ok(run_office(alloc, &KEYS, &mut source, &mut sink, disk, shelf))
}

/// The words of letters: `post p q x` posts the word x into the mailbox of process q, and
/// `take p 0` takes the letter from p's own.
fn letter_words() -> [OwnWord<'static>; 2]
    ensures { words_seen result ≡ office_words }
{
    [
        OwnWord {
            name: b"post".as_slice(),
            call: CallName::Poke,
        },
        OwnWord {
            name: b"take".as_slice(),
            call: CallName::Peek,
        },
    ]
}

/// Runs a script in a kernel over these calls, with these words. What it writes, and its status,
/// are those of the outcome that is defined over the meaning of these calls.
fn run_office<B: Policy, S: Source, K: Sink, D: Disk>(
    alloc: Global,
    keys: &Keys,
    src: &mut S,
    out: &mut K,
    disk: &mut D,
    shelf: Vec<B>,
) -> u8
    requires { IsStock (map B.seen shelf.items) }
    ensures { RunAnswers (place_with office_words office keys.now (D.seen disk.old).size)
        (devices (S.seen src.old) (K.seen out.old) (D.seen disk.old))
        (devices (S.seen src.new) (K.seen out.new) (D.seen disk.new)) result }
{
    let words = letter_words();
    run_script_with::<OfficeCalls, B, S, K, D>(alloc, keys, words.as_slice(), src, out, disk, shelf)
}
