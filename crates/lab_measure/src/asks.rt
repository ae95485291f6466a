//! Calls that ask for a block.

ghost use Rattle.std.specs.Prelude.{◌<◌, IfSome};

use graft_points::Policy;
use kernel_data::{BareCall, RawRow};
use kernel_state::Store;
use running_kernel::{InFlight, Running};
use text_words::{Parts, number_of, word_at};
use vino_top::AllCalls;

/// The calls that ask for a block.
#[derive(Clone, Copy, PartialEq, Eq, Debug)]
pub enum Access {
    Read,
    Write,
    StreamRead,
    StreamWrite,
}

/// A call that is to ask for a block: of which process, its number, and which block of which file.
#[derive(Clone, Copy)]
pub struct Asking {
    pub process: u8,
    pub number: u32,
    pub access: Access,
    pub descriptor: u32,
    pub block: u32,
}

/// What a call in flight is to ask for, if it asks for a block.
fn asking_by(process: u8, call: &InFlight) -> Option<Asking> {
    let (access, descriptor, block) = match call.work.call {
        BareCall::Read {
            descriptor,
            block,
            ..
        } => (Access::Read, descriptor, block),
        BareCall::Write {
            descriptor,
            block,
            ..
        } => (Access::Write, descriptor, block),
        BareCall::StreamRead {
            descriptor,
            block,
            ..
        } => (Access::StreamRead, descriptor, block),
        BareCall::StreamWrite {
            descriptor,
            block,
            ..
        } => (Access::StreamWrite, descriptor, block),
        _ => return None,
    };
    Some(Asking {
        process,
        number: call.number,
        access,
        descriptor,
        block,
    })
}

/// Whether a call gets its block in its first piece, and goes on then.
fn goes_on(access: Access) -> bool {
    access == Access::Read || access == Access::StreamRead
}

/// What the call in flight of a process is to ask for, if it asks for a block and hasn't got it.
pub fn asking_of<B: Policy>(running: &Running<AllCalls, B>, process: u8) -> Option<Asking> {
    let flight = running.calls.get(process as usize)?;
    let call = flight.call.get()?;
    let asking = asking_by(process, call)?;
    if call.work.piece > 0 && goes_on(asking.access) {
        return None;
    }
    Some(asking)
}

/// The call that a line of the script makes, as the event of a number, if it asks for a block.
pub fn asking_in(line: &[u8], number: u32) -> Option<Asking>
    ensures { IfSome result (λ a. a.process < 16) }
{
    let access = match word_at(line, 0) {
        b"read" => Access::Read,
        b"write" => Access::Write,
        b"sread" => Access::StreamRead,
        b"swrite" => Access::StreamWrite,
        _ => return None,
    };
    let process = number_of(word_at(line, 1))?;
    if process >= 16 {
        return None;
    }
    Some(Asking {
        process: process as u8,
        number,
        access,
        descriptor: number_of(word_at(line, 2))?,
        block: number_of(word_at(line, 3))?,
    })
}

/// Whether a call of this number wrote a line of this word.
fn has_line(written: &[u8], number: u32, word: &[u8]) -> bool {
    let mut lines = Parts::new(written, b'\n');
    while let Some(line) = lines.next() {
        if word_at(line, 1) == word && number_of(word_at(line, 0)) == Some(number) {
            return true;
        }
    }
    false
}

/// Whether a call got its block since, after which these lines were written: a read where it gave
/// its bytes, any other where it ended well; of a stream read that goes on its next piece tells.
pub fn has_got<B: Policy>(running: &Running<AllCalls, B>, asking: Asking, written: &[u8]) -> bool {
    if asking.access == Access::Read {
        return has_line(written, asking.number, b"data");
    }
    if asking.access == Access::StreamRead {
        if let Some(flight) = running.calls.get(asking.process as usize) {
            if let Some(call) = flight.call.get() {
                return call.number == asking.number && call.work.piece > 0;
            }
        }
    }
    has_line(written, asking.number, b"ok")
}

/// The block of the disk that a call asks for, where its file is open.
pub fn block_of<B: Policy>(store: &Store<B>, asking: Asking) -> Option<u32>
    requires { asking.process < 16 }
{
    if asking.descriptor > 3 {
        return None;
    }
    match store.shown_file(asking.process, asking.descriptor as u8) {
        Some(RawRow::OpenFile { name, .. }) => {
            let entry = store.dir.find(name.as_slice())?;
            store.dir.row(entry).start.checked_add(asking.block)
        }
        _ => None,
    }
}
