//! A kernel over a table of calls of one's own, without scripts: two processes, letters between them,
//! and a graft that posts a letter and is dropped, so that the letter is undone.
#![tactic(auto)]

ghost use Rattle.std.specs.Prelude.{◌≡◌, map};
ghost use Rattle.kernel_host.specs.Hosts.{IsHost};
ghost use Rattle.kernel_host.specs.Shelves.{IsStockShelf};

use arrayvec::ArrayVec;
use call_pieces::{Beside, Plain};
use graft_points::{
    RaNext, RaNone, RaSeq, SchedNice, SchedRound, VictimLru, VictimMark, is_stock, put_last,
};
use kernel_host::{
    BareCall, BareEvent, BareNote, BootNote, Calls, Disk, Host, Keys, NoMemory, Policy, Reply,
    Setup,
};
use mailboxes::Mailboxes;
use mem_disk::MemDisk;
use std::alloc::AllocError;
use std::process::ExitCode;
use std::{env, io};

/// The calls of this kernel: letters, beside the plain calls.
type OfficeCalls = Beside<Mailboxes, Plain>;

/// The graft chooses who runs next: point 5.
const POINT: u32 = 5;

/// What happens, one event after another.
const EVENTS: [BareEvent; 9] = [
    BareEvent::Sys(0, BareCall::Spawn),
    BareEvent::Sys(0, BareCall::Poke(1, 77)),
    BareEvent::Sys(1, BareCall::Peek(0)),
    BareEvent::Sys(
        0,
        BareCall::Install {
            point: POINT,
            slot: 0,
            limit: 100,
        },
    ),
    BareEvent::Sys(0, BareCall::Bill(POINT)),
    BareEvent::Sys(1, BareCall::Yield),
    BareEvent::Step(1, 3),
    BareEvent::Sys(0, BareCall::Peek(0)),
    BareEvent::Step(1, 50),
];

fn main(rt: HostRuntime) -> ExitCode {
    ExitCode::from(run(&rt).unwrap_or(5))
}

/// Makes the disk and the image: the exit status, or none for want of memory.
fn run(rt: &HostRuntime) -> Option<u8> {
    let alloc = rt.alloc();
    let mut disk = MemDisk::sample(alloc, Vec::new(alloc)).ok()?;
    let sealed = hex::decode(alloc, env::args(rt).ok()?.nth(1)?.as_bytes()).ok()?;
    work_stock(rt, &mut disk, sealed.as_slice()).ok()?
}

/// Runs the kernel over the stock policies.
fn work_stock<D: Disk>(
    rt: &HostRuntime,
    disk: &mut D,
    sealed: &[u8],
) -> Result<Option<u8>, AllocError> {
    let alloc = rt.alloc();
    let mut shelf: Vec<Box<dyn Policy>> = Vec::new(alloc);
    put_last(&mut shelf, Box::new(alloc, RaNone::new())?, 0, None)?;
    put_last(&mut shelf, Box::new(alloc, RaSeq::new())?, 1, Some(2))?;
    put_last(&mut shelf, Box::new(alloc, RaNext::new())?, 2, Some(1))?;
    put_last(&mut shelf, Box::new(alloc, VictimLru::new())?, 3, None)?;
    put_last(&mut shelf, Box::new(alloc, VictimMark::new())?, 4, Some(0))?;
    put_last(&mut shelf, Box::new(alloc, SchedRound::new())?, 5, None)?;
    put_last(&mut shelf, Box::new(alloc, SchedNice::new())?, 6, Some(0))?;
    if !is_stock(&shelf) {
        unreachable!()
    }
    Ok(work(rt, disk, shelf, sealed))
}

/// Opens the kernel, and runs it.
fn work<B: Policy, D: Disk>(
    rt: &HostRuntime,
    disk: &mut D,
    shelf: Vec<B>,
    sealed: &[u8],
) -> Option<u8>
    requires stock { IsStockShelf (map B.seen shelf.items) }
{
    let setup = Setup {
        frames: 8,
        patience: [10; 8],
        grant: 1_000_000,
    };
    let opened: Result<(Host<OfficeCalls, B>, BootNote), NoMemory> = Host::open(
        rt.alloc(),
        setup,
        shelf,
        disk,
    );
    match opened {
        Err(_) => None,
        Ok((mut host, _)) => Some(load_and_play(rt, &mut host, disk, sealed)),
    }
}

/// Loads the image and takes the events: the exit status.
fn load_and_play<C: Calls, B: Policy, D: Disk>(
    rt: &HostRuntime,
    host: &mut Host<C, B>,
    disk: &mut D,
    sealed: &[u8],
) -> u8
    requires host { IsHost C.Meaning.meaning (D.seen disk.old).size host.old }
{
    let keys = Keys {
        first: [0; 32],
        second: None,
    };
    if host.load(rt.alloc(), &keys, 0, sealed).is_err() {
        return 1;
    }
    match play(rt, host, disk) {
        Ok(()) => 0,
        Err(_) => 4,
    }
}

/// Takes the events one after another, and tells what happened at each.
fn play<C: Calls, B: Policy, D: Disk>(
    rt: &HostRuntime,
    host: &mut Host<C, B>,
    disk: &mut D,
) -> io::Result<()>
    requires host { IsHost C.Meaning.meaning (D.seen disk.old).size host.old }
    ensures host { IsHost C.Meaning.meaning (D.seen disk.new).size host.new }
{
    for event in &EVENTS {
        host.event(*event, &ArrayVec::new(), disk);
        tell(rt, host)?;
    }
    Ok(())
}

/// Writes a line for each note of the last event.
fn tell<C: Calls, B: Policy>(rt: &HostRuntime, host: &Host<C, B>) -> io::Result<()> {
    for note in host.notes().0 {
        match note {
            BareNote::Ended(n, Reply::One(x)) => println!(rt; "call {n}: done, {x}")?,
            BareNote::Ended(n, _) => println!(rt; "call {n}: done")?,
            BareNote::Refused(n, _) => println!(rt; "call {n}: refused")?,
            BareNote::Waits { number, holder, .. } => {
                println!(rt; "call {number}: waits for process {holder}")?
            }
            BareNote::InGraft {
                number,
                installer,
                ..
            } => { println!(rt; "call {number}: in the graft of process {installer}")? }
            BareNote::Dropped { number, .. } => println!(rt;
                "call {number}: its graft is dropped"
            )?,
            BareNote::Ran(n, k) => println!(rt; "event {n}: {k} instructions")?,
            _ => {}
        }
    }
    Ok(())
}
