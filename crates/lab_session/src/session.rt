//! A session with its keys and its disk.

ghost use Rattle.std.specs.Prelude.{◌≡◌, ℕ, IfOk, map};
ghost use Rattle.vino_top.specs.Bounds.{IsSessionWithin, IsStock};

use graft_loader::Keys;
use graft_points::Policy;
use kernel_data::NoMemory;
use std::alloc::Global;
use vino_base::Disk;
use vino_top::{Buffers, Session};

/// The most lines that a session takes.
const MOST_LINES: u32 = 4_294_967_200;

/// The most bytes of a line.
const LINE_BYTES: usize = 65_536;

/// A session with its keys and its disk.
#[derive(Drop)]
pub struct OwnSession<B: Policy, D: Disk + Drop> {
    /// How far the script has come.
    pub session: Session<B>,
    /// What the last line left.
    pub out: Buffers,
    /// The keys of the images.
    pub keys: Keys,
    /// The disk.
    pub disk: D,
}

/// A session that any disk is right for, with its keys and its disk.
fn session_of<B: Policy, D: Disk + Drop>(
    session: Session<B>,
    out: Buffers,
    keys: Keys,
    disk: D,
) -> OwnSession<B, D>
    requires within { (size : ℕ) → IsSessionWithin size session }
    ensures { IsSessionWithin (D.seen result.disk).size result.session }
{
    OwnSession {
        session,
        out,
        keys,
        disk,
    }
}

impl<B: Policy, D: Disk + Drop> OwnSession<B, D> {
    /// Before the first line, with the stock policies.
    pub fn new(
        alloc: Global,
        keys: Keys,
        disk: D,
        shelf: Vec<B>,
    ) -> Result<OwnSession<B, D>, NoMemory>
        requires { IsStock (map B.seen shelf.items) }
        ensures { IfOk result (λ s. IsSessionWithin (D.seen s.disk).size s.session) }
    {
        let session = Session::new(alloc, shelf)?;
        let out = Buffers::new(alloc)?;
        Ok(session_of(session, out, keys, disk))
    }

    /// Runs a line; a session that took very many lines takes no more.
    pub fn run_line(&mut self, alloc: Global, line: &[u8]) -> Result<(), NoMemory>
        requires within { IsSessionWithin (D.seen self.old.disk).size self.old.session }
        ensures { IsSessionWithin (D.seen self.new.disk).size self.new.session }
    {
        if self.session.lines > MOST_LINES {
            return Ok(());
        }
        if line.len() > LINE_BYTES {
            self.session.refuse_long(&mut self.out);
            return Ok(());
        }
        self.session
            .run_line(alloc, &self.keys, line, &mut self.disk, &mut self.out)
    }
}
