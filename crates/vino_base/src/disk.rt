//! Disks of blocks of 512 bytes.

ghost use Rattle.std.specs.Prelude.{◌≡◌, ℕ, ◌<◌, ◌≤◌, List, Option, Some, None, length, slice_get, slice_index_or, []};
ghost use Rattle.std.specs.Option.{IfSome};
ghost use Rattle.std.specs.Result.{is_err, OnOk};
ghost use Rattle.vino_base.specs.Faults.{HasCause};
ghost use Rattle.vino_base.specs.Calls.{Plan, call_fails};
ghost use Rattle.vino_base.specs.Disks.{DiskSeen, called, written};

use crate::streams::Failed;

/// A disk of 1 to 4,096 blocks of 512 bytes, numbered from 0.
pub trait Disk {
    /// How many blocks it has, which never changes; the blocks and the plan of its calls, where it
    /// tells them; and how many faults there were, up to 2^64 - 1. Reads and writes count together
    /// in the plan.
    ghost seen: { Self → DiskSeen };

    /// What `block` lends.
    ghost lent: { Self → List ℕ };

    /// How many blocks it has.
    fn size(&self) -> u32
        ensures count { result ≡ (seen self.now).size }
        ensures least { 1 ≤ result }
        ensures most { result ≤ 4096 }
        ensures known { IfSome (seen self.now).known (λ bs. length bs ≡ result) }
        ensures whole { (bs : List (List ℕ)) → (seen self.now).known ≡ Some bs →
            (b : ℕ) → b < result → length (slice_index_or bs b []) ≡ 512 };

    /// Reads block b, which `block` lends then. A failed read leaves the blocks as they are.
    fn read_block(&mut self, b: u32) -> Result<(), Failed>
        requires { b < (seen self.old).size }
        ensures after { seen self.new ≡ called (seen self.new).faults (seen self.old) }
        ensures cause { HasCause (seen self.old).faults (seen self.new).faults result }
        ensures fails { (p : Plan) → (seen self.old).plan ≡ Some p → is_err result ≡ call_fails p }
        ensures given { (bs : List (List ℕ)) → (seen self.old).known ≡ Some bs →
            OnOk result (slice_get bs b ≡ Some (lent self.new)) };

    /// The block that was read last: it isn't copied. It is good until the next call.
    fn block(&self) -> &[u8; 512]
        ensures value { result.now ≡ lent self.now }
        ensures whole { length (lent self.now) ≡ 512 };

    /// Replaces block b. A failed write leaves the blocks as they are.
    fn write_block(&mut self, b: u32, from: &[u8; 512]) -> Result<(), Failed>
        requires { b < (seen self.old).size }
        ensures after { seen self.new
            ≡ written b from.now (is_err result) (seen self.new).faults (seen self.old) }
        ensures cause { HasCause (seen self.old).faults (seen self.new).faults result }
        ensures fails { (p : Plan) → (seen self.old).plan ≡ Some p → is_err result ≡ call_fails p };
}
