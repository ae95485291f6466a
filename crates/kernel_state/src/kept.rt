//! What a store keeps for grafts from one call of theirs to the next.

ghost use Rattle.std.specs.Prelude.{◌≡◌, ◌<◌, ◌≤◌, ◌+◌, ◌%◌, None, Some, IfSome, length, slice_index};
ghost use Rattle.std.specs.Option.{option_copied};
ghost use Rattle.kernel_model.specs.Runs.{segment_of};
ghost use Rattle.ram_space.specs.declared.TheConstants.{RAM_BYTES};
ghost use Rattle.ram_space.specs.Tables.{by_place};
ghost use Rattle.kernel_state.specs.Sound as spec;
ghost use Rattle.kernel_state.specs.Changes.{Changes};
ghost use Rattle.kernel_state.specs.Stores.{with_kept};

use crate::Store;
use graft_accounts::GraftPoint;
use graft_points::Policy;
use ram_space::SEGMENT_BYTES;

impl<B: Policy> Store<B> {
    /// Keeps the 4,096 bytes of memory from a place on, a page, for the graft at a point.
    pub fn keep_segment(&mut self, at: GraftPoint, base: u32)
        requires inside { base + 4096 ≤ RAM_BYTES }
        requires page { base % 4096 ≡ 0 }
        ensures { Changes (with_kept at.process at.point
            (Some (segment_of base (slice_index self.old.ram)))) self.old self.new }
    {
        let bytes = self.ram.bytes(base, SEGMENT_BYTES as u32);
        self.kept.put(segment_number(at), Some(bytes));
    }

    /// Nothing is kept any more for the graft at a point.
    pub fn forget_segment(&mut self, at: GraftPoint)
        ensures { Changes (with_kept at.process at.point None) self.old self.new }
    {
        self.put_segment(at, None);
    }

    /// These 4,096 bytes are kept for the graft at a point, or none.
    pub fn put_segment(&mut self, at: GraftPoint, bytes: Option<&[u8]>)
        requires { IfSome bytes (λ b. length b.now ≡ 4096) }
        ensures { Changes (with_kept at.process at.point (by_place (option_copied bytes.entry)))
            self.old self.new }
    {
        self.kept.put(segment_number(at), bytes);
    }
}

/// The number of the segment of the graft at a point.
pub fn segment_number(at: GraftPoint) -> usize
    ensures value { result ≡ spec.segment_number at.process at.point }
    ensures below { result < 256 }
{
    at.place()
}
