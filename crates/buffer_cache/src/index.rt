//! The index from blocks to frames.

ghost use Rattle.std.specs.Prelude.{◌≡◌, ℕ, ◌<◌, true, false, IfSome, IfNone, length, replicate, Some};
ghost use Rattle.std.specs.Prelude.{slice_set};
ghost use Rattle.std.specs.List.{position};
ghost use Rattle.std.specs.Option.{is_some};
ghost use Rattle.kernel_data.specs.declared.FrameRow.{FrameRow as Row};
ghost use Rattle.buffer_cache.specs.Frames.{holds, row_at};
ghost use Rattle.buffer_cache.specs.BlockIndex.{IsIndex};

use crate::frames::is_holding;
use kernel_data::FrameRow;

/// The blocks that a disk can have: each has an entry, so that one look is enough.
pub(crate) const BLOCKS: usize = 4096;

/// An index where no frame is in use.
pub(crate) fn first_index() -> [u8; BLOCKS]
    ensures { result ≡ replicate 4096 0 }
{
    [0; BLOCKS]
}

/// The frame that holds a block.
pub(crate) fn find_frame(index: &[u8], rows: &[Option<FrameRow>], block: u32) -> Option<u8>
    requires index { IsIndex index.now rows.now }
    requires rows { length rows.now ≡ 64 }
    requires one_frame { (f g : ℕ) (x y : Row) → row_at rows.now f ≡ Some x →
        row_at rows.now g ≡ Some y → x.block ≡ y.block → f ≡ g }
    ensures value { result ≡ position (holds block) rows.now }
    ensures found { IfSome result (λ f. holds block (row_at rows.now f) ≡ true) }
    ensures used { IfSome result (λ f. is_some (row_at rows.now f) ≡ true) }
    ensures missing { IfNone result ((f : ℕ) → holds block (row_at rows.now f) ≡ false) }
{
    let Some(f) = index.get(block as usize) else {
        return None;
    };
    if is_holding(&rows[*f as usize], block) {
        Some(*f)
    } else {
        None
    }
}

/// Leads from a block to a frame.
pub(crate) fn lead(index: &mut [u8], block: u32, f: u8)
    requires { block < length index.old }
    ensures { index.new ≡ slice_set index.old block f }
{
    index[block as usize] = f;
}
