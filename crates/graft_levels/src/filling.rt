//! The segments of levels in memory.

ghost use Rattle.std.specs.Prelude.{◌≡◌, ℕ, ◌+◌, ◌*◌, ◌%◌, ◌<◌, ◌≤◌, ◌&&◌, cond, nat_le, nat_lt};
ghost use Rattle.std.specs.Prelude.{List, length, slice_index, ◌⊎◌};
ghost use Rattle.kernel_model.specs.Levels as model;
ghost use Rattle.kernel_model.specs.Machine.{fed};

use graft_machine::{FIRST_SEGMENT, SEGMENT_BYTES};
use kernel_state::Ram;
use lock_table::Holder;

/// Where in a segment the bytes begin that its level is fed.
const FED_AT: u32 = 2048;

/// Where the segment of a level begins.
pub fn base_of(of: Holder) -> u32
    ensures value { result ≡ model.base_of of.process of.level }
    ensures low { FIRST_SEGMENT ≤ result }
    ensures high { result + SEGMENT_BYTES ≤ 524288 }
    ensures whole { result % SEGMENT_BYTES ≡ 0 }
{
    FIRST_SEGMENT + SEGMENT_BYTES * (4 * u32::from(of.process) + u32::from(of.level))
}

/// Zeros from an address to another.
fn clear(ram: &mut Ram, from: u32, to: u32)
    requires whole { length ram.old ≡ 524288 }
    requires order { from ≤ to }
    requires inside { to ≤ 524288 }
    ensures value { (a : ℕ) → slice_index ram.new a
        ≡ cond (nat_le from a && nat_lt a to) 0 (slice_index ram.old a) }
    ensures size { length ram.new ≡ 524288 }
{
    ram.clear(from, to);
}

/// The segment at this base gets bytes, and zeros behind them. Every other byte stays.
fn fill_data(ram: &mut Ram, base: u32, body: &[u8])
    requires whole { length ram.old ≡ 524288 }
    requires inside { base + SEGMENT_BYTES ≤ 524288 }
    requires few { length body.now ≤ 4096 }
    ensures segment { (i : ℕ) → i < 4096 → slice_index ram.new (base + i) ≡ slice_index body.now i }
    ensures outside { (a : ℕ) → (a < base) ⊎ (base + 4096 ≤ a) →
        slice_index ram.new a ≡ slice_index ram.old a }
    ensures size { length ram.new ≡ 524288 }
{
    ram.copy_in(base, body);
    clear(ram, base + body.len() as u32, base + SEGMENT_BYTES);
}

/// The segment at this base gets bytes, zeros behind them, and at their place the bytes that its
/// level is fed. Every other byte stays.
pub(crate) fn fill(ram: &mut Ram, base: u32, body: &[u8], feed: &[u8])
    requires whole { length ram.old ≡ 524288 }
    requires inside { base + SEGMENT_BYTES ≤ 524288 }
    requires few { length body.now ≤ 4096 }
    requires short { length feed.now ≤ 512 }
    ensures segment { (i : ℕ) → i < 4096 →
        slice_index ram.new (base + i) ≡ fed feed.now (λ k. slice_index body.now k) i }
    ensures outside { (a : ℕ) → (a < base) ⊎ (base + 4096 ≤ a) →
        slice_index ram.new a ≡ slice_index ram.old a }
    ensures size { length ram.new ≡ 524288 }
{
    fill_data(ram, base, body);
    ram.copy_in(base + FED_AT, feed);
}
