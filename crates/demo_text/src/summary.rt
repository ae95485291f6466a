//! The line that tells of a run.

ghost use Rattle.std.specs.Prelude.{◌≡◌};
ghost use Rattle.demo_text.specs.Summaries.{summary_line};

use line_text::Text;

/// What was counted while a script ran.
#[derive(Clone, Copy, Debug, PartialEq, Eq)]
pub struct Counts {
    /// Lines that were written.
    pub lines: u64,
    /// Calls that ended well.
    pub ended: u64,
    /// Calls that were refused.
    pub refused: u64,
    /// Levels of graft calls that were dropped.
    pub drops: u64,
}

/// The line of the script of this number: what was counted, and the digest of all that was written.
pub fn print_summary(n: u32, counts: &Counts, digest: &[u8; 32], out: &mut Text)
    ensures { out.new ≡ summary_line n counts.now digest.now }
{
    out.clear();
    out.add(b"demo".as_slice());
    out.add_spaced(n.into());
    out.add(b" lines".as_slice());
    out.add_spaced(counts.lines);
    out.add(b" ok".as_slice());
    out.add_spaced(counts.ended);
    out.add(b" refused".as_slice());
    out.add_spaced(counts.refused);
    out.add(b" drops".as_slice());
    out.add_spaced(counts.drops);
    out.add(b" digest ".as_slice());
    out.add_hex(digest);
    out.add(b"\n".as_slice());
}
