//! Laws of what is seen of blocks through the cache.

ghost use Rattle.run_laws.specs.Seen.{PiecesKeepShown, SyncsEndWritten};
ghost use Rattle.run_laws.specs.SeenRuns.{RunsKeepShown, RunsAreCoherent, BlocksWereSeen};

/// No piece of a system call but that of a write changes what is seen of a block; a write puts its
/// bytes, and no other; a read gives what is seen; and nothing comes to the disk that wasn't seen.
pub fn pieces_keep_shown()
    ensures { PiecesKeepShown }
{}

/// In a run no move but a write that ends well changes what is seen of a block, whoever chooses
/// what the cache evicts, and whichever calls of the disk fail.
pub fn runs_keep_shown()
    ensures { RunsKeepShown }
{}

/// In each kernel of a run clean frames agree with the disk.
pub fn runs_are_coherent()
    ensures { RunsAreCoherent }
{}

/// What a crash leaves: each block of the disk is as it was at first, or as it was seen before some
/// move of the run.
pub fn blocks_were_seen()
    ensures { BlocksWereSeen }
{}

/// A `sync` that ends well leaves no dirty frame, and the disk as the cache has it.
pub fn syncs_end_written()
    ensures { SyncsEndWritten }
{}
