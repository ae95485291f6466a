//! Laws of what stream reads give and stream writes put.

ghost use Rattle.call_laws.specs.StreamReads.{ReadsGiveLength};
ghost use Rattle.call_laws.specs.StreamWrites.{WritesPutWhatCameOut};

/// A stream read gives bytes, as many as it asked for, whatever the graft at its point answers, and
/// whatever other calls did between its two pieces.
pub fn reads_give_length()
    ensures { ReadsGiveLength }
{}

/// After a stream write that ends well, the frame that holds its block has what came out of its
/// point for the given bytes, at the write's offset, and is dirty.
pub fn writes_put_what_came_out()
    ensures { WritesPutWhatCameOut }
{}
