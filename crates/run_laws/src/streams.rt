//! A law of what streams give and put.

ghost use Rattle.run_laws.specs.Streams.{RunsKeepStreams};

/// In a run a stream read gives what came out of its point for the bytes of its block, as many as it
/// asked for; a stream write takes what came out of its point for the given bytes into the call.
pub fn runs_keep_streams()
    ensures { RunsKeepStreams }
{}
