//! The laws of the rewriter. A call of one brings its statement into a proof.

ghost use Rattle.graft_code.specs.SandboxClaims.{Rewriting};
ghost use Rattle.box_rewriter.specs.Laws.{RewrittenIsBoxed};

/// What the rewriter makes is boxed.
pub fn rewritten_is_boxed()
    ensures { RewrittenIsBoxed }
{}

/// Boxed code comes as far as the raw code with each address masked: after n raw instructions with
/// k accesses among them, it has after n + 2k the same segment, registers (r14 apart), place, calls
/// and end.
pub fn boxed_does_what_raw_does()
    ensures { Rewriting }
{}
