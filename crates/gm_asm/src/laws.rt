//! The law of the assembler. A call brings its statement into a proof.

ghost use Rattle.gm_asm.specs.Laws.{AssembleUndoesDisassemble};

/// The text of an image assembles to the image.
pub fn assemble_undoes_disassemble()
    ensures { AssembleUndoesDisassemble }
{}
