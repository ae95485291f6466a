//! The laws of instructions and their bytes. A call of one brings its statement into a proof.

ghost use Rattle.gm_isa.specs.Laws.{DecodeUndoesEncode, EncodeUndoesDecode};

/// The bytes of an instruction decode to it.
pub fn decode_undoes_encode()
    ensures { DecodeUndoesEncode }
{}

/// Eight bytes that decode are those of the instruction that they decode to.
pub fn encode_undoes_decode()
    ensures { EncodeUndoesDecode }
{}
