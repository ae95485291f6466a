//! The laws of raw images and their bytes. A call of one brings its statement into a proof.

ghost use Rattle.gm_image.specs.Laws.{ReadUndoesWrite, WriteUndoesRead};

/// The bytes of an image read back as the image.
pub fn read_undoes_write()
    ensures { ReadUndoesWrite }
{
    gm_isa::laws::decode_undoes_encode();
}

/// Bytes that read as an image are those that the image writes.
pub fn write_undoes_read()
    ensures { WriteUndoesRead }
{
    gm_isa::laws::encode_undoes_decode();
}
