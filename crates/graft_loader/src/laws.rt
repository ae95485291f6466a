//! The laws of sealed images. A call of one brings its statement into a proof.

ghost use Rattle.graft_loader.specs.Laws.{SealedImagesLoad, FirstSealedImagesLoad, ResealedImagesLoad};

/// A sealed image loads, as the code, data and flag that it was made of.
pub fn sealed_images_load()
    ensures { SealedImagesLoad }
{
    gm_isa::laws::decode_undoes_encode();
}

/// So does one of version 1, under the first key; it keeps nothing.
pub fn first_sealed_images_load()
    ensures { FirstSealedImagesLoad }
{
    gm_isa::laws::decode_undoes_encode();
}

/// What is sealed anew loads under the same keys, as the same code, data and flag.
pub fn resealed_images_load()
    ensures { ResealedImagesLoad }
{
    gm_isa::laws::decode_undoes_encode();
}
