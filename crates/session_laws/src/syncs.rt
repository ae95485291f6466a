//! A law of `sync`.

ghost use Rattle.session_laws.specs.Syncs.{SyncsWriteBackAlone};

/// A `sync` on a sound store writes dirty frames back and changes nothing else, also where one of its
/// calls of the disk fails: what was written before that is clean, and stays written.
pub fn syncs_write_back_alone()
    ensures { SyncsWriteBackAlone }
{}
