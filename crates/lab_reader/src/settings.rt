//! The settings of a lab file: its keys and its disk.

ghost use Rattle.std.specs.Prelude.{◌≡◌, IfOk};
ghost use Rattle.std.specs.Option.{option_copied};
ghost use Rattle.lab_reader.specs.Words.{one_word_of};
ghost use Rattle.lab_reader.specs.Faults.{StepsAs};
ghost use Rattle.lab_reader.specs.Settings as spec;

use crate::faults::{LabFault, LabKind};
use crate::text::{Text, text_of};
use crate::words::numbers_of;
use graft_loader::read_keys;
use script_model::NoMemory;
use std::alloc::Global;
use std::marker::Model;
use text_words::Parts;

/// The key where no line says it: 64 zeros.
const ZEROS: &[u8; 64] = b"0000000000000000000000000000000000000000000000000000000000000000";

/// What the lines so far set.
#[derive(Drop)]
pub struct Settings {
    word: Text,
    keyed: bool,
    disk: Option<Text>,
    failing: bool,
    fails: Vec<u64>,
}

impl Model for Settings {
    ghost use Rattle.lab_reader.specs.Settings as spec;

    ghost Value = { spec.Settings };

    ghost view = { λ s. record {
      word = s.word;
      keyed = s.keyed;
      disk = s.disk;
      failing = s.failing;
      fails = s.fails.items;
    } };
}

/// The one word of a line, if it has no other.
fn one_word<'a>(words: &mut Parts<'a>) -> Option<&'a [u8]>
    ensures { option_copied result ≡ one_word_of words.old }
{
    let word = words.next()?;
    match words.next() {
        None => Some(word),
        Some(_) => None,
    }
}

impl Settings {
    /// Where no line sets anything.
    pub fn new(alloc: Global) -> Result<Settings, NoMemory>
        ensures { IfOk result (λ s. s ≡ spec.first_settings) }
    {
        Ok(Settings {
            word: text_of(alloc, ZEROS)?,
            keyed: false,
            disk: None,
            failing: false,
            fails: Vec::new(alloc),
        })
    }

    /// The word that writes the keys, as on the command line of `run`.
    pub fn word(&self) -> &[u8]
        ensures { result.now ≡ self.now.word }
    {
        self.word.bytes()
    }

    /// The file that is the disk, if one is.
    pub fn disk(&self) -> Option<&Text>
        ensures { option_copied result ≡ self.now.disk }
    {
        self.disk.as_ref()
    }

    /// Which calls of the disk fail, numbered from 1.
    pub fn fails(&self) -> &[u64]
        ensures { result.now ≡ self.now.fails }
    {
        self.fails.as_slice()
    }

    /// A line of keys: once, and before the first image that is sealed, which `late` says there is.
    pub fn set_key(
        &mut self,
        alloc: Global,
        n: usize,
        late: bool,
        mut words: Parts,
    ) -> Result<(), LabFault>
        ensures { StepsAs result self.new (spec.with_key n late self.old words.entry) }
    {
        let Some(word) = one_word(&mut words) else {
            return Err(LabFault::At(n, LabKind::BadKey));
        };
        if self.keyed {
            return Err(LabFault::At(n, LabKind::KeyTwice));
        }
        if late {
            return Err(LabFault::At(n, LabKind::KeyLate));
        }
        if read_keys(word).is_none() {
            return Err(LabFault::At(n, LabKind::BadKey));
        }
        self.word = text_of(alloc, word)?;
        self.keyed = true;
        Ok(())
    }

    /// A line that names the file of the disk.
    pub fn set_disk(&mut self, alloc: Global, n: usize, mut words: Parts) -> Result<(), LabFault>
        ensures { StepsAs result self.new (spec.with_disk n self.old words.entry) }
    {
        let Some(path) = one_word(&mut words) else {
            return Err(LabFault::At(n, LabKind::BadDisk));
        };
        if self.disk.is_some() {
            return Err(LabFault::At(n, LabKind::DiskTwice));
        }
        if self.failing {
            return Err(LabFault::At(n, LabKind::FailsOnFile));
        }
        self.disk = Some(text_of(alloc, path)?);
        Ok(())
    }

    /// The calls of the disk that fail, behind `fail disk`.
    fn set_fails_of(&mut self, alloc: Global, n: usize, word: &[u8]) -> Result<(), LabFault>
        ensures { StepsAs result self.new (spec.with_fails_of n self.old word.now) }
    {
        if self.failing {
            return Err(LabFault::At(n, LabKind::FailsTwice));
        }
        if self.disk.is_some() {
            return Err(LabFault::At(n, LabKind::FailsOnFile));
        }
        match numbers_of(alloc, word)? {
            None => Err(LabFault::At(n, LabKind::BadFails)),
            Some(fails) => {
                self.failing = true;
                self.fails = fails;
                Ok(())
            }
        }
    }

    /// A line that says which calls of the disk fail.
    pub fn set_fails(&mut self, alloc: Global, n: usize, mut words: Parts) -> Result<(), LabFault>
        ensures { StepsAs result self.new (spec.with_fails n self.old words.entry) }
    {
        let Some(first) = words.next() else {
            return Err(LabFault::At(n, LabKind::BadFails));
        };
        let Some(word) = one_word(&mut words) else {
            return Err(LabFault::At(n, LabKind::BadFails));
        };
        if first == b"disk".as_slice() {
            self.set_fails_of(alloc, n, word)
        } else {
            Err(LabFault::At(n, LabKind::BadFails))
        }
    }
}
