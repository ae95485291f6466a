//! Which of some names a word is most like, for "did you mean".
#![tactic(auto)]

ghost use Rattle.std.specs.Prelude.{◌≡◌, ◌<◌, length, IfOk, IfSome};

pub use kernel_data::NoMemory;
use std::alloc::Global;
use strsim::generic_damerau_levenshtein;

/// The longest word that is compared.
const LONGEST: usize = 24;

/// How many steps are too many from a word to a name that is like it.
fn too_many_steps(word: &[u8]) -> usize {
    if word.len() < 5 { 2 } else { 3 }
}

/// How many insertions, deletions, substitutions and swaps of two neighbours lead from a word to a
/// name.
fn steps_to(alloc: Global, word: &[u8], name: &str) -> Result<usize, NoMemory> {
    match generic_damerau_levenshtein(alloc, word, name.as_bytes()) {
        Ok(steps) => Ok(steps),
        Err(_) => Err(NoMemory),
    }
}

/// The place of the name that a word is most like, the first of several, if one is like it: at most
/// one step away, or two where the word has five bytes or more.
pub fn most_like(alloc: Global, word: &[u8], names: &[&str]) -> Result<Option<usize>, NoMemory>
    ensures { IfOk result (λ place. IfSome place (λ i. i < length names.now)) }
{
    if word.len() > LONGEST {
        return Ok(None);
    }
    let mut best = too_many_steps(word);
    let mut found = None;
    for i in 0..names.len() {
        let steps = steps_to(alloc, word, names[i])?;
        if steps < best {
            best = steps;
            found = Some(i);
        }
    }
    Ok(found)
}
