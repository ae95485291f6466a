//! The call of which an argument is to blame.

use accessor_list::id_of;
use graft_syntax::arguments_of;
use lab_places::{Span, bytes_of};

/// A call: the place of its callable among the words, how many arguments it takes, and how many it
/// has.
#[derive(Clone, Copy)]
pub struct Call {
    pub callable: usize,
    pub takes: u32,
    pub has: usize,
}

/// The last callable among the words up to this one. No call stands in another.
fn callable_before(text: &[u8], words: &[Span], at: usize) -> Option<(usize, u32)> {
    let mut found = None;
    for (i, word) in words.iter().enumerate() {
        if i > at {
            return found;
        }
        if let Some(id) = id_of(bytes_of(text, *word)) {
            found = Some((i, id));
        }
    }
    found
}

/// How many arguments stand in the parentheses that open at this word: one more than the commas
/// that are in no others.
fn count_arguments(text: &[u8], words: &[Span], open: usize) -> usize {
    let mut depth: usize = 0;
    let mut count: usize = 0;
    let mut last: &[u8] = &[];
    for word in &words[open.min(words.len())..] {
        let word = bytes_of(text, *word);
        if word == b"(".as_slice() {
            depth = depth.saturating_add(1);
        } else if word == b")".as_slice() {
            depth = depth.saturating_sub(1);
            if depth == 0 {
                let is_empty = last == b"(".as_slice() && count == 0;
                return if is_empty { 0 } else { count.saturating_add(1) };
            }
        } else if word == b",".as_slice() && depth == 1 {
            count = count.saturating_add(1);
        }
        last = word;
    }
    count.saturating_add(1)
}

/// The call in which this word is.
pub fn call_at(text: &[u8], words: &[Span], at: usize) -> Option<Call> {
    let (callable, id) = callable_before(text, words, at)?;
    Some(Call {
        callable,
        takes: arguments_of(id),
        has: count_arguments(text, words, callable.saturating_add(1)),
    })
}
