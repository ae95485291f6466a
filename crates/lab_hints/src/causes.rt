//! Why grafts had no step left, seen in the rows of a slow run.

use kernel_data::NoMemory;
use std::alloc::Global;
use text_words::{Parts, number_of, put, word_at};

/// Why a graft had no step left.
#[derive(Clone, Copy, PartialEq, Eq, Debug)]
pub enum Cause {
    /// It took as many instructions as its limit.
    Limit(u32),
    /// It isn't billed, and has no step of its own left.
    Unpaid,
    /// It is billed, and the account of its process is empty.
    Account,
    /// Its row wasn't seen.
    Unseen,
}

/// The k-th word of a row as a number; the greatest one where it is greater, or none.
fn count_at(row: &[u8], k: usize) -> u32 {
    number_of(word_at(row, k)).unwrap_or(u32::MAX)
}

/// The last of these rows of this kind that has these words from this place on.
fn row_with<'a>(
    rows: &[&'a [u8]],
    kind: &[u8],
    from: usize,
    words: [&[u8]; 2],
) -> Option<&'a [u8]> {
    let mut found = None;
    for row in rows {
        if word_at(*row, 2) == kind
            && word_at(*row, from) == words[0]
            && (words[1].is_empty() || word_at(*row, from.saturating_add(1)) == words[1])
        {
            found = Some(*row);
        }
    }
    found
}

/// Why the graft of this process at this point had no step left, by the rows before its drop:
/// `N raw graft Q PT IMAGE LIMIT BILLED STEPS ..`, `N raw level P D Q PT TAKEN` and
/// `N raw acct P STEPS ..`.
fn cause_in(rows: &[&[u8]], process: &[u8], point: &[u8]) -> Cause {
    let Some(graft) = row_with(rows, b"graft", 3, [process, point]) else {
        return Cause::Unseen;
    };
    let taken = match row_with(rows, b"level", 5, [process, point]) {
        Some(level) => count_at(level, 7),
        None => 0,
    };
    let billed = word_at(graft, 7) == b"1".as_slice();
    let steps = if billed {
        match row_with(rows, b"acct", 3, [process, b""]) {
            Some(account) => count_at(account, 4),
            None => 0,
        }
    } else {
        count_at(graft, 8)
    };
    let limit = count_at(graft, 6);
    if steps >= limit.saturating_sub(taken) {
        Cause::Limit(limit)
    } else if billed {
        Cause::Account
    } else {
        Cause::Unpaid
    }
}

/// Whether a line is that of a graft that had no step left.
pub fn is_spent(line: &[u8]) -> bool {
    word_at(line, 1) == b"drop".as_slice() && word_at(line, 4) == b"C9".as_slice()
}

/// Why each graft had no step left, in the order of their drops, by the lines that a slow run wrote.
pub fn causes_of(alloc: Global, written: &[u8]) -> Result<Vec<Cause>, NoMemory> {
    let mut causes = Vec::new(alloc);
    let mut rows: Vec<&[u8]> = Vec::new(alloc);
    let mut lines = Parts::new(written, b'\n');
    while let Some(line) = lines.next() {
        if word_at(line, 1) == b"raw".as_slice() {
            if word_at(line, 2) == b"clock".as_slice() {
                rows.clear();
            }
            put(&mut rows, line)?;
        } else if is_spent(line) {
            let cause = cause_in(rows.as_slice(), word_at(line, 2), word_at(line, 3));
            put(&mut causes, cause)?;
        }
    }
    Ok(causes)
}
