//! What is ranked, and in which order.

ghost use Rattle.std.specs.Prelude.{◌≡◌, OnOk, count_by};
ghost use Rattle.std.specs.Ordering.{is_lt};
ghost use Rattle.lab_scoring.specs.Ranking as spec;

use kernel_data::NoMemory;
use std::cmp::Ordering;

/// What comes of a submission by the tests of the task.
#[derive(Clone, Copy, PartialEq, Eq, Debug)]
pub enum Standing {
    /// It passes all of them, or it is the stock policy.
    Passed,
    /// It fails one, and isn't ranked.
    Failed,
    /// It holds other grafts than the task asks for, or one is refused: it isn't ranked.
    Refused,
}

/// A submission or the stock policy, and the sum of the task's figure over all tests.
#[derive(Drop)]
pub struct Entry {
    /// The name of its file, or what is said in its place.
    pub name: Vec<u8>,
    /// What comes of it by the tests.
    pub standing: Standing,
    /// The sum of the figure; 0 where it isn't ranked.
    pub value: u64,
}

/// Whether it passes all tests.
fn is_passed(standing: Standing) -> bool
    ensures { result ≡ spec.is_passed standing }
{
    match standing {
        Standing::Passed => true,
        Standing::Failed => false,
        Standing::Refused => false,
    }
}

/// Whether a figure is better than another one: `most` says that more is better.
fn is_better(most: bool, value: u64, other: u64) -> bool
    ensures { result ≡ spec.is_better most value other }
{
    if most { other < value } else { value < other }
}

/// Whether an entry stands before another one.
fn is_before(most: bool, entry: &Entry, other: &Entry) -> bool
    ensures { result ≡ spec.is_before most entry.now other.now }
{
    is_passed(entry.standing)
        && (!is_passed(other.standing) || is_better(most, entry.value, other.value))
}

/// How two entries stand to one another.
fn compare(most: bool, entry: &Entry, other: &Entry) -> Ordering
    ensures { is_lt result ≡ spec.is_before most entry.now other.now }
{
    if is_before(most, entry, other) {
        Ordering::Less
    } else if is_before(most, other, entry) {
        Ordering::Greater
    } else {
        Ordering::Equal
    }
}

/// Brings entries into their order: the best figure first, those that aren't ranked last. Equal ones
/// stay in the order in which they were given.
pub fn rank(entries: &mut Vec<Entry>, most: bool) -> Result<(), NoMemory>
    ensures { OnOk result (spec.IsRanking most entries.old.items entries.new.items) }
{
    match entries.sort_by(|entry, other| compare(most, entry, other)) {
        Ok(()) => Ok(()),
        Err(_) => Err(NoMemory),
    }
}

/// Whether an entry is ranked, with a better figure than this.
fn is_ahead(most: bool, entry: &Entry, value: u64) -> bool
    ensures { result ≡ spec.is_ahead most value entry.now }
{
    is_passed(entry.standing) && is_better(most, entry.value, value)
}

/// How many entries are ranked with a better figure than this.
pub(crate) fn count_ahead(entries: &[Entry], most: bool, value: u64) -> usize
    ensures { result ≡ count_by (spec.is_ahead most value) entries.now }
{
    entries
        .iter()
        .filter(|entry| is_ahead(most, *entry, value))
        .count()
}
