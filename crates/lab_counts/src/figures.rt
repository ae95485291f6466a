//! Figures of runs.

use kernel_data::NoMemory;
use text_words::append;

/// What a figure is.
#[derive(Clone, Copy)]
pub enum Value {
    /// A count.
    Count(u64),
    /// A share: the first count of the second one, which is 0 where there is none to speak of.
    Share(u64, u64),
}

/// A figure of a run.
#[derive(Drop)]
pub struct Figure {
    /// Its name: letters a to z, digits and `_`.
    pub name: Vec<u8>,
    /// Its value.
    pub value: Value,
    /// Whether it is left out of a table where it is 0 in all columns.
    pub detail: bool,
}

/// The figures of a run, with the name of its file. Those of several runs have the same names, in the
/// same order.
#[derive(Drop)]
pub struct Column {
    pub file: Vec<u8>,
    pub figures: Vec<Figure>,
}

/// The figure of this name, if there is one.
pub fn value_of(column: &Column, name: &[u8]) -> Option<Value> {
    for figure in column.figures.as_slice() {
        if figure.name.as_slice() == name {
            return Some(figure.value);
        }
    }
    None
}

/// A share in tenths of a percent, rounded down; none where there is nothing to speak of.
pub(crate) fn tenths(part: u64, whole: u64) -> Option<u64> {
    if whole == 0 {
        return None;
    }
    Some(part.saturating_mul(1000) / whole)
}

/// Appends a count.
pub(crate) fn append_count(out: &mut Vec<u8>, count: u64) -> Result<(), NoMemory> {
    let mut digits = itoa::Buffer::new();
    append(out, digits.format(count).as_bytes())
}

/// Appends a value, and this text where there is none.
pub(crate) fn append_value(out: &mut Vec<u8>, value: Value, none: &[u8]) -> Result<(), NoMemory> {
    match value {
        Value::Count(count) => append_count(out, count),
        Value::Share(part, whole) => match tenths(part, whole) {
            None => append(out, none),
            Some(tenths) => {
                append_count(out, tenths / 10)?;
                append(out, b".")?;
                append_count(out, tenths % 10)
            }
        },
    }
}

/// Whether a value is 0, or there is none.
pub(crate) fn is_zero(value: Value) -> bool {
    match value {
        Value::Count(count) => count == 0,
        Value::Share(part, _) => part == 0,
    }
}
