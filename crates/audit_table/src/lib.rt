//! A function of two numbers that is one value everywhere but at some places, kept as rows of those
//! places. Who looks a place up says the value of all others.
#![tactic(auto)]

ghost use Rattle.std.specs.Prelude.{◌≡◌, ◌≤◌, ℕ, OnOk, IfSome, IsNone, List, length};
ghost use Rattle.kernel_data.specs.Objects.{at, at2};
ghost use Rattle.audit_table.specs.Tables.{table_of, column_of, rows_before, row_cleared};

use kernel_data::NoMemory;

mod lists;

pub use lists::{copy, put_first, put_last, take_first};

/// A place and its value.
#[derive(Clone, Copy, Drop)]
pub struct Row<V> {
    pub first: u32,
    pub second: u32,
    pub value: V,
}

/// How many rows stand before the first of a place.
fn before<V>(rows: &[Row<V>], first: u32, second: u32) -> usize
    ensures { result ≡ rows_before first second rows.now }
{
    let mut n = 0;
    for row in rows {
        if row.first == first && row.second == second {
            return n;
        }
        n += 1;
    }
    n
}

/// The value of a place.
pub fn get<V: Copy>(rows: &[Row<V>], first: u32, second: u32, default: V) -> V
    ensures { result ≡ table_of default rows.now first second }
{
    let n = before(rows, first, second);
    if n < rows.len() {
        rows[n].value
    } else {
        default
    }
}

/// The value of a place, lent, if a row has one.
pub fn lend<V>(rows: &[Row<V>], first: u32, second: u32) -> Option<&V>
    ensures some { IfSome result (λ v. (default : V) →
        v.now ≡ table_of default rows.now first second) }
    ensures none { IsNone result → (default : V) →
        default ≡ table_of default rows.now first second }
{
    let n = before(rows, first, second);
    if n < rows.len() {
        Some(&rows[n].value)
    } else {
        None
    }
}

/// A place gets a value.
pub fn put<V: Drop>(
    rows: &mut Vec<Row<V>>,
    first: u32,
    second: u32,
    value: V,
) -> Result<(), NoMemory>
    ensures { OnOk result ((default : V) →
        table_of default rows.new.items ≡ at2 first second value (table_of default rows.old.items)) }
{
    let n = before(rows, first, second);
    let row = Row {
        first,
        second,
        value,
    };
    if n < rows.len() {
        rows[n] = row;
        return Ok(());
    }
    put_last(rows, row)?;
    Ok(())
}

/// The places of a first number have no row any more.
pub fn clear<V: Copy + Drop>(rows: &mut Vec<Row<V>>, first: u32)
    ensures { (default : V) → table_of default rows.new.items
        ≡ row_cleared first default (table_of default rows.old.items) }
{
    rows.retain(|row| row.first != first);
}

/// The value of a number.
pub fn get_one<V: Copy>(rows: &[Row<V>], number: u32, default: V) -> V
    ensures { result ≡ column_of default rows.now number }
{
    get(rows, number, 0, default)
}

/// A number gets a value.
pub fn put_one<V: Drop>(rows: &mut Vec<Row<V>>, number: u32, value: V) -> Result<(), NoMemory>
    ensures { OnOk result ((default : V) →
        column_of default rows.new.items ≡ at number value (column_of default rows.old.items)) }
{
    match put(rows, number, 0, value) {
        Ok(()) => Ok(()),
        Err(e) => Err(e),
    }
}
