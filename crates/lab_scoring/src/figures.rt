//! The figure by which submissions are ranked.

ghost use Rattle.std.specs.Prelude.{◌≡◌};
ghost use Rattle.std.specs.Option.{option_copied};
ghost use Rattle.lab_scoring.specs.Figures as spec;

use lab_counts::{Column, Figure, Value};

/// Why runs have no figure of a name that could be summed.
#[derive(Clone, Copy, PartialEq, Eq, Debug)]
pub enum FigureFault {
    /// None of their figures has this name.
    Unknown,
    /// It is a share, and no count.
    Share,
}

/// What a figure counts.
fn count_in(value: Value) -> Result<u64, FigureFault>
    ensures { result ≡ spec.count_in value }
{
    match value {
        Value::Count(count) => Ok(count),
        Value::Share(_, _) => Err(FigureFault::Share),
    }
}

/// The figure of this name of a run, if there is one.
fn figure_of<'a>(column: &'a Column, name: &[u8]) -> Option<&'a Figure>
    ensures { option_copied result ≡ spec.figure_of name.now column.now }
{
    column
        .figures
        .iter()
        .find(|listed| listed.name.as_slice() == name)
}

/// The count of this name of a run.
fn count_of(column: &Column, figure: &[u8]) -> Result<u64, FigureFault>
    ensures { result ≡ spec.count_of figure.now column.now }
{
    match figure_of(column, figure) {
        None => Err(FigureFault::Unknown),
        Some(listed) => count_in(listed.value),
    }
}

/// The sum so far and one count more, unless one of them is none.
fn plus(sum: Result<u64, FigureFault>, more: Result<u64, FigureFault>) -> Result<u64, FigureFault>
    ensures { result ≡ spec.plus sum more }
{
    Ok(sum?.saturating_add(more?))
}

/// The sum of the counts of this name over runs, at most 18,446,744,073,709,551,615; or why the first
/// run that has none has none.
pub fn sum_of(columns: &[Column], figure: &[u8]) -> Result<u64, FigureFault>
    ensures { result ≡ spec.sum_of figure.now columns.now }
{
    let mut sum = Ok(0);
    for column in columns {
        sum = plus(sum, count_of(column, figure));
    }
    sum
}
