//! Which lines a quiz leaves out.

ghost use Rattle.std.specs.Prelude.{◌≡◌, ◌<◌, ◌++◌, ◌∷◌, [], IfOk, OnOk};
ghost use Rattle.lab_quiz.specs.Quiz as spec;
ghost use Rattle.lab_quiz.specs.Quiz.{LeavesThird};

use kernel_data::NoMemory;
use std::alloc::Global;

/// The next number of a linear congruential generator, with a multiplier and a step that have its
/// full period of 2^32.
fn next(state: u32) -> u32
    ensures { result ≡ spec.next state }
{
    ((u64::from(state) * 1_664_525 + 1_013_904_223) % 4_294_967_296) as u32
}

/// A number with its halves exchanged: the last bits of the generator's numbers come round soon.
fn turned(state: u32) -> u32
    ensures { result ≡ spec.turned state }
{
    state / 65_536 + state % 65_536 * 65_536
}

/// Whether the first of the lines that are left is left out.
fn is_drawn(state: u32, rest: usize, left: usize) -> bool
    requires { 0 < rest }
    ensures { result ≡ spec.is_drawn state rest left }
{
    turned(state) as usize % rest < left
}

/// A third of so many lines, and one at least where there are some.
fn third(count: usize) -> usize
    ensures { result ≡ spec.third count }
{
    if count % 3 > 0 {
        count / 3 + 1
    } else {
        count / 3
    }
}

/// Which of so many lines are left out.
pub(crate) fn left_out(alloc: Global, seed: u32, count: usize) -> Result<Vec<bool>, NoMemory>
    ensures { IfOk result (λ marks. marks.items ≡ spec.left_out seed count) }
{
    let mut marks = Vec::new(alloc);
    let mut state = seed;
    let mut left = third(count);
    let mut rest = count;
    while rest > 0 {
        state = next(state);
        let mark = is_drawn(state, rest, left);
        put(&mut marks, mark)?;
        left = left.saturating_sub(usize::from(mark));
        rest -= 1;
    }
    Ok(marks)
}

/// Puts a mark behind others.
fn put(marks: &mut Vec<bool>, mark: bool) -> Result<(), NoMemory>
    ensures { OnOk result (marks.new.items ≡ marks.old.items ++ mark ∷ []) }
{
    match marks.push(mark) {
        Ok(()) => Ok(()),
        Err(_) => Err(NoMemory),
    }
}

/// A quiz leaves out a third of the lines, and so one at least where there are some.
pub fn leaves_third(seed: u32, count: usize)
    ensures { LeavesThird seed count }
{}
