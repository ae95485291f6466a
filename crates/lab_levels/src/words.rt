//! The words in which the state of calls is told.

ghost use Rattle.std.specs.Prelude.{◌≡◌, ◌++◌, IfOk, OnOk};
ghost use Rattle.lab_levels.specs.Told as told;

use crate::outside::append_numbered;
use crate::view::View;
use script_model::{Inverse, NoMemory, Object, RawRow, WaitRow};
use std::alloc::Global;
use text_words::append;

#[tactic(auto, unfolding(crate::specs::Told::owned))]
/// Appends `text`, the number b, ` of process ` and the number of the process.
fn append_owned(out: &mut Vec<u8>, text: &[u8], process: u8, b: u8) -> Result<(), NoMemory>
    ensures { OnOk result (out.new.items ≡ out.old.items ++ told.owned text.now process b) }
{
    append_numbered(out, text, u32::from(b))?;
    append_numbered(out, b" of process ", u32::from(process))
}

#[tactic(auto, unfolding(crate::specs::Told::object_said))]
/// Appends an object, as `cell 0 of process 1`.
fn append_object(out: &mut Vec<u8>, object: Object) -> Result<(), NoMemory>
    ensures { OnOk result (out.new.items ≡ out.old.items ++ told.object_said object) }
{
    match object {
        Object::Graft(q, pt) => append_owned(out, b"the graft at point ", q, pt),
        Object::Acct(q) => append_numbered(out, b"the account of process ", u32::from(q)),
        Object::Cell(q, k) => append_owned(out, b"cell ", q, k),
        Object::OpenFile(q, fd) => append_owned(out, b"descriptor ", q, fd),
        Object::Queue => append(out, b"the queue"),
        Object::Cache => append(out, b"the cache"),
        Object::Lock(u) => append_numbered(out, b"user lock ", u32::from(u)),
        Object::Pol(kind) => append_numbered(out, b"the policy of kind ", u32::from(kind)),
    }
}

#[tactic(auto, unfolding(crate::specs::Told::parameter_said))]
/// Appends a parameter of a policy.
fn append_parameter(out: &mut Vec<u8>, kind: u8, k: u8) -> Result<(), NoMemory>
    ensures { OnOk result (out.new.items ≡ out.old.items ++ told.parameter_said kind k) }
{
    append_numbered(out, b"parameter ", u32::from(k))?;
    append_numbered(out, b" of the policy of kind ", u32::from(kind))
}

#[tactic(auto, unfolding(crate::specs::Told::inverse_said, crate::specs::Told::put_back))]
/// Appends what a record puts back, as `cell 0 of process 1 to 3`.
fn append_inverse(out: &mut Vec<u8>, inverse: Inverse) -> Result<(), NoMemory>
    ensures { OnOk result (out.new.items ≡ out.old.items ++ told.inverse_said inverse) }
{
    match inverse {
        Inverse::Cell {
            process: q,
            cell: k,
            value,
        } => {
            append_owned(out, b"cell ", q, k)?;
            append_numbered(out, b" to ", value)
        }
        Inverse::Nice(q, value) => {
            append_numbered(out, b"the nice of process ", u32::from(q))?;
            append_numbered(out, b" to ", u32::from(value))
        }
        Inverse::Window {
            process: q,
            descriptor: fd,
            value,
        } => {
            append_owned(out, b"the window of descriptor ", q, fd)?;
            append_numbered(out, b" to ", u32::from(value))
        }
        Inverse::Mark(frame, value) => {
            append_numbered(out, b"the mark of frame ", u32::from(frame))?;
            append_numbered(out, b" to ", u32::from(value))
        }
        Inverse::Tune {
            kind,
            parameter: k,
            value,
        } => {
            append_parameter(out, kind, k)?;
            append_numbered(out, b" to ", value)
        }
        Inverse::Segment(q, pt) => append_owned(out, b"the segment kept at point ", q, pt),
    }
}

#[tactic(auto, unfolding(crate::specs::Told::level_said))]
/// Appends `process P level L`; the outermost level is 1.
pub fn append_level(out: &mut Vec<u8>, p: u8, depth: u8) -> Result<(), NoMemory>
    ensures { OnOk result (out.new.items ≡ out.old.items ++ told.level_said p depth) }
{
    append_numbered(out, b"process ", u32::from(p))?;
    append_numbered(out, b" level ", u32::from(depth) + 1)
}

#[tactic(auto, unfolding(crate::specs::Told::wait_said))]
/// Appends a call that waits.
fn append_wait(out: &mut Vec<u8>, p: u8, wait: &WaitRow) -> Result<(), NoMemory>
    ensures { OnOk result (out.new.items ≡ out.old.items ++ told.wait_said p wait.now) }
{
    append_numbered(out, b"process ", u32::from(p))?;
    append(out, b" waits for ")?;
    append_object(out, wait.object)?;
    append_numbered(out, b", which process ", u32::from(wait.holder))?;
    append_numbered(out, b" has; ticks: ", wait.count)
}

#[tactic(auto, unfolding(crate::specs::Told::run_said))]
/// Appends a level that runs the graft of a process at a point.
fn append_run(out: &mut Vec<u8>, p: u8, depth: u8, owner: u8, point: u8) -> Result<(), NoMemory>
    ensures { OnOk result (out.new.items ≡ out.old.items ++ told.run_said p depth owner point) }
{
    append_level(out, p, depth)?;
    append_owned(out, b" runs the graft at point ", owner, point)
}

#[tactic(auto, unfolding(crate::specs::Told::undo_said))]
/// Appends a record that a drop of a level would put back.
fn append_undo(out: &mut Vec<u8>, p: u8, depth: u8, inverse: Inverse) -> Result<(), NoMemory>
    ensures { OnOk result (out.new.items ≡ out.old.items ++ told.undo_said p depth inverse) }
{
    append_level(out, p, depth)?;
    append(out, b": a drop puts back ")?;
    append_inverse(out, inverse)
}

/// Appends a line for a row that says what is held, what waits, what runs or what would be put
/// back.
fn append_row(out: &mut Vec<u8>, row: &RawRow) -> Result<(), NoMemory>
    ensures { OnOk result (out.new.items ≡ out.old.items ++ told.row_said row.now) }
{
    match row {
        RawRow::Lock(u, p) => {
            append_numbered(out, b"process ", u32::from(*p))?;
            append_numbered(out, b" holds user lock ", u32::from(*u))?;
            append(out, b"\n")
        }
        RawRow::Call {
            process: p,
            wait: Some(wait),
            ..
        } => {
            append_wait(out, *p, wait)?;
            append(out, b"\n")
        }
        RawRow::Level {
            process: p,
            depth,
            installer: q,
            point: pt,
            ..
        } => {
            append_run(out, *p, *depth, *q, *pt)?;
            append(out, b"\n")
        }
        RawRow::Undo {
            process: p,
            depth,
            inverse,
        } => {
            append_undo(out, *p, *depth, *inverse)?;
            append(out, b"\n")
        }
        _ => Ok(()),
    }
}

/// What is held, what waits, what runs and what would be put back, a line each.
pub fn standing_of(alloc: Global, view: &View) -> Result<Vec<u8>, NoMemory>
    ensures { IfOk result (λ lines. lines.items ≡ told.standing_said view.now.rows) }
{
    let mut out = Vec::new(alloc);
    for row in view.rows() {
        append_row(&mut out, row)?;
    }
    Ok(out)
}
