//! Records of the undo log in words.

ghost use Rattle.std.specs.Prelude.{◌≡◌, ◌++◌, codes, OnOk};
ghost use Rattle.lab_picture.specs.Records as spec;

use kernel_data::NoMemory;
use text_words::{append, word_at};

#[tactic(auto, unfolding(crate::specs::Records::worded))]
/// Appends a text and the k-th word of a record.
fn append_word(out: &mut Vec<u8>, text: &[u8], entry: &[u8], k: usize) -> Result<(), NoMemory>
    ensures { OnOk result (out.new.items
        ≡ out.old.items ++ spec.worded text.now entry.now k) }
{
    append(out, text)?;
    append(out, word_at(entry, k))
}

/// Appends a record of a cell.
fn append_cell(out: &mut Vec<u8>, entry: &[u8]) -> Result<(), NoMemory>
    ensures { OnOk result (out.new.items ≡ out.old.items ++ spec.cell_said entry.now) }
{
    append_word(out, b"cell ", entry, 2)?;
    append_word(out, b" of process ", entry, 1)?;
    append_word(out, b" is ", entry, 3)
}

/// Appends a record of a nice.
fn append_nice(out: &mut Vec<u8>, entry: &[u8]) -> Result<(), NoMemory>
    ensures { OnOk result (out.new.items ≡ out.old.items ++ spec.nice_said entry.now) }
{
    append_word(out, b"the nice of process ", entry, 1)?;
    append_word(out, b" is ", entry, 2)?;
    Ok(())
}

/// Appends a record of a window.
fn append_window(out: &mut Vec<u8>, entry: &[u8]) -> Result<(), NoMemory>
    ensures { OnOk result (out.new.items ≡ out.old.items ++ spec.window_said entry.now) }
{
    append_word(out, b"the window of descriptor ", entry, 2)?;
    append_word(out, b" of process ", entry, 1)?;
    append_word(out, b" is ", entry, 3)
}

/// Appends a record of a mark.
fn append_mark(out: &mut Vec<u8>, entry: &[u8]) -> Result<(), NoMemory>
    ensures { OnOk result (out.new.items ≡ out.old.items ++ spec.mark_said entry.now) }
{
    append_word(out, b"the mark of frame ", entry, 1)?;
    append_word(out, b" is ", entry, 2)?;
    Ok(())
}

/// Appends a record of a parameter of a policy.
fn append_tune(out: &mut Vec<u8>, entry: &[u8]) -> Result<(), NoMemory>
    ensures { OnOk result (out.new.items ≡ out.old.items ++ spec.tune_said entry.now) }
{
    append_word(out, b"parameter ", entry, 2)?;
    append_word(out, b" of the policy of kind ", entry, 1)?;
    append_word(out, b" is ", entry, 3)?;
    Ok(())
}

/// Appends what a record says, as `cell 0 of process 1 is 3`; another record as it is.
fn append_said(out: &mut Vec<u8>, entry: &[u8]) -> Result<(), NoMemory>
    ensures { OnOk result (out.new.items ≡ out.old.items ++ spec.said entry.now) }
{
    let kind = word_at(entry, 0);
    if kind == b"cell".as_slice() {
        return append_cell(out, entry);
    }
    if kind == b"nice".as_slice() {
        return append_nice(out, entry);
    }
    if kind == b"window".as_slice() {
        return append_window(out, entry);
    }
    if kind == b"mark".as_slice() {
        return append_mark(out, entry);
    }
    if kind == b"tune".as_slice() {
        return append_tune(out, entry);
    }
    append(out, entry)
}

/// Appends what a record puts back, as `cell 0 of process 1 is 3 again`.
pub fn append_record(out: &mut Vec<u8>, entry: &[u8]) -> Result<(), NoMemory>
    ensures words { OnOk result (out.new.items
        ≡ out.old.items ++ spec.said entry.now ++ codes " again") }
{
    append_said(out, entry)?;
    append(out, b" again")
}
