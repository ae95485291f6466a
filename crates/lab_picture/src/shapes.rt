//! The shapes of SVG that a picture is made of.

ghost use Rattle.std.specs.Prelude.{◌≡◌, ◌++◌, OnOk};
ghost use Rattle.lab_picture.specs.Shapes as spec;

use crate::escape::{append_shown, append_text};
use kernel_data::NoMemory;
use text_words::{append, append_number, append_with};

/// A place in a picture, from the left and from above.
#[derive(Clone, Copy)]
pub struct At {
    pub x: u32,
    pub y: u32,
}

/// Appends an attribute.
#[tactic(auto, unfolding(crate::specs::Shapes::attribute))]
fn append_attribute(out: &mut Vec<u8>, name: &[u8], value: &[u8]) -> Result<(), NoMemory>
    ensures { OnOk result (out.new.items
        ≡ out.old.items ++ spec.attribute name.now value.now) }
{
    append(out, b" ")?;
    append(out, name)?;
    append(out, b"=\"")?;
    append(out, value)?;
    append(out, b"\"")
}

/// Appends an attribute that is a number.
#[tactic(auto, unfolding(crate::specs::Shapes::measure))]
fn append_measure(out: &mut Vec<u8>, name: &[u8], n: u32) -> Result<(), NoMemory>
    ensures { OnOk result (out.new.items ≡ out.old.items ++ spec.measure name.now n) }
{
    let mut digits = itoa::Buffer::new();
    append_attribute(out, name, digits.format(n).as_bytes())
}

/// A rectangle of a class.
pub fn rectangle(
    out: &mut Vec<u8>,
    class: &[u8],
    at: At,
    width: u32,
    height: u32,
) -> Result<(), NoMemory>
    ensures shape { OnOk result (out.new.items
        ≡ out.old.items ++ spec.rectangle class.now at width height) }
{
    append(out, b"<rect")?;
    append_attribute(out, b"class", class)?;
    append_measure(out, b"x", at.x)?;
    append_measure(out, b"y", at.y)?;
    append_measure(out, b"width", width)?;
    append_measure(out, b"height", height)?;
    append(out, b"/>\n")
}

/// A line of a class.
pub fn line(out: &mut Vec<u8>, class: &[u8], from: At, to: At) -> Result<(), NoMemory>
    ensures { OnOk result (out.new.items ≡ out.old.items ++ spec.line class.now from to) }
{
    append(out, b"<line")?;
    append_attribute(out, b"class", class)?;
    append_measure(out, b"x1", from.x)?;
    append_measure(out, b"y1", from.y)?;
    append_measure(out, b"x2", to.x)?;
    append_measure(out, b"y2", to.y)?;
    append(out, b"/>\n")
}

/// The beginning of a text of a class.
fn begin_text(out: &mut Vec<u8>, class: &[u8], at: At) -> Result<(), NoMemory>
    ensures { OnOk result (out.new.items ≡ out.old.items ++ spec.text_start class.now at) }
{
    append(out, b"<text")?;
    append_attribute(out, b"class", class)?;
    append_measure(out, b"x", at.x)?;
    append_measure(out, b"y", at.y)
}

/// A text of a class.
pub fn text(out: &mut Vec<u8>, class: &[u8], at: At, said: &[u8]) -> Result<(), NoMemory>
    ensures { OnOk result (out.new.items ≡ out.old.items ++ spec.text class.now at said.now) }
{
    begin_text(out, class, at)?;
    append(out, b">")?;
    append_text(out, said)?;
    append(out, b"</text>\n")
}

/// A number of a class.
pub fn number(out: &mut Vec<u8>, class: &[u8], at: At, n: u32) -> Result<(), NoMemory>
    ensures { OnOk result (out.new.items ≡ out.old.items ++ spec.number class.now at n) }
{
    begin_text(out, class, at)?;
    append(out, b">")?;
    append_number(out, n)?;
    append(out, b"</text>\n")
}

/// Appends a text, and a number behind it.
#[tactic(auto, unfolding(crate::specs::Shapes::counted))]
fn append_counted(out: &mut Vec<u8>, text: &[u8], n: u32) -> Result<(), NoMemory>
    ensures { OnOk result (out.new.items ≡ out.old.items ++ spec.counted text.now n) }
{
    append_with(out, text, n)
}

/// A rotation round a place.
fn append_rotation(out: &mut Vec<u8>, at: At) -> Result<(), NoMemory>
    ensures { OnOk result (out.new.items ≡ out.old.items ++ spec.rotation at) }
{
    append_counted(out, b"rotate(-58 ", at.x)?;
    append_counted(out, b" ", at.y)?;
    append(out, b")")?;
    Ok(())
}

/// The attribute by which a text rises to the right.
fn append_rising(out: &mut Vec<u8>, at: At) -> Result<(), NoMemory>
    ensures { OnOk result (out.new.items ≡ out.old.items ++ spec.rising at) }
{
    append(out, b" transform=\"")?;
    append_rotation(out, at)?;
    append(out, b"\"")?;
    Ok(())
}

/// A text of a class, of which at most so many signs stand there.
pub fn fitted_text(
    out: &mut Vec<u8>,
    class: &[u8],
    at: At,
    said: &[u8],
    most: usize,
) -> Result<(), NoMemory>
    ensures shape { OnOk result (out.new.items
        ≡ out.old.items ++ spec.fitted_text class.now at said.now most) }
{
    begin_text(out, class, at)?;
    append(out, b">")?;
    append_shown(out, said, most)?;
    append(out, b"</text>\n")
}

/// The same of a text that rises to the right.
pub fn rising_text(
    out: &mut Vec<u8>,
    class: &[u8],
    at: At,
    said: &[u8],
    most: usize,
) -> Result<(), NoMemory>
    ensures shape { OnOk result (out.new.items
        ≡ out.old.items ++ spec.rising_text class.now at said.now most) }
{
    begin_text(out, class, at)?;
    append_rising(out, at)?;
    append(out, b">")?;
    append_shown(out, said, most)?;
    append(out, b"</text>\n")
}

/// The white disc below a cross.
fn append_disc(out: &mut Vec<u8>, at: At) -> Result<(), NoMemory>
    ensures { OnOk result (out.new.items ≡ out.old.items ++ spec.disc at) }
{
    append(out, b"<circle")?;
    append_attribute(out, b"class", b"disc")?;
    append_measure(out, b"cx", at.x)?;
    append_measure(out, b"cy", at.y)?;
    append_measure(out, b"r", 8)?;
    append(out, b"/>\n")
}

/// The mark of a dropped graft: a cross on a white disc.
pub fn cross(out: &mut Vec<u8>, at: At) -> Result<(), NoMemory>
    ensures { OnOk result (out.new.items ≡ out.old.items ++ spec.cross at) }
{
    append_disc(out, at)?;
    let left = at.x.saturating_sub(4);
    let right = at.x.saturating_add(4);
    let above = at.y.saturating_sub(4);
    let below = at.y.saturating_add(4);
    line(
        out,
        b"cross",
        At { x: left, y: above },
        At { x: right, y: below },
    )?;
    line(
        out,
        b"cross",
        At { x: left, y: below },
        At { x: right, y: above },
    )
}
