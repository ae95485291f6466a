//! `print_row` and `print_lent`: the line of a raw row.

ghost use Rattle.std.specs.Prelude.{◌≡◌, ◌≤◌, ◌<◌, ◌+◌, ◌*◌, ◌++◌, length, take, codes, decimal, flat_map, Option};
ghost use Rattle.script_model.specs.Bytes.{spaced};
ghost use Rattle.script_model.specs.Text.{bit, queue_text, frame_text, param_text};
ghost use Rattle.script_model.specs.Text.{wait_text, top_text, inverse_text, open_text, row_text};
ghost use Rattle.script_model.specs.Text.{line};
ghost use Rattle.line_text.specs.Rows.{row_lent, FitsLine};

use crate::append::{all_u32, all_u64, colon_u8, colon_u32, number_u32, spaced_u8, spaced_u32};
use crate::cells::{Cells, add};
use crate::print::object;
use crate::text::Text;
use script_model::{FrameRow, Inverse, OpenRow, QueueRow, RawRow, TopRow, WaitRow};

/// A row of a kernel's whole state whose lists and amounts stand elsewhere, so that it is small.
/// Contracts see it by `row_lent` as the row.
#[derive(Clone, Copy)]
pub enum LentRow<'a> {
    Clock(u32),
    Queue(&'a [QueueRow]),
    Acct(u8, &'a [u64; 6]),
    Cells(u8, &'a [u32; 4]),
    OpenFile {
        process: u8,
        descriptor: u8,
        name: &'a [u8],
        row: OpenRow,
    },
    Graft {
        installer: u8,
        point: u8,
        slot: u8,
        limit: u32,
        billed: bool,
        amounts: &'a [u64; 3],
    },
    Pol {
        kind: u8,
        policy: u8,
        parameter: Option<u32>,
    },
    Lru(&'a [FrameRow]),
    Lock(u8, u8),
    Call {
        process: u8,
        number: u32,
        wait: Option<WaitRow>,
        top: Option<TopRow>,
    },
    Level {
        process: u8,
        depth: u8,
        installer: u8,
        point: u8,
        taken: u32,
    },
    Undo {
        process: u8,
        depth: u8,
        inverse: Inverse,
    },
}

/// 1 or 0.
fn bit_of(b: bool) -> u8
    ensures { result ≡ bit b }
{
    if b { 1 } else { 0 }
}

/// A process of the queue.
fn queue_row(out: &mut Cells, at: usize, r: QueueRow) -> usize
    requires { at + 19 ≤ 2048 }
    ensures text { take result out.new ≡ take at out.old ++ queue_text r }
    ensures end { result ≤ at + 19 }
{
    let at = spaced_u8(out, at, r.process);
    let at = colon_u8(out, at, r.nice);
    colon_u32(out, at, r.slices)
}

/// The processes of the queue, front first.
fn queue_rows(out: &mut Cells, at: usize, rows: &[QueueRow]) -> usize
    requires { at + 19 * length rows.now ≤ 2048 }
    ensures text { take result out.new ≡ take at out.old ++ flat_map queue_text rows.now }
    ensures end { result ≤ at + 19 * length rows.now }
{
    let mut at = at;
    for r in rows {
        at = queue_row(out, at, *r);
    }
    at
}

/// A frame of the cache.
fn frame_row(out: &mut Cells, at: usize, r: FrameRow) -> usize
    requires { at + 27 ≤ 2048 }
    ensures text { take result out.new ≡ take at out.old ++ frame_text r }
    ensures end { result ≤ at + 27 }
{
    let at = spaced_u8(out, at, r.frame);
    let at = colon_u8(out, at, r.owner);
    let at = colon_u32(out, at, r.block);
    let at = colon_u8(out, at, bit_of(r.dirty));
    colon_u8(out, at, r.mark)
}

/// The frames in use, oldest first.
fn frame_rows(out: &mut Cells, at: usize, rows: &[FrameRow]) -> usize
    requires { at + 27 * length rows.now ≤ 2048 }
    ensures text { take result out.new ≡ take at out.old ++ flat_map frame_text rows.now }
    ensures end { result ≤ at + 27 * length rows.now }
{
    let mut at = at;
    for r in rows {
        at = frame_row(out, at, *r);
    }
    at
}

/// An open file.
fn open_file(out: &mut Cells, at: usize, o: OpenRow) -> usize
    requires { at + 34 ≤ 2048 }
    ensures text { take result out.new ≡ take at out.old ++ open_text o }
    ensures end { result ≤ at + 34 }
{
    let at = spaced_u32(out, at, o.next);
    let at = spaced_u8(out, at, o.window);
    let at = spaced_u8(out, at, bit_of(o.seq));
    let at = spaced_u32(out, at, o.start);
    spaced_u8(out, at, o.count)
}

/// A parameter, if there is one.
fn param(out: &mut Cells, at: usize, v: Option<u32>) -> usize
    requires { at + 11 ≤ 2048 }
    ensures text { take result out.new ≡ take at out.old ++ param_text v }
    ensures end { result ≤ at + 11 }
{
    match v {
        None => at,
        Some(v) => spaced_u32(out, at, v),
    }
}

/// What a call waits for, if it waits.
fn wait(out: &mut Cells, at: usize, w: Option<WaitRow>) -> usize
    requires { at + 36 ≤ 2048 }
    ensures text { take result out.new ≡ take at out.old ++ wait_text w }
    ensures end { result ≤ at + 36 }
{
    match w {
        None => at,
        Some(w) => {
            let at = add(out, at, b" waits ".as_slice());
            let at = object(out, at, w.object);
            let at = spaced_u8(out, at, w.holder);
            spaced_u32(out, at, w.count)
        }
    }
}

/// The innermost level, if there is one.
fn top(out: &mut Cells, at: usize, t: Option<TopRow>) -> usize
    requires { at + 18 ≤ 2048 }
    ensures text { take result out.new ≡ take at out.old ++ top_text t }
    ensures end { result ≤ at + 18 }
{
    match t {
        None => at,
        Some(t) => {
            let at = add(out, at, b" graft".as_slice());
            let at = spaced_u8(out, at, t.installer);
            let at = spaced_u8(out, at, t.point);
            spaced_u8(out, at, t.depth)
        }
    }
}

/// A record, with the value that it puts back; of a kept segment the graft alone, since its bytes
/// have no place in a line.
fn inverse(out: &mut Cells, at: usize, i: Inverse) -> usize
    requires { at + 23 ≤ 2048 }
    ensures text { take result out.new ≡ take at out.old ++ inverse_text i }
    ensures end { result ≤ at + 23 }
{
    match i {
        Inverse::Cell {
            process: q,
            cell: k,
            value: v,
        } => {
            let at = add(out, at, b"cell".as_slice());
            let at = spaced_u8(out, at, q);
            let at = spaced_u8(out, at, k);
            spaced_u32(out, at, v)
        }
        Inverse::Nice(q, v) => {
            let at = add(out, at, b"nice".as_slice());
            let at = spaced_u8(out, at, q);
            spaced_u8(out, at, v)
        }
        Inverse::Window {
            process: q,
            descriptor: fd,
            value: v,
        } => {
            let at = add(out, at, b"window".as_slice());
            let at = spaced_u8(out, at, q);
            let at = spaced_u8(out, at, fd);
            spaced_u8(out, at, v)
        }
        Inverse::Mark(f, v) => {
            let at = add(out, at, b"mark".as_slice());
            let at = spaced_u8(out, at, f);
            spaced_u8(out, at, v)
        }
        Inverse::Tune {
            kind,
            parameter: k,
            value: v,
        } => {
            let at = add(out, at, b"tune".as_slice());
            let at = spaced_u8(out, at, kind);
            let at = spaced_u8(out, at, k);
            spaced_u32(out, at, v)
        }
        Inverse::Segment(q, pt) => {
            let at = add(out, at, b"seg".as_slice());
            let at = spaced_u8(out, at, q);
            spaced_u8(out, at, pt)
        }
    }
}

/// The text of a row, without the number of its event.
fn row_bytes(row: &LentRow, out: &mut Cells, at: usize) -> usize
    requires room { at ≤ 15 }
    requires lists { FitsLine row.now }
    ensures text { take result out.new ≡ take at out.old ++ row_text (row_lent row.now) }
    ensures end { result < 2048 }
{
    match *row {
        LentRow::Clock(t) => {
            let at = add(out, at, b"clock".as_slice());
            spaced_u32(out, at, t)
        }
        LentRow::Queue(rows) => {
            let at = add(out, at, b"queue".as_slice());
            queue_rows(out, at, rows)
        }
        LentRow::Acct(p, amounts) => {
            let at = add(out, at, b"acct".as_slice());
            let at = spaced_u8(out, at, p);
            all_u64(out, at, amounts)
        }
        LentRow::Cells(p, cells) => {
            let at = add(out, at, b"cells".as_slice());
            let at = spaced_u8(out, at, p);
            all_u32(out, at, cells)
        }
        LentRow::OpenFile {
            process: p,
            descriptor: fd,
            name,
            row: o,
        } => {
            let at = add(out, at, b"open".as_slice());
            let at = spaced_u8(out, at, p);
            let at = spaced_u8(out, at, fd);
            let at = add(out, at, b" ".as_slice());
            let at = add(out, at, name);
            open_file(out, at, o)
        }
        LentRow::Graft {
            installer: q,
            point: pt,
            slot: image,
            limit,
            billed,
            amounts,
        } => {
            let at = add(out, at, b"graft".as_slice());
            let at = spaced_u8(out, at, q);
            let at = spaced_u8(out, at, pt);
            let at = spaced_u8(out, at, image);
            let at = spaced_u32(out, at, limit);
            let at = spaced_u8(out, at, bit_of(billed));
            all_u64(out, at, amounts)
        }
        LentRow::Pol {
            kind,
            policy: j,
            parameter: v,
        } => {
            let at = add(out, at, b"pol".as_slice());
            let at = spaced_u8(out, at, kind);
            let at = spaced_u8(out, at, j);
            param(out, at, v)
        }
        LentRow::Lru(rows) => {
            let at = add(out, at, b"lru".as_slice());
            frame_rows(out, at, rows)
        }
        LentRow::Lock(u, p) => {
            let at = add(out, at, b"lock".as_slice());
            let at = spaced_u8(out, at, u);
            spaced_u8(out, at, p)
        }
        LentRow::Call {
            process: p,
            number: m,
            wait: w,
            top: t,
        } => {
            let at = add(out, at, b"call".as_slice());
            let at = spaced_u8(out, at, p);
            let at = spaced_u32(out, at, m);
            let at = wait(out, at, w);
            top(out, at, t)
        }
        LentRow::Level {
            process: p,
            depth: d,
            installer: q,
            point: pt,
            taken,
        } => {
            let at = add(out, at, b"level".as_slice());
            let at = spaced_u8(out, at, p);
            let at = spaced_u8(out, at, d);
            let at = spaced_u8(out, at, q);
            let at = spaced_u8(out, at, pt);
            spaced_u32(out, at, taken)
        }
        LentRow::Undo {
            process: p,
            depth: d,
            inverse: i,
        } => {
            let at = add(out, at, b"undo".as_slice());
            let at = spaced_u8(out, at, p);
            let at = spaced_u8(out, at, d);
            let at = add(out, at, b" ".as_slice());
            inverse(out, at, i)
        }
    }
}

/// A row, lent.
fn lent(row: &RawRow) -> LentRow<'_>
    ensures value { row_lent result ≡ row.now }
    ensures lists { FitsLine result }
{
    match row {
        RawRow::Clock(t) => LentRow::Clock(*t),
        RawRow::Queue(rows) => LentRow::Queue(rows.as_slice()),
        RawRow::Acct(p, amounts) => LentRow::Acct(*p, amounts),
        RawRow::Cells(p, cells) => LentRow::Cells(*p, cells),
        RawRow::OpenFile {
            process: p,
            descriptor: fd,
            name,
            row: o,
        } => LentRow::OpenFile {
            process: *p,
            descriptor: *fd,
            name: name.as_slice(),
            row: *o,
        },
        RawRow::Graft {
            installer: q,
            point: pt,
            slot: image,
            limit,
            billed,
            amounts,
        } => {
            LentRow::Graft {
                installer: *q,
                point: *pt,
                slot: *image,
                limit: *limit,
                billed: *billed,
                amounts,
            }
        }
        RawRow::Pol {
            kind,
            policy: j,
            parameter: v,
        } => LentRow::Pol {
            kind: *kind,
            policy: *j,
            parameter: *v,
        },
        RawRow::Lru(rows) => LentRow::Lru(rows.as_slice()),
        RawRow::Lock(u, p) => LentRow::Lock(*u, *p),
        RawRow::Call {
            process: p,
            number: m,
            wait: w,
            top: t,
        } => LentRow::Call {
            process: *p,
            number: *m,
            wait: *w,
            top: *t,
        },
        RawRow::Level {
            process: p,
            depth: d,
            installer: q,
            point: pt,
            taken,
        } => LentRow::Level {
            process: *p,
            depth: *d,
            installer: *q,
            point: *pt,
            taken: *taken,
        },
        RawRow::Undo {
            process: p,
            depth: d,
            inverse: i,
        } => LentRow::Undo {
            process: *p,
            depth: *d,
            inverse: *i,
        },
    }
}

/// `out` becomes the line of a raw row, for event n, with its newline.
pub fn print_row(n: u32, row: &RawRow, out: &mut Text)
    ensures { out.new ≡ line (decimal n ++ codes " raw " ++ row_text row.now) }
{
    print_lent(n, &lent(row), out);
}

/// `out` becomes the line of a raw row that is lent, for event n, with its newline.
pub fn print_lent(n: u32, row: &LentRow, out: &mut Text)
    requires { FitsLine row.now }
    ensures { out.new ≡ line (decimal n ++ codes " raw " ++ row_text (row_lent row.now)) }
{
    let at = number_u32(&mut out.cells, 0, n);
    let at = add(&mut out.cells, at, b" raw ".as_slice());
    let at = row_bytes(row, &mut out.cells, at);
    out.count = add(&mut out.cells, at, b"\n".as_slice());
}
