//! Lines of notes and rows with the greatest numbers that their types have.

use kernel_data::{BareNote, Cause, FrameRow, FrameRows, Object, RawRow, Refusal};
use line_text::{Text, print_note, print_row};
use std::process::Abort;

const MOST: u32 = 4294967295;

fn prints(rt: &impl Abort, note: BareNote, want: &str) {
    let mut out = Text::new();
    print_note(&note, &[], &mut out);
    assert_eq!(rt; out.as_slice(), want.as_bytes(), "{want}");
}

#[test]
fn prints_the_greatest_numbers(rt: HostRuntime) {
    let short = Refusal::Short(18446744073709551615);
    prints(
        &rt,
        BareNote::Refused(MOST, short),
        "4294967295 E12 18446744073709551615\n",
    );
    let late = Refusal::TimedOut(Object::OpenFile(255, 255), 255);
    prints(
        &rt,
        BareNote::Refused(MOST, late),
        "4294967295 E17 Open(255,255) 255\n",
    );
    let cause = Cause::TimeOut(Object::Graft(255, 255), 255);
    prints(
        &rt,
        BareNote::Dropped {
            number: MOST,
            installer: 255,
            point: 255,
            cause,
        },
        "4294967295 drop 255 255 C13 Graft(255,255) 255\n",
    );
}

#[test]
fn prints_the_longest_row(rt: HostRuntime) {
    let row = FrameRow {
        frame: 255,
        owner: 255,
        block: MOST,
        dirty: true,
        mark: 255,
    };
    let mut frames = FrameRows::new();
    for _ in 0..64 {
        assert!(rt; frames.push(row));
    }
    assert!(rt; !frames.push(row));
    let mut out = Text::new();
    print_row(MOST, &RawRow::Lru(frames), &mut out);
    assert_eq!(rt; out.as_slice().len(), 1619);
    assert!(rt; out.as_slice().ends_with(b" 255:255:4294967295:1:255\n"));
}
