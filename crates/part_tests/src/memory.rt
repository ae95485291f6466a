//! Each part that takes memory, made with ample memory and used once.

ghost use Rattle.std.specs.Prelude.{◌≡◌, ◌<◌};

use kernel_data::Inverse;
use lock_table::{Holder, LockTable, Mode, Object};
use ram_space::{Ram, SEGMENT_BYTES, Segments};
use undo_calls::UndoStack;

#[test]
fn words_have_their_lowest_byte_first(rt: HostRuntime) {
    let mut ram = Ram::new(rt.alloc()).expect(&rt, "memory");
    assert_eq!(rt; ram.word(524_284), 0);
    ram.put_word(524_284, 0x1122_3344);
    assert_eq!(rt; ram.byte(524_287), 0x11);
}

#[test]
fn a_segment_is_there_once_it_is_put(rt: HostRuntime) {
    let mut segments = Segments::new(rt.alloc(), 3).expect(&rt, "memory");
    segments.put(2, Some(&[7; SEGMENT_BYTES]));
    assert!(rt; segments.get(1).is_none() && segments.get(2).is_some());
}

#[test]
fn the_newest_record_is_forgotten_first(rt: HostRuntime) {
    let mut stack = UndoStack::new(rt.alloc()).expect(&rt, "memory");
    stack.begin_level();
    assert!(rt; stack.push(Inverse::Nice(1, 20)).is_ok());
    assert!(rt; stack.push(Inverse::Nice(1, 30)).is_ok());
    stack.forget_newest();
    assert!(rt; matches!(stack.list(), [Inverse::Nice(1, 20)]));
}

#[test]
fn holds_go_outward_and_end(rt: HostRuntime) {
    let mut table = LockTable::new(rt.alloc()).expect(&rt, "memory");
    let (outer, inner) = (
        Holder {
            process: 3,
            level: 0,
        },
        Holder {
            process: 3,
            level: 1,
        },
    );
    table.touch(inner, Object::Queue, Mode::Exclusive);
    table.merge_level(inner);
    assert_eq!(rt; table.ask(2, Object::Queue, Mode::Shared), Some(3));
    assert_eq!(rt; table.level_of(3, Object::Queue, Mode::Shared), Some(0));
    table.release_from(outer);
    assert!(rt; table.is_free());
}
