//! The seal's function by a vector from outside, and the table of images.

use graft_loader::{Images, Instr, Keys, Op, hmac, load, seal_under};

const KEYS: Keys = Keys {
    first: [7; 32],
    second: None,
};

#[test]
fn hmac_has_the_value_of_the_standard(rt: HostRuntime) {
    // RFC 4231, the first test case.
    let wanted = [
        0xb0, 0x34, 0x4c, 0x61, 0xd8, 0xdb, 0x38, 0x53, 0x5c, 0xa8, 0xaf, 0xce, 0xaf, 0x0b, 0xf1,
        0x2b, 0x88, 0x1d, 0xc2, 0x00, 0xc9, 0x83, 0x3d, 0xa7, 0x26, 0xe9, 0x37, 0x6c, 0x2e, 0x32,
        0xcf, 0xf7,
    ];
    assert!(rt; hmac(&[0x0b; 20], b"Hi There") == wanted);
}

#[test]
fn a_sealed_image_loads_into_its_slot(rt: HostRuntime) {
    let alloc = rt.alloc();
    let ret = Instr {
        op: Op::Ret,
        a: 0,
        b: 0,
        c: 0,
        imm: 0,
    };
    let bytes = seal_under(alloc, &KEYS, true, &[ret], b"a").expect(&rt, "memory");
    let image = load(alloc, &KEYS, bytes.as_slice()).expect(&rt, "an image");
    assert!(rt; image.keep() && image.body() == b"a".as_slice());
    let mut images = Images::new(alloc).expect(&rt, "memory");
    images.add(5, image);
    assert_eq!(rt; images.mask(), 0x20);
    assert!(rt; images.get(5).is_some() && images.get(4).is_none());
}
