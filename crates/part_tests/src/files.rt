//! One way through a real file: blocks into it and out of it, then the file as a stream into
//! another one.

use mem_disk::{Disk, Sink, Source};
use real_edge::{FileDisk, StreamSink, StreamSource};
use std::fs;
use std::fs::{File, OpenOptions};
use std::test::Fail;

const FOLDER: &str = "store_tests_files";

const DISK: &str = "store_tests_files/disk";

const COPY: &str = "store_tests_files/copy";

/// The first byte of block b, if there is one and it can be read.
fn first_byte(disk: &mut FileDisk, b: u32) -> Option<u8> {
    if b >= disk.size() || disk.read_block(b).is_err() {
        return None;
    }
    disk.block().first().copied()
}

/// Writes block b, if there is one. Whether that went well.
fn writes(disk: &mut FileDisk, b: u32, from: &[u8; 512]) -> bool {
    b < disk.size() && disk.write_block(b, from).is_ok()
}

/// As many bytes as the file has.
fn front(bytes: &[u8; 2048]) -> &[u8] {
    &bytes[..1500]
}

#[test]
fn a_file_is_a_disk_a_source_and_a_sink(rt: HostRuntime) -> Result<(), Fail> {
    let _ = fs::remove_dir_all(&rt, FOLDER);
    fs::create_dir(&rt, FOLDER)?;
    fs::write(&rt, DISK, &[3u8; 1500])?;
    let file = OpenOptions::new().read(true).write(true).open(&rt, DISK)?;
    let mut disk = FileDisk::new(file, 3);
    assert!(rt; writes(&mut disk, 1, &[5; 512]));
    assert_eq!(rt; first_byte(&mut disk, 0), Some(3));
    assert_eq!(rt; first_byte(&mut disk, 1), Some(5));
    assert_eq!(rt; first_byte(&mut disk, 2), None, "a part of a block is none");
    let mut closed = FileDisk::closed();
    assert_eq!(rt; first_byte(&mut closed, 0), None);
    assert!(rt; !writes(&mut closed, 0, &[5; 512]));

    let mut source = StreamSource::new(File::open(&rt, DISK)?);
    let mut sink = StreamSink::new(File::create(&rt, COPY)?);
    let mut bytes = [0u8; 2048];
    assert_eq!(rt; source.read(&mut bytes).ok(), Some(1500));
    assert_eq!(rt; sink.write(front(&bytes)).ok(), Some(1500));
    assert_eq!(rt; source.read(&mut bytes).ok(), Some(0));
    assert!(rt; bytes[511] == 3 && bytes[512] == 5 && bytes[1023] == 5 && bytes[1024] == 3);
    assert_eq!(rt; fs::read(&rt, COPY)?.as_slice(), front(&bytes));
    let mut full = StreamSink::new(File::open(&rt, COPY)?);
    assert!(rt;
        full.write(b"no").is_err(),
        "the file is open for reading alone"
    );
    drop((disk, closed, source, sink, full));
    fs::remove_dir_all(&rt, FOLDER)?;
    Ok(())
}
