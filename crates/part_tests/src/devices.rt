//! Disks and streams in memory, which fail at the calls that were chosen.

use mem_disk::{Disk, DiskLog, MemDisk, MemSink, MemSource, Sink, Source};
use std::test::Fail;

#[test]
fn chosen_calls_of_a_disk_fail_and_change_nothing(rt: HostRuntime) -> Result<(), Fail> {
    let alloc = rt.alloc();
    let mut disk = MemDisk::sample(alloc, Vec::from_slice(alloc, &[1, 3])?)?;
    let mut log = DiskLog::new();
    assert_eq!(rt; disk.size(), 64);
    assert!(rt; log.read(&mut disk, 2).is_err());
    // A byte of the sample disk is 31 times its block and its place.
    assert!(rt; log.read(&mut disk, 2).is_ok());
    assert_eq!(rt; disk.block()[5], 67);
    assert!(rt; log.write(&mut disk, 2, &[7; 512]).is_err());
    assert!(rt; log.read(&mut disk, 2).is_ok());
    assert_eq!(rt; disk.block()[5], 67);
    assert!(rt; log.write(&mut disk, 2, &[7; 512]).is_ok());
    assert!(rt; log.read(&mut disk, 2).is_ok());
    assert_eq!(rt; disk.block()[5], 7);
    assert!(rt; log.calls() == [true, false, true, false, false, false].as_slice());
    Ok(())
}

#[test]
fn streams_in_memory_fail_where_they_are_told(rt: HostRuntime) -> Result<(), Fail> {
    let alloc = rt.alloc();
    let bytes = Vec::from_slice(alloc, b"abcde")?;
    let mut source = MemSource::new(bytes, Vec::from_slice(alloc, &[2])?);
    let mut sink = MemSink::new(alloc, Vec::from_slice(alloc, &[1])?);
    let mut buf = [0u8; 3];
    assert_eq!(rt; source.read(&mut buf).ok(), Some(3));
    assert!(rt; source.read(&mut buf).is_err());
    assert_eq!(rt; source.read(&mut buf).ok(), Some(2));
    assert!(rt; &buf == b"dec");
    assert!(rt; sink.write(b"no").is_err());
    assert_eq!(rt; sink.write(b"yes").ok(), Some(3));
    assert!(rt; sink.bytes() == b"yes".as_slice());
    Ok(())
}
