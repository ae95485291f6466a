//! A file, opened as a disk.

use crate::file_disk::FileDisk;
use std::fs::{File, OpenOptions};
use std::io;

/// The most blocks of a disk that are used.
const BLOCKS: u64 = 4096;

/// The bytes of a block.
const BLOCK_BYTES: u64 = 512;

/// The whole blocks of a file as a disk; a closed disk where there is no such file or it has none.
pub fn open_disk(rt: &HostRuntime, path: &str) -> FileDisk {
    open_behind_streams(rt, path).unwrap_or(FileDisk::closed())
}

/// Opens the disk. A new file takes the lowest descriptor that is free, so where a standard stream
/// is closed the disk would stand in its place, and be read as the script or written as the output.
/// Therefore three others are opened first, which take such places, and let go of behind it.
fn open_behind_streams(rt: &HostRuntime, path: &str) -> io::Result<FileDisk> {
    let _input = open_null(rt)?;
    let _output = open_null(rt)?;
    let _errors = open_null(rt)?;
    open_blocks(rt, path)
}

/// A file that holds nothing.
fn open_null(rt: &HostRuntime) -> io::Result<File> {
    OpenOptions::new().read(true).open(rt, "/dev/null")
}

/// The whole blocks of a file as a disk.
fn open_blocks(rt: &HostRuntime, path: &str) -> io::Result<FileDisk> {
    let file = OpenOptions::new().read(true).write(true).open(rt, path)?;
    let blocks = file.metadata()?.len() / BLOCK_BYTES;
    Ok(match u32::try_from(blocks.min(BLOCKS)) {
        Ok(size) if size >= 1 => FileDisk::new(file, size),
        _ => FileDisk::closed(),
    })
}
