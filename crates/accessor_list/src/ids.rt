//! The ids of the callables, by their names.

pub const CELL_GET: u32 = 0;

pub const CELL_SET: u32 = 1;

pub const NICE_GET: u32 = 2;

pub const NICE_SET: u32 = 3;

pub const WINDOW_GET: u32 = 4;

pub const WINDOW_SET: u32 = 5;

pub const FRAMES_MINE: u32 = 6;

pub const FRAME_AT: u32 = 7;

pub const FRAME_BLOCK: u32 = 8;

pub const FRAME_MARK: u32 = 9;

pub const TUNE_GET: u32 = 10;

pub const TUNE_SET: u32 = 11;

pub const TAKE_LOCK: u32 = 12;

pub const ASK_RA: u32 = 13;

pub const ASK_VICTIM: u32 = 14;

pub const ASK_SCHED: u32 = 15;
