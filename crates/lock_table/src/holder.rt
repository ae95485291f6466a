//! Who holds: a level, and a level of a process's call.

ghost use Rattle.std.specs.Prelude.{◌<◌};

/// A level of a call, counted from the outermost.
#[derive(Clone, Copy)]
pub(crate) struct Depth {
    pub(crate) level: u8,
    ghost below: { level < 4 },
}

/// A level of a process's call, counted from the outermost.
#[derive(Clone, Copy)]
pub struct Holder {
    /// The process.
    pub process: u8,
    /// The level.
    pub level: u8,
    pub ghost is_process: { process < 16 },
    pub ghost is_level: { level < 4 },
}
