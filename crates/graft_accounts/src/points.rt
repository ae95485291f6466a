//! `GraftPoint`.

ghost use Rattle.std.specs.Prelude.{◌≡◌, ◌+◌, ◌*◌, ◌<◌};

/// A point of a process, at which a graft of that process may stand.
#[derive(Clone, Copy)]
pub struct GraftPoint {
    /// The process.
    pub process: u8,
    /// The point.
    pub point: u8,
    pub ghost is_process: { process < 16 },
    pub ghost is_point: { point < 16 },
}

impl GraftPoint {
    /// Its place among the points of all processes.
    pub fn place(self) -> usize
        ensures value { result ≡ 16 * self.process + self.point }
        ensures below { result < 256 }
    {
        16 * self.process as usize + self.point as usize
    }
}
