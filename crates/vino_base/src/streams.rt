//! Streams of bytes.

ghost use Rattle.std.specs.Prelude.{◌≡◌, ◌<◌, ◌≤◌, IfOk, length};
ghost use Rattle.std.specs.Result.{is_err};
ghost use Rattle.std.specs.Io.KnownBytes.{ReadConsumes, WriteAppends};
ghost use Rattle.vino_base.specs.Streams.{SourceSeen, SinkSeen, IsUsed};

/// A call of a device failed, and the device counted a fault.
#[derive(Clone, Copy, Debug)]
pub struct Failed;

/// Where bytes come from.
pub trait Source {
    /// What contracts see of it: its faults, up to 2^64 - 1, and, where it tells them, the bytes that
    /// are left and whether a read has failed.
    ghost seen: { Self → SourceSeen };

    /// Puts the next bytes at the front of `buf` and says how many they are: 0 with a buffer that
    /// isn't empty only at the end. A failed read takes nothing.
    fn read(&mut self, buf: &mut [u8]) -> Result<usize, Failed>
        ensures bound { IfOk result (λ n. n ≤ length buf.old) }
        ensures contents { ReadConsumes (seen self.old).rest (seen self.new).rest result buf.new }
        ensures used { IsUsed (seen self.old).device (seen self.new).device (is_err result) };
}

/// Where bytes go.
pub trait Sink {
    /// What contracts see of it: its faults, up to 2^64 - 1, and, where it tells them, the bytes that
    /// were taken and whether a write has failed.
    ghost seen: { Self → SinkSeen };

    /// Takes bytes from the front of `buf` and says how many: at least one of a buffer that isn't
    /// empty. A failed write takes nothing.
    fn write(&mut self, buf: &[u8]) -> Result<usize, Failed>
        ensures bound { IfOk result (λ n. n ≤ length buf.now) }
        ensures moves { 0 < length buf.now → IfOk result (λ n. 0 < n) }
        ensures contents { WriteAppends (seen self.old).got (seen self.new).got result buf.now }
        ensures used { IsUsed (seen self.old).device (seen self.new).device (is_err result) };
}
