//! Whether a device has failed.

ghost use Rattle.std.specs.Prelude.{◌≡◌};
ghost use Rattle.vino_base.specs.Streams.{health_after};

/// Whether a device has failed, and whether it was called again behind that.
#[derive(Clone, Copy, Debug, PartialEq, Eq)]
pub enum Health {
    /// No call has failed.
    Sound,
    /// The last call failed, the first to do so.
    Broken,
    /// A call came behind one that failed.
    CalledAgain,
}

impl Health {
    /// The health after one more call, which failed or not.
    pub fn after(self, failed: bool) -> Health
        ensures { result ≡ health_after failed self }
    {
        match (failed, self) {
            (false, Health::Sound) => Health::Sound,
            (true, Health::Sound) => Health::Broken,
            _ => Health::CalledAgain,
        }
    }
}
