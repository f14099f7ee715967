ghost use Rattle.std.specs.Prelude.{◌≡◌, ◌≤◌, length};
ghost use Rattle.service_watch.specs.Line.{cut_name};

/// For what a connection was cut off.
#[derive(Clone, Copy, Debug, PartialEq, Eq)]
pub enum Cut {
    /// Its client neither sent nor took a byte for too long.
    Idle,
    /// Its message took too long.
    Message,
    /// It went too slowly.
    Rate,
    /// All connections together held too many bytes, and this one most.
    Memory,
    /// A newer request for the same upload came.
    Newer,
    /// A write failed, or there was no memory for its buffers.
    Failed,
    /// The service was stopped.
    Stopped,
}

impl Cut {
    /// Its word in a line of the log and in a label: at most 7 bytes.
    pub fn name(self) -> &'static [u8]
        ensures name { result.now ≡ cut_name self }
        ensures short { length result.now ≤ 7 }
    {
        match self {
            Cut::Idle => b"idle",
            Cut::Message => b"message",
            Cut::Rate => b"rate",
            Cut::Memory => b"memory",
            Cut::Newer => b"newer",
            Cut::Failed => b"failed",
            Cut::Stopped => b"stopped",
        }
    }
}
