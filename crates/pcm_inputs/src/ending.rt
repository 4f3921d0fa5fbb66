//! How a call ends early.

ghost use Rattle.std.specs.Prelude.{◌≡◌};

/// What ended a call early.
#[derive(Clone, Copy, Debug, PartialEq, Eq)]
pub enum Ending {
    /// The words match no form.
    Usage,
    /// A file can't be read.
    CannotRead,
    /// The configuration is refused.
    BadConfig,
    /// The script is refused.
    BadScript,
    /// A wave is refused.
    BadWave,
    /// A file or a line can't be written.
    CannotWrite,
    /// Memory ran out, before anything was written.
    NoMemory,
}

impl Ending {
    ghost use Rattle.pcm_inputs.specs.Faults.{ending_status};

    /// The status that the program ends with.
    pub fn status(self) -> u8
        ensures { result ≡ ending_status self }
    {
        match self {
            Ending::Usage => 2,
            Ending::CannotRead => 3,
            Ending::BadConfig => 4,
            Ending::BadScript => 5,
            Ending::BadWave => 6,
            Ending::CannotWrite => 7,
            Ending::NoMemory => 8,
        }
    }
}
