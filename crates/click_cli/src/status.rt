//! The statuses that a program ends with.

ghost use Rattle.std.specs.Prelude.{◌≡◌};
ghost use Rattle.click_cli.specs.Statuses.{code};

/// How a program ended, as its caller sees it.
#[derive(Clone, Copy, Debug, PartialEq, Eq)]
pub enum Status {
    Good,
    /// The configuration has a fault, or the data that is read in addition to it has one.
    Faulty,
    /// The arguments are wrong, or a line of the input is not one that is allowed there.
    Wrong,
    NoMemory,
    /// A desk refused a call. No run of a program leads to this status.
    Refused,
    DeviceFailed,
}

impl Status {
    /// Returns the number that the caller sees.
    pub fn code(self) -> u8
        ensures { result ≡ code self }
    {
        match self {
            Status::Good => 0,
            Status::Faulty => 1,
            Status::Wrong => 2,
            Status::NoMemory => 3,
            Status::Refused => 3,
            Status::DeviceFailed => 4,
        }
    }
}
