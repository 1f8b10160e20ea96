//! The outcome of a step of a connection.

ghost use Rattle.std.specs.Prelude.{◌≡◌};
ghost use Rattle.std.specs.IoError.{error_kind};

use std::io;
use std::io::ErrorKind;

/// The outcome of a step.
#[derive(Clone, Copy, Debug, PartialEq, Eq)]
pub(crate) enum Step {
    /// More may be possible without waiting.
    More,
    /// The next step has to wait until the system reports the socket.
    Wait,
    /// The connection has to be closed.
    Over,
}

impl Step {
    ghost use Rattle.click_http.specs.Steps.{step_after};

    /// Returns the outcome of a step whose read or write failed.
    pub(crate) fn after(fault: &io::Error) -> Step
        ensures { result ≡ step_after (error_kind fault.now) }
    {
        match fault.kind() {
            ErrorKind::WouldBlock => Step::Wait,
            ErrorKind::Interrupted => Step::More,
            _ => Step::Over,
        }
    }
}
