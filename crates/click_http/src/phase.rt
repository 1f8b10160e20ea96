//! The phases of a connection.

ghost use Rattle.std.specs.Prelude.{◌≡◌, ◌*◌};
ghost use Rattle.std.specs.Duration.{as_nanos};

use std::time::Duration;

#[derive(Clone, Copy, Debug, PartialEq, Eq)]
pub(crate) enum Phase {
    /// It waits for a request.
    Idle,
    /// It waits for the rest of a request, whose first bytes have come.
    Begun,
    /// It waits for the peer to take the output.
    Sending,
    /// It waits for the peer to close too. All output was sent, and what the peer still sends is
    /// dropped.
    HalfClosed,
}

impl Phase {
    ghost use Rattle.click_http.specs.Phases.{limit_secs};
    ghost use Rattle.click_http.specs.Waiting.{is_idle};

    /// Returns the maximum duration of the phase. In `Sending` it starts again with each part that
    /// the peer takes.
    pub(crate) fn limit(self) -> Duration
        ensures { as_nanos result ≡ limit_secs self * 1_000_000_000 }
    {
        match self {
            Phase::Idle => Duration::from_secs(75),
            Phase::Begun | Phase::Sending => Duration::from_secs(10),
            Phase::HalfClosed => Duration::from_secs(2),
        }
    }

    /// Returns whether the connection waits for a request.
    pub(crate) fn is_idle(self) -> bool
        ensures { result ≡ is_idle self }
    {
        matches!(self, Phase::Idle)
    }
}
