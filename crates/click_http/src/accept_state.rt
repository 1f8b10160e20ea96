//! Whether the listener is asked for connections.

ghost use Rattle.std.specs.Prelude.{◌≡◌, ◌↔◌, IsTrue};
ghost use Rattle.std.specs.IoError.{error_kind};

use crate::settings::tick;
use std::io;
use std::io::ErrorKind;
use std::time::Instant;

#[derive(Clone, Copy, Debug, PartialEq, Eq)]
pub(crate) enum AcceptState {
    /// Connections may be waiting.
    Open,
    /// No connection waits, until the system reports one.
    Quiet,
    /// The system failed to return a connection at this time, for example because it is short of
    /// descriptors. It reports nothing new in this case, so it is asked again after one tick.
    Shut(Instant),
}

impl AcceptState {
    ghost use Rattle.click_http.specs.Accepting.{state_after, state_at};

    /// Returns the state after the system returned no connection.
    pub(crate) fn after(fault: &io::Error, now: Instant) -> AcceptState
        ensures { result ≡ state_after (error_kind fault.now) now }
    {
        match fault.kind() {
            ErrorKind::WouldBlock => AcceptState::Quiet,
            ErrorKind::Interrupted | ErrorKind::ConnectionAborted => AcceptState::Open,
            _ => AcceptState::Shut(now),
        }
    }

    /// Returns the state at a later time.
    pub(crate) fn at(self, now: Instant) -> AcceptState
        ensures { result ≡ state_at self now }
    {
        let AcceptState::Shut(since) = self else {
            return self;
        };
        if now.duration_since(since).as_nanos() < tick().as_nanos() {
            self
        } else {
            AcceptState::Open
        }
    }

    /// Returns whether the system is asked for connections.
    pub(crate) fn is_open(self) -> bool
        ensures { IsTrue result ↔ (self ≡ AcceptState.Open) }
    {
        self == AcceptState::Open
    }
}
