//! The phase of a connection with its time limit.

ghost use Rattle.std.specs.Prelude.{◌≡◌, ◌↔◌, IsTrue};

use crate::phase::Phase;
use std::time::Instant;

/// A phase, and the time from which its limit counts.
#[derive(Clone, Copy)]
pub(crate) struct Timer {
    pub(crate) phase: Phase,
    /// The time when the phase began, or when the peer last took a part of the output.
    since: Instant,
}

/// What the check of a time limit asks for.
#[derive(Clone, Copy, Debug, PartialEq, Eq)]
pub(crate) enum Verdict {
    /// The connection continues.
    Keep,
    /// The connection is closed.
    Close,
    /// The request is refused with status 408.
    Refuse,
}

impl Timer {
    ghost use Rattle.click_http.specs.Phases.{after_turn, begins, IsInTime, NotesBytes, NotesCall};
    ghost use Rattle.click_http.specs.Waiting.{age};

    /// Returns a phase that begins now.
    pub(crate) fn begin(phase: Phase, now: Instant) -> Timer
        ensures { result ≡ begins phase now }
    {
        Timer { phase, since: now }
    }

    /// Returns the nanoseconds since the phase began.
    pub(crate) fn age(&self, now: Instant) -> u128
        ensures { result ≡ age self.now now }
    {
        let age = now.duration_since(self.since);
        age.as_nanos()
    }

    /// Returns whether the phase is within its limit.
    pub(crate) fn is_in_time(&self, now: Instant) -> bool
        ensures { IsTrue result ↔ IsInTime self.now now }
    {
        now.duration_since(self.since).as_nanos() < self.phase.limit().as_nanos()
    }

    /// Records that bytes were read.
    pub(crate) fn note_bytes(&mut self, now: Instant)
        ensures { NotesBytes self.old self.new now }
    {
        if self.phase == Phase::Idle {
            *self = Timer::begin(Phase::Begun, now);
        }
    }

    /// Records that the service was called, if there was a request to answer.
    pub(crate) fn note_called(&mut self, has_answer: bool, now: Instant)
        ensures { NotesCall self.old self.new has_answer now }
    {
        if has_answer {
            *self = Timer::begin(Phase::Sending, now);
        } else if self.phase == Phase::Sending {
            *self = Timer::begin(Phase::Idle, now);
        }
    }

    /// Records that a turn ended, which began at `begun`.
    ///
    /// A limit that counts from the beginning of the turn now counts from its end, because the
    /// service may take a while to make a response.
    pub(crate) fn note_turn(&mut self, begun: Instant, ended: Instant)
        ensures { self.new ≡ after_turn self.old begun ended }
    {
        if self.age(begun) == 0 {
            *self = Timer::begin(self.phase, ended);
        }
    }
}
