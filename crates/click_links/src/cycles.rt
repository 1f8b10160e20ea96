//! Cycles of the forwarder thread: what follows a sweep, and when the thread ends.
//!
//! In a cycle the thread looks whether the run is over, and then sweeps. A cycle that found the run
//! over is a final one.

ghost use Rattle.std.specs.Prelude.{◌≡◌, ◌-◌, MatchBool};
ghost use Rattle.click_links.specs.Endings.{IsOver, IsNotOver, Finds, follows, count_if};

use crate::sharing::SharedSweep;
use click_desk::DeskFault;
use std::sync::atomic::{AtomicBool, Ordering};

/// The maximum number of final cycles.
///
/// Their sweeps suffice to empty a feed of 4,096 places twice. Without a maximum, a configuration
/// that emits packets of its own would keep the forwarder from ending.
pub(crate) const MAX_FINAL_CYCLES: u32 = 256;

/// A flag that threads share.
///
/// proof: no contract distinguishes two atomics. `is_over` is proved for flags of any type, so it
/// cannot use one flag instead of another.
pub(crate) trait Flag {
    ghost use Rattle.std.specs.Prelude.{Bool};

    /// What the flag may show when it is read.
    ghost may_show: { Self → Bool → Type 0 };

    /// Returns what the flag shows.
    fn is_set(&self) -> bool
        ensures { may_show self.now result };
}

impl Flag for AtomicBool {
    ghost may_show = { λ _ _. Unit {0} };

    fn is_set(&self) -> bool {
        self.load(Ordering::SeqCst)
    }
}

/// Returns whether a run is over, except for what is left to send. `stop`: a stop was requested.
/// `ended`: all receivers have ended.
pub(crate) fn is_over<F: Flag>(stop: &F, ended: &F) -> bool
    ensures { MatchBool result (IsOver F.may_show stop.now ended.now) (IsNotOver F.may_show stop.now ended.now) }
{
    stop.is_set() && ended.is_set()
}

/// What the forwarder thread found when it wanted to sweep.
#[derive(Clone, Copy, Debug, PartialEq, Eq)]
pub(crate) enum Finding {
    /// A receiver holds the forwarder, and sweeps.
    Held,
    /// The sweep found work, or another thread has work to hand over.
    Work,
    /// The sweep found no work, and no other thread has work to hand over.
    NoWork,
    /// The sweep failed with out of memory.
    NoMemory,
    /// The sweep failed because the history is full.
    HistoryFull,
}

/// What the forwarder thread does after a sweep.
#[derive(Clone, Copy, Debug, PartialEq, Eq)]
pub(crate) enum AfterSweep {
    Sweep,
    Sleep,
    End,
}

/// Returns what the forwarder thread found. `made`: its sweep, or `None` if a receiver holds the
/// forwarder.
pub(crate) fn finding_of(made: &Option<SharedSweep>) -> Finding
    ensures { Finds made.now result }
{
    match made {
        None => Finding::Held,
        Some(made) => match &made.swept {
            Err(DeskFault::HistoryFull) => Finding::HistoryFull,
            Err(DeskFault::NoMemory) => Finding::NoMemory,
            Ok(_) if made.is_finished() => Finding::NoWork,
            Ok(_) => Finding::Work,
        },
    }
}

impl AfterSweep {
    /// Returns what follows a sweep. `over`: the run was over before the sweep, except for what is
    /// left to send. `spent`: no further final cycle is allowed.
    pub(crate) fn after(finding: Finding, over: bool, spent: bool) -> AfterSweep
        ensures { result ≡ follows finding over spent }
    {
        match finding {
            Finding::HistoryFull => AfterSweep::End,
            Finding::Held => AfterSweep::Sleep,
            Finding::Work if !spent => AfterSweep::Sweep,
            _ if over => AfterSweep::End,
            _ => AfterSweep::Sleep,
        }
    }
}

/// Returns the number of final cycles that are allowed after a cycle, if `left` were allowed before
/// it. `over`: the cycle is a final one.
pub(crate) fn left_after(left: u32, over: bool) -> u32
    ensures { result ≡ left - count_if over }
{
    if over { left.saturating_sub(1) } else { left }
}
