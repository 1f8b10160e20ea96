//! How the threads of a run share the forwarder: which of them sweeps, and when.
//!
//! The forwarder (a seat and the sending side of all links) is behind a lock that no thread waits
//! for. The forwarder thread sweeps as long as there is work, and sleeps otherwise. A receiver
//! wakes it after a packet, or sweeps itself if packets come far apart.

ghost use Rattle.std.specs.Prelude.{◌≡◌, ◌↔◌, IsTrue, Some};
ghost use Rattle.click_links.specs.Endings.{LeavesNoWork};
ghost use Rattle.click_links.specs.Turns.{names_of};

use crate::cycles::is_over;
use crate::device::Device;
use crate::forwarder::{Forwarder, RunStart};
use crate::link::{Inbound, Outbound};
use crate::pause::Pause;
use crate::sweeping::{SweepResult, sweep};
use click_desk::{Desk, DeskFault};
use click_router::Handlers;
use std::alloc::Global;
use std::sync::atomic::{AtomicBool, Ordering};
use std::sync::{Mutex, MutexGuard, Wait};
use std::thread::Parker;

/// The maximum number of sweeps that a receiver makes for one packet, after the first one.
const MAX_EXTRA_SWEEPS: u32 = 4;

/// The number of isolated packets in a row after which a receiver sweeps itself.
const ISOLATED_BEFORE_INLINE: u32 = 8;

/// The state that the threads of a run share.
#[derive(Drop)]
pub(crate) struct Shared<T, S: Outbound, B: RunStart> {
    forwarder: Mutex<Forwarder<T, S, B>>,
    /// Whether a thread found the forwarder locked since it was locked. The holder reads this after
    /// it has unlocked the forwarder, and then sweeps again.
    contended: AtomicBool,
    /// Whether the forwarder thread sleeps, or is about to, and was not woken since.
    asleep: AtomicBool,
    /// Whether all receivers have ended.
    ended: AtomicBool,
    /// What the forwarder thread sleeps at.
    wake: Parker,
}

impl<T, S: Outbound, B: RunStart> Shared<T, S, B> {
    pub(crate) fn new(forwarder: Forwarder<T, S, B>) -> Shared<T, S, B> {
        Shared {
            forwarder: Mutex::new(forwarder),
            contended: AtomicBool::new(false),
            asleep: AtomicBool::new(false),
            ended: AtomicBool::new(false),
            wake: Parker::new(),
        }
    }

    /// Returns the forwarder once all threads have ended.
    pub(crate) fn into_forwarder(self) -> Forwarder<T, S, B> {
        let Shared {
            forwarder,
            contended: _,
            asleep: _,
            ended: _,
            wake: _,
        } = self;
        forwarder.into_inner()
    }

    /// Returns whether a stop was requested and all receivers have ended.
    pub(crate) fn are_over(&self, stop: &AtomicBool) -> bool {
        is_over(stop, &self.ended)
    }

    /// Records that all receivers have ended, and wakes the forwarder thread.
    pub(crate) fn end(&self) {
        self.ended.store(true, Ordering::SeqCst);
        self.wake();
    }

    /// Wakes the forwarder thread. Until it sleeps again, receivers leave all work to it.
    fn wake(&self) {
        self.asleep.store(false, Ordering::SeqCst);
        self.wake.unpark();
    }

    /// Locks the forwarder. Returns `None` if another thread holds it.
    ///
    /// In that case `contended` is set, and the lock is tried once more. Either the holder has not yet
    /// read `contended`, and then does the work, or it has unlocked the forwarder before this second
    /// attempt. So no work is left undone.
    fn take(&self) -> Option<MutexGuard<'_, Forwarder<T, S, B>>> {
        if let Some(taken) = self.try_take() {
            return Some(taken);
        }
        self.contended.store(true, Ordering::SeqCst);
        self.try_take()
    }

    /// Locks the forwarder if it is free, and clears `contended`.
    fn try_take(&self) -> Option<MutexGuard<'_, Forwarder<T, S, B>>> {
        let taken = self.forwarder.try_lock()?;
        self.contended.store(false, Ordering::SeqCst);
        Some(taken)
    }
}

/// The result of a sweep, and whether another thread found the forwarder locked meanwhile.
#[derive(Drop)]
pub(crate) struct SharedSweep {
    pub(crate) swept: Result<SweepResult, DeskFault>,
    pub(crate) contended: bool,
}

impl SharedSweep {
    /// Returns whether the sweep found no work, and no other thread has work to hand over.
    pub(crate) fn is_finished(&self) -> bool
        ensures { IsTrue result ↔ LeavesNoWork self.now }
    {
        match &self.swept {
            Ok(swept) => swept.is_idle() && !self.contended,
            Err(_) => false,
        }
    }
}

/// Makes the sweeps of a run, from any of its threads.
#[derive(Drop)]
pub(crate) struct Sweeper<'a, 'r, T, S: Outbound, R: Wait, B: RunStart> {
    pub(crate) rt: &'a R,
    pub(crate) alloc: Global,
    pub(crate) desk: &'a Desk<T, &'r R>,
    pub(crate) devices: &'a [Device],
    pub(crate) shared: &'a Shared<T, S, B>,
    pub(crate) ghost at: { Some desk.now ≡ B.desk },
    pub(crate) ghost of: { names_of devices.now ≡ B.names },
}

impl<'a, 'r, T: Handlers, S: Outbound, R: Wait, B: RunStart> Sweeper<'a, 'r, T, S, R, B> {
    /// Makes one sweep. Returns `None` if another thread holds the forwarder; that thread finds
    /// `contended` set.
    pub(crate) fn sweep(&self) -> Option<SharedSweep> {
        let swept = self.sweep_alone()?;
        Some(self.with_contention(swept))
    }

    /// Adds `contended` to the result of a sweep. Called after the forwarder is unlocked.
    fn with_contention(&self, swept: Result<SweepResult, DeskFault>) -> SharedSweep {
        let contended = self.shared.contended.load(Ordering::SeqCst);
        SharedSweep { swept, contended }
    }

    /// Makes one sweep under the lock, and unlocks the forwarder.
    fn sweep_alone(&self) -> Option<Result<SweepResult, DeskFault>> {
        let mut forwarder = self.shared.take()?;
        Some(self.sweep_with(&mut *forwarder))
    }

    fn sweep_with(&self, forwarder: &mut Forwarder<T, S, B>) -> Result<SweepResult, DeskFault> {
        sweep(
            self.rt,
            self.alloc,
            self.desk,
            &mut forwarder.seat,
            self.devices,
            &mut forwarder.sender,
        )
    }

    /// Puts the forwarder thread to sleep until it is woken, or for as long as `pause` says.
    pub(crate) fn sleep(&self, pause: &mut Pause) {
        self.shared.asleep.store(true, Ordering::SeqCst);
        pause.sleep(self.rt, &self.shared.wake);
        self.shared.asleep.store(false, Ordering::SeqCst);
    }
}

/// What a receiver does after each datagram: it wakes the forwarder thread, or sweeps itself.
#[derive(Drop)]
pub(crate) struct InlineForwarder<'s, 'a, 'r, T, S: Outbound, R: Wait, B: RunStart> {
    sweeper: &'s Sweeper<'a, 'r, T, S, R, B>,
    /// The number of isolated packets in a row, up to `ISOLATED_BEFORE_INLINE`.
    alone: u32,
}

impl<'s, 'a, 'r, T: Handlers, S: Outbound, R: Wait, B: RunStart> InlineForwarder<
    's,
    'a,
    'r,
    T,
    S,
    R,
    B,
> {
    pub(crate) fn new(
        sweeper: &'s Sweeper<'a, 'r, T, S, R, B>,
    ) -> InlineForwarder<'s, 'a, 'r, T, S, R, B> {
        InlineForwarder { sweeper, alone: 0 }
    }

    /// Sweeps until no work is left or another thread holds the forwarder. Returns false if work
    /// may be left: a sweep failed, or the maximum number of sweeps was made.
    fn sweep_all(&self) -> bool {
        let mut made = self.sweeper.sweep();
        for _ in 0..MAX_EXTRA_SWEEPS {
            match &made {
                Some(last) if last.swept.is_err() => return false,
                Some(last) if !last.is_finished() => {}
                _ => return true,
            }
            made = self.sweeper.sweep();
        }
        false
    }

    /// Called after each datagram of `link`. `put`: its packet is in the feed.
    ///
    /// A packet is isolated if the forwarder thread sleeps and no other datagram waits at the link.
    /// After `ISOLATED_BEFORE_INLINE` isolated packets in a row, the receiver sweeps itself. In all other cases it
    /// wakes the forwarder thread.
    ///
    /// perf: for an isolated packet only one thread has to wake up (bench/RESULTS.md, Links).
    pub(crate) fn after_datagram<L: Inbound>(&mut self, put: bool, link: &L) {
        if !put {
            return;
        }
        let shared = self.sweeper.shared;
        if !shared.asleep.load(Ordering::SeqCst) || link.has_more() {
            self.alone = 0;
            shared.wake();
        } else if self.alone < ISOLATED_BEFORE_INLINE {
            self.alone += 1;
            shared.wake();
        } else if !self.sweep_all() {
            shared.wake();
        }
    }
}
