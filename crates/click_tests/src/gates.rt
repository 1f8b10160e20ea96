//! Gates that hold sessions and drivers until others have come, one that refuses a command once, and
//! one that notes its calls.

use click_workers::Gate;
use std::alloc::{AllocError, Global};
use std::sync::atomic::{AtomicBool, AtomicU64, AtomicUsize, Ordering};
use std::thread;

/// The greatest number of times that a gate looks before it gives up.
const MAX_LOOKS: u64 = 100_000_000;

/// Looks again and again until the counter has reached `wanted`, and returns whether it has.
fn waits_for(counter: &AtomicU64, wanted: u64) -> bool {
    for _ in 0..MAX_LOOKS {
        if counter.load(Ordering::SeqCst) >= wanted {
            return true;
        }
        thread::yield_now();
    }
    false
}

/// Holds the first session's first command until the second's first is answered, and the second's
/// second until the first's first is answered.
#[derive(Drop)]
pub(crate) struct Crossed {
    pub(crate) first: AtomicU64,
    pub(crate) second: AtomicU64,
}

impl Gate for Crossed {
    ghost gives = { λ _ _ _ _. Unit {0} };

    ghost told = { λ _ _ _. Unit {0} };

    fn before(&self, who: usize, nth: u64) -> bool {
        match (who, nth) {
            (1, 1) => waits_for(&self.second, 1),
            (2, 2) => waits_for(&self.first, 1),
            _ => true,
        }
    }

    fn after(&self, who: usize, _nth: u64) {
        let answered = if who == 1 { &self.first } else { &self.second };
        answered.fetch_add(1, Ordering::SeqCst);
    }
}

/// Holds each first command until all parties have come to theirs.
#[derive(Drop)]
pub(crate) struct Meeting {
    pub(crate) parties: u64,
    pub(crate) come: AtomicU64,
}

impl Gate for Meeting {
    ghost gives = { λ _ _ _ _. Unit {0} };

    ghost told = { λ _ _ _. Unit {0} };

    fn before(&self, _who: usize, nth: u64) -> bool {
        if nth != 1 {
            return true;
        }
        self.come.fetch_add(1, Ordering::SeqCst);
        waits_for(&self.come, self.parties)
    }

    fn after(&self, _who: usize, _nth: u64) {}
}

/// Holds each session's first command until the drivers have made `wanted` rounds.
#[derive(Drop)]
pub(crate) struct Driven {
    pub(crate) slots: usize,
    pub(crate) wanted: u64,
    pub(crate) made: AtomicU64,
}

impl Gate for Driven {
    ghost gives = { λ _ _ _ _. Unit {0} };

    ghost told = { λ _ _ _. Unit {0} };

    fn before(&self, who: usize, nth: u64) -> bool {
        who > self.slots || nth != 1 || waits_for(&self.made, self.wanted)
    }

    fn after(&self, who: usize, _nth: u64) {
        if who > self.slots {
            self.made.fetch_add(1, Ordering::SeqCst);
        }
    }
}

/// Refuses the second command of the session and of the driver once. Asked again, it allows it.
#[derive(Drop)]
pub(crate) struct RefusesOnce {
    /// The number of times that it was asked for a command of the session after the first.
    pub(crate) of_session: AtomicU64,
    /// The number of times that it was asked for a command of the driver after the first.
    pub(crate) of_driver: AtomicU64,
}

impl Gate for RefusesOnce {
    ghost gives = { λ _ _ _ _. Unit {0} };

    ghost told = { λ _ _ _. Unit {0} };

    fn before(&self, who: usize, nth: u64) -> bool {
        let asked = if who == SESSION {
            &self.of_session
        } else {
            &self.of_driver
        };
        nth == 1 || asked.fetch_add(1, Ordering::SeqCst) > 0
    }

    fn after(&self, _who: usize, _nth: u64) {}
}

/// The state of a session: the calls that it has made, and the bytes that it has written.
#[derive(Drop)]
pub(crate) struct Progress {
    pub(crate) made: AtomicU64,
    pub(crate) written: AtomicU64,
}

/// A place for a note.
#[derive(Drop)]
struct Slot {
    who: AtomicUsize,
    nth: AtomicU64,
    answered: AtomicBool,
    made: AtomicU64,
    written: AtomicU64,
}

/// A note of a gate: the number of a command, and whether the note is made after its reply.
///
/// The last two numbers are those of the session at that time: the calls that it had made, and the
/// bytes that it had written.
pub(crate) type Note = (u64, bool, u64, u64);

/// The number of the session. The driver has the next number.
pub(crate) const SESSION: usize = 1;

/// The number of times that the driver is held: twice at each of two rounds.
const HELD: u64 = 4;

/// A gate that notes what a session and a driver ask and report, in order. Each time that the
/// driver comes, it is held until the session has one more command answered.
#[derive(Drop)]
pub(crate) struct Notes<'a> {
    progress: &'a Progress,
    next: AtomicUsize,
    slots: Vec<Slot>,
    /// The number of times that the driver has come.
    come: AtomicU64,
    /// The number of commands of the session that are answered.
    answered: AtomicU64,
}

fn empty_slot() -> Slot {
    Slot {
        who: AtomicUsize::new(0),
        nth: AtomicU64::new(0),
        answered: AtomicBool::new(false),
        made: AtomicU64::new(0),
        written: AtomicU64::new(0),
    }
}

impl<'a> Notes<'a> {
    /// Returns a gate with room for `room` notes.
    pub(crate) fn new(
        alloc: Global,
        progress: &'a Progress,
        room: usize,
    ) -> Result<Notes<'a>, AllocError> {
        let mut slots = Vec::new(alloc);
        for _ in 0..room {
            slots.push(empty_slot())?;
        }
        Ok(Notes {
            progress,
            next: AtomicUsize::new(0),
            slots,
            come: AtomicU64::new(0),
            answered: AtomicU64::new(0),
        })
    }

    fn note(&self, who: usize, nth: u64, answered: bool) {
        let at = self.next.fetch_add(1, Ordering::SeqCst);
        if let Some(slot) = self.slots.get(at) {
            slot.who.store(who, Ordering::SeqCst);
            slot.nth.store(nth, Ordering::SeqCst);
            slot.answered.store(answered, Ordering::SeqCst);
            if who == SESSION {
                let made = self.progress.made.load(Ordering::SeqCst);
                slot.made.store(made, Ordering::SeqCst);
                let written = self.progress.written.load(Ordering::SeqCst);
                slot.written.store(written, Ordering::SeqCst);
            }
        }
    }

    /// Holds the driver until the session has read.
    fn hold(&self) -> bool {
        let before = self.come.fetch_add(1, Ordering::SeqCst);
        waits_for(&self.answered, before.saturating_add(1))
    }

    /// Returns the number of all notes.
    pub(crate) fn count(&self) -> usize {
        self.next.load(Ordering::SeqCst)
    }

    /// Returns the notes of the session or of the driver, in order.
    pub(crate) fn of(&self, alloc: Global, who: usize) -> Result<Vec<Note>, AllocError> {
        let mut notes = Vec::new(alloc);
        for slot in &self.slots {
            if slot.who.load(Ordering::SeqCst) == who {
                notes.push((
                    slot.nth.load(Ordering::SeqCst),
                    slot.answered.load(Ordering::SeqCst),
                    slot.made.load(Ordering::SeqCst),
                    slot.written.load(Ordering::SeqCst),
                ))?;
            }
        }
        Ok(notes)
    }
}

impl Gate for Notes<'_> {
    ghost gives = { λ _ _ _ _. Unit {0} };

    ghost told = { λ _ _ _. Unit {0} };

    fn before(&self, who: usize, nth: u64) -> bool {
        self.note(who, nth, false);
        if who == SESSION {
            waits_for(&self.come, nth.min(HELD))
        } else {
            self.hold()
        }
    }

    fn after(&self, who: usize, nth: u64) {
        self.note(who, nth, true);
        if who == SESSION {
            self.answered.fetch_add(1, Ordering::SeqCst);
        } else {
            let _held = self.hold();
        }
    }
}
