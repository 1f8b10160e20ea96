//! The counts of a link, which an operator reads while it runs.

ghost use Rattle.std.specs.Prelude.{◌≡◌};
ghost use Rattle.std.specs.Option.{option_copied};
ghost use Rattle.click_links.specs.LinkCounts.{counter_of_fate, counter_of_send, IsReadOf};

use crate::datagram::DatagramOutcome;
use std::sync::atomic::{AtomicU64, Ordering};

/// The counts of a link. Its receiver and the forwarder add to them, and any thread may read them.
/// No contract mentions their values.
#[derive(Drop)]
pub struct Counts {
    counters: CounterSet<AtomicU64>,
}

/// The counts of a link, read one after another.
#[derive(Clone, Copy, Debug, PartialEq, Eq)]
pub struct CountSnapshot {
    /// Datagrams that came.
    pub received: u64,
    /// Of these, the ones that were not from the peer.
    pub strangers: u64,
    /// Of these, the ones of more than 1,600 bytes.
    pub too_long: u64,
    /// Of these, the ones for which the feed was full.
    pub no_room: u64,
    /// Of these, the ones for whose packet there was no memory.
    pub no_memory: u64,
    /// Packets of the feed that entered the router.
    pub entered: u64,
    /// Packets that were sent.
    pub sent: u64,
    /// Packets that could not be sent, and are lost.
    pub failed: u64,
}

/// A counter that threads share.
trait Counter {
    ghost use Rattle.std.specs.Prelude.{ℕ};

    /// The numbers that the counter may show when it is read.
    ghost may_show: { Self → ℕ → Type 0 };

    /// Returns the number that the counter shows.
    fn show(&self) -> u64
        ensures { may_show self.now result };
}

impl Counter for AtomicU64 {
    ghost may_show = { λ _ _. Unit {0} };

    fn show(&self) -> u64 {
        self.load(Ordering::SeqCst)
    }
}

/// The counters of a link, one for each count of a `CountSnapshot`.
///
/// proof: no contract distinguishes two atomics. The methods of this type are proved for counters of
/// any type, and so cannot use one counter instead of another.
#[derive(Drop)]
struct CounterSet<C> {
    received: C,
    strangers: C,
    too_long: C,
    no_room: C,
    no_memory: C,
    entered: C,
    sent: C,
    failed: C,
}

impl<C> CounterSet<C> {
    /// Returns the counter of all datagrams, and that of the datagrams that are dropped like this
    /// one, if it is dropped.
    fn of_datagram(&self, fate: DatagramOutcome) -> (&C, Option<&C>)
        ensures all { result.0.now ≡ self.now.received }
        ensures dropped { option_copied result.1 ≡ counter_of_fate self.now fate }
    {
        let dropped = match fate {
            DatagramOutcome::Enqueued => None,
            DatagramOutcome::ForeignSender => Some(&self.strangers),
            DatagramOutcome::TooLong => Some(&self.too_long),
            DatagramOutcome::FeedFull => Some(&self.no_room),
            DatagramOutcome::NoMemory => Some(&self.no_memory),
        };
        (&self.received, dropped)
    }

    /// Returns the counter of packets that were sent or lost.
    fn of_send(&self, sent: bool) -> &C
        ensures { result.now ≡ counter_of_send self.now sent }
    {
        if sent { &self.sent } else { &self.failed }
    }
}

impl<C: Counter> CounterSet<C> {
    /// Reads the counters one after another.
    fn snapshot(&self) -> CountSnapshot
        ensures { IsReadOf C.may_show self.now result }
    {
        CountSnapshot {
            received: self.received.show(),
            strangers: self.strangers.show(),
            too_long: self.too_long.show(),
            no_room: self.no_room.show(),
            no_memory: self.no_memory.show(),
            entered: self.entered.show(),
            sent: self.sent.show(),
            failed: self.failed.show(),
        }
    }
}

fn one_more(count: &AtomicU64) {
    count.fetch_add(1, Ordering::SeqCst);
}

impl Counts {
    /// Returns counts of zero.
    pub fn new() -> Counts {
        Counts {
            counters: CounterSet {
                received: AtomicU64::new(0),
                strangers: AtomicU64::new(0),
                too_long: AtomicU64::new(0),
                no_room: AtomicU64::new(0),
                no_memory: AtomicU64::new(0),
                entered: AtomicU64::new(0),
                sent: AtomicU64::new(0),
                failed: AtomicU64::new(0),
            },
        }
    }

    /// Returns what was counted so far.
    pub fn read(&self) -> CountSnapshot {
        self.counters.snapshot()
    }

    /// Counts a datagram with this fate.
    pub(crate) fn came(&self, fate: DatagramOutcome) {
        let (received, dropped) = self.counters.of_datagram(fate);
        one_more(received);
        if let Some(count) = dropped {
            one_more(count);
        }
    }

    /// Counts `count` packets of the feed that entered.
    pub(crate) fn enter(&self, count: u64) {
        self.counters.entered.fetch_add(count, Ordering::SeqCst);
    }

    /// Counts a packet that was sent or lost.
    pub(crate) fn tried(&self, sent: bool) {
        one_more(self.counters.of_send(sent));
    }
}

impl Default for Counts {
    fn default() -> Counts {
        Counts::new()
    }
}
