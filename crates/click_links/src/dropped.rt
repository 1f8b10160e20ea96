//! The numbers of dropped datagrams.

ghost use Rattle.std.specs.Prelude.{◌≡◌, ◌-◌, ◌^◌};
ghost use Rattle.click_links.specs.Fates.{added, AllBelow, nothing_dropped};

use crate::datagram::DatagramOutcome;

/// The numbers of dropped datagrams, by cause.
#[derive(Clone, Copy, Debug, PartialEq, Eq)]
pub struct Dropped {
    /// Those that were not from the peer.
    pub strangers: u64,
    /// Those of more than 1,600 bytes.
    pub too_long: u64,
    /// Those for which the feed was full.
    pub no_room: u64,
    /// Those for whose packet there was no memory.
    pub no_memory: u64,
}

impl Dropped {
    /// Returns numbers of zero.
    pub fn none() -> Dropped
        ensures { result ≡ nothing_dropped }
    {
        Dropped {
            strangers: 0,
            too_long: 0,
            no_room: 0,
            no_memory: 0,
        }
    }

    /// Counts one more datagram with this fate.
    pub(crate) fn add(&mut self, fate: DatagramOutcome)
        requires { AllBelow self.old (2 ^ 64 - 1) }
        ensures { self.new ≡ added self.old fate }
    {
        match fate {
            DatagramOutcome::Enqueued => {}
            DatagramOutcome::ForeignSender => self.strangers += 1,
            DatagramOutcome::TooLong => self.too_long += 1,
            DatagramOutcome::FeedFull => self.no_room += 1,
            DatagramOutcome::NoMemory => self.no_memory += 1,
        }
    }
}
