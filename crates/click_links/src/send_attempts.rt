//! The packets whose sending was attempted, as ghost state.

ghost use Rattle.std.specs.Prelude.{◌≡◌, ◌++◌, ◌∷◌, []};
ghost use Rattle.click_links.specs.Ends.{attempt};

use click_base::sequence::Sequence;
use click_desk::GhostList;
use click_packet::StoredPacket;
use std::marker::Model;

/// The list of packets whose sending was attempted, each with its device and whether it was sent.
/// It is ghost state, and takes no memory.
#[derive(Drop)]
pub(crate) struct SendAttempts {
    // For each packet, a list with one item: its device, and whether it was sent.
    log: GhostList<StoredPacket, GhostList<Sequence<u8>, bool>>,
}

impl Model for SendAttempts {
    ghost use Rattle.std.specs.Prelude.{List, map};
    ghost use Rattle.click_links.specs.Ends.{Attempt, attempt, only};

    ghost Value = { List Attempt };

    ghost view = { λ t. map (λ p. attempt (only p.1.items).0 p.0 (only p.1.items).1) t.log.items };
}

impl SendAttempts {
    /// Returns the empty list.
    pub(crate) fn new() -> SendAttempts
        ensures { result ≡ [] }
    {
        SendAttempts {
            log: GhostList::new(),
        }
    }

    /// Appends a packet with its device, and whether it was sent.
    pub(crate) fn add(&mut self, device: &Sequence<u8>, packet: &StoredPacket, sent: bool)
        ensures { self.new ≡ self.old ++ attempt device.now packet.now sent ∷ [] }
    {
        let one = GhostList::new().and(device, &sent);
        self.log = self.log.and(packet, &one);
    }
}
