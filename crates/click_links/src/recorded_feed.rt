//! A feed, with what it was offered.

ghost use Rattle.std.specs.Prelude.{◌≡◌, ◌<◌, ◌++◌, ◌∷◌, [], length, true, if◌then◌else◌};
ghost use Rattle.click_links.specs.Ends.{offer};

use click_desk::GhostList;
use click_packet::{Packet, PacketRoom};
use click_rings::Feed;
use std::marker::Model;

/// A feed, with the list of packets that it was offered and whether it took each. The list is ghost
/// state.
#[derive(Drop)]
pub struct RecordedFeed {
    feed: Feed,
    asked: GhostList<Packet, bool>,
}

impl Model for RecordedFeed {
    ghost use Rattle.std.specs.Prelude.{map};
    ghost use Rattle.click_links.specs.Ends.{Offering, offer};

    ghost Value = { Offering };

    ghost view = { λ i. record { feed = i.feed; asked = map (λ p. offer p.0 p.1) i.asked.items } };
}

impl RecordedFeed {
    /// Returns the intake of a feed, with an empty list.
    pub fn of(feed: Feed) -> RecordedFeed
        ensures { result ≡ record { feed = feed; asked = [] } }
    {
        RecordedFeed {
            feed,
            asked: GhostList::new(),
        }
    }

    /// Returns the feed.
    pub fn into_feed(self) -> Feed
        ensures { result ≡ self.feed }
    {
        self.feed
    }

    /// Offers a packet to the feed. Returns whether the feed took it, which it does at least as
    /// long as fewer packets were put than it has places. Never blocks.
    pub fn offer(&mut self, room: PacketRoom, packet: &Packet) -> bool
        ensures ring { (self.new.feed.ring ≡ self.old.feed.ring) × (self.new.feed.places ≡ self.old.feed.places) }
        ensures asked { self.new.asked ≡ self.old.asked ++ offer packet.now result ∷ [] }
        ensures put { self.new.feed.put ≡ self.old.feed.put ++ (if result then packet.now ∷ [] else []) }
        ensures room { length self.old.feed.put < self.old.feed.places → result ≡ true }
    {
        let taken = match self.feed.put(room.keep(packet)) {
            Ok(()) => true,
            Err(_) => false,
        };
        self.asked = self.asked.and(packet, &taken);
        taken
    }
}
