//! The two ends of a feed.

ghost use Rattle.std.specs.Prelude.{◌≡◌, ◌<◌, ◌++◌, ◌∷◌, [], length, IsOk, IsSome, IfErr, IfSome, OnOk};

use click_base::sequence::Sequence;
use click_packet::StoredPacket;
use rtrb::{Consumer, Producer, PushError};
use std::marker::Model;

/// The end of a feed that a device driver has.
#[derive(Drop)]
pub struct Feed {
    pub(crate) producer: Producer<StoredPacket>,
}

impl Model for Feed {
    ghost use Rattle.std.specs.Prelude.{◌≤◌, ◌+◌, length};
    ghost use Rattle.click_rings.specs.Feeds.{Putting};
    ghost use Rattle.rtrb.specs.Ring.{sent, known_free, producer_capacity};

    ghost Value = { Putting };

    ghost view = { λ f. record { ring = record { words = f.producer.end.words; slots = f.producer.end.slots; names = f.producer.end.names }; places = producer_capacity f.producer; put = sent f.producer } };

    // proof: no place is lost; each is known to be free, or was used.
    ghost invariant = { λ f. producer_capacity f.producer ≤ length (sent f.producer) + known_free f.producer };
}

/// The end of a feed that has finished: all packets that were put.
///
/// It holds the ring, whose inlet may be gone. No more packets can be put.
#[derive(Drop)]
pub struct FeedEnd {
    pub(crate) producer: Producer<StoredPacket>,
}

impl Model for FeedEnd {
    ghost use Rattle.click_rings.specs.Feeds.{Feeding};
    ghost use Rattle.rtrb.specs.Ring.{sent};

    ghost Value = { Feeding };

    ghost view = { λ f. record { ring = record { words = f.producer.end.words; slots = f.producer.end.slots; names = f.producer.end.names }; put = sent f.producer } };
}

/// The end of a feed that a desk is opened with. No packet was drawn from it.
#[derive(Drop)]
pub struct Inlet {
    pub(crate) device: Sequence<u8>,
    pub(crate) consumer: Consumer<StoredPacket>,
}

impl Model for Inlet {
    ghost use Rattle.std.specs.Prelude.{◌≡◌, []};
    ghost use Rattle.click_rings.specs.Feeds.{FeedName};
    ghost use Rattle.rtrb.specs.Ring.{received};

    ghost Value = { FeedName };

    ghost invariant = { λ i. received i.consumer ≡ [] };

    ghost view = { λ i. record { device = i.device; ring = record { words = i.consumer.end.words; slots = i.consumer.end.slots; names = i.consumer.end.names } } };
}

impl Feed {
    /// Puts a packet into the ring, or returns it if no place is known to be free. Never blocks.
    ///
    /// It never returns the packet before as many packets were put as the ring has places.
    pub fn put(&mut self, packet: StoredPacket) -> Result<(), StoredPacket>
        ensures ring { (self.new.ring ≡ self.old.ring) × (self.new.places ≡ self.old.places) }
        ensures room { length self.old.put < self.old.places → IsOk result }
        ensures ok { OnOk result (self.new.put ≡ self.old.put ++ packet ∷ []) }
        ensures back { IfErr result (λ p. (p ≡ packet) × (self.new ≡ self.old)) }
    {
        match self.producer.push(packet) {
            Ok(()) => Ok(()),
            Err(PushError::Full(packet)) => Err(packet),
        }
    }

    /// Ends the feed. Always returns an end, which has the ring and the packets that were put.
    pub fn finish(self) -> Option<FeedEnd>
        ensures some { IsSome result }
        ensures end { IfSome result (λ end. (end.ring ≡ self.ring) × (end.put ≡ self.put)) }
    {
        let Feed { producer } = self;
        Some(FeedEnd { producer })
    }
}

impl Inlet {
    /// Returns the device of the inlet.
    pub fn device(&self) -> &[u8]
        ensures { result.now ≡ self.now.device }
    {
        self.device.as_slice()
    }
}
