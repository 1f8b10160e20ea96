//! Inlets in use, and drawing packets from one of several.

ghost use Rattle.std.specs.Prelude.{◌≡◌, ◌≤◌, ◌++◌, List, [], length, map, true, false, vec_capacity, IfOk, IfSome, IfNone, OnErr};
ghost use Rattle.click_packet.specs.Packet.{Packet};
ghost use Rattle.click_rings.specs.Feeds.{name_of, has_feed, have_distinct_devices as apart, drew, IsPlace};

use crate::ends::{FeedEnd, Inlet};
use click_base::sequence::Sequence;
use click_packet::StoredPacket;
use rtrb::Consumer;
use std::alloc::{AllocError, Global};
use std::marker::Model;

/// An inlet in use: packets are drawn from it.
#[derive(Drop)]
pub struct FeedConsumer {
    device: Sequence<u8>,
    consumer: Consumer<StoredPacket>,
}

impl Model for FeedConsumer {
    ghost use Rattle.click_rings.specs.Feeds.{ConsumerState};
    ghost use Rattle.rtrb.specs.Ring.{received};

    ghost Value = { ConsumerState };

    ghost view = { λ t. record { device = t.device; ring = record { words = t.consumer.end.words; slots = t.consumer.end.slots; names = t.consumer.end.names }; drawn = received t.consumer } };
}

impl FeedConsumer {
    /// Opens an inlet.
    pub fn of(inlet: Inlet) -> FeedConsumer
        ensures name { name_of result ≡ inlet }
        ensures drawn { result.drawn ≡ [] }
    {
        let Inlet { device, consumer } = inlet;
        FeedConsumer { device, consumer }
    }

    /// Returns the device of the inlet.
    pub fn device(&self) -> &[u8]
        ensures { result.now ≡ self.now.device }
    {
        self.device.as_slice()
    }

    /// Returns the number of packets that are known to be in the ring. The device driver may add
    /// more.
    pub fn seen(&mut self) -> usize
        ensures { self.new ≡ self.old }
    {
        self.consumer.slots()
    }

    /// Draws up to `most` packets, of those that are known to be in the ring. Never blocks.
    pub fn draw(&mut self, most: usize, taken: &mut Vec<StoredPacket>)
        requires { (taken.old.items ≡ []) × (most ≤ vec_capacity taken.old) }
        ensures inlet { self.new ≡ record self.old { drawn = self.old.drawn ++ taken.new.items } }
        ensures most { length taken.new.items ≤ most }
        ensures room { most ≤ vec_capacity taken.new }
    {
        for _ in 0..most {
            let Ok(packet) = self.consumer.pop() else {
                return;
            };
            taken.push_reserved(packet);
        }
    }

    /// Draws all packets that are left in the ring of a feed that has ended.
    ///
    /// If it fails with out of memory, no packet is drawn. In either case the packets that were
    /// drawn before are a prefix of those that were put.
    pub fn drain(
        &mut self,
        alloc: Global,
        end: &mut FeedEnd,
    ) -> Result<Vec<StoredPacket>, AllocError>
        requires { end.old.ring ≡ self.old.ring }
        ensures name { name_of self.new ≡ name_of self.old }
        ensures end { end.new ≡ end.old }
        ensures begins { (rest : List Packet) × (end.old.put ≡ self.old.drawn ++ rest) }
        ensures ok { IfOk result (λ left. (end.old.put ≡ self.old.drawn ++ left.items) × (self.new.drawn ≡ end.old.put)) }
        ensures err { OnErr result (self.new.drawn ≡ self.old.drawn) }
    {
        let count = self.consumer.slots_beside(&mut end.producer);
        let mut left = Vec::with_capacity(alloc, count)?;
        for _ in 0..count {
            left.push_reserved(self.consumer.pop_known());
        }
        Ok(left)
    }
}

/// Returns whether one of these inlets is for the device.
fn has_inlet(inlets: &[Inlet], device: &[u8]) -> bool
    ensures { result ≡ has_feed device.now inlets.now }
{
    match inlets {
        [] => false,
        [first, rest @ ..] => first.device() == device || has_inlet(rest, device),
    }
}

/// Returns whether no two of these inlets are for the same device.
pub fn have_distinct_devices(inlets: &[Inlet]) -> bool
    ensures { result ≡ apart inlets.now }
{
    match inlets {
        [] => true,
        [first, rest @ ..] => !has_inlet(rest, first.device()) && have_distinct_devices(rest),
    }
}

/// Returns the index of the inlet for the device, if there is one.
pub fn place_of(consumers: &[FeedConsumer], device: &[u8]) -> Option<usize>
    ensures some { IfSome result (λ place. IsPlace device.now consumers.now place) }
    ensures none { IfNone result (has_feed device.now (map name_of consumers.now) ≡ false) }
{
    match consumers {
        [] => None,
        [first, rest @ ..] => {
            if first.device() == device {
                return Some(0);
            }
            match place_of(rest, device) {
                Some(place) => Some(place + 1),
                None => None,
            }
        }
    }
}

/// Returns the number of packets that are known to be in the device's ring, up to `most`.
///
/// Returns 0 if there is no inlet for the device.
pub fn available_in(consumers: &mut [FeedConsumer], device: &[u8], most: usize) -> usize
    ensures consumers { consumers.new ≡ consumers.old }
    ensures most { result ≤ most }
{
    match place_of(consumers, device) {
        Some(place) => consumers[place].seen().min(most),
        None => 0,
    }
}

/// Draws up to `most` packets from the device's inlet, if there is one. Never blocks.
pub fn draw_from(
    consumers: &mut [FeedConsumer],
    device: &[u8],
    most: usize,
    taken: &mut Vec<StoredPacket>,
)
    requires apart { apart (map name_of consumers.old) ≡ true }
    requires room { (taken.old.items ≡ []) × (most ≤ vec_capacity taken.old) }
    ensures consumers { consumers.new ≡ drew device.now taken.new.items consumers.old }
    ensures most { length taken.new.items ≤ most }
    ensures unknown { has_feed device.now (map name_of consumers.old) ≡ false → taken.new.items ≡ [] }
{
    match place_of(consumers, device) {
        Some(place) => consumers[place].draw(most, taken),
        None => {}
    }
}
