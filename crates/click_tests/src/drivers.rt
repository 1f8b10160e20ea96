//! Device drivers, which number their packets from 0, and the settling of their feeds.

ghost use Rattle.std.specs.Prelude.{◌≡◌, ◌<◌, ◌+◌, true, map, IfSome, OnSome, vec_len};
ghost use Rattle.click_rings.specs.Feeds.{name_of, have_distinct_devices};

use click_base::sequence::Sequence;
use click_desk::{Book, Entry};
use click_packet::{Packet, StoredPacket};
use click_rings::opening::feed as make_feed;
use click_rings::{Feed, Inlet};
use click_router::Call;
use std::alloc::Global;
use std::marker::Model;
use std::thread;

/// The number of places of a feed.
const PLACES: usize = 8;

/// The driver of a device: its end of a feed, and the number of packets that it has put.
#[derive(Drop)]
pub(crate) struct Driver {
    device: Sequence<u8>,
    pub(crate) feed: Feed,
    count: u16,
}

impl Model for Driver {
    ghost use Rattle.click_rings.specs.Feeds.{FeedName};

    ghost Value = { FeedName };

    ghost view = { λ d. record { device = d.device; ring = d.feed.ring } };
}

/// Returns the packet of a number: its two bytes, the higher one first.
fn packet(alloc: Global, number: u16) -> Option<StoredPacket> {
    StoredPacket::of(alloc, &Packet::of(&number.to_be_bytes()).ok()?).ok()
}

impl Driver {
    /// Puts the next packet, and returns whether the feed took it.
    fn puts(&mut self, alloc: Global) -> bool
        ensures { self.new ≡ self.old }
    {
        let good = match packet(alloc, self.count) {
            Some(packet) => self.feed.put(packet).is_ok(),
            None => false,
        };
        if good {
            self.count = self.count.saturating_add(1);
        }
        good
    }

    /// Puts packets until the feed has taken `packets` of them, in at most `tries` tries.
    pub(crate) fn drive(mut self, alloc: Global, packets: u16, tries: u64) -> Driver
        ensures { result ≡ self }
    {
        for _ in 0..tries {
            if self.count >= packets {
                return self;
            }
            if !self.puts(alloc) {
                thread::yield_now();
            }
        }
        self
    }
}

/// Returns a driver of the device of this letter, and the inlet of its feed.
fn driver_of(alloc: Global, letter: u8) -> Option<(Driver, Inlet)>
    ensures { IfSome result (λ r. r.0 ≡ r.1) }
{
    let name = [letter];
    let (feed, inlet) = make_feed(alloc, &name, PLACES).ok()?;
    let device = Sequence::copy_of(alloc, &name).ok()?;
    let count = 0;
    Some((
        Driver {
            device,
            feed,
            count,
        },
        inlet,
    ))
}

/// Returns drivers of the devices of these letters, and the inlets of their feeds.
pub(crate) fn drivers_of(alloc: Global, letters: &[u8]) -> Option<(Vec<Driver>, Vec<Inlet>)>
    ensures { IfSome result (λ r. r.0.items ≡ r.1.items) }
{
    let mut drivers = Vec::new(alloc);
    let mut inlets = Vec::new(alloc);
    for letter in letters {
        let (driver, inlet) = driver_of(alloc, *letter)?;
        drivers.push(driver).ok()?;
        inlets.push(inlet).ok()?;
    }
    Some((drivers, inlets))
}

/// Returns the number after the last of these packets, if they are numbered from `first` on.
fn number_after(packets: &[StoredPacket], first: u16) -> Option<u16> {
    let mut next = first;
    for packet in packets {
        if packet.bytes() != next.to_be_bytes().as_slice() {
            return None;
        }
        next = next.checked_add(1)?;
    }
    Some(next)
}

/// Returns the number after the packets that an entry polled of the device, which begin at `next`.
fn polled_by(entry: &Entry, device: &[u8], next: u16) -> Option<u16> {
    match &entry.call {
        Call::Poll {
            device: polled,
            taken,
        } if polled.as_slice() == device => number_after(taken.as_slice(), next),
        _ => Some(next),
    }
}

/// Returns the number of packets that the book polled of the device, if they are in order.
fn polled<T>(book: &Book<T>, device: &[u8]) -> Option<u16> {
    let mut next = 0;
    for entry in book.entries.as_slice() {
        next = polled_by(entry, device, next)?;
    }
    Some(next)
}

/// Returns whether what the book polled of the device and what is left are `count` packets, in order,
/// and at least as many as a feed has places.
fn is_whole<T>(book: &Book<T>, device: &[u8], left: Vec<StoredPacket>, count: u16) -> bool {
    match polled(book, device) {
        Some(next) => {
            (number_after(left.as_slice(), next) == Some(count)) & (usize::from(count) >= PLACES)
        }
        None => false,
    }
}

/// Settles the feed of the first driver, and takes it from the list. Returns whether each packet
/// that it put was polled or is left.
fn settles_first<T>(alloc: Global, book: &mut Book<T>, drivers: &mut Vec<Driver>) -> Option<bool>
    requires names { map name_of book.old.consumers ≡ drivers.old.items }
    requires apart { have_distinct_devices drivers.old.items ≡ true }
    requires some { 0 < vec_len drivers.old }
    ensures names { OnSome result (map name_of book.new.consumers ≡ drivers.new.items) }
    ensures apart { have_distinct_devices drivers.new.items ≡ true }
    ensures len { vec_len drivers.old ≡ vec_len drivers.new + 1 }
{
    let Driver {
        device,
        feed,
        count,
    } = drivers.remove(0);
    let end = feed.finish()?;
    match book.settle(alloc, device.as_slice(), end) {
        Ok(left) => Some(is_whole(book, device.as_slice(), left, count)),
        Err(_) => None,
    }
}

/// Settles the feeds of these drivers. Returns the number of feeds of which nothing is lost.
pub(crate) fn settle_all<T>(
    alloc: Global,
    book: &mut Book<T>,
    mut drivers: Vec<Driver>,
) -> Option<usize>
    requires names { map name_of book.old.consumers ≡ drivers.items }
    requires apart { have_distinct_devices drivers.items ≡ true }
{
    let mut good: usize = 0;
    while !drivers.is_empty() {
        let is_good = settles_first(alloc, book, &mut drivers)?;
        good = good.saturating_add(usize::from(is_good));
    }
    Some(good)
}
