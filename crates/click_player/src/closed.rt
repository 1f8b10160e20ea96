//! A closed desk: its book, its feeds and its views.

ghost use Rattle.std.specs.Prelude.{◌≡◌, true, map, IfOk, OnOk};
ghost use Rattle.std.specs.List.{All};
ghost use Rattle.click_rings.specs.Feeds.{name_of, have_distinct_devices};
ghost use Rattle.click_player.specs.Belonging.{HaveRings};

use crate::calls::stored_packet;
use crate::feeds::{Finished, finished_at};
use crate::script::{Step, Trouble, cut, number_of};
use click_desk::{Book, Entry, SettleFault, View};
use click_lines::{entry_line, hex_text};
use click_packet::{PacketRoom, StoredPacket};
use click_rings::opening::feed as make_feed;
use click_rings::{FeedConsumer, FeedEnd, Inlet};
use click_router::CompactReply;
use std::alloc::{AllocError, Global};
use std::marker::Model;

/// A closed desk: its book, its views, and the ends of the feeds that are not settled yet.
#[derive(Drop)]
pub struct Closed<T: Drop> {
    book: Book<T>,
    views: Vec<View>,
    finished: Vec<Finished>,
}

impl<T: Drop> Model for Closed<T> {
    ghost use Rattle.std.specs.Prelude.{◌≡◌, true, map};
    ghost use Rattle.std.specs.List.{All};
    ghost use Rattle.click_desk.specs.BookState.{BookState};
    ghost use Rattle.click_rings.specs.Feeds.{name_of, have_distinct_devices};
    ghost use Rattle.click_player.specs.Belonging.{HaveRings};

    ghost Value = { BookState };

    ghost view = { λ c. c.book };

    ghost invariant = { λ c. HaveRings c.finished.items (map name_of c.book.consumers) × (have_distinct_devices (map name_of c.book.consumers) ≡ true) × All (λ v. v.board ≡ c.book.board) c.views.items };
}

/// The outcome of a settlement.
#[derive(Drop)]
enum Settlement {
    Left(Vec<StoredPacket>),
    Refused(SettleFault),
    /// A second feed was refused. Has the packets left in the first feed, the reason, and the
    /// packets left in the second.
    Twice {
        left: Vec<StoredPacket>,
        fault: SettleFault,
        kept: Vec<StoredPacket>,
    },
}

/// Returns the end and the inlet of a second feed of a device, with a packet of these hex digits.
fn second_feed(alloc: Global, device: &[u8], digits: &[u8]) -> Result<(FeedEnd, Inlet), Trouble>
    ensures { IfOk result (λ r. r.0.ring ≡ r.1.ring) }
{
    let packet = stored_packet(alloc, digits)?;
    let Ok((mut feed, inlet)) = make_feed(alloc, device, 1) else {
        return Err(Trouble::NoMemory);
    };
    if feed.put(packet).is_err() {
        return Err(Trouble::Malformed);
    }
    match feed.finish() {
        Some(end) => Ok((end, inlet)),
        None => Err(Trouble::Malformed),
    }
}

/// Returns the packets left in the ring of an inlet, whose feed has this end.
fn left_in(alloc: Global, inlet: Inlet, mut end: FeedEnd) -> Result<Vec<StoredPacket>, AllocError>
    requires { end.ring ≡ inlet.ring }
{
    let mut consumer = FeedConsumer::of(inlet);
    consumer.drain(alloc, &mut end)
}

impl<T: Drop> Closed<T> {
    /// Joins a book with the views of its desk and the ends of its feeds.
    pub fn new(book: Book<T>, views: Vec<View>, finished: Vec<Finished>) -> Self
        requires rings { HaveRings finished.items (map name_of book.consumers) }
        requires apart { have_distinct_devices (map name_of book.consumers) ≡ true }
        requires views { All (λ v. v.board ≡ book.board) views.items }
    {
        Closed {
            book,
            views,
            finished,
        }
    }

    /// Returns the number of entries of the book.
    pub fn count(&self) -> usize {
        self.book.entries.as_slice().len()
    }

    /// Checks a view against the book, which never fails.
    fn meet(&self, view: usize) -> Result<(), Trouble> {
        if view >= self.views.len() {
            return Err(Trouble::Malformed);
        }
        self.book.meet(&self.views[view]);
        Ok(())
    }

    /// Settles the feed of a device. If this is refused, the end is kept.
    fn settle(
        &mut self,
        alloc: Global,
        device: &[u8],
    ) -> Result<Result<Vec<StoredPacket>, SettleFault>, Trouble>
        ensures { IfOk result (λ s. OnOk s (All (λ t. t.device ≡ device.now → ⊥) self.new.consumers)) }
    {
        let place = finished_at(&self.finished, device)?;
        let Finished { device: name, end } = self.finished.remove(place);
        match self.book.settle(alloc, device, end) {
            Ok(left) => Ok(Ok(left)),
            Err(refused) => {
                let fault = refused.fault;
                let end = refused.end;
                self.finished.push(Finished { device: name, end })?;
                Ok(Err(fault))
            }
        }
    }

    /// Settles the feed of a device, and then tries to settle a second feed of the device.
    ///
    /// The second feed has a packet of these hex digits.
    fn settle_twice(
        &mut self,
        alloc: Global,
        device: &[u8],
        digits: &[u8],
    ) -> Result<Settlement, Trouble> {
        let (second, inlet) = second_feed(alloc, device, digits)?;
        match self.settle(alloc, device)? {
            Ok(left) => match self.book.settle(alloc, device, second) {
                Ok(_) => Err(Trouble::Malformed),
                Err(refused) => {
                    let fault = refused.fault;
                    let kept = left_in(alloc, inlet, refused.end)?;
                    Ok(Settlement::Twice { left, fault, kept })
                }
            },
            Err(fault) => Ok(Settlement::Refused(fault)),
        }
    }

    /// Returns the number of calls that the seat of this number stored.
    fn kept_calls(&self, number: usize) -> Result<usize, Trouble> {
        for seat in &self.book.seats {
            if seat.number() == number {
                return Ok(seat.calls().len());
            }
        }
        Err(Trouble::Malformed)
    }

    /// Plays a step at a closed desk, and returns its reply.
    pub fn play(&mut self, alloc: Global, step: &Step<'_>) -> Result<Vec<u8>, Trouble> {
        match step.who {
            b"entry" => {
                let number = number_of(step.words)?;
                entry_shown(alloc, self.book.entries.as_slice(), number)
            }
            b"calls" => {
                let count = self.kept_calls(number_of(step.words)?)?;
                Ok(format!(in alloc; "{count}")?.into_bytes())
            }
            b"meet" => {
                self.meet(number_of(step.words)?)?;
                Ok(Vec::from_slice(alloc, b"met")?)
            }
            b"settle" => {
                let (device, digits) = cut(step.words, b' ');
                let settlement = if digits.is_empty() {
                    match self.settle(alloc, device)? {
                        Ok(left) => Settlement::Left(left),
                        Err(fault) => Settlement::Refused(fault),
                    }
                } else {
                    self.settle_twice(alloc, device, digits)?
                };
                settlement_shown(alloc, &settlement)
            }
            _ => Err(Trouble::Malformed),
        }
    }
}

/// Returns the reply of a settlement.
fn settlement_shown(alloc: Global, settlement: &Settlement) -> Result<Vec<u8>, Trouble> {
    match settlement {
        Settlement::Left(packets) => Ok(packets_shown(alloc, packets)?),
        Settlement::Refused(fault) => Ok(format!(in alloc; "{fault}")?.into_bytes()),
        Settlement::Twice { left, fault, kept } => {
            let mut text = packets_shown(alloc, left)?;
            text.extend_from_slice(b"; ")?;
            text.extend_from_slice(format!(in alloc; "{fault}")?.as_bytes())?;
            text.extend_from_slice(b", ")?;
            text.extend_from_slice(packets_shown(alloc, kept)?.as_slice())?;
            Ok(text)
        }
    }
}

/// Returns `left` and the packets in hex digits, with commas between them, or `left none`.
fn packets_shown(alloc: Global, packets: &[StoredPacket]) -> Result<Vec<u8>, AllocError> {
    let mut text = Vec::from_slice(alloc, b"left ")?;
    let mut is_first = true;
    for packet in packets {
        if !is_first {
            text.push(b',')?;
        }
        is_first = false;
        text.extend_from_slice(hex_text(alloc, packet.bytes())?.as_slice())?;
    }
    if is_first {
        text.extend_from_slice(b"none")?;
    }
    Ok(text)
}

/// Returns the line of the entry of this number.
fn entry_shown(alloc: Global, entries: &[Entry], number: usize) -> Result<Vec<u8>, Trouble> {
    match entries.get(number) {
        Some(entry) => Ok(stored_entry_line(alloc, entry)?),
        None => Ok(Vec::from_slice(alloc, b"no entry")?),
    }
}

/// Returns the line of an entry.
fn stored_entry_line(alloc: Global, entry: &Entry) -> Result<Vec<u8>, AllocError> {
    let room = match entry.reply.compact() {
        CompactReply::Sent(_) => Some(PacketRoom::new(alloc)?),
        _ => None,
    };
    let reply = entry.reply.copy(alloc, room)?.into_reply();
    entry_line(alloc, entry.seat, &entry.call, &reply)
}
