//! Receivers: datagrams that arrive are put into a feed.

ghost use Rattle.std.specs.Prelude.{◌≡◌, ◌-◌, ◌^◌, ◌++◌, ◌∷◌, [], length, IfOk, OnOk, OnErr, MatchOption};
ghost use Rattle.click_links.specs.Fates.{put_of, asked_of, AllBelow, IsDue, Hears, Steps, Receives, heard};
ghost use Rattle.click_links.specs.declared.datagram.Datagram.{Datagram};

use crate::counts::Counts;
use crate::datagram::DatagramOutcome;
use crate::dropped::Dropped;
use crate::link::{Inbound, LinkFailed};
use crate::recorded_feed::RecordedFeed;
use click_packet::{Packet, PacketRoom};
use std::alloc::Global;
use std::sync::atomic::{AtomicBool, Ordering};
use std::thread::Parker;

/// Why a receiver ended.
#[derive(Clone, Copy, Debug, PartialEq, Eq)]
pub enum Ended {
    /// A stop was requested.
    Stopped,
    /// The link failed.
    Link,
}

/// The outcome of a receiver.
#[derive(Clone, Copy, Debug, PartialEq, Eq)]
pub struct ReceiverReport {
    pub dropped: Dropped,
    pub ended: Ended,
}

/// Offers the packet of the latest datagram to the feed, and returns the datagram's fate. Does not
/// offer it if the datagram is not from the peer or too long, or if there is no memory for its
/// packet.
fn offer_one<L: Inbound>(alloc: Global, intake: &mut RecordedFeed, link: &L) -> DatagramOutcome
    ensures ring { (intake.new.feed.ring ≡ intake.old.feed.ring) × (intake.new.feed.places ≡ intake.old.feed.places) }
    ensures asked { intake.new.asked ≡ intake.old.asked ++ asked_of result (L.current link.now).bytes }
    ensures put { intake.new.feed.put ≡ intake.old.feed.put ++ put_of result (L.current link.now).bytes }
    ensures due { IsDue intake.old.feed.places (length intake.old.feed.put) (L.current link.now) result }
{
    if !link.is_known() {
        return DatagramOutcome::ForeignSender;
    }
    let Ok(packet) = Packet::of(link.bytes()) else {
        return DatagramOutcome::TooLong;
    };
    match PacketRoom::new(alloc) {
        Ok(room) => {
            if intake.offer(room, &packet) {
                DatagramOutcome::Enqueued
            } else {
                DatagramOutcome::FeedFull
            }
        }
        Err(_) => DatagramOutcome::NoMemory,
    }
}

/// Blocks until a datagram comes or the link's timeout is over, and offers its packet to the feed.
fn receive_one<L: Inbound>(
    alloc: Global,
    intake: &mut RecordedFeed,
    link: &mut L,
) -> Result<Option<DatagramOutcome>, LinkFailed>
    ensures ok { IfOk result (λ one. MatchOption one
        ((L.received link.new ≡ L.received link.old) × (intake.new ≡ intake.old))
        (λ fate. (datagram : Datagram) × Hears (L.received link.old) (L.received link.new) intake.old intake.new (heard datagram fate ∷ []))) }
    ensures err { OnErr result ((L.received link.new ≡ L.received link.old) × (intake.new ≡ intake.old)) }
{
    match link.receive() {
        Ok(true) => Ok(Some(offer_one(alloc, intake, link))),
        Ok(false) => Ok(None),
        Err(_) => Err(LinkFailed),
    }
}

/// Blocks until a datagram comes or the link's timeout is over, and counts it. Returns whether its
/// packet was put.
fn receive_next<L: Inbound>(
    alloc: Global,
    intake: &mut RecordedFeed,
    link: &mut L,
    counts: &Counts,
    dropped: &mut Dropped,
) -> Result<bool, LinkFailed>
    requires { AllBelow dropped.old (2 ^ 64 - 1) }
    ensures ok { OnOk result (Steps (L.received link.old) (L.received link.new) intake.old intake.new dropped.old dropped.new) }
    ensures err { OnErr result ((L.received link.new ≡ L.received link.old) × (intake.new ≡ intake.old) × (dropped.new ≡ dropped.old)) }
{
    match receive_one(alloc, intake, link) {
        Ok(None) => Ok(false),
        Ok(Some(fate)) => {
            dropped.add(fate);
            counts.came(fate);
            Ok(fate == DatagramOutcome::Enqueued)
        }
        Err(failed) => Err(failed),
    }
}

/// Puts what comes into a feed, as `receive` does. Calls `tell` after each datagram, and after each
/// timeout, with whether a packet was put.
pub(crate) fn receive_with<L: Inbound, F: FnMut(bool, &L)>(
    alloc: Global,
    intake: &mut RecordedFeed,
    link: &mut L,
    stop: &AtomicBool,
    counts: &Counts,
    mut tell: F,
) -> ReceiverReport
    requires { F.IsAlwaysCallable tell }
    ensures { Receives (L.received link.old) (L.received link.new) intake.old intake.new result.dropped }
{
    let mut dropped = Dropped::none();
    for _ in 0..u64::MAX {
        if stop.load(Ordering::SeqCst) {
            break;
        }
        match receive_next(alloc, intake, link, counts, &mut dropped) {
            Ok(put) => tell(put, link),
            Err(LinkFailed) => {
                return ReceiverReport {
                    dropped,
                    ended: Ended::Link,
                };
            }
        }
    }
    ReceiverReport {
        dropped,
        ended: Ended::Stopped,
    }
}

/// Puts the packets of arriving datagrams into a feed, until a stop is requested or the link fails.
///
/// Counts each datagram, and wakes the thread that takes the packets after each one that was put.
/// Blocks on the link only. Out of memory does not end it: the datagram is dropped and counted.
pub fn receive<L: Inbound>(
    alloc: Global,
    intake: &mut RecordedFeed,
    link: &mut L,
    stop: &AtomicBool,
    wake: &Parker,
    counts: &Counts,
) -> ReceiverReport
    ensures { Receives (L.received link.old) (L.received link.new) intake.old intake.new result.dropped }
{
    receive_with(alloc, intake, link, stop, counts, |put, _| {
        if put {
            wake.unpark();
        }
    })
}
