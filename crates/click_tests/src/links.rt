//! Two links over memory, each in a thread of its own.

ghost use Rattle.std.specs.Prelude.{◌≡◌, length, IfOk, vec_len};

use crate::cases::{Case, assert_case};
use crate::desks::{Opened, last_seat, open};
use crate::drivers::Driver;
use click_base::sequence::Sequence;
use click_desk::{Desk, Seat};
use click_links::{
    CountSnapshot, Datagram, Device, Dropped, Ended, Inbound, LinkFailed, LinkSet, LinksOutcome,
    MemoryIn, MemoryOut, Receiver, ReceiverReport, RecordedFeed, run_links,
};
use click_packet::StoredPacket;
use click_router::Handlers;
use std::alloc::{AllocError, Global};
use std::sync::Wait;
use std::sync::atomic::{AtomicBool, AtomicUsize, Ordering};
use std::test::Fail;
use std::thread::Threads;

/// What enters from one device leaves by the other.
const CROSSED: &[u8] =
    b"FromDevice(a) -> Queue(8) -> ToDevice(b); FromDevice(b) -> Queue(8) -> ToDevice(a);";

/// The bytes of a datagram that has one byte more than a packet may have.
const TOO_MANY: usize = 1601;

/// The number of packets that the sender keeps.
const KEPT: usize = 8;

fn datagram(alloc: Global, bytes: &[u8], known: bool) -> Result<Datagram, AllocError> {
    let bytes = Sequence::copy_of(alloc, bytes)?;
    Ok(Datagram { bytes, known })
}

/// Returns three packets, one of them empty, with a stranger's and one that is too long between.
fn mixed(alloc: Global) -> Result<MemoryIn, AllocError> {
    let mut all = Vec::new(alloc);
    all.push(datagram(alloc, b"ab", true)?)?;
    all.push(datagram(alloc, b"xy", false)?)?;
    all.push(datagram(alloc, &vec![in alloc; 0; TOO_MANY]?, true)?)?;
    all.push(datagram(alloc, b"", true)?)?;
    all.push(datagram(alloc, b"cd", true)?)?;
    Ok(MemoryIn::new(all))
}

/// Returns two packets.
fn pair(alloc: Global) -> Result<MemoryIn, AllocError> {
    let mut all = Vec::new(alloc);
    all.push(datagram(alloc, b"ef", true)?)?;
    all.push(datagram(alloc, b"gh", true)?)?;
    Ok(MemoryIn::new(all))
}

/// Returns a sender that keeps packets of both devices.
fn sender(alloc: Global) -> Result<MemoryOut, AllocError> {
    let mut names = Vec::new(alloc);
    names.push(Sequence::copy_of(alloc, b"a")?)?;
    names.push(Sequence::copy_of(alloc, b"b")?)?;
    Ok(MemoryOut::new(alloc, names, KEPT))
}

/// Returns whether the link of the device sent these packets, in this order.
fn sent_by(device: &[u8], packets: &[(Sequence<u8>, StoredPacket)], wanted: &[&[u8]]) -> bool {
    let mut left = wanted;
    for (name, packet) in packets {
        if name.as_slice() == device {
            match left {
                [first, rest @ ..] if packet.bytes() == *first => left = rest,
                _ => return false,
            }
        }
    }
    left.is_empty()
}

/// Returns the devices of both links.
fn both(alloc: Global) -> Result<Vec<Device>, AllocError>
    ensures { IfOk result (λ devices. length devices.items ≡ 2) }
{
    let mut devices = Vec::with_capacity(alloc, 2)?;
    let first = Device::new(Sequence::copy_of(alloc, b"a")?);
    let second = Device::new(Sequence::copy_of(alloc, b"b")?);
    devices.push_reserved(first);
    devices.push_reserved(second);
    Ok(devices)
}

/// Counts a link whose datagrams have all come. With the last one it sets `stop`.
fn count_down(left: &AtomicUsize, stop: &AtomicBool) {
    if left.fetch_sub(1, Ordering::SeqCst) == 1 {
        stop.store(true, Ordering::SeqCst);
    }
}

/// Datagrams from memory. When those of all links have come, the run stops.
#[derive(Drop)]
struct Closing<'a> {
    listed: MemoryIn,
    left: &'a AtomicUsize,
    stop: &'a AtomicBool,
}

impl Inbound for Closing<'_> {
    ghost received = { λ c. ⟦<MemoryIn as Inbound>⟧.received c.listed };

    ghost current = { λ c. ⟦<MemoryIn as Inbound>⟧.current c.listed };

    fn receive(&mut self) -> Result<bool, LinkFailed> {
        let Ok(one) = self.listed.receive() else {
            count_down(self.left, self.stop);
            return Err(LinkFailed);
        };
        Ok(one)
    }

    fn bytes(&self) -> &[u8] {
        self.listed.bytes()
    }

    fn is_known(&self) -> bool {
        self.listed.is_known()
    }
}

/// Returns two receivers, of five datagrams and of two.
fn receivers<'a>(
    alloc: Global,
    first: RecordedFeed,
    second: RecordedFeed,
    left: &'a AtomicUsize,
    stop: &'a AtomicBool,
) -> Result<Vec<Receiver<Closing<'a>>>, AllocError>
    ensures { IfOk result (λ links. vec_len links ≡ 2) }
{
    let mut links = Vec::with_capacity(alloc, 2)?;
    let a = Sequence::copy_of(alloc, b"a")?;
    let listed = mixed(alloc)?;
    links.push_reserved(Receiver::new(a, first, Closing { listed, left, stop }));
    let b = Sequence::copy_of(alloc, b"b")?;
    let listed = pair(alloc)?;
    links.push_reserved(Receiver::new(b, second, Closing { listed, left, stop }));
    Ok(links)
}

/// The counts of the link of five datagrams.
const FIVE: CountSnapshot = CountSnapshot {
    received: 5,
    strangers: 1,
    too_long: 1,
    no_room: 0,
    no_memory: 0,
    entered: 3,
    sent: 2,
    failed: 0,
};

/// The counts of the link of two datagrams.
const TWO: CountSnapshot = CountSnapshot {
    received: 2,
    strangers: 0,
    too_long: 0,
    no_room: 0,
    no_memory: 0,
    entered: 2,
    sent: 3,
    failed: 0,
};

/// What the link of five datagrams dropped.
const TWO_DROPPED: Dropped = Dropped {
    strangers: 1,
    too_long: 1,
    no_room: 0,
    no_memory: 0,
};

/// Returns whether a receiver ended with its link and dropped these datagrams.
fn is_ended<L>(link: &Receiver<L>, dropped: Dropped) -> bool {
    let ended = Ended::Link;
    link.received == ReceiverReport { dropped, ended }
}

/// Returns whether both receivers ended with their links, and each count is right.
fn all_came<L: Drop>(links: &[Receiver<L>], devices: &[Device]) -> bool {
    match (links, devices) {
        ([first, second], [a, b]) => {
            is_ended(first, TWO_DROPPED)
                & is_ended(second, Dropped::none())
                & (a.counts.read() == FIVE)
                & (b.counts.read() == TWO)
        }
        _ => false,
    }
}

/// Returns the feeds of two device drivers, in their order, as those of receivers.
fn intakes_of(mut drivers: Vec<Driver>) -> Option<(RecordedFeed, RecordedFeed)> {
    let second = drivers.pop()?;
    let first = drivers.pop()?;
    Some((RecordedFeed::of(first.feed), RecordedFeed::of(second.feed)))
}

/// Returns whether a run of two links sent what each of them received.
fn has_crossed<T: Drop>(
    linked: &LinksOutcome<T, Closing<'_>, MemoryOut>,
    devices: &[Device],
) -> bool {
    let packets = linked.sender.packets();
    linked.fault.is_none()
        & all_came(linked.links.as_slice(), devices)
        & sent_by(b"b", packets, &[b"ab", b"", b"cd"])
        & sent_by(b"a", packets, &[b"ef", b"gh"])
}

/// Runs two links at a desk until the last datagram of each has come.
fn run_crossed<T: Handlers + Send + Drop, R: Threads + Wait + Sync>(
    rt: &R,
    alloc: Global,
    desk: &Desk<T, &R>,
    seat: Seat<T>,
    intakes: (RecordedFeed, RecordedFeed),
) -> Option<bool>
    requires { seat.desk ≡ desk.now }
{
    let (first, second) = intakes;
    let left = AtomicUsize::new(2);
    let stop = AtomicBool::new(false);
    let receivers = receivers(alloc, first, second, &left, &stop).ok()?;
    let devices = both(alloc).ok()?;
    let devices = devices.as_slice();
    let sender = sender(alloc).ok()?;
    let link_set = LinkSet {
        devices,
        receivers,
        sender,
    };
    let linked = run_links(rt, alloc, desk, seat, link_set, &stop);
    Some(has_crossed(&linked, devices))
}

/// Opens a desk, and runs two links at it until the last datagram of each has come.
pub(crate) fn both_links<T: Handlers + Send + Drop, R: Threads + Wait + Sync>(
    rt: &R,
    alloc: Global,
    table: T,
) -> Option<bool> {
    let Opened {
        desk,
        seats,
        views: _,
        drivers,
    } = open(rt, alloc, table, CROSSED, 1, 0, b"ab")?;
    let (seat, _none) = last_seat(&desk, &drivers, seats)?;
    run_crossed(rt, alloc, &desk, seat, intakes_of(drivers)?)
}

/// Of two links in threads, each sends in order the packets that the other received, and each
/// datagram is counted.
#[test]
fn two_links_cross(rt: HostRuntime) -> Result<(), Fail> {
    assert_case(&rt, rt.alloc(), None, Case::BothLinks)
}
