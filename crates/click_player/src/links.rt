//! Links over memory: datagrams that arrive, and packets that leave.

ghost use Rattle.std.specs.Prelude.{◌≡◌, ◌<◌, IfOk, length};

use crate::feeds::Driver;
use crate::script::{Trouble, cut, number_of};
use click_base::sequence::Sequence;
use click_lines::hex_text;
use click_links::{
    CountSnapshot, Datagram, Device, Ended, MemoryIn, MemoryOut, ReceiverReport, RecordedFeed,
    SweepResult, Turn, receive,
};
use hex::FromHexError;
use std::alloc::{AllocError, Global};
use std::sync::atomic::AtomicBool;
use std::thread::Parker;

/// The devices of links, and the sending side of the links, which stores what it sends.
#[derive(Drop)]
pub struct LinkEnds {
    pub devices: Vec<Device>,
    pub sender: MemoryOut,
}

/// Returns the links of `DEVICES NAMES MOST`.
///
/// These are the devices that are served, the devices with links on the sending side, and the
/// number of packets that the sending side stores.
pub fn links_of(alloc: Global, words: &[u8]) -> Result<LinkEnds, Trouble> {
    let (devices, rest) = cut(words, b' ');
    let (names, most) = cut(rest, b' ');
    let mut served = Vec::new(alloc);
    for name in devices.split(|byte| *byte == b',') {
        served.push(Device::new(Sequence::copy_of(alloc, name)?))?;
    }
    let names = names_of(alloc, names)?;
    Ok(LinkEnds {
        devices: served,
        sender: MemoryOut::new(alloc, names, number_of(most)?),
    })
}

fn names_of(alloc: Global, words: &[u8]) -> Result<Vec<Sequence<u8>>, AllocError> {
    let mut names = Vec::new(alloc);
    for name in words.split(|byte| *byte == b',') {
        names.push(Sequence::copy_of(alloc, name)?)?;
    }
    Ok(names)
}

impl LinkEnds {
    /// Returns the index of the device.
    pub fn device_at(&self, name: &[u8]) -> Result<usize, Trouble>
        ensures { IfOk result (λ place. place < length self.now.devices.items) }
    {
        for (place, device) in self.devices.iter().enumerate() {
            if device.name.as_slice() == name {
                return Ok(place);
            }
        }
        Err(Trouble::Malformed)
    }

    /// Returns the counts of a device.
    pub fn counts(&self, name: &[u8]) -> Result<CountSnapshot, Trouble> {
        let place = self.device_at(name)?;
        match self.devices.get(place) {
            Some(device) => Ok(device.counts.read()),
            None => Err(Trouble::Malformed),
        }
    }

    /// Returns the packets that left by the link of a device, in order.
    pub fn sent_shown(&self, alloc: Global, name: &[u8]) -> Result<Vec<u8>, AllocError> {
        let mut text = Vec::new(alloc);
        for (device, packet) in self.sender.packets() {
            if device.as_slice() == name {
                if !text.is_empty() {
                    text.push(b',')?;
                }
                text.extend_from_slice(hex_text(alloc, packet.bytes())?.as_slice())?;
            }
        }
        if text.is_empty() {
            text.extend_from_slice(b"none")?;
        }
        Ok(text)
    }
}

/// Returns the datagrams of these words, each in hex digits, after `!` if it is not from the peer.
pub fn datagrams_of(alloc: Global, words: &[u8]) -> Result<MemoryIn, Trouble> {
    let mut all = Vec::new(alloc);
    for word in words.split(|byte| *byte == b' ') {
        all.push(datagram_of(alloc, word)?)?;
    }
    Ok(MemoryIn::new(all))
}

fn datagram_of(alloc: Global, word: &[u8]) -> Result<Datagram, Trouble> {
    let (known, digits) = match word.strip_prefix(b"!") {
        Some(digits) => (false, digits),
        None => (true, word),
    };
    if digits == b"-".as_slice() {
        let bytes = Sequence::new(alloc);
        return Ok(Datagram { bytes, known });
    }
    match hex::decode(alloc, digits) {
        Ok(bytes) => {
            let bytes = Sequence::of(bytes);
            Ok(Datagram { bytes, known })
        }
        Err(FromHexError::OutOfMemory) => Err(Trouble::NoMemory),
        Err(_) => Err(Trouble::Malformed),
    }
}

/// Receives all datagrams of a link into the feed of a driver, and returns it with the outcome.
pub fn receive_all(
    alloc: Global,
    driver: Driver,
    link: MemoryIn,
    device: &Device,
) -> (Driver, ReceiverReport)
    ensures { result.0 ≡ driver }
{
    let Driver { device: name, feed } = driver;
    let mut intake = RecordedFeed::of(feed);
    let mut link = link;
    let stop = AtomicBool::new(false);
    let wake = Parker::new();
    let received = receive(alloc, &mut intake, &mut link, &stop, &wake, &device.counts);
    let feed = intake.into_feed();
    let driver = Driver { device: name, feed };
    (driver, received)
}

/// Returns the text of the outcome of a receiver.
pub fn received_text(alloc: Global, received: &ReceiverReport) -> Result<Vec<u8>, AllocError> {
    let end = match received.ended {
        Ended::Stopped => "stopped",
        Ended::Link => "link ended",
    };
    let strangers = received.dropped.strangers;
    let too_long = received.dropped.too_long;
    let no_room = received.dropped.no_room;
    let no_memory = received.dropped.no_memory;
    let text = format!(in alloc;
        "{end}, strangers {strangers}, too long {too_long}, no room {no_room}, no memory {no_memory}"
    )?;
    Ok(text.into_bytes())
}

/// Returns the text of counts.
pub fn counts_text(alloc: Global, counts: &CountSnapshot) -> Result<Vec<u8>, AllocError> {
    let CountSnapshot {
        received,
        strangers,
        too_long,
        no_room,
        no_memory,
        entered,
        sent,
        failed,
    } = *counts;
    let text = format!(in alloc;
        "received {received}, strangers {strangers}, too long {too_long}, no room {no_room}, no memory {no_memory}, entered {entered}, sent {sent}, failed {failed}"
    )?;
    Ok(text.into_bytes())
}

/// Returns the text of a device turn.
pub fn turn_text(alloc: Global, turn: &Turn) -> Result<Vec<u8>, AllocError> {
    if turn.is_idle() && !turn.more {
        return Vec::from_slice(alloc, b"idle");
    }
    let entered = turn.entered;
    let sent = turn.tally.sent;
    let lost = turn.tally.lost;
    let more = if turn.more { ", more" } else { "" };
    let text = format!(in alloc; "entered {entered}, sent {sent}, lost {lost}{more}")?;
    Ok(text.into_bytes())
}

/// Returns the text of a sweep: its turns with semicolons between them, and its rounds.
pub fn sweep_text(alloc: Global, sweep: &SweepResult) -> Result<Vec<u8>, AllocError> {
    if sweep.is_idle() && !sweep.more {
        return Vec::from_slice(alloc, b"idle");
    }
    let mut text = Vec::new(alloc);
    for turn in &sweep.turns {
        text.extend_from_slice(turn_text(alloc, turn)?.as_slice())?;
        text.extend_from_slice(b"; ")?;
    }
    let rounds = sweep.rounds;
    let more = if sweep.more { ", more" } else { "" };
    let last = format!(in alloc; "rounds {rounds}{more}")?;
    text.extend_from_slice(last.as_bytes())?;
    Ok(text)
}
