//! Lines of calls with their replies, written and read.

use super::stop::Stop;
use super::words::{read_address, read_byte, read_number, read_packet};
use crate::script::{cut, number_of};
use click_base::sequence::Sequence;
use click_lines::{entry_line, read_line, reply_text};
use click_packet::StoredPacket;
use click_router::{Call, DeviceName, Reply};
use std::alloc::Global;

/// Returns the line of a seat's call with its reply, which has to be read as the same.
///
/// The words are the seat, the reply and the call.
pub fn write_line(alloc: Global, words: &[u8]) -> Result<Vec<u8>, Stop> {
    let (seat, rest) = read_number(words)?;
    let (reply, call) = cut(rest, b' ');
    let reply = reply_of(alloc, reply)?;
    let call = call_of(alloc, call)?;
    line_of(alloc, seat, &call, &reply)
}

/// Returns the line of a seat's call with its reply, if it is read as the same.
fn line_of(alloc: Global, seat: usize, call: &Call, reply: &Reply) -> Result<Vec<u8>, Stop> {
    let line = entry_line(alloc, seat, call, reply)?;
    let text = reply_text(alloc, reply)?;
    if is_read_as(alloc, line.as_slice(), seat, call, text.as_slice())? {
        Ok(line)
    } else {
        Ok(Vec::from_slice(alloc, b"a line that is read as another")?)
    }
}

/// Returns whether a line is read as this seat's call with a reply of this text.
fn is_read_as(
    alloc: Global,
    line: &[u8],
    seat: usize,
    call: &Call,
    reply: &[u8],
) -> Result<bool, Stop> {
    match read_line(alloc, line)? {
        Some(read) => Ok(
            read.seat == seat && read.reply.as_slice() == reply && is_same_call(&read.call, call),
        ),
        None => Ok(false),
    }
}

/// Reads a line and returns the line of the entry that was read, or `none`.
pub fn read_back(alloc: Global, line: &[u8]) -> Result<Vec<u8>, Stop> {
    match read_line(alloc, line)? {
        Some(read) => Ok(read.text(alloc)?),
        None => Ok(Vec::from_slice(alloc, b"none")?),
    }
}

/// Returns a reply: `done`, `nodevice`, `entered:N` or `value:BYTES`.
fn reply_of(alloc: Global, word: &[u8]) -> Result<Reply, Stop> {
    let (name, rest) = cut(word, b':');
    match name {
        b"done" => Ok(Reply::Done),
        b"nodevice" => Ok(Reply::NoDevice),
        b"entered" => Ok(Reply::Entered(number_of(rest)? as u64)),
        b"value" => Ok(Reply::Value(Sequence::copy_of(alloc, rest)?)),
        _ => Err(Stop::Malformed),
    }
}

/// Returns the call of these words: `read`, `write`, `swap` or `poll`.
///
/// A tab separates a name from a text, and a device from its packets, because both may have blanks.
fn call_of(alloc: Global, words: &[u8]) -> Result<Call, Stop> {
    let (word, rest) = cut(words, b' ');
    let (first, last) = cut(rest, b'\t');
    match word {
        b"read" => Ok(Call::Read {
            name: Sequence::copy_of(alloc, first)?,
            text: Sequence::copy_of(alloc, last)?,
        }),
        b"write" => Ok(Call::Write {
            name: Sequence::copy_of(alloc, first)?,
            text: Sequence::copy_of(alloc, last)?,
        }),
        b"swap" => Ok(Call::Swap {
            text: Sequence::copy_of(alloc, rest)?,
        }),
        b"poll" => Ok(Call::Poll {
            device: DeviceName::copy_of(alloc, first)?,
            taken: packets_of(alloc, last)?,
        }),
        _ => Err(Stop::Malformed),
    }
}

fn packets_of(alloc: Global, list: &[u8]) -> Result<Sequence<StoredPacket>, Stop> {
    let mut packets = Sequence::new(alloc);
    for word in list.split(|byte| *byte == b',') {
        packets.push(marked_packet(alloc, word)?)?;
    }
    Ok(packets)
}

/// Returns a packet: `HEX`, or `HEX/PAINT/DESTINATION`.
fn marked_packet(alloc: Global, word: &[u8]) -> Result<StoredPacket, Stop> {
    let (digits, marks) = cut(word, b'/');
    let mut packet = read_packet(alloc, digits)?;
    if !marks.is_empty() {
        let (paint, destination) = cut(marks, b'/');
        packet.set_paint(read_byte(paint)?);
        packet.set_destination(read_address(destination)?);
    }
    Ok(StoredPacket::of(alloc, &packet)?)
}

/// Returns whether two calls of the kinds that `call_of` makes are the same.
fn is_same_call(call: &Call, other: &Call) -> bool {
    match (call, other) {
        (Call::Read { name, text }, Call::Read { name: n, text: t })
        | (Call::Write { name, text }, Call::Write { name: n, text: t }) => {
            name.as_slice() == n.as_slice() && text.as_slice() == t.as_slice()
        }
        (Call::Swap { text }, Call::Swap { text: t }) => text.as_slice() == t.as_slice(),
        (
            Call::Poll { device, taken },
            Call::Poll {
                device: d,
                taken: p,
            },
        ) => {
            device.as_slice() == d.as_slice() && are_same_packets(taken.as_slice(), p.as_slice())
        }
        _ => false,
    }
}

fn are_same_packets(packets: &[StoredPacket], others: &[StoredPacket]) -> bool {
    for (packet, other) in packets.iter().zip(others) {
        if packet.bytes() != other.bytes()
            || packet.paint() != other.paint()
            || packet.destination() != other.destination()
        {
            return false;
        }
    }
    packets.len() == others.len()
}
