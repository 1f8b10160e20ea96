//! Packets as words of a line.

ghost use Rattle.std.specs.Prelude.{◌≡◌, ◌++◌, IfOk, MatchOption, OnOk};
ghost use Rattle.click_lines.specs.Digits.{IsPacketOf, SpellsNone};
ghost use Rattle.click_lines.specs.Lines.{has_no_annotations, packet_word, packets_word};
ghost use Rattle.click_lines.specs.Reading.{ReadsAnnotations, ReadsPacket, ReadsPackets};

use crate::digits::{HexFault, hex_text, packet_of};
use crate::parts::cut;
use crate::reply::push_number;
use click_base::decimal_number;
use click_base::sequence::Sequence;
use click_classes::address;
use click_handlers::push_dotted;
use click_packet::{Packet, StoredPacket};
use std::alloc::{AllocError, Global};

/// Returns whether the packet has paint 0 and destination 0.0.0.0, as a packet has when it enters.
fn has_no_annotations(packet: &StoredPacket) -> bool
    ensures { result ≡ has_no_annotations packet.now }
{
    packet.paint() == 0 && packet.destination() == [0; 4]
}

/// Returns a packet as a word.
pub fn packet_word(alloc: Global, packet: &StoredPacket) -> Result<Vec<u8>, AllocError>
    ensures { IfOk result (λ text. text.items ≡ packet_word packet.now) }
{
    let mut text = hex_text(alloc, packet.bytes())?;
    if !has_no_annotations(packet) {
        text.push(b':')?;
        push_number(&mut text, u64::from(packet.paint()))?;
        text.push(b':')?;
        push_dotted(&mut text, packet.destination())?;
    }
    Ok(text)
}

/// Returns packets as one word, with commas between them.
pub fn packets_word(alloc: Global, packets: &[StoredPacket]) -> Result<Vec<u8>, AllocError>
    ensures { IfOk result (λ text. text.items ≡ packets_word packets.now) }
{
    let Some((first, rest)) = packets.split_first() else {
        return Ok(Vec::new(alloc));
    };
    let mut text = packet_word(alloc, first)?;
    for packet in rest {
        text.push(b',')?;
        text.extend_from_slice(&packet_word(alloc, packet)?)?;
    }
    Ok(text)
}

/// Parses a word as a packet.
pub fn packet_in(alloc: Global, word: &[u8]) -> Result<Option<StoredPacket>, AllocError>
    ensures { IfOk result (ReadsPacket word.now) }
{
    let (digits, annotations) = cut(word, b':');
    let Some(mut packet) = unannotated_packet(alloc, digits)? else {
        return Ok(None);
    };
    if !annotations.is_empty() {
        let Some(()) = read_annotations(&mut packet, annotations) else {
            return Ok(None);
        };
    }
    Ok(Some(StoredPacket::of(alloc, &packet)?))
}

/// Parses hex digits as a packet.
fn unannotated_packet(alloc: Global, digits: &[u8]) -> Result<Option<Packet>, AllocError>
    ensures { IfOk result (λ read. MatchOption read (SpellsNone digits.now) (IsPacketOf digits.now)) }
{
    match packet_of(alloc, digits) {
        Ok(packet) => Ok(Some(packet)),
        Err(fault) if fault == HexFault::NoMemory => Err(AllocError),
        Err(_) => Ok(None),
    }
}

/// Parses a paint and a destination with a colon between them, and sets them in the packet.
fn read_annotations(packet: &mut Packet, text: &[u8]) -> Option<()>
    ensures { ReadsAnnotations text.now packet.old packet.new result }
{
    let (paint, destination) = cut(text, b':');
    let paint = decimal_number(paint, 0, 255).ok()?;
    let destination = address(destination).ok()?;
    packet.set_paint(paint as u8);
    packet.set_destination(destination);
    Some(())
}

/// Parses a word as packets with commas between them.
pub fn packets_in(alloc: Global, word: &[u8]) -> Result<Option<Sequence<StoredPacket>>, AllocError>
    ensures { IfOk result (ReadsPackets word.now) }
{
    let mut packets = Sequence::new(alloc);
    let mut rest = word;
    while !rest.is_empty() {
        let (part, behind) = cut(rest, b',');
        let Some(packet) = packet_in(alloc, part)? else {
            return Ok(None);
        };
        packets.push(packet)?;
        rest = behind;
    }
    Ok(Some(packets))
}
