//! Frames and datagrams whose addresses are exchanged, or whose headers are mended or removed.
ghost use Rattle.std.specs.Prelude.{◌≡◌, ◌+◌, ◌≤◌, length, is_some, if◌then◌else◌};
ghost use Rattle.click_packet.specs.Header.{header_len, source, stated_len};
ghost use Rattle.click_gateway.specs.Mirrors.{is_frame, is_for, is_for_group, mirrored_frame, mirrored_addresses, has_ports, mirrored_ports, mirrored, with_checksum, without_header};

use crate::addresses::{four, six};
use click_packet::Packet;

/// Returns whether the packet is an Ethernet frame for the station with this address.
pub fn is_for(packet: &Packet, ether: [u8; 6]) -> bool
    ensures { result ≡ is_for ether packet.now.bytes }
{
    let frame = packet.bytes();
    frame.len() >= 14 && six(frame, 0) == ether
}

/// Returns whether the packet is an Ethernet frame for a group of stations, such as a broadcast.
pub fn is_for_group(packet: &Packet) -> bool
    ensures { result ≡ is_for_group packet.now.bytes }
{
    let frame = packet.bytes();
    frame.len() >= 14 && frame[0] % 2 == 1
}

/// Exchanges the two addresses of an Ethernet frame.
///
/// Returns false, and changes nothing, if there are fewer than 14 bytes.
#[tactic(auto, unfolding(crate::specs::Mirrors::mirrored_frame))]
pub fn mirror_frame(packet: &mut Packet) -> bool
    ensures value { result ≡ is_frame packet.old.bytes }
    ensures mirrored { packet.new ≡ (if is_frame packet.old.bytes then record packet.old { bytes = mirrored_frame packet.old.bytes } else packet.old) }
{
    let frame = packet.bytes();
    if frame.len() < 14 {
        return false;
    }
    let to = six(frame, 0);
    let from = six(frame, 6);
    let turned = [
        from[0], from[1], from[2], from[3], from[4], from[5], to[0], to[1], to[2], to[3], to[4],
        to[5],
    ];
    packet.write(0, &turned);
    true
}

/// Returns whether the packet has the ports of TCP or UDP after its header of `len` bytes.
fn has_ports(packet: &Packet, len: usize) -> bool
    requires stated { len ≡ stated_len packet.now.bytes }
    requires long { 20 ≤ len }
    requires there { len ≤ length packet.now.bytes }
    ensures value { result ≡ has_ports packet.now.bytes }
{
    let bytes = packet.bytes();
    (bytes[9] == 6 || bytes[9] == 17)
        && bytes[6] % 32 == 0
        && bytes[7] == 0
        && len + 4 <= bytes.len()
}

/// Exchanges the addresses of a datagram.
#[tactic(auto, unfolding(crate::specs::Mirrors::mirrored_addresses))]
fn exchange_addresses(packet: &mut Packet)
    requires { 20 ≤ length packet.old.bytes }
    ensures value { packet.new ≡ record packet.old { bytes = mirrored_addresses packet.old.bytes } }
    ensures len { length packet.new.bytes ≡ length packet.old.bytes }
{
    let bytes = packet.bytes();
    let from = four(bytes, 12);
    let to = four(bytes, 16);
    let turned = [
        to[0], to[1], to[2], to[3], from[0], from[1], from[2], from[3],
    ];
    packet.write(12, &turned);
}

/// Exchanges the two ports, the four bytes from index `at` on.
#[tactic(auto, unfolding(crate::specs::Mirrors::mirrored_ports))]
fn exchange_ports(packet: &mut Packet, at: usize)
    requires { at + 4 ≤ length packet.old.bytes }
    ensures { packet.new ≡ record packet.old { bytes = mirrored_ports at packet.old.bytes } }
{
    let bytes = packet.bytes();
    let turned = [bytes[at + 2], bytes[at + 3], bytes[at], bytes[at + 1]];
    packet.write(at, &turned);
}

/// Exchanges the addresses of a datagram, and the ports if it has them, and sets the destination
/// annotation to its new destination.
///
/// Returns false, and changes nothing, if there is no header.
pub fn mirror_datagram(packet: &mut Packet) -> bool
    ensures value { result ≡ is_some (header_len packet.old.bytes) }
    ensures mirrored { packet.new ≡ (if is_some (header_len packet.old.bytes)
        then record packet.old { bytes = mirrored packet.old.bytes; destination = source packet.old.bytes }
        else packet.old) }
{
    let Some(len) = packet.header_len() else {
        return false;
    };
    let from = four(packet.bytes(), 12);
    let ports = has_ports(packet, len);
    exchange_addresses(packet);
    if ports {
        exchange_ports(packet, len);
    }
    packet.set_destination(from);
    true
}

/// Sets the checksum of a datagram's header (RFC 791, section 3.1).
///
/// Returns false, and changes nothing, if there is no header.
#[tactic(auto, unfolding(crate::specs::Mirrors::with_checksum))]
pub fn set_checksum(packet: &mut Packet) -> bool
    ensures value { result ≡ is_some (header_len packet.old.bytes) }
    ensures sealed { packet.new ≡ (if is_some (header_len packet.old.bytes) then record packet.old { bytes = with_checksum packet.old.bytes } else packet.old) }
{
    match packet.ttl() {
        // The time to live stays the same, so that only the checksum changes.
        Some(ttl) => packet.set_ttl(ttl),
        None => false,
    }
}

/// Removes the header of a datagram, with its options.
///
/// Returns false, and changes nothing, if there is no header.
pub fn strip_header(packet: &mut Packet) -> bool
    ensures value { result ≡ is_some (header_len packet.old.bytes) }
    ensures stripped { packet.new ≡ (if is_some (header_len packet.old.bytes) then record packet.old { bytes = without_header packet.old.bytes } else packet.old) }
{
    let Some(len) = packet.header_len() else {
        return false;
    };
    packet.strip(len);
    true
}
