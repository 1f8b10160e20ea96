//! ICMP messages in IP datagrams (RFC 792).
ghost use Rattle.std.specs.Prelude.{◌≡◌, ℕ, ◌+◌, ◌-◌, ◌≤◌, ◌∷◌, ◌++◌, [], length, take, drop, min, true, false, if◌then◌else◌, slice_index};
ghost use Rattle.click_gateway.specs.Addresses.{four, is_host};
ghost use Rattle.click_gateway.specs.Icmp.{carried, message, is_in_one_piece, is_first_piece, is_echo_request, echo_reply, is_error, may_report, report_of};
ghost use Rattle.click_packet.specs.Header.{source, stated_len, total_len, header_good};

use crate::addresses::{four, is_host};
use crate::datagrams::{Fields, send_as};
use click_packet::{Extent, Packet};

/// Overwrites the first four bytes with the type, the code and the checksum of an ICMP message.
fn seal(packet: &mut Packet, kind: u8, code: u8)
    requires { 4 ≤ length packet.old.bytes }
    ensures value { packet.new ≡ record packet.old { bytes = message kind code (drop 4 packet.old.bytes) } }
    ensures len { length packet.new.bytes ≡ length packet.old.bytes }
{
    packet.write(0, &[kind, code, 0, 0]);
    let sum = 65535 - packet.ones_sum(0, packet.bytes().len());
    packet.write(2, &[(sum / 256) as u8, (sum % 256) as u8]);
}

/// Returns whether a packet with a good header and this extent is an echo request.
fn asks_for_echo(packet: &Packet, extent: Extent) -> bool
    requires good { header_good packet.now.bytes [] ≡ true }
    requires header { extent.header ≡ stated_len packet.now.bytes }
    requires datagram { extent.datagram ≡ total_len packet.now.bytes }
    requires long { 20 ≤ extent.header }
    requires whole { extent.header ≤ extent.datagram }
    requires there { extent.datagram ≤ length packet.now.bytes }
    ensures value { result ≡ is_echo_request packet.now.bytes }
    ensures long { result ≡ true → extent.header + 8 ≤ extent.datagram }
{
    let bytes = packet.bytes();
    let begins = extent.header;
    begins == 20
        && bytes[9] == 1
        && bytes[6] % 64 == 0
        && bytes[7] == 0
        && is_host(four(bytes, 12))
        && is_host(four(bytes, 16))
        && begins + 8 <= extent.datagram
        && bytes[begins] == 8
        && bytes[begins + 1] == 0
        && packet.ones_sum(begins, extent.datagram) == 65535
}

/// Replaces an echo request by its reply, and sets the destination annotation to the host that
/// asked.
///
/// Returns whether the packet was an echo request. All other packets are left unchanged.
#[cold]
#[inline(never)]
#[tactic(auto, unfolding(crate::specs::Icmp::echo_reply))]
pub fn answer_echo(packet: &mut Packet) -> bool
    ensures value { result ≡ is_echo_request packet.old.bytes }
    ensures answered { packet.new ≡ (if is_echo_request packet.old.bytes
        then record packet.old { bytes = echo_reply packet.old.bytes; destination = source packet.old.bytes }
        else packet.old) }
{
    let Some(extent) = packet.extent() else {
        return false;
    };
    if !asks_for_echo(packet, extent) {
        return false;
    }
    let bytes = packet.bytes();
    let fields = Fields {
        protocol: 1,
        service: bytes[1],
        id: [bytes[4], bytes[5]],
        flags: 0,
        hops: 64,
        source: four(bytes, 16),
        destination: four(bytes, 12),
    };
    packet.truncate(extent.datagram);
    packet.strip(extent.header);
    seal(packet, 0, 0);
    send_as(packet, &fields);
    true
}

/// The type and code of an ICMP error, and the four bytes after its checksum.
#[derive(Clone, Copy, Debug, PartialEq, Eq)]
pub struct ErrorKind {
    pub kind: u8,
    pub code: u8,
    pub further: [u8; 4],
}

/// Returns whether an error may be sent about a packet with a good header and this extent.
fn may_report(packet: &Packet, extent: Extent) -> bool
    requires good { header_good packet.now.bytes [] ≡ true }
    requires header { extent.header ≡ stated_len packet.now.bytes }
    requires datagram { extent.datagram ≡ total_len packet.now.bytes }
    requires long { 20 ≤ extent.header }
    requires whole { extent.header ≤ extent.datagram }
    requires there { extent.datagram ≤ length packet.now.bytes }
    ensures { result ≡ may_report packet.now.bytes }
{
    let bytes = packet.bytes();
    bytes[6] % 32 == 0
        && bytes[7] == 0
        && is_host(four(bytes, 12))
        && is_host(four(bytes, 16))
        && !is_error(bytes, extent)
}

/// Returns whether the packet is an ICMP error itself, or an ICMP message that is cut off before
/// its type.
fn is_error(bytes: &[u8], extent: Extent) -> bool
    requires header { extent.header ≡ stated_len bytes.now }
    requires datagram { extent.datagram ≡ total_len bytes.now }
    requires long { 20 ≤ extent.header }
    requires whole { extent.header ≤ extent.datagram }
    requires there { extent.datagram ≤ length bytes.now }
    ensures { result ≡ is_error bytes.now }
{
    if bytes[9] != 1 {
        return false;
    }
    if extent.datagram <= extent.header {
        return true;
    }
    let kind = bytes[extent.header];
    kind == 3 || kind == 4 || kind == 5 || kind == 11 || kind == 12
}

/// Replaces a packet by the ICMP error about it from this address, and sets the destination
/// annotation to the packet's source.
///
/// Returns whether an error may be sent about the packet. All other packets are left unchanged.
#[cold]
#[inline(never)]
#[tactic(auto, unfolding(crate::specs::Icmp::report_of))]
pub fn report(packet: &mut Packet, own: [u8; 4], error: &ErrorKind) -> bool
    ensures value { result ≡ may_report packet.old.bytes }
    ensures reported { packet.new ≡ (if may_report packet.old.bytes
        then record packet.old { bytes = report_of own error.now.kind error.now.code error.now.further packet.old.bytes; destination = source packet.old.bytes }
        else packet.old) }
{
    let Some(extent) = packet.extent() else {
        return false;
    };
    if !may_report(packet, extent) {
        return false;
    }
    let bytes = packet.bytes();
    let fields = Fields {
        protocol: 1,
        service: 192 + bytes[1] % 32,
        id: [0, 0],
        flags: 0,
        hops: 64,
        source: own,
        destination: four(bytes, 12),
    };
    let further = error.further;
    packet.truncate(extent.datagram.min(548));
    let front = [0, 0, 0, 0, further[0], further[1], further[2], further[3]];
    match packet.prepend_array(&front) {
        Ok(()) => {}
        Err(_) => unreachable!(),
    }
    seal(packet, error.kind, error.code);
    send_as(packet, &fields);
    true
}
