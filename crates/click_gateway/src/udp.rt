//! UDP datagrams in IP datagrams (RFC 768).
ghost use Rattle.std.specs.Prelude.{◌≡◌, ◌+◌, ◌≤◌, length, nat_le, if◌then◌else◌};
ghost use Rattle.click_gateway.specs.Udp.{segment, sent_sum, udp_datagram};
ghost use Rattle.click_packet.specs.Packet.{longest_packet};

use crate::datagrams::{Fields, send_as};
use click_packet::Packet;

/// The length of an IP header without options and a UDP header, in bytes.
const HEADERS_BYTES: usize = 28;

/// The maximum length of a packet, in bytes.
const MAX_PACKET_BYTES: usize = 1600;

/// The addresses and ports of the two ends of a tunnel.
#[derive(Clone, Copy, Debug, PartialEq, Eq)]
pub struct Tunnel {
    pub source: [u8; 4],
    pub source_port: u16,
    pub destination: [u8; 4],
    pub destination_port: u16,
}

/// Inserts a UDP header with its checksum before the bytes.
#[tactic(auto, unfolding(crate::specs::Udp::segment))]
fn prepend_udp(packet: &mut Packet, tunnel: &Tunnel)
    requires { length packet.old.bytes ≤ 1572 }
    ensures value { packet.new ≡ record packet.old { bytes = segment tunnel.now.source tunnel.now.source_port tunnel.now.destination tunnel.now.destination_port packet.old.bytes } }
    ensures len { length packet.new.bytes ≡ length packet.old.bytes + 8 }
{
    let len = packet.bytes().len() + 8;
    let from = tunnel.source;
    let to = tunnel.destination;
    // The pseudo header is in front only while the sum is computed.
    let front = [
        from[0],
        from[1],
        from[2],
        from[3],
        to[0],
        to[1],
        to[2],
        to[3],
        0,
        17,
        (len / 256) as u8,
        (len % 256) as u8,
        (tunnel.source_port / 256) as u8,
        (tunnel.source_port % 256) as u8,
        (tunnel.destination_port / 256) as u8,
        (tunnel.destination_port % 256) as u8,
        (len / 256) as u8,
        (len % 256) as u8,
        0,
        0,
    ];
    match packet.prepend_array(&front) {
        Ok(()) => {}
        Err(_) => unreachable!(),
    }
    let sum = sent_sum(65535 - packet.ones_sum(0, len + 12));
    packet.strip(12);
    packet.write(6, &[(sum / 256) as u8, (sum % 256) as u8]);
}

/// Returns the checksum that is sent: ffff instead of 0, since 0 stands for no checksum (RFC 768).
fn sent_sum(sum: u16) -> u16
    ensures { result ≡ sent_sum sum }
{
    if sum == 0 { 65535 } else { sum }
}

/// Inserts an IP header and a UDP header before the bytes, and sets the destination annotation to
/// the other end of the tunnel.
///
/// Returns false, and changes nothing, if there would be more than 1,600 bytes.
#[cold]
#[inline(never)]
#[tactic(auto, unfolding(crate::specs::Udp::udp_datagram))]
pub fn encapsulate_in_udp(packet: &mut Packet, tunnel: &Tunnel) -> bool
    ensures fits { result ≡ nat_le (28 + length packet.old.bytes) longest_packet }
    ensures encapsulated { packet.new ≡ (if nat_le (28 + length packet.old.bytes) longest_packet
        then record packet.old {
          bytes = udp_datagram tunnel.now.source tunnel.now.source_port tunnel.now.destination tunnel.now.destination_port packet.old.bytes;
          destination = tunnel.now.destination;
        }
        else packet.old) }
{
    if packet.bytes().len() > MAX_PACKET_BYTES - HEADERS_BYTES {
        return false;
    }
    prepend_udp(packet, tunnel);
    let fields = Fields {
        protocol: 17,
        service: 0,
        id: [0, 0],
        flags: 64,
        hops: 250,
        source: tunnel.source,
        destination: tunnel.destination,
    };
    send_as(packet, &fields);
    true
}
