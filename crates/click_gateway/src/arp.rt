//! ARP packets in Ethernet frames (RFC 826).
ghost use Rattle.std.specs.Prelude.{◌≡◌, ◌+◌, ◌≤◌, ◌++◌, length, option_map, IsOk, OnOk, OnErr, IfSome, ◌↔◌};
ghost use Rattle.click_gateway.specs.Arp.{is_arp, arp_frame, requested, reply_to, request_for, sender, sender_ip, sender_ether, ether_header, Sender};
ghost use Rattle.click_packet.specs.Packet.{longest_packet};

use crate::addresses::{four, six};
use click_packet::{Packet, TooLong};

const REQUEST: u8 = 1;

const REPLY: u8 = 2;

/// The sender of an ARP packet.
#[derive(Clone, Copy, Debug, PartialEq, Eq)]
pub struct ArpSender {
    pub ip: [u8; 4],
    pub ether: [u8; 6],
}

/// Returns whether the frame has an ARP packet for Ethernet and IPv4 with this opcode.
fn is_arp(frame: &[u8], opcode: u8) -> bool
    ensures { result ≡ is_arp opcode frame.now }
{
    frame.len() >= 42 && frame[12..22] == [8, 6, 0, 1, 8, 0, 6, 4, 0, opcode]
}

/// Returns the frame of 42 bytes to an Ethernet address, with the addresses of the sender and of
/// the target.
fn arp_frame(
    to: [u8; 6],
    opcode: u8,
    ether: [u8; 6],
    ip: [u8; 4],
    target_ether: [u8; 6],
    target_ip: [u8; 4],
) -> [u8; 42]
    ensures { result ≡ arp_frame to opcode ether ip target_ether target_ip }
{
    [
        to[0],
        to[1],
        to[2],
        to[3],
        to[4],
        to[5],
        ether[0],
        ether[1],
        ether[2],
        ether[3],
        ether[4],
        ether[5],
        8,
        6,
        0,
        1,
        8,
        0,
        6,
        4,
        0,
        opcode,
        ether[0],
        ether[1],
        ether[2],
        ether[3],
        ether[4],
        ether[5],
        ip[0],
        ip[1],
        ip[2],
        ip[3],
        target_ether[0],
        target_ether[1],
        target_ether[2],
        target_ether[3],
        target_ether[4],
        target_ether[5],
        target_ip[0],
        target_ip[1],
        target_ip[2],
        target_ip[3],
    ]
}

/// Returns the address that an ARP request asks for, or `None` if the packet is no request.
#[tactic(auto, unfolding(crate::specs::Arp::requested))]
pub fn requested_address(packet: &Packet) -> Option<[u8; 4]>
    ensures value { result ≡ requested packet.now.bytes }
    ensures long { IfSome result (λ address. 42 ≤ length packet.now.bytes) }
{
    let frame = packet.bytes();
    if is_arp(frame, REQUEST) {
        Some(four(frame, 38))
    } else {
        None
    }
}

/// Replaces an ARP request by the reply of a station with this Ethernet address (RFC 826).
#[cold]
#[inline(never)]
#[tactic(auto, unfolding(crate::specs::Arp::reply_to))]
pub fn reply_to_request(packet: &mut Packet, ether: [u8; 6])
    requires { 42 ≤ length packet.old.bytes }
    ensures { packet.new ≡ record packet.old { bytes = reply_to ether packet.old.bytes } }
{
    let frame = packet.bytes();
    let asking = six(frame, 22);
    let reply = arp_frame(
        asking,
        REPLY,
        ether,
        four(frame, 38),
        asking,
        four(frame, 28),
    );
    packet.replace(reply.as_slice());
}

/// Replaces a packet by the ARP request for `wanted` that a station with these addresses
/// broadcasts.
#[cold]
#[inline(never)]
#[tactic(auto, unfolding(crate::specs::Arp::request_for))]
pub fn ask_for(packet: &mut Packet, ip: [u8; 4], ether: [u8; 6], wanted: [u8; 4])
    ensures { packet.new ≡ record packet.old { bytes = request_for ip ether wanted } }
{
    let request = arp_frame(
        [255, 255, 255, 255, 255, 255],
        REQUEST,
        ether,
        ip,
        [0, 0, 0, 0, 0, 0],
        wanted,
    );
    packet.replace(request.as_slice());
}

/// Returns the sender of an ARP request or reply, or `None` if the packet is neither.
///
/// A sender that claims the Ethernet address of a group is not believed (RFC 1812, section 3.3.2).
#[tactic(auto, unfolding(crate::specs::Arp::sender))]
pub fn arp_sender(packet: &Packet) -> Option<ArpSender>
    ensures { option_map (λ s. record { ip = s.ip; ether = s.ether }) result ≡ sender packet.now.bytes }
{
    let frame = packet.bytes();
    if (is_arp(frame, REQUEST) || is_arp(frame, REPLY)) && frame[22] % 2 == 0 {
        Some(ArpSender {
            ip: four(frame, 28),
            ether: six(frame, 22),
        })
    } else {
        None
    }
}

/// Returns the Ethernet header of an IP datagram (RFC 894).
fn ether_header(to: [u8; 6], from: [u8; 6]) -> [u8; 14]
    ensures { result ≡ ether_header to from }
{
    [
        to[0], to[1], to[2], to[3], to[4], to[5], from[0], from[1], from[2], from[3], from[4],
        from[5], 8, 0,
    ]
}

/// Inserts the Ethernet header of an IP datagram before the bytes.
///
/// Fails with `TooLong`, and changes nothing, if there would be more than 1,600 bytes.
pub fn with_ether_header(packet: &mut Packet, to: [u8; 6], from: [u8; 6]) -> Result<(), TooLong>
    ensures ok { OnOk result (packet.new ≡ record packet.old { bytes = ether_header to from ++ packet.old.bytes }) }
    ensures fits { IsOk result ↔ (14 + length packet.old.bytes ≤ longest_packet) }
    ensures err { OnErr result (packet.new ≡ packet.old) }
{
    packet.prepend_array(&ether_header(to, from))
}
