//! The classes of the gateway package that change IP headers: IPMirror, SetIPChecksum, StripIPHeader
//! and UDPIPEncap.

ghost use Rattle.std.specs.Prelude.{◌≡◌};
ghost use Rattle.click_classes.specs.Acts.{made_or};
ghost use Rattle.click_classes.specs.Gateway.{datagram_mirror, checksum_set, header_stripped, udp_encapsulated};
ghost use Rattle.click_classes.specs.Made.{udp_ip_encap, without_arguments};
ghost use Rattle.click_classes.specs.declared.state.State.{State};

use crate::arguments::Arguments;
use crate::classes::plain::without_arguments;
use crate::fault::ArgFault;
use crate::packet_effects::Verdict;
use crate::state::State;
use crate::values::address::address;
use crate::values::number::number_in;
use click_gateway::{Tunnel, encapsulate_in_udp, mirror_datagram, set_checksum, strip_header};
use click_packet::Packet;

/// `IPMirror` exchanges the addresses and the ports of IP packets. It is in the package `gateway`.
///
/// - Arguments: none.
/// - Ports: one agnostic input, one agnostic output.
/// - Packets begin with a complete IP header ([DecIPTTL](#decipttl)). The source address and the
///   destination address are exchanged. The new destination becomes the destination annotation. If
///   the packet is TCP or UDP, is no later fragment, and has at least four bytes after its header,
///   the two ports are exchanged. No checksum changes, because the order of words does not change a
///   sum. A packet without such a header is dropped. If it was pulled, the pull returns no packet.
/// - Handlers: none.
///
/// ```click
/// require(gateway);
/// FromDevice(a) -> Strip(14) -> IPMirror -> Discard;
/// ```
///
/// ```calls
/// require(gateway); FromDevice(a) -> IPMirror -> Queue -> ToDevice(x);
/// > arrive a 45000021123400003f1155920a0100020a0200020fa00035000d982668656c6c6f
/// entered 1
/// > transmit x
/// sent 45000021123400003f1155920a0200020a01000200350fa0000d982668656c6c6f 0 10.1.0.2
/// > arrive a 44000021123400003f1155920a0100020a0200020fa00035000d982668656c6c6f
/// entered 1
/// > transmit x
/// sent none
/// ```
pub fn make_ip_mirror(arguments: &Arguments) -> Result<State, ArgFault>
    ensures { result ≡ without_arguments State.IPMirror arguments.now }
{
    without_arguments(State::IPMirror, arguments)
}

/// Exchanges the addresses and the ports of a packet with an IP header.
///
/// All other packets are left unchanged, and are dropped.
pub fn turn_datagram(packet: &mut Packet) -> Verdict
    ensures { (state : State) → made_or state (datagram_mirror packet.old) packet.old Verdict.Dropped ≡ record { state = state; packet = packet.new; verdict = result } }
{
    if mirror_datagram(packet) {
        Verdict::Forward
    } else {
        Verdict::Dropped
    }
}

/// `SetIPChecksum` sets the checksum of IP headers (RFC 791, section 3.1). It is in the package
/// `gateway`.
///
/// - Arguments: none.
/// - Ports: one agnostic input, one agnostic output.
/// - Packets begin with a complete IP header ([DecIPTTL](#decipttl)). The checksum (bytes 10 and 11)
///   becomes that of the header with its options. A packet without such a header is dropped. If it
///   was pulled, the pull returns no packet.
/// - Handlers: none.
///
/// ```click
/// require(gateway);
/// FromDevice(a) -> Strip(14) -> SetIPChecksum -> CheckIPHeader -> Discard;
/// ```
///
/// ```calls
/// require(gateway); FromDevice(a) -> SetIPChecksum -> Queue -> ToDevice(x);
/// > arrive a 45000021123400003f1100000a0100020a0200020fa00035000d982668656c6c6f
/// entered 1
/// > transmit x
/// sent 45000021123400003f1155920a0100020a0200020fa00035000d982668656c6c6f 0 0.0.0.0
/// > arrive a 45000021123400003f1100000a0100020a0200
/// entered 1
/// > transmit x
/// sent none
/// ```
pub fn make_set_ip_checksum(arguments: &Arguments) -> Result<State, ArgFault>
    ensures { result ≡ without_arguments State.SetIPChecksum arguments.now }
{
    without_arguments(State::SetIPChecksum, arguments)
}

/// Sets the checksum of a packet with an IP header.
///
/// All other packets are left unchanged, and are dropped.
pub fn seal_header(packet: &mut Packet) -> Verdict
    ensures { (state : State) → made_or state (checksum_set packet.old) packet.old Verdict.Dropped ≡ record { state = state; packet = packet.new; verdict = result } }
{
    if set_checksum(packet) {
        Verdict::Forward
    } else {
        Verdict::Dropped
    }
}

/// `StripIPHeader` removes IP headers. It is in the package `gateway`.
///
/// - Arguments: none.
/// - Ports: one agnostic input, one agnostic output.
/// - Packets begin with a complete IP header ([DecIPTTL](#decipttl)). The header is removed, with
///   its options. A packet without such a header is dropped. If it was pulled, the pull returns no
///   packet.
/// - Handlers: none.
///
/// ```click
/// require(gateway);
/// FromDevice(a) -> Strip(14) -> StripIPHeader -> Strip(8) -> Discard;
/// ```
///
/// ```calls
/// require(gateway); FromDevice(a) -> StripIPHeader -> Queue -> ToDevice(x);
/// > arrive a 45000021123400003f1155920a0100020a0200020fa00035000d982668656c6c6f
/// entered 1
/// > transmit x
/// sent 0fa00035000d982668656c6c6f 0 0.0.0.0
/// > arrive a 46000021123400003f1155920a0100020a020002
/// entered 1
/// > transmit x
/// sent none
/// ```
pub fn make_strip_ip_header(arguments: &Arguments) -> Result<State, ArgFault>
    ensures { result ≡ without_arguments State.StripIPHeader arguments.now }
{
    without_arguments(State::StripIPHeader, arguments)
}

/// Removes the IP header of a packet.
///
/// Packets without one are left unchanged, and are dropped.
pub fn remove_header(packet: &mut Packet) -> Verdict
    ensures { (state : State) → made_or state (header_stripped packet.old) packet.old Verdict.Dropped ≡ record { state = state; packet = packet.new; verdict = result } }
{
    if strip_header(packet) {
        Verdict::Forward
    } else {
        Verdict::Dropped
    }
}

/// `UDPIPEncap(SRC, SPORT, DST, DPORT)` puts packets into UDP datagrams (RFC 768; RFC 791). It is in
/// the package `gateway`.
///
/// - Arguments: SRC and DST, IP addresses; SPORT and DPORT, numbers from 0 to 65,535.
/// - Ports: one agnostic input, one agnostic output.
/// - An IP header of 20 bytes and a UDP header of 8 bytes are put before the bytes of the packet,
///   with right checksums. The time to live is 250 and the type of service 0. The datagram may not
///   be fragmented (DF), and its identification is 0 (RFC 6864). DST becomes the destination
///   annotation. A packet that would have more than 1,600 bytes is dropped. If it was pulled, the
///   pull returns no packet.
/// - Handlers: none.
///
/// ```click
/// require(gateway);
/// FromDevice(a) -> UDPIPEncap(10.1.0.1, 4000, 10.2.0.2, 5000) -> Discard;
/// ```
///
/// ```calls
/// require(gateway); FromDevice(a) -> UDPIPEncap(10.1.0.1, 4000, 10.2.0.2, 5000) -> Queue -> ToDevice(x);
/// > arrive a 616263
/// entered 1
/// > transmit x
/// sent 4500001f00004000fa116cc80a0100010a0200020fa01388000b0448616263 0 10.2.0.2
/// > arrive a -
/// entered 1
/// > transmit x
/// sent 4500001c00004000fa116ccb0a0100010a0200020fa013880008c8b0 0 10.2.0.2
/// ```
#[tactic(auto, unfolding(crate::specs::Made::udp_ip_encap))]
pub fn make_udp_ip_encap(arguments: &Arguments) -> Result<State, ArgFault>
    ensures { result ≡ udp_ip_encap arguments.now }
{
    if !arguments.are(4, 4) {
        return Err(ArgFault::ArgumentCount);
    }
    let source = address(arguments.at(0))?;
    let source_port = number_in(arguments.at(1), 0, 65_535)?;
    let destination = address(arguments.at(2))?;
    let destination_port = number_in(arguments.at(3), 0, 65_535)?;
    Ok(State::UDPIPEncap {
        tunnel: Tunnel {
            source,
            source_port: source_port as u16,
            destination,
            destination_port: destination_port as u16,
        },
    })
}

/// Puts a packet into a UDP datagram.
///
/// Packets that are too long for that are left unchanged, and are dropped.
pub fn enter_tunnel(tunnel: &Tunnel, packet: &mut Packet) -> Verdict
    ensures { (state : State) → made_or state (udp_encapsulated tunnel.now packet.old) packet.old Verdict.Dropped ≡ record { state = state; packet = packet.new; verdict = result } }
{
    if encapsulate_in_udp(packet, tunnel) {
        Verdict::Forward
    } else {
        Verdict::Dropped
    }
}
