//! The classes that answer for a gateway, by ARP (RFC 826) and ICMP (RFC 792): ARPResponder,
//! ICMPPingResponder and ICMPError.

ghost use Rattle.std.specs.Prelude.{◌≡◌, List, ℕ};
ghost use Rattle.click_gateway.specs.Icmp.{is_echo_request};
ghost use Rattle.click_classes.specs.Acts.{made_or};
ghost use Rattle.click_classes.specs.Gateway.{arp_reply, ping_reply, further, error_report};
ghost use Rattle.click_classes.specs.Made.{arp_responder, error_kind, icmp_error, station, without_arguments, ByWords};
ghost use Rattle.click_classes.specs.Steps.{each, OrNoMemory};
ghost use Rattle.click_classes.specs.declared.state.State.{State};
ghost use Rattle.click_classes.specs.kept.Answers.{IsOrNoMemory};

use crate::arguments::Arguments;
use crate::classes::plain::without_arguments;
use crate::fault::ArgFault;
use crate::packet_effects::Verdict;
use crate::state::State;
use crate::values::address::address;
use crate::values::number::number_in;
use crate::values::report::Report;
use crate::values::station::{Station, read_station, station_for};
use click_base::sequence::Sequence;
use click_gateway::{ErrorKind, answer_echo, reply_to_request, requested_address};
use click_packet::Packet;
use std::alloc::Global;

/// Parses the words of each argument as a station.
fn stations(
    alloc: Global,
    arguments: &[Sequence<Sequence<u8>>],
) -> Result<Sequence<Station>, ArgFault>
    ensures { IsOrNoMemory (each station arguments.now) result }
{
    let mut list = Sequence::new(alloc);
    for words in arguments {
        let station = read_station(alloc, words.as_slice())?;
        list.push(station)?;
    }
    Ok(list)
}

/// `ARPResponder(PREFIX.. ETHER, ..)` answers ARP requests (RFC 826). It is in the package
/// `gateway`.
///
/// - Arguments: 1 to 256 stations. A station is 1 to 64 prefixes and then an Ethernet address,
///   separated by spaces.
/// - Ports: one agnostic input; one agnostic output, and optionally a push output 1.
/// - Packets are Ethernet frames. An ARP request for an address that is in a prefix of a station
///   becomes the reply. That is a frame of 42 bytes from the station's Ethernet address to the
///   sender, and it keeps the paint and the destination annotation. If several stations have the
///   address, the first one replies. All other packets are pushed to output 1 if that is connected,
///   and are dropped otherwise. If such a packet was pulled, the pull returns no packet.
/// - An ARP request has at least 42 bytes, the type 0806, hardware type 1, protocol type 0800,
///   lengths 6 and 4, and operation 1. Its other fields, except the target's IP address, are not
///   tested.
/// - Handlers: none.
///
/// ```click
/// require(gateway);
/// FromDevice(a) -> r :: ARPResponder(10.1.0.1 10.1.1.0/24 2:0:0:0:0:1) -> Discard;
/// r [1] -> Discard;
/// ```
///
/// ```calls
/// require(gateway); FromDevice(a) -> r :: ARPResponder(10.1.0.1 2:0:0:0:0:1) -> Queue -> ToDevice(x);
/// r [1] -> c :: Counter -> Discard;
/// > arrive a ffffffffffff0200000000aa080600010800060400010200000000aa0a0100020000000000000a010001
/// entered 1
/// > transmit x
/// sent 0200000000aa020000000001080600010800060400020200000000010a0100010200000000aa0a010002 0 0.0.0.0
/// > arrive a ffffffffffff0200000000aa080600010800060400010200000000aa0a0100020000000000000a010063
/// entered 1
/// > transmit x
/// sent none
/// > read c.count
/// value 31
/// ```
#[tactic(auto, unfolding(crate::specs::Made::arp_responder))]
pub fn make_arp_responder(alloc: Global, arguments: &Arguments) -> Result<State, ArgFault>
    ensures { OrNoMemory (ByWords 1 256 arp_responder arguments.now) result }
{
    if !arguments.are(1, 256) {
        return Err(ArgFault::ArgumentCount);
    }
    let words = arguments.words(alloc)?;
    let stations = stations(alloc, words.as_slice())?;
    Ok(State::ARPResponder { stations })
}

/// Replaces an ARP request for an address of these stations by the reply.
///
/// All other packets are left unchanged, for the side output.
#[inline(never)]
pub fn answer_arp(stations: &[Station], packet: &mut Packet) -> Verdict
    ensures { (state : State) → made_or state (arp_reply stations.now packet.old) packet.old Verdict.SideOutput ≡ record { state = state; packet = packet.new; verdict = result } }
{
    let Some(address) = requested_address(packet) else {
        return Verdict::SideOutput;
    };
    let Some(ether) = station_for(stations, address) else {
        return Verdict::SideOutput;
    };
    reply_to_request(packet, ether);
    Verdict::Forward
}

/// `ICMPPingResponder` answers echo requests (RFC 792; RFC 1122, section 3.2.2.6). It is in the
/// package `gateway`.
///
/// - Arguments: none.
/// - Ports: one agnostic input; one agnostic output, and optionally a push output 1.
/// - Packets begin with an IP header. An echo request becomes its reply, with a new header of 20
///   bytes and a time to live of 64. The reply has the request's type of service, including ECN
///   ([LIMITS](LIMITS.md#what-is-missing)), its identification and its paint, and no flags. Its
///   destination annotation is the address of the host that asked. The bytes after the datagram are
///   removed. All other packets are pushed to output 1 if that is connected, and are dropped
///   otherwise. If such a packet was pulled, the pull returns no packet.
/// - An echo request has a valid header without options, is not fragmented, and has at least 8 bytes
///   of ICMP with type 8, code 0 and a right sum. Each of its addresses can be one host's
///   ([ARPQuerier](#arpquerier)). The destination need not be an address of the router.
/// - A request with IP options is no such request, because its reply would have to reverse a source
///   route.
/// - Handlers: none.
///
/// ```click
/// require(gateway);
/// FromDevice(a) -> Strip(14) -> p :: ICMPPingResponder -> Discard;
/// p [1] -> Discard;
/// ```
///
/// ```calls
/// require(gateway); FromDevice(a) -> p :: ICMPPingResponder -> Queue -> ToDevice(x);
/// p [1] -> c :: Counter -> Discard;
/// > arrive a 4500001f123400003f0155a60a0100020a0100010800339500070001616263000000
/// entered 1
/// > transmit x
/// sent 4500001f12340000400154a60a0100010a01000200003b9500070001616263 0 10.1.0.2
/// > arrive a 4500001f123400003f0155a60a0100020a0100010800339500070001616264000000
/// entered 1
/// > transmit x
/// sent none
/// > read c.count
/// value 31
/// ```
pub fn make_icmp_ping_responder(arguments: &Arguments) -> Result<State, ArgFault>
    ensures { result ≡ without_arguments State.ICMPPingResponder arguments.now }
{
    without_arguments(State::ICMPPingResponder, arguments)
}

/// Replaces an echo request by its reply.
///
/// All other packets are left unchanged, for the side output.
pub fn answer_ping(packet: &mut Packet) -> Verdict
    ensures { (state : State) → made_or state (ping_reply packet.old) packet.old Verdict.SideOutput ≡ record { state = state; packet = packet.new; verdict = result } }
{
    if answer_echo(packet) {
        Verdict::Forward
    } else {
        Verdict::SideOutput
    }
}

/// Parses the type of an ICMP error, which is its name or its number.
#[tactic(auto, unfolding(crate::specs::Made::error_kind))]
fn error_kind(bytes: &[u8]) -> Result<u8, ArgFault>
    ensures { result ≡ error_kind bytes.now }
{
    if bytes == b"unreachable".as_slice() {
        return Ok(3);
    }
    if bytes == b"redirect".as_slice() {
        return Ok(5);
    }
    if bytes == b"timeexceeded".as_slice() {
        return Ok(11);
    }
    if bytes == b"parameterproblem".as_slice() {
        return Ok(12);
    }
    let number = number_in(bytes, 0, 255)?;
    if number == 3 || number == 5 || number == 11 || number == 12 {
        Ok(number as u8)
    } else {
        Err(ArgFault::OutOfRange)
    }
}

/// `ICMPError(IP, TYPE [, CODE [, MTU]])` reports errors about packets (RFC 792; RFC 1812, section
/// 4.3). It is in the package `gateway`.
///
/// - Arguments: IP, the sender of the report; TYPE, a name or its number; CODE, from 0 to 255, by
///   default 0; MTU, from 0 to 65,535, by default 0. The types are `unreachable` (3), `redirect`
///   (5), `timeexceeded` (11) and `parameterproblem` (12).
/// - Ports: one agnostic input, one agnostic output.
/// - A packet becomes the report about it, a datagram of at most 576 bytes to its source. It has
///   precedence 6, the five low bits of the packet's type of service, including ECN
///   ([LIMITS](LIMITS.md#what-is-missing)), and a time to live of 64. Identification and flags are
///   0. The report quotes no padding. The paint stays, and the source becomes the destination
///   annotation. A redirect names the packet's destination annotation as the gateway. A report of
///   type 3 and code 4 (fragmentation needed) has the MTU (RFC 1191). All other reports have zeros
///   in these four bytes, so a parameter problem points to byte 0.
/// - No report is made about a packet with an invalid header, about a later fragment or about an
///   ICMP error (type 3, 4, 5, 11 or 12). The same holds for an ICMP packet without a byte behind
///   its header, and for a packet from or to an address that cannot be one host's
///   ([ARPQuerier](#arpquerier)). Such packets are dropped. A packet does not show that it came in a
///   broadcast frame: a Classifier finds these (`0/01%01`).
/// - Handlers: none.
///
/// ```click
/// require(gateway);
/// FromDevice(a) -> d :: DecIPTTL -> Discard;
/// d [1] -> ICMPError(10.1.0.1, timeexceeded) -> Discard;
/// ```
///
/// ```calls
/// require(gateway); FromDevice(a) -> ICMPError(10.1.0.1, timeexceeded) -> Queue -> ToDevice(x);
/// FromDevice(b) -> ICMPError(10.1.0.1, 3, 4, 1400) -> Queue -> ToDevice(y);
/// > arrive a 45100020beef00000111e6c70a0100020a0200027eb2829a000c000064617461
/// entered 1
/// > transmit x
/// sent 45d0003c00000000400165ed0a0100010a0100020b001ae40000000045100020beef00000111e6c70a0100020a0200027eb2829a000c000064617461 0 10.1.0.2
/// > arrive b 45100020beef00000111e6c70a0100020a0200027eb2829a000c000064617461
/// entered 1
/// > transmit y
/// sent 45d0003c00000000400165ed0a0100010a01000203041d680000057845100020beef00000111e6c70a0100020a0200027eb2829a000c000064617461 0 10.1.0.2
/// > arrive b 45d0003c00000000400122300a0100010a010002030122e30000000045100020beef00000111e6c70a0100020a0200027eb2829a000c000064617461
/// entered 1
/// > transmit y
/// sent none
/// ```
#[tactic(auto, unfolding(crate::specs::Made::icmp_error))]
pub fn make_icmp_error(arguments: &Arguments) -> Result<State, ArgFault>
    ensures { result ≡ icmp_error arguments.now }
{
    if !arguments.are(2, 4) {
        return Err(ArgFault::ArgumentCount);
    }
    let own = address(arguments.at(0))?;
    let kind = error_kind(arguments.at(1))?;
    let code = match arguments.get(2) {
        Some(bytes) => number_in(bytes, 0, 255)?,
        None => 0,
    };
    let mtu = match arguments.get(3) {
        Some(bytes) => number_in(bytes, 0, 65535)?,
        None => 0,
    };
    Ok(State::ICMPError {
        report: Report {
            own,
            kind,
            code: code as u8,
            mtu: mtu as u16,
        },
    })
}

/// Returns the four bytes after the checksum of a report.
fn further(report: &Report, packet: &Packet) -> [u8; 4]
    ensures { result ≡ further report.now packet.now }
{
    if report.kind == 5 {
        packet.destination()
    } else if report.kind == 3 && report.code == 4 {
        [0, 0, (report.mtu / 256) as u8, (report.mtu % 256) as u8]
    } else {
        [0, 0, 0, 0]
    }
}

/// Replaces a packet by the report of an error about it, if one may be sent.
///
/// All other packets are left unchanged, and are dropped.
pub fn report_error(report: &Report, packet: &mut Packet) -> Verdict
    ensures { (state : State) → made_or state (error_report report.now packet.old) packet.old Verdict.Dropped ≡ record { state = state; packet = packet.new; verdict = result } }
{
    let error = ErrorKind {
        kind: report.kind,
        code: report.code,
        further: further(report, packet),
    };
    if click_gateway::report(packet, report.own, &error) {
        Verdict::Forward
    } else {
        Verdict::Dropped
    }
}
