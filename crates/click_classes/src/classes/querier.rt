//! The class that finds Ethernet addresses by ARP: ARPQuerier.

ghost use Rattle.std.specs.Prelude.{◌≡◌, ◌<◌, length, slice_get, Some, None};
ghost use Rattle.click_classes.specs.Neighbours.{Neighbour, place_of};
ghost use Rattle.click_gateway.specs.Addresses.{ethernet_of_group};
ghost use Rattle.click_gateway.specs.Arp.{sender};
ghost use Rattle.click_classes.specs.Acts.{counting, sent_to, asked, resolved, forwarded, taken_in, let_go, knowing, learnt};
ghost use Rattle.click_classes.specs.Made.{arp_querier};
ghost use Rattle.click_classes.specs.declared.state.State.{State};
ghost use Rattle.click_classes.specs.kept.Answers.{IsOrNoMemory};

use crate::arguments::Arguments;
use crate::fault::ArgFault;
use crate::neighbours::{Neighbours, Querier};
use crate::packet_effects::PortRange;
use crate::state::State;
use crate::values::address::address;
use crate::values::ethernet::ethernet;
use click_gateway::{arp_sender, ask_for, ethernet_of_group, is_host, with_ether_header};
use click_packet::Packet;
use std::alloc::Global;

/// The maximum number of bytes of a packet that gets an Ethernet header of 14 bytes.
const LONGEST_DATAGRAM: usize = 1600 - 14;

const NOWHERE: PortRange = PortRange { first: 0, count: 0 };

/// `ARPQuerier(IP, ETHER)` puts Ethernet headers before IP packets, and queries the Ethernet
/// addresses that it does not know (RFC 826). It is in the package `gateway`.
///
/// - Arguments: IP and ETHER, the addresses of the station that sends the queries.
/// - Ports: two push inputs; one push output, and optionally a second.
/// - Input 0 takes IP packets. A packet leaves at output 0 after an Ethernet header of type 0800 to
///   the Ethernet address of its destination annotation. The limited broadcast address and multicast
///   addresses have their Ethernet addresses at once (RFC 1112, section 6.4).
/// - If the Ethernet address is not known, the packet waits. An ARP query leaves at output 1, or at
///   output 0 if that is the only one. The query has the paint and the destination annotation of the
///   packet. One packet waits for each address. The next one replaces it, and each repeats the
///   query.
/// - Input 1 takes ARP packets in Ethernet frames. If the sender of a request or a reply is in the
///   table, its Ethernet address is known from then on, and the packet that waits for it leaves. A
///   sender that claims the Ethernet address of a group is not believed (RFC 1812, section 3.3.2).
///   One that claims 0:0:0:0:0:0 is believed. All other packets have no effect. No ARP packet leaves
///   the element. A request has the fields that an [ARPResponder](#arpresponder) tests, and a reply
///   has them with operation 2. Target addresses are not tested.
/// - The table has 256 addresses. A packet for a new address is dropped if the table is full, or if
///   the address cannot be one host's. So is one that another replaces.
/// - An address can be one host's if its first byte is 1 to 223, but not 127. So the broadcast
///   address of a network can be one host's.
/// - A packet of more than 1,586 bytes is dropped at once: it causes no query, and replaces no
///   packet.
/// - There is no clock, so an entry does not age. It changes when its host sends an ARP packet, and
///   `expire` removes entries that are no longer used. An entry is used by each packet to its
///   address that leaves or waits, by each ARP packet from it, and by `insert`. So the entry of a
///   host that never answers stays as long as packets to it arrive; `delete` removes it.
/// - A swap takes over the table, the packets that wait and the counts, also if IP or ETHER
///   differs.
/// - Read handlers: `table`, `count` and `drops`. `table` has a line for each entry, the oldest
///   first, with the address and the Ethernet address, or `-` if that is not known. `count` is the
///   number of entries, and `drops` that of dropped packets, at most 2^64 - 1.
/// - Write handlers: `insert`, `delete`, `clear`, `expire` and `reset_counts`.
/// - `insert` takes an address and an Ethernet address, which is known from then on (not an address,
///   out of range). An address that cannot be one host's is out of range, and so is an Ethernet
///   address that is zero or a group's. If the table is full, so is an address that has no entry.
/// - `delete` takes an address and removes its entry, if there is one (not an address). `clear`
///   removes all entries. `expire` takes a number N. It removes each entry after whose last use N or
///   more packets arrived at input 0 (not a number; above 2^64 - 1, out of range). `reset_counts`
///   sets `drops` to 0.
/// - A packet that waits for an entry that is removed or overwritten is dropped. Each dropped packet
///   is counted.
///
/// ```click
/// require(gateway);
/// FromDevice(a) -> GetIPAddress(16) -> q :: ARPQuerier(10.1.0.1, 2:0:0:0:0:1) -> Discard;
/// FromDevice(b) -> [1] q;
/// ```
///
/// ```calls
/// require(gateway); FromDevice(a) -> GetIPAddress(16) -> q :: ARPQuerier(10.1.0.1, 2:0:0:0:0:1)
/// -> Queue -> ToDevice(x); FromDevice(b) -> [1] q;
/// > arrive a 4500001fbeef00000111e6c70a0200020a0100027eb2829a000c00006461746101
/// entered 1
/// > transmit x
/// sent ffffffffffff020000000001080600010800060400010200000000010a0100010000000000000a010002 0 10.1.0.2
/// > arrive b 0200000000010200000000aa080600010800060400020200000000aa0a0100020200000000010a010001
/// entered 1
/// > transmit x
/// sent 0200000000aa02000000000108004500001fbeef00000111e6c70a0200020a0100027eb2829a000c00006461746101 0 10.1.0.2
/// > arrive a 45000014000000004011dead0a010001e00102ff
/// entered 1
/// > transmit x
/// sent 01005e0102ff020000000001080045000014000000004011dead0a010001e00102ff 0 224.1.2.255
/// > read q.table
/// value 31302e312e302e322030323a30303a30303a30303a30303a61610a
/// > write q.insert 10.1.0.3 2:0:0:0:0:bb
/// done
/// > read q.count
/// value 32
/// ```
#[tactic(auto, unfolding(crate::specs::Made::arp_querier))]
pub fn make_arp_querier(alloc: Global, arguments: &Arguments) -> Result<State, ArgFault>
    ensures { IsOrNoMemory (arp_querier arguments.now) result }
{
    if !arguments.are(2, 2) {
        return Err(ArgFault::ArgumentCount);
    }
    let ip = address(arguments.at(0))?;
    let ether = ethernet(arguments.at(1))?;
    match Neighbours::new(alloc) {
        Ok(table) => Ok(State::ARPQuerier {
            querier: Querier {
                ip,
                ether,
                table,
                packets: 0,
                drops: 0,
            },
        }),
        Err(_) => Err(ArgFault::NoMemory),
    }
}

/// Inserts the Ethernet header to `to`, and returns the output of the packet.
///
/// A packet that is too long for that is dropped and counted.
fn send_to(querier: &mut Querier, packet: &mut Packet, to: [u8; 6]) -> PortRange
    ensures { sent_to querier.old packet.old to ≡ record { state = State.ARPQuerier querier.new; packet = packet.new; outputs = result } }
{
    let from = querier.ether;
    if with_ether_header(packet, to, from).is_ok() {
        return PortRange { first: 0, count: 1 };
    }
    querier.drops = querier.drops.saturating_add(1);
    NOWHERE
}

/// Replaces a packet by the ARP query for its destination, and returns the output of the query.
fn ask(querier: &Querier, outputs: u16, packet: &mut Packet) -> PortRange
    ensures { asked outputs querier.now packet.old ≡ record { state = State.ARPQuerier querier.now; packet = packet.new; outputs = result } }
{
    let wanted = packet.destination();
    ask_for(packet, querier.ip, querier.ether, wanted);
    PortRange {
        first: if 1 < outputs { 1 } else { 0 },
        count: 1,
    }
}

/// Adds the destination of a packet to the table, and returns the output of the query for it.
///
/// A packet for an address that cannot be a host's, or for which there is no room, is dropped and
/// counted.
fn resolve_new(querier: &mut Querier, outputs: u16, packet: &mut Packet) -> PortRange
    ensures { resolved outputs querier.old packet.old None ≡ record { state = State.ARPQuerier querier.new; packet = packet.new; outputs = result } }
{
    let address = packet.destination();
    if is_host(address) && querier.table.has_room() {
        querier.table.add(address, packet, querier.packets);
        return ask(querier, outputs, packet);
    }
    querier.drops = querier.drops.saturating_add(1);
    NOWHERE
}

/// Sends a packet to the neighbour with this index, or stores it until its Ethernet address is
/// known.
fn resolve_at(querier: &mut Querier, outputs: u16, packet: &mut Packet, place: usize) -> PortRange
    requires { place < length querier.old.table }
    ensures { resolved outputs querier.old packet.old (Some place) ≡ record { state = State.ARPQuerier querier.new; packet = packet.new; outputs = result } }
{
    if let Some(to) = querier.table.ether(place) {
        querier.table.mark_used(place, querier.packets);
        return send_to(querier, packet, to);
    }
    if querier.table.hold(place, packet, querier.packets) {
        querier.drops = querier.drops.saturating_add(1);
    }
    ask(querier, outputs, packet)
}

/// Does what `send` does, for a packet to one address.
fn resolve(querier: &mut Querier, outputs: u16, packet: &mut Packet) -> PortRange
    ensures { resolved outputs querier.old packet.old (place_of querier.old.table packet.old.destination)
        ≡ record { state = State.ARPQuerier querier.new; packet = packet.new; outputs = result } }
{
    match querier.table.find(packet.destination()) {
        Some(place) => resolve_at(querier, outputs, packet, place),
        None => resolve_new(querier, outputs, packet),
    }
}

/// Sends a packet to its destination, or queries that. Returns the output.
fn send(querier: &mut Querier, outputs: u16, packet: &mut Packet) -> PortRange
    ensures { forwarded outputs querier.old packet.old (ethernet_of_group packet.old.destination)
        ≡ record { state = State.ARPQuerier querier.new; packet = packet.new; outputs = result } }
{
    match ethernet_of_group(packet.destination()) {
        Some(group) => send_to(querier, packet, group),
        None => resolve(querier, outputs, packet),
    }
}

/// Counts a packet at input 0, and sends it to its destination, or queries that. Returns the
/// output.
///
/// A packet that is too long for an Ethernet header is dropped and counted.
#[inline(never)]
pub fn forward(querier: &mut Querier, outputs: u16, packet: &mut Packet) -> PortRange
    ensures { taken_in outputs (counting querier.old) packet.old
        ≡ record { state = State.ARPQuerier querier.new; packet = packet.new; outputs = result } }
{
    querier.packets = querier.packets.saturating_add(1);
    if packet.bytes().len() > LONGEST_DATAGRAM {
        querier.drops = querier.drops.saturating_add(1);
        return NOWHERE;
    }
    send(querier, outputs, packet)
}

/// Stores the Ethernet address of the neighbour with this index, and sends the packet that waits
/// for it.
fn learn_at(querier: &mut Querier, packet: &mut Packet, place: usize, ether: [u8; 6]) -> PortRange
    requires { place < length querier.old.table }
    ensures { (n : Neighbour) → slice_get querier.old.table place ≡ Some n → let_go (knowing querier.old place n ether) packet.old ether n.waiting
        ≡ record { state = State.ARPQuerier querier.new; packet = packet.new; outputs = result } }
{
    if querier.table.learn(place, ether, packet, querier.packets) {
        return send_to(querier, packet, ether);
    }
    NOWHERE
}

/// Handles a packet at input 1: stores the Ethernet address of the sender of an ARP packet. Returns
/// the output of the packet that waited.
#[cold]
#[inline(never)]
pub fn learn(querier: &mut Querier, packet: &mut Packet) -> PortRange
    ensures { learnt querier.old packet.old (sender packet.old.bytes) ≡ record { state = State.ARPQuerier querier.new; packet = packet.new; outputs = result } }
{
    let Some(who) = arp_sender(packet) else {
        return NOWHERE;
    };
    match querier.table.find(who.ip) {
        Some(place) => learn_at(querier, packet, place, who.ether),
        None => NOWHERE,
    }
}
