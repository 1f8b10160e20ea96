//! The classes that read the internet header: CheckIPHeader and DecIPTTL.

ghost use Rattle.std.specs.Prelude.{◌≡◌, ◌==◌, [], Ok, length, slice_index_or, if◌then◌else◌, Option, Some};
ghost use Rattle.click_classes.specs.Values.{address};
ghost use Rattle.click_classes.specs.Made.{addresses, check_ip_header, without_arguments, ByWords};
ghost use Rattle.click_classes.specs.Steps.{each, OrNoMemory};
ghost use Rattle.click_classes.specs.kept.Answers.{IsOrNoMemory};
ghost use Rattle.click_classes.specs.Acts.{aged};
ghost use Rattle.click_packet.specs.Header.{header_good, ttl};

use crate::arguments::Arguments;
use crate::classes::plain::without_arguments;
use crate::fault::ArgFault;
use crate::packet_effects::Verdict;
use crate::state::State;
use crate::values::address::address;
use click_base::sequence::Sequence;
use click_packet::Packet;
use std::alloc::Global;

/// Returns the address that each word spells.
fn each_address(alloc: Global, words: &[Sequence<u8>]) -> Result<Sequence<[u8; 4]>, ArgFault>
    ensures { IsOrNoMemory (each address words.now) result }
{
    let mut list = Sequence::new(alloc);
    for word in words {
        let octets = address(word.as_slice())?;
        list.push(octets)?;
    }
    Ok(list)
}

/// Returns the addresses that up to 64 words spell.
#[tactic(auto, unfolding(crate::specs::Made::addresses))]
fn addresses(alloc: Global, words: &[Sequence<u8>]) -> Result<Sequence<[u8; 4]>, ArgFault>
    ensures { IsOrNoMemory (addresses words.now) result }
{
    if words.len() > 64 {
        return Err(ArgFault::OutOfRange);
    }
    each_address(alloc, words)
}

/// Returns the addresses of the first argument, or none if there is no argument.
pub fn refused(
    alloc: Global,
    arguments: &[Sequence<Sequence<u8>>],
) -> Result<Sequence<[u8; 4]>, ArgFault>
    ensures { IsOrNoMemory (if length arguments.now == 0 then Ok [] else addresses (slice_index_or arguments.now 0 [])) result }
{
    if arguments.is_empty() {
        return Ok(Sequence::new(alloc));
    }
    addresses(alloc, arguments[0].as_slice())
}

/// `CheckIPHeader([ADDRESSES])` checks the IPv4 header of packets (RFC 791, section 3.1).
///
/// - Arguments: ADDRESSES, up to 64 addresses with spaces between them; default none.
/// - Ports: one agnostic input; one agnostic output, and optionally a push output 1.
/// - A packet passes if its header is valid and its source is none of ADDRESSES. A valid header
///   begins at the first byte, has version 4 and at least 20 bytes, and sums to ffff. The total
///   length that it states is at least that of the header and at most that of the packet. Other
///   packets are pushed to output 1 if that is connected, and are dropped otherwise. If such a
///   packet was pulled, the pull returns no packet.
/// - Bytes behind the total length (padding) stay in the packet.
/// - Handlers: none.
///
/// ```click
/// FromDevice(a) -> c :: CheckIPHeader(0.0.0.0 255.255.255.255) -> Discard; c [1] -> Discard;
/// ```
///
/// ```calls
/// FromDevice(a) -> h :: CheckIPHeader -> Queue -> ToDevice(x); h [1] -> Queue -> ToDevice(y);
/// FromDevice(b) -> CheckIPHeader(10.0.0.1) -> c :: Counter -> Discard;
/// FromDevice(d) -> Queue -> p :: CheckIPHeader -> ToDevice(z); p [1] -> e :: Counter -> Discard;
/// > poll a 4500001400010000401166d60a0000010a000002,4500001400010000401166d70a0000010a000002
/// entered 2
/// > transmit x
/// sent 4500001400010000401166d60a0000010a000002 0 0.0.0.0
/// > transmit x
/// sent none
/// > transmit y
/// sent 4500001400010000401166d70a0000010a000002 0 0.0.0.0
/// > arrive b 4500001400010000401166d60a0000010a000002
/// entered 1
/// > read c.count
/// value 30
/// > arrive d 4500001400010000401166d70a0000010a000002
/// entered 1
/// > transmit z
/// sent none
/// > read e.count
/// value 31
/// ```
#[tactic(auto, unfolding(crate::specs::Made::check_ip_header))]
pub fn make_check_ip_header(alloc: Global, arguments: &Arguments) -> Result<State, ArgFault>
    ensures { OrNoMemory (ByWords 0 1 check_ip_header arguments.now) result }
{
    if !arguments.are(0, 1) {
        return Err(ArgFault::ArgumentCount);
    }
    let words = arguments.words(alloc)?;
    let refused = refused(alloc, words.as_slice())?;
    Ok(State::CheckIPHeader { refused })
}

/// `DecIPTTL` decrements the time to live of packets (RFC 791, section 3.1).
///
/// - Arguments: none.
/// - Ports: one agnostic input; one agnostic output, and optionally a push output 1.
/// - The time to live of the packet decreases by one. The checksum is computed from scratch, so a
///   wrong one becomes right. A packet without a complete header, or with a time to live of 0 or 1,
///   is unchanged. It is pushed to output 1 if that is connected, and is dropped otherwise. If it
///   was pulled, the pull returns no packet.
/// - A header is complete if its first byte states a length of at least 20 bytes, and the packet has
///   as many. Its version, checksum and total length are not tested.
/// - Handlers: none.
///
/// ```click
/// FromDevice(a) -> d :: DecIPTTL -> Discard; d [1] -> Discard;
/// ```
///
/// ```calls
/// FromDevice(a) -> d :: DecIPTTL -> Queue -> ToDevice(x); d [1] -> Queue -> ToDevice(y);
/// FromDevice(b) -> DecIPTTL -> c :: Counter -> Discard;
/// > poll a 4500001400010000401166d60a0000010a000002,4500001400010000011166d60a0000010a000002,
/// 4500001400010000011166d60a0000010a0000
/// entered 3
/// > transmit x
/// sent 45000014000100003f1167d60a0000010a000002 0 0.0.0.0
/// > transmit x
/// sent none
/// > transmit y
/// sent 4500001400010000011166d60a0000010a000002 0 0.0.0.0
/// > transmit y
/// sent 4500001400010000011166d60a0000010a0000 0 0.0.0.0
/// > transmit y
/// sent none
/// > arrive b -
/// entered 1
/// > read c.count
/// value 30
/// ```
pub fn make_dec_ip_ttl(arguments: &Arguments) -> Result<State, ArgFault>
    ensures { result ≡ without_arguments State.DecIPTTL arguments.now }
{
    without_arguments(State::DecIPTTL, arguments)
}

/// Returns where a packet goes after a CheckIPHeader: to the side output if its header is bad.
#[inline(always)]
pub fn header_verdict(refused: &Sequence<[u8; 4]>, packet: &Packet) -> Verdict
    ensures { result ≡ (if header_good packet.now.bytes refused.now then Verdict.Forward else Verdict.SideOutput) }
{
    if packet.header_good(refused.as_slice()) {
        Verdict::Forward
    } else {
        Verdict::SideOutput
    }
}

/// Decrements the packet's time to live, and returns where the packet goes.
///
/// With a time to live of 0 or 1, or without a header, the packet goes to the side output
/// unchanged.
#[inline(always)]
pub fn age(packet: &mut Packet) -> Verdict
    ensures { aged packet.old (ttl packet.old.bytes) ≡ record { state = State.DecIPTTL; packet = packet.new; verdict = result } }
{
    if packet.count_down() {
        Verdict::Forward
    } else {
        Verdict::SideOutput
    }
}
