//! The classes that change or test the length of packets: Strip and CheckLength.

ghost use Rattle.std.specs.Prelude.{◌≡◌, length, nat_le, if◌then◌else◌};
ghost use Rattle.click_classes.specs.Made.{strip, check_length};

use crate::arguments::Arguments;
use crate::fault::ArgFault;
use crate::packet_effects::Verdict;
use crate::state::State;
use click_packet::Packet;

/// `Strip(N)` removes bytes from the front of packets.
///
/// - Arguments: N, a number from 0 to 1,600.
/// - Ports: one agnostic input, one agnostic output.
/// - The first N bytes of the packet are removed, or all if it has fewer.
/// - Handlers: none.
///
/// ```click
/// FromDevice(a) -> Strip(14) -> CheckIPHeader -> Discard;
/// ```
///
/// ```calls
/// FromDevice(a) -> Strip(2) -> Queue -> ToDevice(x);
/// > poll a 616263646566,61
/// entered 2
/// > transmit x
/// sent 63646566 0 0.0.0.0
/// > transmit x
/// sent - 0 0.0.0.0
/// ```
#[tactic(auto, unfolding(crate::specs::Made::strip))]
pub fn make_strip(arguments: &Arguments) -> Result<State, ArgFault>
    ensures { result ≡ strip arguments.now }
{
    let count = arguments.only_number(1_600)?;
    Ok(State::Strip {
        count: count as u16,
    })
}

/// `CheckLength(MAX)` separates long packets from the others.
///
/// - Arguments: MAX, a number from 0 to 65,535.
/// - Ports: one agnostic input; one agnostic output, and optionally a push output 1.
/// - Packets of at most MAX bytes pass. A longer packet is pushed to output 1 if that is connected,
///   and is dropped otherwise. If it was pulled, the pull returns no packet.
/// - Handlers: none.
///
/// ```click
/// FromDevice(a) -> l :: CheckLength(1500) -> Discard; l [1] -> Discard;
/// ```
///
/// ```calls
/// FromDevice(a) -> l :: CheckLength(3) -> Queue -> ToDevice(x); l [1] -> Queue -> ToDevice(y);
/// FromDevice(b) -> q :: Queue -> CheckLength(3) -> ToDevice(z);
/// > poll a 63646566,636465
/// entered 2
/// > transmit x
/// sent 636465 0 0.0.0.0
/// > transmit x
/// sent none
/// > transmit y
/// sent 63646566 0 0.0.0.0
/// > poll b 63646566,63
/// entered 2
/// > transmit z
/// sent none
/// > read q.length
/// value 31
/// > transmit z
/// sent 63 0 0.0.0.0
/// ```
#[tactic(auto, unfolding(crate::specs::Made::check_length))]
pub fn make_check_length(arguments: &Arguments) -> Result<State, ArgFault>
    ensures { result ≡ check_length arguments.now }
{
    let max = arguments.only_number(65_535)?;
    Ok(State::CheckLength { max: max as u16 })
}

/// Returns where a packet goes after a CheckLength: to the side output if it is too long.
pub fn length_verdict(max: u16, packet: &Packet) -> Verdict
    ensures { result ≡ (if nat_le (length packet.now.bytes) max then Verdict.Forward else Verdict.SideOutput) }
{
    if packet.bytes().len() <= usize::from(max) {
        Verdict::Forward
    } else {
        Verdict::SideOutput
    }
}
