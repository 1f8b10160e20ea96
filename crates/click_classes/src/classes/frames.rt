//! The classes of the gateway package that look at Ethernet frames: HostEtherFilter and EtherMirror.

ghost use Rattle.std.specs.Prelude.{◌≡◌};
ghost use Rattle.click_classes.specs.Acts.{made_or};
ghost use Rattle.click_classes.specs.Gateway.{host_verdict, frame_mirror};
ghost use Rattle.click_classes.specs.Made.{host_ether_filter, without_arguments};
ghost use Rattle.click_classes.specs.declared.state.State.{State};

use crate::arguments::Arguments;
use crate::classes::plain::without_arguments;
use crate::fault::ArgFault;
use crate::packet_effects::Verdict;
use crate::state::State;
use crate::values::ethernet::ethernet;
use click_gateway::{is_for, is_for_group, mirror_frame};
use click_packet::Packet;

/// `HostEtherFilter(ETHER)` forwards the Ethernet frames for one station. It is in the package
/// `gateway`.
///
/// - Arguments: ETHER, the Ethernet address of the station.
/// - Ports: one agnostic input; one agnostic output, and optionally a push output 1.
/// - Packets are Ethernet frames. A frame to ETHER is forwarded. A frame to a group, such as a
///   broadcast, is pushed to output 1 if that is connected, and is dropped otherwise. All other
///   frames are dropped, and so are packets of fewer than 14 bytes. If a pulled packet is not
///   forwarded, the pull returns no packet.
/// - Handlers: none.
///
/// ```click
/// require(gateway);
/// FromDevice(a) -> h :: HostEtherFilter(2:0:0:0:0:1) -> Discard;
/// h [1] -> Discard;
/// ```
///
/// ```calls
/// require(gateway); FromDevice(a) -> h :: HostEtherFilter(2:0:0:0:0:1) -> Queue -> ToDevice(x);
/// h [1] -> Queue -> ToDevice(y);
/// > arrive a 0200000000010200000000aa0800
/// entered 1
/// > arrive a ffffffffffff0200000000aa0806
/// entered 1
/// > arrive a 0200000000020200000000aa0800
/// entered 1
/// > transmit x
/// sent 0200000000010200000000aa0800 0 0.0.0.0
/// > transmit x
/// sent none
/// > transmit y
/// sent ffffffffffff0200000000aa0806 0 0.0.0.0
/// > transmit y
/// sent none
/// ```
#[tactic(auto, unfolding(crate::specs::Made::host_ether_filter))]
pub fn make_host_ether_filter(arguments: &Arguments) -> Result<State, ArgFault>
    ensures { result ≡ host_ether_filter arguments.now }
{
    if !arguments.are(1, 1) {
        return Err(ArgFault::ArgumentCount);
    }
    Ok(State::HostEtherFilter {
        ether: ethernet(arguments.at(0))?,
    })
}

/// Returns where a HostEtherFilter with this address sends a packet.
pub fn host_verdict(ether: [u8; 6], packet: &Packet) -> Verdict
    ensures { result ≡ host_verdict ether packet.now }
{
    if is_for(packet, ether) {
        Verdict::Forward
    } else if is_for_group(packet) {
        Verdict::SideOutput
    } else {
        Verdict::Dropped
    }
}

/// `EtherMirror` exchanges the two addresses of Ethernet frames. It is in the package `gateway`.
///
/// - Arguments: none.
/// - Ports: one agnostic input, one agnostic output.
/// - Packets are Ethernet frames. The destination (bytes 0 to 5) and the source (bytes 6 to 11) are
///   exchanged. A packet of fewer than 14 bytes is dropped. If such a packet was pulled, the pull
///   returns no packet.
/// - Handlers: none.
///
/// ```click
/// require(gateway);
/// FromDevice(a) -> EtherMirror -> Discard;
/// ```
///
/// ```calls
/// require(gateway); FromDevice(a) -> EtherMirror -> Queue -> ToDevice(x);
/// > arrive a 0200000000010200000000aa0800ff
/// entered 1
/// > transmit x
/// sent 0200000000aa0200000000010800ff 0 0.0.0.0
/// > arrive a 0200000000010200000000aa08
/// entered 1
/// > transmit x
/// sent none
/// ```
pub fn make_ether_mirror(arguments: &Arguments) -> Result<State, ArgFault>
    ensures { result ≡ without_arguments State.EtherMirror arguments.now }
{
    without_arguments(State::EtherMirror, arguments)
}

/// Exchanges the addresses of a frame. All other packets are left unchanged, and are dropped.
pub fn turn_frame(packet: &mut Packet) -> Verdict
    ensures { (state : State) → made_or state (frame_mirror packet.old) packet.old Verdict.Dropped ≡ record { state = state; packet = packet.new; verdict = result } }
{
    if mirror_frame(packet) {
        Verdict::Forward
    } else {
        Verdict::Dropped
    }
}
