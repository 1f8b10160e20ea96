//! The class that puts a header before packets: EtherEncap.

ghost use Rattle.std.specs.Prelude.{◌≡◌, if◌then◌else◌};
ghost use Rattle.click_classes.specs.Made.{ether_encap, ether_header};
ghost use Rattle.click_classes.specs.Acts.{encapsulated, passed};
ghost use Rattle.click_classes.specs.declared.state.State.{State};
ghost use Rattle.click_classes.specs.declared.packet_effects.Verdict.TheVariants as Verdict;

use crate::arguments::Arguments;
use crate::fault::ArgFault;
use crate::state::State;
use crate::values::ethernet::ethernet;
use crate::values::number::number_in;
use click_packet::Packet;

/// `EtherEncap(TYPE, SOURCE, DESTINATION)` adds an Ethernet header to packets.
///
/// - Arguments: TYPE, a number from 0 to 65,535; SOURCE and DESTINATION, Ethernet addresses.
/// - Ports: one agnostic input, one agnostic output.
/// - DESTINATION, SOURCE and TYPE (the high byte first) are put before the bytes of the packet. A
///   packet that would have more than 1,600 bytes is dropped.
/// - Handlers: none.
///
/// ```click
/// FromDevice(a) -> EtherEncap(0x0800, 1:1:1:1:1:1, 2:2:2:2:2:2) -> Discard;
/// ```
///
/// ```calls
/// FromDevice(a) -> EtherEncap(0x0800, 1:1:1:1:1:1, 2:2:2:2:2:2) -> Queue -> ToDevice(x);
/// > poll a aa,-
/// entered 2
/// > transmit x
/// sent 0202020202020101010101010800aa 0 0.0.0.0
/// > transmit x
/// sent 0202020202020101010101010800 0 0.0.0.0
/// ```
#[tactic(auto, unfolding(crate::specs::Made::ether_encap))]
pub fn make_ether_encap(arguments: &Arguments) -> Result<State, ArgFault>
    ensures { result ≡ ether_encap arguments.now }
{
    if !arguments.are(3, 3) {
        return Err(ArgFault::ArgumentCount);
    }
    let ether_type = number_in(arguments.at(0), 0, 65_535)?;
    let source = ethernet(arguments.at(1))?;
    let destination = ethernet(arguments.at(2))?;
    Ok(State::EtherEncap {
        header: ether_header(ether_type as u16, source, destination),
    })
}

/// Returns the 14 bytes of a header: destination, source, and the type with its high byte first.
fn ether_header(ether_type: u16, source: [u8; 6], destination: [u8; 6]) -> [u8; 14]
    ensures { result ≡ ether_header ether_type source destination }
{
    let to = destination.as_slice();
    let from = source.as_slice();
    let high = (ether_type / 256) as u8;
    let low = (ether_type % 256) as u8;
    [
        to[0], to[1], to[2], to[3], to[4], to[5], from[0], from[1], from[2], from[3], from[4],
        from[5], high, low,
    ]
}

/// Prepends a header to the packet. Returns false, and changes nothing, if it would be too long.
#[inline(always)]
pub fn encapsulate(header: &[u8; 14], packet: &mut Packet) -> bool
    ensures { (state : State) → encapsulated state header.now packet.old ≡ passed state packet.new (if result then Verdict.Forward else Verdict.Dropped) }
{
    packet.prepend_array(header).is_ok()
}
