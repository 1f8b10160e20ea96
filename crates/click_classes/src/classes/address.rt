//! The class that sets the destination of packets: GetIPAddress.

ghost use Rattle.std.specs.Prelude.{◌≡◌};
ghost use Rattle.click_classes.specs.Made.{get_ip_address};
ghost use Rattle.click_classes.specs.Acts.{address_at};

use crate::arguments::Arguments;
use crate::fault::ArgFault;
use crate::state::State;
use click_packet::Packet;

/// `GetIPAddress(OFFSET)` sets the destination of packets from their bytes.
///
/// - Arguments: OFFSET, a number from 0 to 1,596.
/// - Ports: one agnostic input, one agnostic output.
/// - The destination of the packet becomes its four bytes from OFFSET on, or 0.0.0.0 if it is
///   shorter.
/// - Handlers: none.
///
/// ```click
/// FromDevice(a) -> GetIPAddress(16) -> StaticIPLookup(0.0.0.0/0 0) -> Discard;
/// ```
///
/// ```calls
/// FromDevice(a) -> GetIPAddress(0) -> Queue -> ToDevice(x);
/// FromDevice(b) -> GetIPAddress(1) -> Queue -> ToDevice(y);
/// > arrive a 63646566
/// entered 1
/// > transmit x
/// sent 63646566 0 99.100.101.102
/// > poll b 00c0a8010a,00c0a801
/// entered 2
/// > transmit y
/// sent 00c0a8010a 0 192.168.1.10
/// > transmit y
/// sent 00c0a801 0 0.0.0.0
/// ```
#[tactic(auto, unfolding(crate::specs::Made::get_ip_address))]
pub fn make_get_ip_address(arguments: &Arguments) -> Result<State, ArgFault>
    ensures { result ≡ get_ip_address arguments.now }
{
    let offset = arguments.only_number(1_596)?;
    Ok(State::GetIPAddress {
        offset: offset as u16,
    })
}

/// Sets the packet's destination to the four bytes at the offset, or to 0.0.0.0 if it is too short.
pub fn take_address(offset: u16, packet: &mut Packet)
    ensures { packet.new ≡ record packet.old { destination = address_at offset packet.old.bytes } }
{
    let bytes = packet.bytes();
    let at = usize::from(offset);
    let address = if at + 4 <= bytes.len() {
        [bytes[at], bytes[at + 1], bytes[at + 2], bytes[at + 3]]
    } else {
        [0, 0, 0, 0]
    };
    packet.set_destination(address);
}
