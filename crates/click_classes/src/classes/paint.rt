//! The classes that set or read the paint of packets: Paint and PaintTee.

ghost use Rattle.std.specs.Prelude.{◌≡◌, ◌==◌, if◌then◌else◌};
ghost use Rattle.click_classes.specs.Made.{paint, paint_tee};

use crate::arguments::Arguments;
use crate::fault::ArgFault;
use crate::packet_effects::Verdict;
use crate::state::State;
use click_packet::Packet;

/// `Paint(COLOUR)` sets the paint of packets.
///
/// - Arguments: COLOUR, a number from 0 to 255.
/// - Ports: one agnostic input, one agnostic output.
/// - The paint of the packet becomes COLOUR.
/// - Handlers: none.
///
/// ```click
/// FromDevice(a) -> Paint(3) -> Discard;
/// ```
///
/// ```calls
/// FromDevice(a) -> Paint(3) -> Queue -> ToDevice(x);
/// FromDevice(b) -> Paint(3) -> Paint(255) -> Queue -> ToDevice(y);
/// > arrive a 61
/// entered 1
/// > transmit x
/// sent 61 3 0.0.0.0
/// > arrive b 61
/// entered 1
/// > transmit y
/// sent 61 255 0.0.0.0
/// ```
#[tactic(auto, unfolding(crate::specs::Made::paint))]
pub fn make_paint(arguments: &Arguments) -> Result<State, ArgFault>
    ensures { result ≡ paint arguments.now }
{
    let colour = arguments.only_number(255)?;
    Ok(State::Paint {
        colour: colour as u8,
    })
}

/// `PaintTee(COLOUR)` copies the packets that have one paint.
///
/// - Arguments: COLOUR, a number from 0 to 255.
/// - Ports: one agnostic input; one agnostic output, and optionally a push output 1.
/// - Packets pass. If the paint of a packet is COLOUR and output 1 is connected, a copy goes there.
///   The copy goes after a pushed packet, and before a pulled one.
/// - Handlers: none.
///
/// ```click
/// FromDevice(a) -> t :: PaintTee(3) -> Discard; t [1] -> Discard;
/// ```
///
/// ```calls
/// FromDevice(a) -> Paint(3) -> t :: PaintTee(3) -> q :: Queue -> ToDevice(x); FromDevice(b) -> t;
/// t [1] -> Strip(1) -> q; FromDevice(c) -> Paint(3) -> Queue -> u :: PaintTee(3) -> ToDevice(y);
/// u [1] -> d :: Counter -> Discard;
/// FromDevice(e) -> Paint(3) -> PaintTee(3) -> Queue -> ToDevice(z);
/// > arrive a 6162
/// entered 1
/// > transmit x
/// sent 6162 3 0.0.0.0
/// > transmit x
/// sent 62 3 0.0.0.0
/// > arrive b 6162
/// entered 1
/// > transmit x
/// sent 6162 0 0.0.0.0
/// > transmit x
/// sent none
/// > arrive c 61
/// entered 1
/// > read d.count
/// value 30
/// > transmit y
/// sent 61 3 0.0.0.0
/// > read d.count
/// value 31
/// > arrive e 61
/// entered 1
/// > transmit z
/// sent 61 3 0.0.0.0
/// ```
#[tactic(auto, unfolding(crate::specs::Made::paint_tee))]
pub fn make_paint_tee(arguments: &Arguments) -> Result<State, ArgFault>
    ensures { result ≡ paint_tee arguments.now }
{
    let colour = arguments.only_number(255)?;
    Ok(State::PaintTee {
        colour: colour as u8,
    })
}

/// Returns where a packet goes after a PaintTee: with a copy if its paint is `colour`.
pub fn paint_tee_verdict(colour: u8, packet: &Packet) -> Verdict
    ensures { result ≡ (if packet.now.paint == colour then Verdict.Copied else Verdict.Forward) }
{
    if packet.paint() == colour {
        Verdict::Copied
    } else {
        Verdict::Forward
    }
}
