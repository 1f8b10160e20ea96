//! The classes that connect to devices: FromDevice and ToDevice.

ghost use Rattle.click_classes.specs.Made.{device, from_device, to_device};
ghost use Rattle.click_classes.specs.kept.Answers.{IsOrNoMemory};

use crate::arguments::Arguments;
use crate::fault::ArgFault;
use crate::state::State;
use crate::values::device::is_device;
use click_base::sequence::Sequence;
use std::alloc::Global;

/// Returns the name of the device, which must be the only argument.
#[tactic(auto, unfolding(crate::specs::Made::device))]
fn device(alloc: Global, arguments: &Arguments) -> Result<Sequence<u8>, ArgFault>
    ensures { IsOrNoMemory (device arguments.now) result }
{
    if !arguments.are(1, 1) {
        return Err(ArgFault::ArgumentCount);
    }
    let bytes = arguments.at(0);
    if !is_device(bytes) {
        return Err(ArgFault::BadText);
    }
    match bytes.to_vec(alloc) {
        Ok(name) => Ok(Sequence::of(name)),
        Err(_) => Err(ArgFault::NoMemory),
    }
}

/// `FromDevice(DEVICE)` pushes the packets that enter at a device.
///
/// - Arguments: DEVICE, 1 to 64 letters, digits, `_`, `.`, `:` and `-`.
/// - Ports: no input, one push output.
/// - Each packet that arrives at the device is pushed. If several FromDevice elements name one
///   device, the first in flat order has it.
/// - Handlers: none.
///
/// ```click
/// FromDevice(eth0) -> Discard;
/// ```
///
/// ```calls
/// FromDevice(eth0) -> c :: Counter -> Discard; FromDevice(eth0) -> d :: Counter -> Discard;
/// > arrive eth0 61
/// entered 1
/// > read c.count
/// value 31
/// > read d.count
/// value 30
/// > arrive eth1 61
/// nodevice
/// ```
#[tactic(auto, unfolding(crate::specs::Made::from_device))]
pub fn make_from_device(alloc: Global, arguments: &Arguments) -> Result<State, ArgFault>
    ensures { IsOrNoMemory (from_device arguments.now) result }
{
    let device = device(alloc, arguments)?;
    Ok(State::FromDevice { device })
}

/// `ToDevice(DEVICE)` pulls the packets that leave at a device.
///
/// - Arguments: DEVICE, 1 to 64 letters, digits, `_`, `.`, `:` and `-`.
/// - Ports: one pull input, no output.
/// - It pulls when the device transmits. If several ToDevice elements name one device, the first in
///   flat order has it.
/// - Handlers: none.
///
/// ```click
/// FromDevice(eth0) -> Queue -> ToDevice(eth1);
/// ```
///
/// ```calls
/// FromDevice(a) -> Queue -> ToDevice(eth1); FromDevice(b) -> Queue -> ToDevice(eth1);
/// > arrive a 61
/// entered 1
/// > arrive b 62
/// entered 1
/// > transmit eth1
/// sent 61 0 0.0.0.0
/// > transmit eth1
/// sent none
/// > transmit eth0
/// nodevice
/// ```
#[tactic(auto, unfolding(crate::specs::Made::to_device))]
pub fn make_to_device(alloc: Global, arguments: &Arguments) -> Result<State, ArgFault>
    ensures { IsOrNoMemory (to_device arguments.now) result }
{
    let device = device(alloc, arguments)?;
    Ok(State::ToDevice { device })
}
