//! The classes that choose among their inputs: RoundRobinSched and PrioSched.

ghost use Rattle.std.specs.Prelude.{◌≡◌};
ghost use Rattle.click_classes.specs.Made.{without_arguments};

use crate::arguments::Arguments;
use crate::classes::plain::without_arguments;
use crate::fault::ArgFault;
use crate::state::State;

/// `RoundRobinSched` pulls from its inputs in turn.
///
/// - Arguments: none.
/// - Ports: 1 to 256 pull inputs, one pull output.
/// - A pull asks the inputs in order, each at most once, until one has a packet. It starts at the
///   input after the one that had the last packet, at first at input 0. Input 0 follows the last.
/// - Handlers: none.
///
/// ```click
/// FromDevice(a) -> Queue -> r :: RoundRobinSched -> ToDevice(c); FromDevice(b) -> Queue -> [1] r;
/// ```
///
/// ```calls
/// FromDevice(a) -> Queue -> r :: RoundRobinSched -> ToDevice(x); FromDevice(b) -> Queue -> [1] r;
/// FromDevice(c) -> Queue -> [2] r;
/// > arrive c 31
/// entered 1
/// > transmit x
/// sent 31 0 0.0.0.0
/// > poll a 11,12
/// entered 2
/// > arrive b 21
/// entered 1
/// > transmit x
/// sent 11 0 0.0.0.0
/// > transmit x
/// sent 21 0 0.0.0.0
/// > transmit x
/// sent 12 0 0.0.0.0
/// > transmit x
/// sent none
/// ```
pub fn make_round_robin_sched(arguments: &Arguments) -> Result<State, ArgFault>
    ensures { result ≡ without_arguments (State.RoundRobinSched 0) arguments.now }
{
    without_arguments(State::RoundRobinSched { next: 0 }, arguments)
}

/// `PrioSched` pulls from the first of its inputs that has a packet.
///
/// - Arguments: none.
/// - Ports: 1 to 256 pull inputs, one pull output.
/// - A pull asks the inputs 0, 1 and so on, until one has a packet.
/// - Handlers: none.
///
/// ```click
/// FromDevice(a) -> Queue -> p :: PrioSched -> ToDevice(c); FromDevice(b) -> Queue -> [1] p;
/// ```
///
/// ```calls
/// FromDevice(a) -> Queue -> p :: PrioSched -> ToDevice(x); FromDevice(b) -> Queue -> [1] p;
/// > poll b 21,22
/// entered 2
/// > arrive a 11
/// entered 1
/// > transmit x
/// sent 11 0 0.0.0.0
/// > transmit x
/// sent 21 0 0.0.0.0
/// > arrive a 12
/// entered 1
/// > transmit x
/// sent 12 0 0.0.0.0
/// > transmit x
/// sent 22 0 0.0.0.0
/// > transmit x
/// sent none
/// ```
pub fn make_prio_sched(arguments: &Arguments) -> Result<State, ArgFault>
    ensures { result ≡ without_arguments State.PrioSched arguments.now }
{
    without_arguments(State::PrioSched, arguments)
}
