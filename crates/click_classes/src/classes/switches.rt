//! The switches: Switch, PullSwitch, RoundRobinSwitch and Suppressor.

ghost use Rattle.std.specs.Prelude.{◌≡◌};
ghost use Rattle.click_classes.specs.Made.{without_arguments, switch_port, suppressor, switch, pull_switch};

use crate::arguments::Arguments;
use crate::classes::plain::without_arguments;
use crate::fault::ArgFault;
use crate::state::State;
use crate::values::number::number_or_minus_one;

/// Returns the port of the switch; `None` for -1.
#[tactic(auto, unfolding(crate::specs::Made::switch_port))]
fn switch_port(arguments: &Arguments) -> Result<Option<u8>, ArgFault>
    ensures { result ≡ switch_port arguments.now }
{
    if !arguments.are(0, 1) {
        return Err(ArgFault::ArgumentCount);
    }
    let Some(bytes) = arguments.get(0) else {
        return Ok(Some(0));
    };
    match number_or_minus_one(bytes, 255)? {
        Some(number) => Ok(Some(number as u8)),
        None => Ok(None),
    }
}

/// `Switch([OUTPUT])` sends packets to one of its outputs.
///
/// - Arguments: OUTPUT, a number from 0 to 255, or -1; default 0.
/// - Ports: one push input; push outputs, at least OUTPUT + 1 and at most 256.
/// - A packet goes to output OUTPUT. If OUTPUT is -1, it is dropped.
/// - Read handlers: `switch`, the value of OUTPUT.
/// - Write handlers: `switch`, -1 or a number below the number of outputs (not a number, out of
///   range).
///
/// ```click
/// FromDevice(a) -> s :: Switch(1); s -> Discard; s [1] -> Discard;
/// ```
///
/// ```calls
/// FromDevice(a) -> s :: Switch(1); s -> c0 :: Counter -> Discard;
/// s [1] -> c1 :: Counter -> Discard; FromDevice(b) -> Switch(-1) -> c2 :: Counter -> Discard;
/// > poll a 61,62
/// entered 2
/// > read c0.count
/// value 30
/// > read c1.count
/// value 32
/// > arrive b 61
/// entered 1
/// > read c2.count
/// value 30
/// ```
#[tactic(auto, unfolding(crate::specs::Made::switch))]
pub fn make_switch(arguments: &Arguments) -> Result<State, ArgFault>
    ensures { result ≡ switch arguments.now }
{
    let output = switch_port(arguments)?;
    Ok(State::Switch { output })
}

/// `PullSwitch([INPUT])` pulls packets from one of its inputs.
///
/// - Arguments: INPUT, a number from 0 to 255, or -1; default 0.
/// - Ports: pull inputs, at least INPUT + 1 and at most 256; one pull output.
/// - A pull pulls from input INPUT. If INPUT is -1, it pulls from none and returns no packet.
/// - Read handlers: `switch`, the value of INPUT.
/// - Write handlers: `switch`, -1 or a number below the number of inputs (not a number, out of
///   range).
///
/// ```click
/// FromDevice(a) -> Queue -> s :: PullSwitch(0) -> ToDevice(b);
/// ```
///
/// ```calls
/// FromDevice(a) -> Queue -> s :: PullSwitch(1) -> ToDevice(x); FromDevice(b) -> Queue -> [1] s;
/// FromDevice(c) -> q :: Queue -> PullSwitch(-1) -> ToDevice(y);
/// > arrive a 01
/// entered 1
/// > arrive b 02
/// entered 1
/// > transmit x
/// sent 02 0 0.0.0.0
/// > transmit x
/// sent none
/// > arrive c 03
/// entered 1
/// > transmit y
/// sent none
/// > read q.length
/// value 31
/// ```
#[tactic(auto, unfolding(crate::specs::Made::pull_switch))]
pub fn make_pull_switch(arguments: &Arguments) -> Result<State, ArgFault>
    ensures { result ≡ pull_switch arguments.now }
{
    let input = switch_port(arguments)?;
    Ok(State::PullSwitch { input })
}

/// `RoundRobinSwitch` sends packets to its outputs in turn.
///
/// - Arguments: none.
/// - Ports: one push input, 1 to 256 push outputs.
/// - The first packet goes to output 0, and each later one to the next output. Output 0 follows the
///   last.
/// - Handlers: none.
///
/// ```click
/// FromDevice(a) -> r :: RoundRobinSwitch; r -> Discard; r [1] -> Discard;
/// ```
///
/// ```calls
/// FromDevice(a) -> r :: RoundRobinSwitch; r -> Queue -> ToDevice(x);
/// r [1] -> Queue -> ToDevice(y); r [2] -> Queue -> ToDevice(z);
/// > poll a 01,02,03,04
/// entered 4
/// > transmit x
/// sent 01 0 0.0.0.0
/// > transmit x
/// sent 04 0 0.0.0.0
/// > transmit y
/// sent 02 0 0.0.0.0
/// > transmit z
/// sent 03 0 0.0.0.0
/// > transmit z
/// sent none
/// ```
pub fn make_round_robin_switch(arguments: &Arguments) -> Result<State, ArgFault>
    ensures { result ≡ without_arguments (State.RoundRobinSwitch 0) arguments.now }
{
    without_arguments(State::RoundRobinSwitch { next: 0 }, arguments)
}

/// `Suppressor` passes packets at its active ports.
///
/// - Arguments: none.
/// - Ports: 1 to 16 agnostic inputs, and as many agnostic outputs.
/// - A packet passes from input I to output I if port I is active, as all ports are at first. At a
///   port that is not active, a pushed packet is dropped, and a pull returns no packet and does not
///   pull.
/// - Read handlers: `active0` to `active15`, whether the port is active (out of range if the
///   element has no such port).
/// - Write handlers: `active0` to `active15`, a truth value (out of range, which is tested first;
///   not a truth value).
///
/// ```click
/// FromDevice(a) -> s :: Suppressor -> Discard; FromDevice(b) -> [1] s [1] -> Discard;
/// ```
///
/// ```calls
/// FromDevice(a) -> s :: Suppressor -> Queue -> ToDevice(x);
/// FromDevice(b) -> [1] s [1] -> Queue -> ToDevice(y);
/// FromDevice(c) -> [2] s [2] -> Queue -> ToDevice(z);
/// > arrive c 63
/// entered 1
/// > transmit x
/// sent none
/// > transmit y
/// sent none
/// > transmit z
/// sent 63 0 0.0.0.0
/// > arrive a 61
/// entered 1
/// > transmit x
/// sent 61 0 0.0.0.0
/// ```
pub fn make_suppressor(arguments: &Arguments) -> Result<State, ArgFault>
    ensures { result ≡ without_arguments suppressor arguments.now }
{
    without_arguments(State::Suppressor { active: [true; 16] }, arguments)
}
