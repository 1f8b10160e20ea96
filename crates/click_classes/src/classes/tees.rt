//! The classes that copy packets: Tee and PullTee.

ghost use Rattle.std.specs.Prelude.{◌≡◌};
ghost use Rattle.click_classes.specs.Made.{copies, tee, pull_tee};

use crate::arguments::Arguments;
use crate::fault::ArgFault;
use crate::state::State;
use crate::values::number::number_in;

/// Returns the required number of outputs, if the argument gives it.
#[tactic(auto, unfolding(crate::specs::Made::copies))]
fn copies(arguments: &Arguments) -> Result<Option<u16>, ArgFault>
    ensures { result ≡ copies arguments.now }
{
    if !arguments.are(0, 1) {
        return Err(ArgFault::ArgumentCount);
    }
    let Some(bytes) = arguments.get(0) else {
        return Ok(None);
    };
    let outputs = number_in(bytes, 1, 256)?;
    Ok(Some(outputs as u16))
}

/// `Tee([N])` copies packets to all its outputs.
///
/// - Arguments: N, the number of outputs, from 1 to 256; by default any of these numbers.
/// - Ports: one push input; N push outputs, or 1 to 256 without N.
/// - A copy of the packet goes to each output, in order.
/// - Handlers: none.
///
/// ```click
/// FromDevice(a) -> t :: Tee(2); t -> Discard; t [1] -> Discard;
/// ```
///
/// ```calls
/// FromDevice(a) -> t :: Tee(4) -> q :: Queue -> ToDevice(x); t [1] -> Paint(1) -> q;
/// t [2] -> Paint(2) -> q; t [3] -> Paint(3) -> q;
/// > arrive a 61
/// entered 1
/// > transmit x
/// sent 61 0 0.0.0.0
/// > transmit x
/// sent 61 1 0.0.0.0
/// > transmit x
/// sent 61 2 0.0.0.0
/// > transmit x
/// sent 61 3 0.0.0.0
/// > transmit x
/// sent none
/// ```
#[tactic(auto, unfolding(crate::specs::Made::tee))]
pub fn make_tee(arguments: &Arguments) -> Result<State, ArgFault>
    ensures { result ≡ tee arguments.now }
{
    let outputs = copies(arguments)?;
    Ok(State::Tee { outputs })
}

/// `PullTee([N])` passes the packets that are pulled through it, and pushes copies of them.
///
/// - Arguments: N, the number of outputs, from 1 to 256; by default any of these numbers.
/// - Ports: one pull input; N outputs, or 1 to 256 without N. Output 0 is pull, the others are
///   push.
/// - Copies of a pulled packet are pushed to outputs 1, 2 and so on. Then output 0 returns the
///   packet.
/// - Handlers: none.
///
/// ```click
/// FromDevice(a) -> Queue -> t :: PullTee -> ToDevice(b); t [1] -> Discard;
/// ```
///
/// ```calls
/// FromDevice(a) -> Queue -> t :: PullTee -> ToDevice(x);
/// t [1] -> Paint(1) -> q :: Queue -> ToDevice(y); t [2] -> Paint(2) -> q;
/// > arrive a 61
/// entered 1
/// > transmit y
/// sent none
/// > transmit x
/// sent 61 0 0.0.0.0
/// > transmit y
/// sent 61 1 0.0.0.0
/// > transmit y
/// sent 61 2 0.0.0.0
/// > transmit y
/// sent none
/// ```
#[tactic(auto, unfolding(crate::specs::Made::pull_tee))]
pub fn make_pull_tee(arguments: &Arguments) -> Result<State, ArgFault>
    ensures { result ≡ pull_tee arguments.now }
{
    let outputs = copies(arguments)?;
    Ok(State::PullTee { outputs })
}
