//! The elements of a plant, the ends of their connections, and what one element does.
ghost use Rattle.std.specs.Prelude.{◌≡◌, ◌<◌, ◌+◌, length};
ghost use Rattle.click_engine.specs.kept.Transfers.{ActsIn};
ghost use Rattle.click_engine.specs.RunState.{EndsBlank};
ghost use Rattle.click_classes.specs.Acts.{burst_of};

use click_base::Class;
use click_classes::{PortRange, State};
use click_packet::Packet;

/// One end of a connection: the index of an element, and one of its inputs or outputs.
#[derive(Clone, Copy)]
pub struct ConnectionEnd {
    // perf: in this order a look-up needs no further register.
    pub port: u16,
    pub element: usize,
}

/// An element as handlers see it: its class, its numbers of inputs and outputs, and its state.
#[derive(Drop)]
pub struct Element {
    pub class: Class,
    pub inputs: u16,
    pub outputs: u16,
    pub state: State,
}

/// Makes element `at` do what its class does with a packet that is pushed into `input`. Returns the
/// outputs that get the packet next.
#[inline(always)]
pub(crate) fn act_at(
    elements: &mut [Element],
    at: usize,
    input: u16,
    packet: &mut Packet,
) -> PortRange
    requires blank { EndsBlank elements.old }
    requires there { at < length elements.old }
    ensures acts { ActsIn elements.old elements.new at input packet.old packet.new result }
    ensures there { 0 < result.count → at + 1 < length elements.new }
    ensures blank { EndsBlank elements.new }
{
    let element = &mut elements[at];
    element.state.act(&element.outputs, input, packet)
}

/// Returns the number of packets that the task of an InfiniteSource emits at most. Returns 0 for a
/// state of another class.
#[inline(always)]
pub(crate) fn burst_of(state: &State) -> u8
    ensures { result ≡ burst_of state.now }
{
    match state {
        State::InfiniteSource { burst, .. } => *burst,
        _ => 0,
    }
}
