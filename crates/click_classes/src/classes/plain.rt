//! The classes without arguments.

ghost use Rattle.std.specs.Prelude.{◌≡◌, length};
ghost use Rattle.click_classes.specs.Made.{without_arguments};
ghost use Rattle.click_classes.specs.Acts.{up_by};

use crate::arguments::Arguments;
use crate::fault::ArgFault;
use crate::state::State;
use click_packet::Packet;

/// Returns the state, or `ArgumentCount` if there is an argument.
#[tactic(auto, unfolding(crate::specs::Made::without_arguments))]
pub fn without_arguments(state: State, arguments: &Arguments) -> Result<State, ArgFault>
    ensures { result ≡ without_arguments state arguments.now }
{
    if arguments.are(0, 0) {
        Ok(state)
    } else {
        Err(ArgFault::ArgumentCount)
    }
}

/// `Unqueue` pulls packets from a queue and pushes them on.
///
/// - Arguments: none.
/// - Ports: one pull input, one push output.
/// - In each round its task pulls one packet and pushes it.
/// - Handlers: none.
///
/// ```click
/// FromDevice(a) -> Queue -> Unqueue -> Discard;
/// ```
///
/// ```calls
/// FromDevice(a) -> Queue -> Unqueue -> c :: Counter -> Discard;
/// > round
/// worked 0
/// > poll a 01,02
/// entered 2
/// > read c.count
/// value 30
/// > round
/// worked 1
/// > read c.count
/// value 31
/// > round
/// worked 1
/// > round
/// worked 0
/// ```
pub fn make_unqueue(arguments: &Arguments) -> Result<State, ArgFault>
    ensures { result ≡ without_arguments State.Unqueue arguments.now }
{
    without_arguments(State::Unqueue, arguments)
}

/// `Counter` counts packets and their bytes.
///
/// - Arguments: none.
/// - Ports: one agnostic input, one agnostic output.
/// - Each packet adds one to the count and its length to the byte count, neither past 2^64 - 1. The
///   packet passes.
/// - Read handlers: `count`, the number of packets that passed; `byte_count`, the number of their
///   bytes.
/// - Write handlers: `reset_counts` sets both to 0.
///
/// ```click
/// FromDevice(a) -> c :: Counter -> Discard;
/// ```
///
/// ```calls
/// FromDevice(a) -> c :: Counter -> Discard;
/// > arrive a 63646566
/// entered 1
/// > read c.count
/// value 31
/// > read c.byte_count
/// value 34
/// > arrive a -
/// entered 1
/// > read c.count
/// value 32
/// > read c.byte_count
/// value 34
/// ```
pub fn make_counter(arguments: &Arguments) -> Result<State, ArgFault>
    ensures { result ≡ without_arguments (State.Counter 0 0) arguments.now }
{
    without_arguments(
        State::Counter {
            count: 0,
            byte_count: 0,
        },
        arguments,
    )
}

/// `Idle` neither passes nor emits packets.
///
/// - Arguments: none.
/// - Ports: 0 to 256 agnostic inputs, 0 to 256 agnostic outputs.
/// - It drops packets that are pushed to it, returns no packet to a pull, and never pulls.
/// - Handlers: none.
///
/// ```click
/// Idle -> Discard;
/// ```
///
/// ```calls
/// FromDevice(a) -> Idle -> c :: Counter -> Discard; Idle -> ToDevice(x);
/// > arrive a 61
/// entered 1
/// > read c.count
/// value 30
/// > transmit x
/// sent none
/// ```
pub fn make_idle(arguments: &Arguments) -> Result<State, ArgFault>
    ensures { result ≡ without_arguments State.Idle arguments.now }
{
    without_arguments(State::Idle, arguments)
}

/// `Discard` drops packets.
///
/// - Arguments: none.
/// - Ports: one agnostic input, no output.
/// - It drops packets that are pushed to it. If its input is pull, its task pulls one packet in
///   each round and drops it.
/// - Handlers: none.
///
/// ```click
/// FromDevice(a) -> Discard;
/// ```
///
/// ```calls
/// FromDevice(a) -> Discard; FromDevice(b) -> q :: Queue -> Discard;
/// > arrive a 61
/// entered 1
/// > round
/// worked 0
/// > poll b 62,63
/// entered 2
/// > round
/// worked 1
/// > read q.length
/// value 31
/// > round
/// worked 1
/// > round
/// worked 0
/// ```
pub fn make_discard(arguments: &Arguments) -> Result<State, ArgFault>
    ensures { result ≡ without_arguments State.Discard arguments.now }
{
    without_arguments(State::Discard, arguments)
}

/// `Null` passes packets.
///
/// - Arguments: none.
/// - Ports: one agnostic input, one agnostic output.
/// - Packets pass unchanged.
/// - Handlers: none.
///
/// ```click
/// FromDevice(a) -> Null -> Discard;
/// ```
///
/// ```calls
/// FromDevice(a) -> Null -> Queue -> Null -> ToDevice(x);
/// > arrive a 61
/// entered 1
/// > transmit x
/// sent 61 0 0.0.0.0
/// > transmit x
/// sent none
/// ```
pub fn make_null(arguments: &Arguments) -> Result<State, ArgFault>
    ensures { result ≡ without_arguments State.Null arguments.now }
{
    without_arguments(State::Null, arguments)
}

/// `PushNull` passes packets that are pushed.
///
/// - Arguments: none.
/// - Ports: one push input, one push output.
/// - Packets pass unchanged.
/// - Handlers: none.
///
/// ```click
/// FromDevice(a) -> PushNull -> Discard;
/// ```
///
/// ```calls
/// FromDevice(a) -> PushNull -> Queue -> ToDevice(x);
/// > arrive a 61
/// entered 1
/// > transmit x
/// sent 61 0 0.0.0.0
/// ```
pub fn make_push_null(arguments: &Arguments) -> Result<State, ArgFault>
    ensures { result ≡ without_arguments State.PushNull arguments.now }
{
    without_arguments(State::PushNull, arguments)
}

/// `PullNull` passes packets that are pulled.
///
/// - Arguments: none.
/// - Ports: one pull input, one pull output.
/// - Packets pass unchanged.
/// - Handlers: none.
///
/// ```click
/// FromDevice(a) -> Queue -> PullNull -> ToDevice(b);
/// ```
///
/// ```calls
/// FromDevice(a) -> Queue -> PullNull -> ToDevice(x);
/// > arrive a 61
/// entered 1
/// > transmit x
/// sent 61 0 0.0.0.0
/// > transmit x
/// sent none
/// ```
pub fn make_pull_null(arguments: &Arguments) -> Result<State, ArgFault>
    ensures { result ≡ without_arguments State.PullNull arguments.now }
{
    without_arguments(State::PullNull, arguments)
}

/// Adds a packet and its bytes to the counts of a Counter.
pub fn count_packet(count: &mut u64, byte_count: &mut u64, packet: &Packet)
    ensures count { count.new ≡ up_by count.old 1 }
    ensures byte_count { byte_count.new ≡ up_by byte_count.old (length packet.now.bytes) }
{
    *count = count.saturating_add(1);
    *byte_count = byte_count.saturating_add(packet.bytes().len() as u64);
}
