//! The queues: Queue and FrontDropQueue.

ghost use Rattle.std.specs.Prelude.{◌≡◌, ◌≤◌, [], Ok, IfOk, length};
ghost use Rattle.click_classes.specs.Made.{capacity, queue, front_drop_queue};
ghost use Rattle.click_classes.specs.kept.Answers.{IsOrNoMemory};
ghost use Rattle.click_classes.specs.Acts.{queued, front_queued};

use crate::arguments::Arguments;
use crate::fault::ArgFault;
use crate::packet_list::PacketList;
use crate::state::State;
use crate::values::number::number_in;
use click_packet::Packet;
use std::alloc::Global;

/// Returns the number of packets that the queue has room for.
#[tactic(auto, unfolding(crate::specs::Made::capacity))]
fn capacity(arguments: &Arguments) -> Result<u64, ArgFault>
    ensures value { result ≡ capacity arguments.now }
    ensures bound { IfOk result (λ n. n ≤ 10000) }
{
    if !arguments.are(0, 1) {
        return Err(ArgFault::ArgumentCount);
    }
    match arguments.get(0) {
        Some(bytes) => number_in(bytes, 1, 10_000),
        None => Ok(1_000),
    }
}

/// Returns an empty list with room for `capacity` packets, or fails with out of memory.
fn list(alloc: Global, capacity: u64) -> Result<PacketList, ArgFault>
    requires { capacity ≤ 10000 }
    ensures { IsOrNoMemory (Ok (record { packets = []; capacity = capacity })) result }
{
    match PacketList::with_capacity(alloc, capacity as usize) {
        Ok(list) => Ok(list),
        Err(_) => Err(ArgFault::NoMemory),
    }
}

/// `Queue([CAPACITY])` stores packets and returns them first in, first out.
///
/// - Arguments: CAPACITY, a number from 1 to 10,000; default 1,000.
/// - Ports: one push input, one pull output.
/// - A pushed packet is stored last. If CAPACITY packets are stored already, it is dropped and
///   counted in `drops`. A pull takes the first packet out.
/// - Read handlers: `length`, the number of stored packets; `highwater_length`, its maximum since
///   the beginning or the last `reset_counts`; `drops`, the number of dropped packets, at most 2^64
///   - 1; `capacity`.
/// - Write handlers: `capacity`, from 1 to 10,000 (not a number, out of range). If more packets are
///   stored, the first ones stay and the others count as drops. `reset_counts` sets `drops` to 0
///   and `highwater_length` to the length. `reset` removes all packets.
///
/// ```click
/// FromDevice(a) -> q :: Queue(64) -> ToDevice(b);
/// ```
///
/// ```calls
/// FromDevice(a) -> q :: Queue(2) -> ToDevice(b);
/// > poll a 31,32,33
/// entered 3
/// > read q.drops
/// value 31
/// > transmit b
/// sent 31 0 0.0.0.0
/// > transmit b
/// sent 32 0 0.0.0.0
/// > transmit b
/// sent none
/// > read q.length
/// value 30
/// > read q.highwater_length
/// value 32
/// > read q.capacity
/// value 32
/// ```
#[tactic(auto, unfolding(crate::specs::Made::queue))]
pub fn make_queue(alloc: Global, arguments: &Arguments) -> Result<State, ArgFault>
    ensures { IsOrNoMemory (queue arguments.now) result }
{
    let capacity = capacity(arguments)?;
    let list = list(alloc, capacity)?;
    Ok(State::Queue {
        list,
        drops: 0,
        highest: 0,
    })
}

/// `FrontDropQueue([CAPACITY])` stores packets first in, first out, and drops the oldest if full.
///
/// - Arguments: those of Queue.
/// - Ports: one push input, one pull output.
/// - A pushed packet is stored last. If CAPACITY packets are stored already, the first one is
///   dropped for it and counted in `drops`. A pull takes the first packet out.
/// - Handlers: those of Queue.
///
/// ```click
/// FromDevice(a) -> q :: FrontDropQueue(2) -> ToDevice(b);
/// ```
///
/// ```calls
/// FromDevice(a) -> q :: FrontDropQueue(2) -> ToDevice(b);
/// > poll a 31,32,33
/// entered 3
/// > read q.drops
/// value 31
/// > read q.length
/// value 32
/// > transmit b
/// sent 32 0 0.0.0.0
/// > transmit b
/// sent 33 0 0.0.0.0
/// > transmit b
/// sent none
/// > read q.highwater_length
/// value 32
/// ```
#[tactic(auto, unfolding(crate::specs::Made::front_drop_queue))]
pub fn make_front_drop_queue(alloc: Global, arguments: &Arguments) -> Result<State, ArgFault>
    ensures { IsOrNoMemory (front_drop_queue arguments.now) result }
{
    let capacity = capacity(arguments)?;
    let list = list(alloc, capacity)?;
    Ok(State::FrontDropQueue {
        list,
        drops: 0,
        highest: 0,
    })
}

/// Appends the packet. A full queue drops the packet instead.
#[inline(never)]
pub fn store(list: &mut PacketList, drops: &mut u64, highest: &mut usize, packet: &Packet)
    ensures { queued list.old drops.old highest.old packet.now
        ≡ record { state = State.Queue list.new drops.new highest.new; packet = packet.now; outputs = record { first = 0; count = 0 } } }
{
    if list.is_full() {
        *drops = drops.saturating_add(1);
        return;
    }
    let count = list.len() + 1;
    if *highest < count {
        *highest = count;
    }
    list.push_back(packet);
}

/// Appends the packet. A full queue first drops its oldest packet.
#[inline(never)]
pub fn store_dropping_first(
    list: &mut PacketList,
    drops: &mut u64,
    highest: &mut usize,
    packet: &Packet,
)
    ensures { front_queued list.old drops.old highest.old packet.now
        ≡ record { state = State.FrontDropQueue list.new drops.new highest.new; packet = packet.now; outputs = record { first = 0; count = 0 } } }
{
    if !list.is_full() {
        list.push_back(packet);
        *highest = list.len().max(*highest);
        return;
    }
    *drops = drops.saturating_add(1);
    // A queue with room for no packet drops the new one.
    if list.len() > 0 {
        list.drop_front();
        list.push_back(packet);
    }
}
