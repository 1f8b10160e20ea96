//! Transfers of a packet over connections: pushes and pulls.
//!
//! Each transfer spends one crossing. If no crossing is left, a push drops its packet and a pull
//! returns no answer, and either is counted as an overrun.
ghost use Rattle.std.specs.Prelude.{◌≡◌, ℕ, ◌+◌, ◌<◌, ◌⊎◌, ◌≤◌, ◌^◌, length, vec_len, nat_lt, MatchOption, IfSome, None, Some, true, false};
ghost use Rattle.click_engine.specs.Run.{push};
ghost use Rattle.click_ports.specs.Net.{Net};
ghost use Rattle.click_engine.specs.RunState.{EndsBlank};
ghost use Rattle.click_engine.specs.Adjacency.{run_state_of, wiring_of};
ghost use Rattle.click_engine.specs.kept.Transfers.{run_state_with, run_state_after, Along, Pushed, Reached};
ghost use Rattle.click_engine.specs.kept.Tables.{AreFirstTargets, AreWithin, IsTarget};

use crate::adjacency::Adjacency;
use crate::circuit::Circuit;
use crate::run_memory::RunMemory;
use crate::run_state::{ConnectionEnd, Element, act_at};
use crate::transfer_stack::PushFrame;
use click_base::Class;
use click_packet::Packet;
use std::alloc::{AllocError, Global};

/// The result of a pull over one connection: an answer, or inputs of an element to ask in turn.
#[derive(Clone, Copy)]
pub struct PullResult {
    /// Whether the pull is answered.
    pub is_answered: bool,
    /// The element whose inputs are to be asked, and the number of its inputs.
    pub at: usize,
    pub inputs: u16,
    /// The number of inputs to ask, from `first` on; 0 if there is no answer.
    pub count: u16,
    pub first: u16,
}

/// The pull is answered.
pub(crate) const ANSWERED: PullResult = PullResult {
    is_answered: true,
    at: 0,
    inputs: 0,
    count: 0,
    first: 0,
};

/// There is no answer, and no input is left to ask.
pub(crate) const NO_ANSWER: PullResult = PullResult {
    is_answered: false,
    at: 0,
    inputs: 0,
    count: 0,
    first: 0,
};

/// Pushes the packet of `push_frame` into the input `far`.
///
/// Leaves in `push_frame` the packet as the element passes it on, and the outputs that get it next.
/// Their `count` is 0 if the packet ends there or no crossing is left.
#[inline(always)]
fn push_into(run_memory: &mut RunMemory, far: ConnectionEnd, push_frame: &mut PushFrame)
    requires { far.element < vec_len run_memory.old.elements }
    ensures pushed { (net : Net) (at output : ℕ) → IsTarget net at output far → vec_len run_memory.old.elements ≡ length net.shapes + 1
        → Pushed (wiring_of net) (run_state_of run_memory.old) (run_state_of run_memory.new) at output push_frame.old.packet push_frame.new.at push_frame.new.first push_frame.new.count push_frame.new.packet }
    ensures count { vec_len run_memory.new.elements ≡ vec_len run_memory.old.elements }
{
    if run_memory.left == 0 {
        run_memory.overrun();
        push_frame.count = 0;
        return;
    }
    run_memory.spend();
    let outputs = run_memory.act(far.element, far.port, &mut push_frame.packet);
    push_frame.at = far.element;
    push_frame.first = outputs.first as usize;
    push_frame.count = outputs.count as usize;
}

/// Pushes the packet of `push_frame` over the connection at an output of element `at`. Leaves in
/// `push_frame` what `push_into` does.
#[inline(always)]
pub(crate) fn push_over(
    adjacency: &Adjacency,
    run_memory: &mut RunMemory,
    at: usize,
    output: usize,
    push_frame: &mut PushFrame,
)
    requires circuit { vec_len run_memory.old.elements ≡ length adjacency.now.shapes + 1 }
    ensures pushed { Pushed (wiring_of adjacency.now) (run_state_of run_memory.old) (run_state_of run_memory.new) at output push_frame.old.packet push_frame.new.at push_frame.new.first push_frame.new.count push_frame.new.packet }
    ensures count { vec_len run_memory.new.elements ≡ vec_len run_memory.old.elements }
{
    push_into(run_memory, adjacency.target(at, output), push_frame);
}

/// Returns the input that an output of element `at` is connected to.
///
/// perf: for output 0 it is in `places` and `ports`, the table of first outputs.
#[inline(always)]
fn target_of(
    adjacency: &Adjacency,
    places: &[usize],
    ports: &[u16],
    at: usize,
    output: u16,
) -> ConnectionEnd
    requires first_targets { AreFirstTargets (length adjacency.now.shapes) places.now ports.now (wiring_of adjacency.now).target }
    requires within { AreWithin (length adjacency.now.shapes) (wiring_of adjacency.now).target }
    requires place { at < length places.now }
    requires port { at < length ports.now }
    ensures target { IsTarget adjacency.now at output result }
    ensures within { result.element ≤ length adjacency.now.shapes }
{
    if output == 0 {
        ConnectionEnd {
            element: places[at],
            port: ports[at],
        }
    } else {
        adjacency.target(at, output as usize)
    }
}

/// Pushes the packet of `push_frame` into the input `first`, and on while exactly one output gets
/// it. Returns false if it runs out of crossings; the packet is dropped then, and the caller counts
/// the overrun.
///
/// perf: the tables stay in locals, and `left` is counted down in memory by one instruction. The
/// next input is looked up at the end of a step, where the output is a constant for most classes,
/// so that the test for output 0 disappears.
#[inline(always)]
fn push_on(
    adjacency: &Adjacency,
    elements: &mut [Element],
    left: &mut usize,
    push_frame: &mut PushFrame,
    first: ConnectionEnd,
) -> bool
    requires circuit { length elements.old ≡ length adjacency.now.shapes + 1 }
    requires blank { EndsBlank elements.old }
    requires there { first.element ≤ length adjacency.now.shapes }
    ensures along { (at output lost : ℕ) → IsTarget adjacency.now at output first
        → Along (wiring_of adjacency.now) (run_state_with elements.old left.old lost) (run_state_after result elements.new left.new lost) at output 1 push_frame.old.packet
        push_frame.new.at push_frame.new.first push_frame.new.count push_frame.new.packet }
    ensures ends { (push_frame.new.count ≡ 0) ⊎ (1 < push_frame.new.count) }
    ensures lost { result ≡ false → push_frame.new.count ≡ 0 }
    ensures blank { EndsBlank elements.new }
{
    let (places, ports) = adjacency.first_targets();
    let mut far = first;
    while *left > 0 {
        let outputs = act_at(elements, far.element, far.port, &mut push_frame.packet);
        if outputs.count != 1 {
            *left -= 1;
            if outputs.count == 0 {
                push_frame.count = 0;
                return true;
            }
            push_frame.at = far.element;
            push_frame.first = outputs.first as usize;
            push_frame.count = outputs.count as usize;
            return true;
        }
        far = target_of(adjacency, places, ports, far.element, outputs.first);
        *left -= 1;
    }
    push_frame.count = 0;
    false
}

/// Pushes the packet of `push_frame` into the input `first`, and on while exactly one output gets
/// it. Returns whether several outputs get it next.
#[inline(always)]
fn push_fast(
    adjacency: &Adjacency,
    run_memory: &mut RunMemory,
    push_frame: &mut PushFrame,
    first: ConnectionEnd,
) -> bool
    requires circuit { vec_len run_memory.old.elements ≡ length adjacency.now.shapes + 1 }
    requires there { first.element ≤ length adjacency.now.shapes }
    ensures along { (at output : ℕ) → IsTarget adjacency.now at output first → Along (wiring_of adjacency.now) (run_state_of run_memory.old) (run_state_of run_memory.new)
        at output 1 push_frame.old.packet push_frame.new.at push_frame.new.first push_frame.new.count push_frame.new.packet }
    ensures ends { (push_frame.new.count ≡ 0) ⊎ (1 < push_frame.new.count) }
    ensures several { result ≡ nat_lt 0 push_frame.new.count }
    ensures count { vec_len run_memory.new.elements ≡ vec_len run_memory.old.elements }
{
    let elements = run_memory.elements.as_mut_slice();
    if push_on(adjacency, elements, &mut run_memory.left, push_frame, first) {
        return push_frame.count > 0;
    }
    run_memory.overrun();
    false
}

/// Does what `push_fast` does, out of line.
///
/// perf: the loop keeps its values in registers, whatever its caller keeps there.
#[inline(never)]
fn push_fast_outlined(
    adjacency: &Adjacency,
    run_memory: &mut RunMemory,
    push_frame: &mut PushFrame,
    first: ConnectionEnd,
) -> bool
    requires circuit { vec_len run_memory.old.elements ≡ length adjacency.now.shapes + 1 }
    requires there { first.element ≤ length adjacency.now.shapes }
    ensures along { (at output : ℕ) → IsTarget adjacency.now at output first → Along (wiring_of adjacency.now) (run_state_of run_memory.old) (run_state_of run_memory.new)
        at output 1 push_frame.old.packet push_frame.new.at push_frame.new.first push_frame.new.count push_frame.new.packet }
    ensures ends { (push_frame.new.count ≡ 0) ⊎ (1 < push_frame.new.count) }
    ensures several { result ≡ nat_lt 0 push_frame.new.count }
    ensures count { vec_len run_memory.new.elements ≡ vec_len run_memory.old.elements }
{
    push_fast(adjacency, run_memory, push_frame, first)
}

/// Pushes the packet of `push_frame` into the input `first`, and on while exactly one output gets
/// it. Returns whether several outputs get it next.
///
/// perf: `outlined` makes the loop an out-of-line call, for callers under register pressure.
#[inline(always)]
pub(crate) fn push_slot(
    adjacency: &Adjacency,
    run_memory: &mut RunMemory,
    push_frame: &mut PushFrame,
    first: ConnectionEnd,
    outlined: bool,
) -> bool
    requires circuit { vec_len run_memory.old.elements ≡ length adjacency.now.shapes + 1 }
    requires there { first.element ≤ length adjacency.now.shapes }
    ensures along { (at output : ℕ) → IsTarget adjacency.now at output first → Along (wiring_of adjacency.now) (run_state_of run_memory.old) (run_state_of run_memory.new)
        at output 1 push_frame.old.packet push_frame.new.at push_frame.new.first push_frame.new.count push_frame.new.packet }
    ensures ends { (push_frame.new.count ≡ 0) ⊎ (1 < push_frame.new.count) }
    ensures several { result ≡ nat_lt 0 push_frame.new.count }
    ensures count { vec_len run_memory.new.elements ≡ vec_len run_memory.old.elements }
{
    if outlined {
        return push_fast_outlined(adjacency, run_memory, push_frame, first);
    }
    push_fast(adjacency, run_memory, push_frame, first)
}

/// Pushes the packet of `push_frame` on while exactly one output gets it.
#[inline(always)]
pub(crate) fn push_along(
    adjacency: &Adjacency,
    run_memory: &mut RunMemory,
    push_frame: &mut PushFrame,
)
    requires circuit { vec_len run_memory.old.elements ≡ length adjacency.now.shapes + 1 }
    ensures along { Along (wiring_of adjacency.now) (run_state_of run_memory.old) (run_state_of run_memory.new) push_frame.old.at push_frame.old.first push_frame.old.count push_frame.old.packet
        push_frame.new.at push_frame.new.first push_frame.new.count push_frame.new.packet }
    ensures ends { (push_frame.new.count ≡ 0) ⊎ (1 < push_frame.new.count) }
    ensures none { push_frame.old.count ≡ 0 → push_frame.new.count ≡ 0 }
    ensures count { vec_len run_memory.new.elements ≡ vec_len run_memory.old.elements }
{
    if push_frame.count == 1 {
        let far = adjacency.target(push_frame.at, push_frame.first);
        let _several = push_slot(adjacency, run_memory, push_frame, far, true);
    }
}

/// Pushes a copy into the input `far`, and on while exactly one output gets it. The copy is the
/// packet of `push_frame`.
///
/// perf: the first step is inline, because most copies end with it.
#[inline(always)]
pub(crate) fn push_copy(
    adjacency: &Adjacency,
    run_memory: &mut RunMemory,
    far: ConnectionEnd,
    push_frame: &mut PushFrame,
)
    requires circuit { vec_len run_memory.old.elements ≡ length adjacency.now.shapes + 1 }
    requires there { far.element ≤ length adjacency.now.shapes }
    ensures along { (at output : ℕ) → IsTarget adjacency.now at output far → Along (wiring_of adjacency.now) (run_state_of run_memory.old) (run_state_of run_memory.new)
        at output 1 push_frame.old.packet push_frame.new.at push_frame.new.first push_frame.new.count push_frame.new.packet }
    ensures ends { (push_frame.new.count ≡ 0) ⊎ (1 < push_frame.new.count) }
    ensures count { vec_len run_memory.new.elements ≡ vec_len run_memory.old.elements }
{
    push_into(run_memory, far, push_frame);
    push_along(adjacency, run_memory, push_frame);
}

/// Pulls over the connection at an input of element `at`. If the pull is answered at once, the
/// answer is in `packet`.
#[inline(always)]
pub(crate) fn pull_over(
    adjacency: &Adjacency,
    run_memory: &mut RunMemory,
    at: usize,
    input: usize,
    packet: &mut Packet,
) -> PullResult
    requires circuit { vec_len run_memory.old.elements ≡ length adjacency.now.shapes + 1 }
    ensures reached { Reached (wiring_of adjacency.now) (run_state_of run_memory.old) (run_state_of run_memory.new) at input packet.new result }
    ensures count { vec_len run_memory.new.elements ≡ vec_len run_memory.old.elements }
    ensures within { result.at < vec_len run_memory.new.elements }
{
    if run_memory.left == 0 {
        run_memory.overrun();
        return NO_ANSWER;
    }
    run_memory.spend();
    run_memory.reach(adjacency.source(at, input), packet)
}

/// Does what `pull_over` does, at input 0.
///
/// perf: the source of each first input is in a table of its own.
#[inline(always)]
pub(crate) fn pull_first(
    adjacency: &Adjacency,
    run_memory: &mut RunMemory,
    at: usize,
    packet: &mut Packet,
) -> PullResult
    requires circuit { vec_len run_memory.old.elements ≡ length adjacency.now.shapes + 1 }
    requires there { at < length adjacency.now.shapes }
    ensures reached { Reached (wiring_of adjacency.now) (run_state_of run_memory.old) (run_state_of run_memory.new) at 0 packet.new result }
    ensures count { vec_len run_memory.new.elements ≡ vec_len run_memory.old.elements }
    ensures within { result.at < vec_len run_memory.new.elements }
{
    if run_memory.left == 0 {
        run_memory.overrun();
        return NO_ANSWER;
    }
    run_memory.spend();
    run_memory.reach(adjacency.first_source(at), packet)
}

/// Returns for each element whether its output 0 is connected to a Queue.
///
/// perf: only there is `store_at` worth an attempt. This is a hint: it never changes the result of
/// a push, so it has no contract.
pub(crate) fn leads_to_queue(alloc: Global, circuit: &Circuit) -> Result<Vec<bool>, AllocError> {
    let count = circuit.adjacency.len();
    let mut leads_to_queue = Vec::with_capacity(alloc, count)?;
    for at in 0..count {
        let far = circuit.adjacency.first_target(at);
        leads_to_queue.push(circuit.run_memory.elements[far.element].class == Class::Queue)?;
    }
    Ok(leads_to_queue)
}

/// Stores a packet that is pushed at output 0 of element `at`, if a Queue is connected there.
/// Returns false, and changes nothing, if there is no Queue or no crossing is left.
///
/// perf: the packet is copied straight into the queue, not into a slot first. `to_queue` is the
/// hint of `leads_to_queue`; if it is false, no attempt is made.
#[inline(always)]
pub(crate) fn store_at(
    adjacency: &Adjacency,
    run_memory: &mut RunMemory,
    at: usize,
    packet: &Packet,
    to_queue: bool,
) -> bool
    requires circuit { vec_len run_memory.old.elements ≡ length adjacency.now.shapes + 1 }
    requires there { at < length adjacency.now.shapes }
    ensures stored { result ≡ true → run_state_of run_memory.new ≡ push (wiring_of adjacency.now) run_memory.old.left (run_state_of run_memory.old) at 0 packet.now }
    ensures other { result ≡ false → run_state_of run_memory.new ≡ run_state_of run_memory.old }
    ensures fewer { run_memory.new.left ≤ run_memory.old.left }
    ensures count { vec_len run_memory.new.elements ≡ vec_len run_memory.old.elements }
{
    if !to_queue {
        return false;
    }
    if run_memory.left == 0 {
        return false;
    }
    let far = adjacency.first_target(at);
    if run_memory.store(far.element, packet) {
        run_memory.spend();
        return true;
    }
    false
}
