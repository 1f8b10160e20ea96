//! Copies of a packet that several outputs get.
ghost use Rattle.std.specs.Prelude.{◌≡◌, ◌+◌, ◌<◌, ◌≤◌, length, vec_len, vec_capacity};
ghost use Rattle.click_engine.specs.Adjacency.{run_state_of, wiring_of};
ghost use Rattle.click_engine.specs.kept.Transfers.{Served};
ghost use Rattle.click_engine.specs.kept.Slots.{ServedAbove};

use crate::adjacency::{Adjacency, far_in};
use crate::run_memory::RunMemory;
use crate::transfer_stack::PushFrame;
use crate::transfers::push_copy;

/// Pushes copies of the packet of `push_frame` at all its outputs except the last, in order. Stops
/// early at a copy that several outputs are to get. `copy` is the slot of the copies.
#[inline(always)]
fn push_copies(
    adjacency: &Adjacency,
    run_memory: &mut RunMemory,
    push_frame: &mut PushFrame,
    copy: &mut PushFrame,
)
    requires circuit { vec_len run_memory.old.elements ≡ length adjacency.now.shapes + 1 }
    ensures served { Served (wiring_of adjacency.now) (run_state_of run_memory.old) (run_state_of run_memory.new) push_frame.old push_frame.new copy.new }
    ensures count { vec_len run_memory.new.elements ≡ vec_len run_memory.old.elements }
{
    copy.count = 0;
    let row = adjacency.targets(push_frame.at);
    let count = adjacency.len();
    while copy.count == 0 && push_frame.count > 1 {
        copy.packet.copy_from(&push_frame.packet);
        let output = push_frame.first;
        push_frame.first += 1;
        push_frame.count -= 1;
        push_copy(adjacency, run_memory, far_in(count, row, output), copy);
    }
}

/// Does what `push_copies` does, with the frame in slot `top` and the copies in the slot above it.
#[inline(always)]
fn serve_slots(
    adjacency: &Adjacency,
    run_memory: &mut RunMemory,
    slots: &mut [PushFrame],
    top: usize,
)
    requires top { top + 1 < length slots.old }
    requires circuit { vec_len run_memory.old.elements ≡ length adjacency.now.shapes + 1 }
    ensures served { ServedAbove (wiring_of adjacency.now) (run_state_of run_memory.old) (run_state_of run_memory.new) slots.old slots.new top }
    ensures count { vec_len run_memory.new.elements ≡ vec_len run_memory.old.elements }
{
    let (below, above) = slots.split_at_mut(top + 1);
    push_copies(adjacency, run_memory, &mut below[top], &mut above[0]);
}

/// Does what `serve_slots` does, for slots in a vector.
#[inline(always)]
pub(crate) fn serve_above(
    adjacency: &Adjacency,
    run_memory: &mut RunMemory,
    push_frames: &mut Vec<PushFrame>,
    top: usize,
)
    requires top { top + 1 < vec_len push_frames.old }
    requires circuit { vec_len run_memory.old.elements ≡ length adjacency.now.shapes + 1 }
    ensures served { ServedAbove (wiring_of adjacency.now) (run_state_of run_memory.old) (run_state_of run_memory.new) push_frames.old.items push_frames.new.items top }
    ensures capacity { vec_capacity push_frames.old ≤ vec_capacity push_frames.new }
    ensures count { vec_len run_memory.new.elements ≡ vec_len run_memory.old.elements }
{
    serve_slots(adjacency, run_memory, push_frames.as_mut_slice(), top);
}
