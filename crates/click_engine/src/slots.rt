//! The slots of a transfer stack: `PushFrame` values that are written in place and used again.
ghost use Rattle.std.specs.Prelude.{◌≡◌, ℕ, ◌+◌, ◌<◌, ◌≤◌, List, length, take, vec_len, vec_capacity};
ghost use Rattle.click_engine.specs.kept.Slots.{CopiedUp};
ghost use Rattle.click_engine.specs.declared.transfer_stack.PullFrame.TheVariants.{Tries};

use crate::transfer_stack::{PullFrame, PushFrame};
use crate::transfers::PullResult;

/// Returns the frame of an element that is about to ask the inputs which `pull_result` names.
pub(crate) fn tries(pull_result: PullResult) -> PullFrame
    ensures { result ≡ Tries pull_result.at pull_result.inputs pull_result.count pull_result.first 0 }
{
    PullFrame::Tries {
        at: pull_result.at,
        inputs: pull_result.inputs,
        count: pull_result.count,
        input: pull_result.first,
        back: 0,
    }
}

/// Copies the packet of slot `top` into the slot above it, which is made if it does not exist yet.
#[inline(always)]
pub(crate) fn copy_up(push_frames: &mut Vec<PushFrame>, top: usize)
    requires top { top < vec_len push_frames.old }
    requires room { top + 1 < vec_capacity push_frames.old }
    ensures copied { CopiedUp push_frames.old.items push_frames.new.items top }
    ensures capacity { vec_capacity push_frames.old ≤ vec_capacity push_frames.new }
{
    if top + 1 == push_frames.len() {
        push_copy(push_frames, top);
    } else {
        copy_next(push_frames.as_mut_slice(), top);
    }
}

/// Makes the slot above `top` if it does not exist yet.
#[inline(always)]
pub(crate) fn make_above(push_frames: &mut Vec<PushFrame>, top: usize)
    requires top { top < vec_len push_frames.old }
    requires room { top + 1 < vec_capacity push_frames.old }
    ensures below { take (top + 1) push_frames.new.items ≡ take (top + 1) push_frames.old.items }
    ensures long { top + 1 < length push_frames.new.items }
    ensures capacity { vec_capacity push_frames.old ≤ vec_capacity push_frames.new }
{
    if top + 1 == push_frames.len() {
        push_copy(push_frames, top);
    }
}

/// Makes the slot above `top`, which is the last one, with a copy of its packet.
#[cold]
#[inline(never)]
fn push_copy(push_frames: &mut Vec<PushFrame>, top: usize)
    requires last { top + 1 ≡ vec_len push_frames.old }
    requires room { top + 1 < vec_capacity push_frames.old }
    ensures copied { CopiedUp push_frames.old.items push_frames.new.items top }
    ensures capacity { vec_capacity push_frames.old ≤ vec_capacity push_frames.new }
{
    let packet = push_frames[top].packet.copy();
    let _made = push_frames.push(PushFrame {
        at: 0,
        first: 0,
        count: 0,
        packet,
    });
}

#[inline(always)]
fn copy_next(slots: &mut [PushFrame], top: usize)
    requires { top + 1 < length slots.old }
    ensures { CopiedUp slots.old slots.new top }
{
    let (below, above) = slots.split_at_mut(top + 1);
    let next = &mut above[0];
    let lower = &*below;
    next.packet.copy_from(&lower[top].packet);
}
