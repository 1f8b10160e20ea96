//! The inputs of an element that are asked one after another, without a frame for it.
ghost use Rattle.std.specs.Prelude.{◌≡◌, ◌+◌, ◌<◌, length, vec_len};
ghost use Rattle.click_classes.specs.Acts.{after};
ghost use Rattle.click_engine.specs.Adjacency.{run_state_of, wiring_of};
ghost use Rattle.click_engine.specs.Frames.{moved_on};
ghost use Rattle.click_engine.specs.kept.Asked.{Asked, IsSmall, asks_now};
ghost use Rattle.click_engine.specs.declared.transfer_stack.PullFrame.TheVariants.{Tries};

use crate::adjacency::Adjacency;
use crate::run_memory::RunMemory;
use crate::transfer_stack::PullFrame;
use crate::transfers::{PullResult, pull_over};
use click_packet::Packet;

/// An element that asks its inputs for a packet, one after another.
///
/// It asked its input `back` last, and asks up to `count` more, from `input` on and cyclically.
///
/// perf: the numbers fit in 16 bits. In whole words they are counted without unpacking.
#[derive(Clone, Copy)]
pub struct InputScan {
    pub at: usize,
    pub inputs: usize,
    pub count: usize,
    pub input: usize,
    pub back: usize,
}

/// Returns the frame of an element that goes on asking later.
pub(crate) fn waiting_frame(input_scan: InputScan) -> PullFrame
    requires { IsSmall input_scan }
    ensures { result ≡ Tries input_scan.at input_scan.inputs input_scan.count input_scan.input input_scan.back }
{
    PullFrame::Tries {
        at: input_scan.at,
        inputs: input_scan.inputs as u16,
        count: input_scan.count as u16,
        input: input_scan.input as u16,
        back: input_scan.back as u16,
    }
}

/// Returns the input after this one, cyclically.
#[inline(always)]
fn next_input(inputs: usize, input: usize) -> usize
    requires small { (inputs < 65536) × (input < 65536) }
    ensures next { result ≡ after inputs input }
    ensures small { result < 65536 }
{
    if input + 1 < inputs { input + 1 } else { 0 }
}

/// Advances the scan after an input was asked.
#[inline(always)]
pub(crate) fn move_on(input_scan: &mut InputScan)
    requires some { 0 < input_scan.old.count }
    requires small { IsSmall input_scan.old }
    ensures moved { asks_now input_scan.new ≡ moved_on (asks_now input_scan.old) }
    ensures at { input_scan.new.at ≡ input_scan.old.at }
    ensures small { IsSmall input_scan.new }
{
    input_scan.count -= 1;
    input_scan.back = input_scan.input;
    input_scan.input = next_input(input_scan.inputs, input_scan.input);
}

/// Asks inputs until one answers, one leads to further inputs, or all `count` were asked. An answer
/// is in `packet`.
#[inline(always)]
pub(crate) fn ask_until_answer(
    adjacency: &Adjacency,
    run_memory: &mut RunMemory,
    input_scan: &mut InputScan,
    packet: &mut Packet,
) -> PullResult
    requires circuit { vec_len run_memory.old.elements ≡ length adjacency.now.shapes + 1 }
    requires some { 0 < input_scan.old.count }
    requires small { IsSmall input_scan.old }
    ensures asked { Asked (wiring_of adjacency.now) (run_state_of run_memory.old) (run_state_of run_memory.new) input_scan.old input_scan.new packet.new result }
    ensures small { IsSmall input_scan.new }
    ensures at { input_scan.new.at ≡ input_scan.old.at }
    ensures count { vec_len run_memory.new.elements ≡ vec_len run_memory.old.elements }
{
    loop {
        let pull_result = pull_over(
            adjacency,
            run_memory,
            input_scan.at,
            input_scan.input,
            packet,
        );
        move_on(input_scan);
        if pull_result.is_answered {
            return pull_result;
        }
        if pull_result.count > 0 {
            return pull_result;
        }
        if input_scan.count == 0 {
            return pull_result;
        }
    }
}
