//! The handlers of Queue and FrontDropQueue.

ghost use Rattle.std.specs.Prelude.{◌≡◌, ◌<◌, ◌≤◌, ◌-◌, ◌+◌, ◌^◌, codes, min, take, length, [], IsSome, OnOk, OnErr};
ghost use Rattle.click_classes.specs.Queues.{queue_of};
ghost use Rattle.click_handlers.specs.Answers.{IsReadAnswer, IsWriteAnswer};
ghost use Rattle.click_handlers.specs.Names.{name_at, queue_reads, queue_writes};
ghost use Rattle.click_handlers.specs.Reads.{read_value};
ghost use Rattle.click_handlers.specs.Writes.{write_value};

use crate::fault::HandlerFault;
use crate::texts::{number_from, number_text};
use crate::written::{Written, done, refused};
use click_base::trimmed;
use click_classes::{PacketList, State};
use click_engine::Element;
use std::alloc::{AllocError, Global};

/// Reads `length`: the number of packets in the queue.
pub fn read_length(alloc: Global, element: &Element, text: &[u8]) -> Result<Vec<u8>, HandlerFault>
    requires { IsSome (queue_of element.now.state) }
    ensures { IsReadAnswer (read_value (codes "length") element.now text.now) result }
{
    match &element.state {
        State::Queue { list, .. } => number_text(alloc, list.len() as u64),
        State::FrontDropQueue { list, .. } => number_text(alloc, list.len() as u64),
        _ => unreachable!(),
    }
}

/// Reads `highwater_length`: the greatest length since the queue began or since `reset_counts`.
fn read_highwater_length(
    alloc: Global,
    element: &Element,
    text: &[u8],
) -> Result<Vec<u8>, HandlerFault>
    requires { IsSome (queue_of element.now.state) }
    ensures { IsReadAnswer (read_value (codes "highwater_length") element.now text.now) result }
{
    match &element.state {
        State::Queue { highest, .. } => number_text(alloc, *highest as u64),
        State::FrontDropQueue { highest, .. } => number_text(alloc, *highest as u64),
        _ => unreachable!(),
    }
}

/// Reads `drops`: the number of packets that were dropped, at most 2^64 - 1.
fn read_drops(alloc: Global, element: &Element, text: &[u8]) -> Result<Vec<u8>, HandlerFault>
    requires { IsSome (queue_of element.now.state) }
    ensures { IsReadAnswer (read_value (codes "drops") element.now text.now) result }
{
    match &element.state {
        State::Queue { drops, .. } => number_text(alloc, *drops),
        State::FrontDropQueue { drops, .. } => number_text(alloc, *drops),
        _ => unreachable!(),
    }
}

/// Reads `capacity`: the number of packets that the queue has room for.
fn read_capacity(alloc: Global, element: &Element, text: &[u8]) -> Result<Vec<u8>, HandlerFault>
    requires { IsSome (queue_of element.now.state) }
    ensures { IsReadAnswer (read_value (codes "capacity") element.now text.now) result }
{
    match &element.state {
        State::Queue { list, .. } => number_text(alloc, list.capacity() as u64),
        State::FrontDropQueue { list, .. } => number_text(alloc, list.capacity() as u64),
        _ => unreachable!(),
    }
}

/// Gives the list of a queue another capacity. The first packets stay, and the others are counted
/// as drops.
fn resize(
    alloc: Global,
    list: &mut PacketList,
    drops: &mut u64,
    capacity: u64,
) -> Result<(), AllocError>
    requires { capacity ≤ 10000 }
    ensures list { OnOk result (list.new ≡ record { packets = take capacity list.old.packets; capacity = capacity }) }
    ensures drops { OnOk result (drops.new ≡ min (drops.old + (length list.old.packets - capacity)) (2 ^ 64 - 1)) }
    ensures same { OnErr result ((list.new ≡ list.old) × (drops.new ≡ drops.old)) }
{
    let capacity = capacity as usize;
    let lost = list.len().saturating_sub(capacity);
    let kept = list.resized(alloc, capacity)?;
    *list = kept;
    *drops = drops.saturating_add(lost as u64);
    Ok(())
}

/// Writes `capacity`: a number from 1 to 10,000 in decimal digits.
///
/// If the queue has more packets, the first ones stay, and the others are counted as drops.
pub fn write_capacity(alloc: Global, element: Element, text: &[u8]) -> Written
    requires { IsSome (queue_of element.state) }
    ensures { IsWriteAnswer (codes "capacity") element text.now result }
{
    let capacity = match number_from(trimmed(text), 1, 10_000) {
        Ok(capacity) => capacity,
        Err(fault) => return refused(element, fault),
    };
    let mut element = element;
    let resized = match &mut element.state {
        State::Queue { list, drops, .. } => resize(alloc, list, drops, capacity),
        State::FrontDropQueue { list, drops, .. } => resize(alloc, list, drops, capacity),
        _ => unreachable!(),
    };
    match resized {
        Ok(()) => done(element),
        Err(_) => refused(element, HandlerFault::NoMemory),
    }
}

/// Sets the drops to 0, and the greatest length to the current length.
fn reset_counts(list: &PacketList, drops: &mut u64, highest: &mut usize)
    ensures drops { drops.new ≡ 0 }
    ensures highest { highest.new ≡ length list.now.packets }
{
    *drops = 0;
    *highest = list.len();
}

/// Writes `reset_counts`: sets the drops to 0, and the greatest length to the current length.
fn reset_queue_counts(element: Element, text: &[u8]) -> Written
    requires { IsSome (queue_of element.state) }
    ensures { IsWriteAnswer (codes "reset_counts") element text.now result }
{
    let mut element = element;
    match &mut element.state {
        State::Queue {
            list,
            drops,
            highest,
        } => reset_counts(list, drops, highest),
        State::FrontDropQueue {
            list,
            drops,
            highest,
        } => reset_counts(list, drops, highest),
        _ => unreachable!(),
    }
    done(element)
}

/// Writes `reset`: removes all packets. The drops and the greatest length stay.
fn reset_queue(element: Element, text: &[u8]) -> Written
    requires { IsSome (queue_of element.state) }
    ensures { IsWriteAnswer (codes "reset") element text.now result }
{
    let mut element = element;
    match &mut element.state {
        State::Queue { list, .. } => list.clear(),
        State::FrontDropQueue { list, .. } => list.clear(),
        _ => unreachable!(),
    }
    done(element)
}

/// Reads a handler of a queue by its index: `length`, `highwater_length`, `drops` or `capacity`.
pub fn read_at(
    alloc: Global,
    element: &Element,
    text: &[u8],
    place: usize,
) -> Result<Vec<u8>, HandlerFault>
    requires queue { IsSome (queue_of element.now.state) }
    requires place { place < 4 }
    ensures { IsReadAnswer (read_value (name_at queue_reads place) element.now text.now) result }
{
    match place {
        0 => read_length(alloc, element, text),
        1 => read_highwater_length(alloc, element, text),
        2 => read_drops(alloc, element, text),
        3 => read_capacity(alloc, element, text),
        _ => unreachable!(),
    }
}

/// Writes a handler of a queue by its index: `capacity`, `reset_counts` or `reset`.
pub fn write_at(alloc: Global, element: Element, text: &[u8], place: usize) -> Written
    requires queue { IsSome (queue_of element.state) }
    requires place { place < 3 }
    ensures { IsWriteAnswer (name_at queue_writes place) element text.now result }
{
    match place {
        0 => write_capacity(alloc, element, text),
        1 => reset_queue_counts(element, text),
        2 => reset_queue(element, text),
        _ => unreachable!(),
    }
}
