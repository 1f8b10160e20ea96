//! Answers calls through the rows of a handler table.
//!
//! The handlers of the gateway package have no rows. They are called by name.

ghost use Rattle.std.specs.Prelude.{◌≡◌, ◌≢◌, ◌&&◌, ◌<◌, ◌≤◌, ℕ, List, Result, length, not, Ok, Err, None, Some, slice_get, slice_index_or, true, false, IfOk, IfErr, IfSome, MatchOption, MatchResult};
ghost use Rattle.click_base.specs.Classes.{is_gateway};
ghost use Rattle.click_classes.specs.State.{class};
ghost use Rattle.click_engine.specs.RunState.{blank};
ghost use Rattle.click_handlers.specs.Answers.{IsReadAnswer, IsWriteAnswer, takes_room};
ghost use Rattle.click_handlers.specs.Names.{has_read, has_write};
ghost use Rattle.click_handlers.specs.Reads.{read_value};
ghost use Rattle.click_handlers.specs.Writes.{write_value};
ghost use Rattle.click_router.specs.One as spec;

use crate::call::{Call, Refusal, Reply, StepFault, refusal_of};
use crate::check::{Access, check_reply};
use crate::globals::{has_global, is_hotconfig};
use crate::running::RunningConfig;
use crate::stored_reply::{CompactReply, StoredReply};
use click_base::sequence::Sequence;
use click_base::split;
use click_engine::{Element, Plant};
use click_handlers::{
    HandlerFault, ReadRow, Table, WriteRow, has_read, has_write, read_gateway, write_gateway,
};
use click_packet::PacketRoom;
use std::alloc::Global;

/// A table of handlers, through which a router answers its calls.
///
/// Everything above the router is generic in it.
pub trait Handlers {
    ghost use Rattle.std.specs.Prelude.{◌≡◌, true, is_some, IfOk, IfErr, MatchResult};
    ghost use Rattle.click_router.specs.One.{Answers, takes_memory, holds_memory, is_transmit};

    /// Answers one call. Its contract is that of `Router::step_stored`.
    fn step_stored(
        &self,
        running: &mut RunningConfig,
        alloc: Global,
        call: &Call,
        room: Option<PacketRoom>,
    ) -> Result<StoredReply, StepFault>
        requires { is_transmit call.now ≡ true → is_some room ≡ true }
        ensures answer { MatchResult result (λ reply. Answers running.old call.now running.new reply) (λ _. running.new ≡ running.old) }
        ensures refused { IfErr result (λ _. takes_memory call.now ≡ true) }
        ensures light { IfOk result (λ reply. holds_memory reply ≡ true → running.new ≡ running.old) };
}

/// Returns the reply to the answer of a read handler. Fails if the handler ran out of memory.
fn read_reply(answer: Result<Vec<u8>, HandlerFault>) -> Result<StoredReply, StepFault>
    ensures { (value : Result (List ℕ) HandlerFault) → IsReadAnswer value answer → IfOk result (λ reply. reply ≡ spec.read_reply value) }
{
    match answer {
        Ok(value) => Ok(StoredReply::of(CompactReply::Value(Sequence::of(value)))),
        Err(HandlerFault::NoMemory) => Err(StepFault::NoMemory),
        Err(fault) => Ok(StoredReply::refusal(Refusal::Handler(fault))),
    }
}

/// Reads a handler of an element through its row.
fn read_row(
    row: &ReadRow,
    element: &Element,
    alloc: Global,
    text: &[u8],
) -> Result<StoredReply, StepFault>
    requires { class element.now.state ≡ row.now.class }
    ensures { IfOk result (λ reply. reply ≡ spec.read_reply (read_value row.now.name.items element.now text.now)) }
{
    read_reply(row.answer(alloc, element, text))
}

/// Reads a handler that has no row.
///
/// It is of the gateway package, or the class has no such handler.
fn read_without_row(
    element: &Element,
    alloc: Global,
    handler: &[u8],
    text: &[u8],
) -> Result<StoredReply, StepFault>
    requires { (not (is_gateway (class element.now.state)) && has_read (class element.now.state) handler.now) ≡ false }
    ensures { IfOk result (λ reply. reply ≡ spec.read_element element.now handler.now text.now) }
{
    let class = element.state.class();
    if has_read(class, handler) {
        return read_reply(read_gateway(alloc, element, handler, text));
    }
    Ok(StoredReply::refusal(refusal_of(has_write(class, handler))))
}

/// Reads a handler of an element.
fn read_element(
    table: &Table,
    element: &Element,
    alloc: Global,
    handler: &[u8],
    text: &[u8],
) -> Result<StoredReply, StepFault>
    ensures { IfOk result (λ reply. reply ≡ spec.read_element element.now handler.now text.now) }
{
    let class = element.state.class();
    match table.read(class, handler) {
        Some(row) => read_row(row, element, alloc, text),
        None => read_without_row(element, alloc, handler, text),
    }
}

/// Reads a handler.
fn read(
    table: &Table,
    running: &RunningConfig,
    alloc: Global,
    name: &[u8],
    text: &[u8],
) -> Result<StoredReply, StepFault>
    ensures { IfOk result (λ reply. reply ≡ spec.read running.now name.now text.now) }
{
    let Some((element, handler)) = split(name) else {
        return running.read_global(alloc, name);
    };
    match running.find(element) {
        Some((_, found)) => read_element(table, found, alloc, handler, text),
        None => Ok(StoredReply::refusal(Refusal::NoElement)),
    }
}

/// Returns the reply to the answer of a write handler. Fails if the handler ran out of memory.
fn write_reply(fault: Option<HandlerFault>) -> Result<StoredReply, StepFault>
    ensures { MatchOption fault (result ≡ Ok Reply.Done) (λ f. MatchResult result (λ reply. (reply ≡ Reply.Refused (Refusal.Handler f)) × (f ≢ HandlerFault.NoMemory)) (λ _. f ≡ HandlerFault.NoMemory)) }
{
    match fault {
        None => Ok(StoredReply::of(CompactReply::Done)),
        Some(HandlerFault::NoMemory) => Err(StepFault::NoMemory),
        Some(fault) => Ok(StoredReply::refusal(Refusal::Handler(fault))),
    }
}

/// Writes a handler of the element at an index, through its row. Fails with out of memory, and
/// changes nothing then.
fn write_row(
    row: &WriteRow,
    plant: &mut Plant,
    at: usize,
    alloc: Global,
    text: &[u8],
) -> Result<StoredReply, StepFault>
    requires there { at < length plant.old.elements }
    requires class { class (slice_index_or plant.old.elements at blank).state ≡ row.now.class }
    ensures answer { MatchResult result
        (λ reply. spec.written plant.old at (write_value row.now.name.items (slice_index_or plant.old.elements at blank) text.now) ≡ (plant.new, reply))
        (λ _. plant.new ≡ plant.old) }
    ensures memory { IfErr result (λ _. takes_room row.now.name.items ≡ true) }
{
    let fault = plant.change(
        at,
        |element: Element| -> (Element, Option<HandlerFault>)
            requires { class element.state ≡ row.now.class }
            ensures { IsWriteAnswer row.entry.now.name.items element text.entry.now (record { element = result.0; fault = result.1 }) }
        {
            let written = row.answer(alloc, element, text);
            (written.element, written.fault)
        },
    );
    write_reply(fault)
}

/// Writes a handler of the gateway package, of the element at an index.
fn write_by_name(
    plant: &mut Plant,
    at: usize,
    handler: &[u8],
    text: &[u8],
) -> Result<StoredReply, StepFault>
    requires there { at < length plant.old.elements }
    requires gateway { is_gateway (class (slice_index_or plant.old.elements at blank).state) ≡ true }
    requires named { has_write (class (slice_index_or plant.old.elements at blank).state) handler.now ≡ true }
    ensures answer { MatchResult result
        (λ reply. spec.written plant.old at (write_value handler.now (slice_index_or plant.old.elements at blank) text.now) ≡ (plant.new, reply))
        (λ _. plant.new ≡ plant.old) }
    ensures memory { IfErr result (λ _. takes_room handler.now ≡ true) }
{
    let fault = plant.change(
        at,
        |element: Element| -> (Element, Option<HandlerFault>)
            requires gateway { is_gateway (class element.state) ≡ true }
            requires named { has_write (class element.state) handler.now ≡ true }
            ensures { IsWriteAnswer handler.entry.now element text.entry.now (record { element = result.0; fault = result.1 }) }
        {
            let written = write_gateway(element, handler, text);
            (written.element, written.fault)
        },
    );
    write_reply(fault)
}

/// Writes a handler that has no row.
///
/// It is of the gateway package, or the class has no such handler.
fn write_without_row(
    plant: &mut Plant,
    at: usize,
    handler: &[u8],
    text: &[u8],
) -> Result<StoredReply, StepFault>
    requires there { at < length plant.old.elements }
    requires row { (not (is_gateway (class (slice_index_or plant.old.elements at blank).state)) && has_write (class (slice_index_or plant.old.elements at blank).state) handler.now) ≡ false }
    ensures answer { MatchResult result
        (λ reply. spec.write_element plant.old at (slice_index_or plant.old.elements at blank) handler.now text.now ≡ (plant.new, reply))
        (λ _. plant.new ≡ plant.old) }
    ensures memory { IfErr result (λ _. takes_room handler.now ≡ true) }
{
    let class = plant.element(at).state.class();
    if has_write(class, handler) {
        return write_by_name(plant, at, handler, text);
    }
    Ok(StoredReply::refusal(refusal_of(has_read(class, handler))))
}

/// Writes a handler of the element at an index.
fn write_element(
    table: &Table,
    plant: &mut Plant,
    at: usize,
    alloc: Global,
    handler: &[u8],
    text: &[u8],
) -> Result<StoredReply, StepFault>
    requires { at < length plant.old.elements }
    ensures answer { MatchResult result
        (λ reply. spec.write_element plant.old at (slice_index_or plant.old.elements at blank) handler.now text.now ≡ (plant.new, reply))
        (λ _. plant.new ≡ plant.old) }
    ensures memory { IfErr result (λ _. takes_room handler.now ≡ true) }
{
    let class = plant.element(at).state.class();
    match table.write(class, handler) {
        Some(row) => write_row(row, plant, at, alloc, text),
        None => write_without_row(plant, at, handler, text),
    }
}

/// Writes a handler other than `hotconfig`.
fn write(
    table: &Table,
    running: &mut RunningConfig,
    alloc: Global,
    name: &[u8],
    text: &[u8],
) -> Result<StoredReply, StepFault>
    ensures answer { MatchResult result (λ reply. spec.write running.old name.now text.now ≡ (running.new, reply)) (λ _. running.new ≡ running.old) }
    ensures memory { IfErr result (λ _. spec.writes_room name.now ≡ true) }
{
    let Some((element, handler)) = split(name) else {
        return Ok(StoredReply::refusal(refusal_of(has_global(name))));
    };
    let Some((at, _)) = running.find(element) else {
        return Ok(StoredReply::refusal(Refusal::NoElement));
    };
    write_element(table, &mut running.plant, at, alloc, handler, text)
}

impl Handlers for Table {
    fn step_stored(
        &self,
        running: &mut RunningConfig,
        alloc: Global,
        call: &Call,
        room: Option<PacketRoom>,
    ) -> Result<StoredReply, StepFault> {
        match call {
            Call::Read { name, text } => {
                read(self, running, alloc, name.as_slice(), text.as_slice())
            }
            Call::Write { name, text } => {
                if is_hotconfig(name.as_slice()) {
                    return running.swap(alloc, text.as_slice());
                }
                write(self, running, alloc, name.as_slice(), text.as_slice())
            }
            Call::CheckRead { name } => {
                Ok(check_reply(running.check(Access::Read, name.as_slice())))
            }
            Call::CheckWrite { name } => {
                Ok(check_reply(running.check(Access::Write, name.as_slice())))
            }
            Call::Swap { text } => running.swap(alloc, text.as_slice()),
            Call::Arrive { device, packet } => Ok(running.arrive(device.as_slice(), packet)),
            Call::Poll { device, taken } => Ok(running.poll(device.as_slice(), taken.as_slice())),
            Call::Round => Ok(StoredReply::round_done(running.round())),
            Call::Transmit { device } => match room {
                Some(room) => Ok(running.transmit_compact(device.as_slice(), room)),
                None => unreachable!(),
            },
        }
    }
}
