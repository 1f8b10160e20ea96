//! The handlers of ARPQuerier.

ghost use Rattle.std.specs.Prelude.{◌≡◌, ◌<◌, codes, IfErr, OnErr, OnOk};
ghost use Rattle.click_base.specs.declared.class.Class.TheVariants as is;
ghost use Rattle.click_classes.specs.NeighbourWrites.{inserted};
ghost use Rattle.click_classes.specs.State.{class};
ghost use Rattle.click_handlers.specs.Answers.{IsReadAnswer, IsWriteAnswer};
ghost use Rattle.click_handlers.specs.Names.{name_at, querier_reads, querier_writes};
ghost use Rattle.click_handlers.specs.Reads.{read_value};
ghost use Rattle.click_handlers.specs.Writes.{or_out_of_range, write_value};

use crate::fault::HandlerFault;
use crate::texts::{number_from, number_text, table_text, written_address, written_neighbour};
use crate::written::{Written, done, refused};
use click_base::trimmed;
use click_classes::{Querier, State};
use click_engine::Element;
use std::alloc::Global;

/// Reads `table`: a line for each neighbour, in the order of the table.
///
/// A line is the address, a space, and the Ethernet address, or `-` if it is not known.
pub fn read_table(alloc: Global, element: &Element, text: &[u8]) -> Result<Vec<u8>, HandlerFault>
    requires { class element.now.state ≡ is.ARPQuerier }
    ensures { IsReadAnswer (read_value (codes "table") element.now text.now) result }
{
    match &element.state {
        State::ARPQuerier { querier } => table_text(alloc, &querier.table),
        _ => unreachable!(),
    }
}

/// Reads `count`: the number of neighbours in the table.
pub fn read_neighbour_count(
    alloc: Global,
    element: &Element,
    text: &[u8],
) -> Result<Vec<u8>, HandlerFault>
    requires { class element.now.state ≡ is.ARPQuerier }
    ensures { IsReadAnswer (read_value (codes "count") element.now text.now) result }
{
    match &element.state {
        State::ARPQuerier { querier } => number_text(alloc, querier.table.len() as u64),
        _ => unreachable!(),
    }
}

/// Reads `drops`: the number of packets that were dropped, at most 2^64 - 1.
pub fn read_querier_drops(
    alloc: Global,
    element: &Element,
    text: &[u8],
) -> Result<Vec<u8>, HandlerFault>
    requires { class element.now.state ≡ is.ARPQuerier }
    ensures { IsReadAnswer (read_value (codes "drops") element.now text.now) result }
{
    match &element.state {
        State::ARPQuerier { querier } => number_text(alloc, querier.drops),
        _ => unreachable!(),
    }
}

/// Stores the Ethernet address of an address in the table.
///
/// Fails with `OutOfRange`, and changes nothing, if the address is new and the table is full, or if
/// the two cannot be the addresses of one host.
fn insert(querier: &mut Querier, address: [u8; 4], ether: [u8; 6]) -> Result<(), HandlerFault>
    ensures new { OnOk result (or_out_of_range (inserted address ether querier.old) ≡ Ok querier.new) }
    ensures same { OnErr result (querier.new ≡ querier.old) }
    ensures fault { IfErr result (λ fault. (fault ≡ HandlerFault.OutOfRange) × (or_out_of_range (inserted address ether querier.old) ≡ Err fault)) }
{
    if querier.insert(address, ether) {
        Ok(())
    } else {
        Err(HandlerFault::OutOfRange)
    }
}

/// Writes `insert`: an address and its Ethernet address, which is known from then on.
///
/// A new address is added at the end of the table. A packet that waits for the address counts as
/// dropped. The IP address must be one that can be a host's, and the Ethernet address one
/// station's.
pub fn write_insert(element: Element, text: &[u8]) -> Written
    requires { class element.state ≡ is.ARPQuerier }
    ensures { IsWriteAnswer (codes "insert") element text.now result }
{
    let (address, ether) = match written_neighbour(trimmed(text)) {
        Ok(both) => both,
        Err(fault) => return refused(element, fault),
    };
    let mut element = element;
    let stored = match &mut element.state {
        State::ARPQuerier { querier } => insert(querier, address, ether),
        _ => unreachable!(),
    };
    match stored {
        Ok(()) => done(element),
        Err(fault) => refused(element, fault),
    }
}

/// Writes `delete`: removes an address from the table, if the table has it.
///
/// A packet that waits for the address counts as dropped.
pub fn write_delete(element: Element, text: &[u8]) -> Written
    requires { class element.state ≡ is.ARPQuerier }
    ensures { IsWriteAnswer (codes "delete") element text.now result }
{
    let address = match written_address(trimmed(text)) {
        Ok(address) => address,
        Err(fault) => return refused(element, fault),
    };
    let mut element = element;
    match &mut element.state {
        State::ARPQuerier { querier } => querier.delete(address),
        _ => unreachable!(),
    }
    done(element)
}

/// Writes `clear`: removes all addresses from the table. The packets that wait count as dropped.
pub fn write_clear(element: Element, text: &[u8]) -> Written
    requires { class element.state ≡ is.ARPQuerier }
    ensures { IsWriteAnswer (codes "clear") element text.now result }
{
    let mut element = element;
    match &mut element.state {
        State::ARPQuerier { querier } => querier.clear(),
        _ => unreachable!(),
    }
    done(element)
}

/// Writes `reset_counts`: sets the number of dropped packets to 0.
pub fn reset_querier_drops(element: Element, text: &[u8]) -> Written
    requires { class element.state ≡ is.ARPQuerier }
    ensures { IsWriteAnswer (codes "reset_counts") element text.now result }
{
    let mut element = element;
    match &mut element.state {
        State::ARPQuerier { querier } => querier.drops = 0,
        _ => unreachable!(),
    }
    done(element)
}

/// Writes `expire`: a number of packets in decimal digits.
///
/// Removes the addresses after whose last use that number of packets, or more, arrived at input 0.
/// The packets that wait for them count as dropped.
pub fn write_expire(element: Element, text: &[u8]) -> Written
    requires { class element.state ≡ is.ARPQuerier }
    ensures { IsWriteAnswer (codes "expire") element text.now result }
{
    let packets = match number_from(trimmed(text), 0, u64::MAX) {
        Ok(packets) => packets,
        Err(fault) => return refused(element, fault),
    };
    let mut element = element;
    match &mut element.state {
        State::ARPQuerier { querier } => querier.expire(packets),
        _ => unreachable!(),
    }
    done(element)
}

/// Reads a handler of an ARPQuerier by its index: `table`, `count` or `drops`.
pub fn read_at(
    alloc: Global,
    element: &Element,
    text: &[u8],
    place: usize,
) -> Result<Vec<u8>, HandlerFault>
    requires class { class element.now.state ≡ is.ARPQuerier }
    requires place { place < 3 }
    ensures { IsReadAnswer (read_value (name_at querier_reads place) element.now text.now) result }
{
    match place {
        0 => read_table(alloc, element, text),
        1 => read_neighbour_count(alloc, element, text),
        2 => read_querier_drops(alloc, element, text),
        _ => unreachable!(),
    }
}

/// Writes a handler of an ARPQuerier by its index: `insert`, `delete`, `clear`, `reset_counts` or
/// `expire`.
pub fn write_at(element: Element, text: &[u8], place: usize) -> Written
    requires class { class element.state ≡ is.ARPQuerier }
    requires place { place < 5 }
    ensures { IsWriteAnswer (name_at querier_writes place) element text.now result }
{
    match place {
        0 => write_insert(element, text),
        1 => write_delete(element, text),
        2 => write_clear(element, text),
        3 => reset_querier_drops(element, text),
        4 => write_expire(element, text),
        _ => unreachable!(),
    }
}
