//! The handlers as plain functions, which the rows store.
//!
//! A read borrows the element and a text. A write takes the element and returns it, together with a
//! fault if it is unchanged.

ghost use Rattle.std.specs.Prelude.{◌≡◌, ◌<◌, length};
ghost use Rattle.click_classes.specs.State.{class};
ghost use Rattle.click_handlers.specs.Answers.{IsReadAnswer, IsWriteAnswer};
ghost use Rattle.click_handlers.specs.Names.{name_at, reads_of, writes_of};
ghost use Rattle.click_handlers.specs.Reads.{read_value};
ghost use Rattle.click_handlers.specs.Writes.{write_value};

mod counter;
mod lookup;
pub(crate) mod querier;
mod queue;
mod source;
mod suppressor;
mod switch;

use crate::fault::HandlerFault;
use crate::written::Written;
use click_classes::State;
use click_engine::Element;
pub use queue::{read_length, write_capacity};
use std::alloc::Global;

/// Reads the handler at an index of the read handlers of the element's class, in the order of
/// `reads_of`, from 0.
#[tactic(auto, unfolding(crate::specs::Names::reads_of, crate::specs::Names::active_name))]
pub fn read_at(
    alloc: Global,
    element: &Element,
    text: &[u8],
    place: usize,
) -> Result<Vec<u8>, HandlerFault>
    requires { place < length (reads_of (class element.now.state)) }
    ensures { IsReadAnswer (read_value (name_at (reads_of (class element.now.state)) place) element.now text.now) result }
{
    match &element.state {
        State::Queue { .. } => queue::read_at(alloc, element, text, place),
        State::FrontDropQueue { .. } => queue::read_at(alloc, element, text, place),
        State::Counter { .. } => counter::read_at(alloc, element, text, place),
        State::Switch { .. } => switch::read_switch(alloc, element, text),
        State::PullSwitch { .. } => switch::read_pull_switch(alloc, element, text),
        State::Suppressor { .. } => suppressor::read_active(alloc, element, text, place as u16),
        State::InfiniteSource { .. } => source::read_at(alloc, element, text, place),
        State::StaticIPLookup { .. } => lookup::read_lookup(alloc, element, text),
        State::ARPQuerier { .. } => querier::read_at(alloc, element, text, place),
        _ => unreachable!(),
    }
}

/// Writes the handler at an index of the write handlers of the element's class, in the order of
/// `writes_of`, from 0.
#[tactic(auto, unfolding(crate::specs::Names::writes_of, crate::specs::Names::active_name))]
pub fn write_at(alloc: Global, element: Element, text: &[u8], place: usize) -> Written
    requires { place < length (writes_of (class element.state)) }
    ensures { IsWriteAnswer (name_at (writes_of (class element.state)) place) element text.now result }
{
    match &element.state {
        State::Queue { .. } => queue::write_at(alloc, element, text, place),
        State::FrontDropQueue { .. } => queue::write_at(alloc, element, text, place),
        State::Counter { .. } => counter::reset_counter(element, text),
        State::Switch { .. } => switch::write_switch(element, text),
        State::PullSwitch { .. } => switch::write_pull_switch(element, text),
        State::Suppressor { .. } => suppressor::write_active(element, text, place as u16),
        State::InfiniteSource { .. } => source::write_at(element, text, place),
        State::ARPQuerier { .. } => querier::write_at(element, text, place),
        _ => unreachable!(),
    }
}
