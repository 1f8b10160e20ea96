//! The handlers of Counter.

ghost use Rattle.std.specs.Prelude.{◌≡◌, ◌<◌, ◌∷◌, [], codes};
ghost use Rattle.click_classes.specs.State.{class};
ghost use Rattle.click_base.specs.declared.class.Class.TheVariants as is;
ghost use Rattle.click_handlers.specs.Answers.{IsReadAnswer, IsWriteAnswer};
ghost use Rattle.click_handlers.specs.Names.{name_at};
ghost use Rattle.click_handlers.specs.Reads.{read_value};
ghost use Rattle.click_handlers.specs.Writes.{write_value};

use crate::fault::HandlerFault;
use crate::texts::number_text;
use crate::written::{Written, done};
use click_classes::State;
use click_engine::Element;
use std::alloc::Global;

/// Reads `count`: the number of packets that passed.
fn read_count(alloc: Global, element: &Element, text: &[u8]) -> Result<Vec<u8>, HandlerFault>
    requires { class element.now.state ≡ is.Counter }
    ensures { IsReadAnswer (read_value (codes "count") element.now text.now) result }
{
    match &element.state {
        State::Counter { count, .. } => number_text(alloc, *count),
        _ => unreachable!(),
    }
}

/// Reads `byte_count`: the number of bytes that passed.
fn read_byte_count(alloc: Global, element: &Element, text: &[u8]) -> Result<Vec<u8>, HandlerFault>
    requires { class element.now.state ≡ is.Counter }
    ensures { IsReadAnswer (read_value (codes "byte_count") element.now text.now) result }
{
    match &element.state {
        State::Counter { byte_count, .. } => number_text(alloc, *byte_count),
        _ => unreachable!(),
    }
}

/// Writes `reset_counts`: sets both counts to 0.
pub fn reset_counter(element: Element, text: &[u8]) -> Written
    requires { class element.state ≡ is.Counter }
    ensures { IsWriteAnswer (codes "reset_counts") element text.now result }
{
    let mut element = element;
    match &mut element.state {
        State::Counter { count, byte_count } => {
            *count = 0;
            *byte_count = 0;
        }
        _ => unreachable!(),
    }
    done(element)
}

/// Reads a handler of a Counter by its index: `count` or `byte_count`.
pub fn read_at(
    alloc: Global,
    element: &Element,
    text: &[u8],
    place: usize,
) -> Result<Vec<u8>, HandlerFault>
    requires class { class element.now.state ≡ is.Counter }
    requires place { place < 2 }
    ensures { IsReadAnswer (read_value (name_at (codes "count" ∷ codes "byte_count" ∷ []) place) element.now text.now) result }
{
    match place {
        0 => read_count(alloc, element, text),
        1 => read_byte_count(alloc, element, text),
        _ => unreachable!(),
    }
}
