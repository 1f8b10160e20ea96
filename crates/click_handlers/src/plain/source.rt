//! The handlers of InfiniteSource.

ghost use Rattle.std.specs.Prelude.{◌≡◌, ◌<◌, ◌∷◌, [], codes};
ghost use Rattle.click_classes.specs.State.{class};
ghost use Rattle.click_base.specs.declared.class.Class.TheVariants as is;
ghost use Rattle.click_handlers.specs.Answers.{IsReadAnswer, IsWriteAnswer};
ghost use Rattle.click_handlers.specs.Names.{name_at};
ghost use Rattle.click_handlers.specs.Reads.{read_value};
ghost use Rattle.click_handlers.specs.Writes.{write_value};

use crate::fault::HandlerFault;
use crate::texts::{number_text, truth_text, written_flag};
use crate::written::{Written, done, refused};
use click_base::trimmed;
use click_classes::State;
use click_engine::Element;
use std::alloc::Global;

/// Reads `active`: whether the source emits packets at present.
fn read_source_active(
    alloc: Global,
    element: &Element,
    text: &[u8],
) -> Result<Vec<u8>, HandlerFault>
    requires { class element.now.state ≡ is.InfiniteSource }
    ensures { IsReadAnswer (read_value (codes "active") element.now text.now) result }
{
    match &element.state {
        State::InfiniteSource { active, .. } => truth_text(alloc, *active),
        _ => unreachable!(),
    }
}

/// Reads `count`: the number of packets that the source has emitted.
fn read_source_count(alloc: Global, element: &Element, text: &[u8]) -> Result<Vec<u8>, HandlerFault>
    requires { class element.now.state ≡ is.InfiniteSource }
    ensures { IsReadAnswer (read_value (codes "count") element.now text.now) result }
{
    match &element.state {
        State::InfiniteSource { count, .. } => number_text(alloc, *count),
        _ => unreachable!(),
    }
}

/// Writes `active`: a truth value.
fn write_source_active(element: Element, text: &[u8]) -> Written
    requires { class element.state ≡ is.InfiniteSource }
    ensures { IsWriteAnswer (codes "active") element text.now result }
{
    let flag = match written_flag(trimmed(text)) {
        Ok(flag) => flag,
        Err(fault) => return refused(element, fault),
    };
    let mut element = element;
    match &mut element.state {
        State::InfiniteSource { active, .. } => *active = flag,
        _ => unreachable!(),
    }
    done(element)
}

/// Writes `reset`: sets the number of emitted packets to 0.
fn reset_source(element: Element, text: &[u8]) -> Written
    requires { class element.state ≡ is.InfiniteSource }
    ensures { IsWriteAnswer (codes "reset") element text.now result }
{
    let mut element = element;
    match &mut element.state {
        State::InfiniteSource { count, .. } => *count = 0,
        _ => unreachable!(),
    }
    done(element)
}

/// Reads a handler of an InfiniteSource by its index: `active` or `count`.
pub fn read_at(
    alloc: Global,
    element: &Element,
    text: &[u8],
    place: usize,
) -> Result<Vec<u8>, HandlerFault>
    requires class { class element.now.state ≡ is.InfiniteSource }
    requires place { place < 2 }
    ensures { IsReadAnswer (read_value (name_at (codes "active" ∷ codes "count" ∷ []) place) element.now text.now) result }
{
    match place {
        0 => read_source_active(alloc, element, text),
        1 => read_source_count(alloc, element, text),
        _ => unreachable!(),
    }
}

/// Writes a handler of an InfiniteSource by its index: `active` or `reset`.
pub fn write_at(element: Element, text: &[u8], place: usize) -> Written
    requires class { class element.state ≡ is.InfiniteSource }
    requires place { place < 2 }
    ensures { IsWriteAnswer (name_at (codes "active" ∷ codes "reset" ∷ []) place) element text.now result }
{
    match place {
        0 => write_source_active(element, text),
        1 => reset_source(element, text),
        _ => unreachable!(),
    }
}
