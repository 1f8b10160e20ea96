//! Global handlers: the handlers of the router itself, whose names have no dot.

ghost use Rattle.std.specs.Prelude.{◌≡◌, ◌++◌, None, Some, is_some, codes, decimal, IfOk, OnOk, MatchOption};
ghost use Rattle.click_base.specs.Classes.{name};
ghost use Rattle.click_router.specs.State.{RouterState};
ghost use Rattle.click_router.specs.Globals.{global_value, is_global, class_list, element_list, lines_of};
ghost use Rattle.click_router.specs.One.{is_hotconfig};
ghost use Rattle.click_router.specs.kept.GlobalNames.{name_of};

use click_base::{CLASSES, Class, GATEWAY_CLASSES};
use click_expand::{FlatElement, uses_gateway};
use itoa::Buffer;
use std::alloc::{AllocError, Global};

/// A global handler that can be read.
#[derive(Clone, Copy)]
pub(crate) enum GlobalHandler {
    Version,
    List,
    Config,
    FlatConfig,
    Classes,
    Overruns,
}

/// Returns the global handler with that name, if it can be read.
#[tactic(auto, unfolding(crate::specs::Globals::global_value))]
pub(crate) fn named(name: &[u8]) -> Option<GlobalHandler>
    ensures known { is_some result ≡ is_global name.now }
    ensures handler { MatchOption result ((s : RouterState) → global_value s name.now ≡ None) (λ handler. name.now ≡ name_of handler) }
{
    if name == b"version".as_slice() {
        return Some(GlobalHandler::Version);
    }
    if name == b"list".as_slice() {
        return Some(GlobalHandler::List);
    }
    if name == b"config".as_slice() {
        return Some(GlobalHandler::Config);
    }
    if name == b"flatconfig".as_slice() {
        return Some(GlobalHandler::FlatConfig);
    }
    if name == b"classes".as_slice() {
        return Some(GlobalHandler::Classes);
    }
    if name == b"overruns".as_slice() {
        return Some(GlobalHandler::Overruns);
    }
    None
}

/// Returns whether a global handler with that name can be read.
pub(crate) fn has_global(name: &[u8]) -> bool
    ensures known { result ≡ is_global name.now }
    ensures answered { (s : RouterState) → result ≡ is_some (global_value s name.now) }
{
    named(name).is_some()
}

/// Returns whether the name is `hotconfig`, the only global handler that can be written.
pub(crate) fn is_hotconfig(name: &[u8]) -> bool
    ensures { result ≡ is_hotconfig name.now }
{
    name == b"hotconfig".as_slice()
}

/// Appends a line and its end.
fn push_line(text: &mut Vec<u8>, line: &[u8]) -> Result<(), AllocError>
    ensures { OnOk result (text.new.items ≡ text.old.items ++ (line.now ++ codes "\n")) }
{
    text.extend_from_slice(line)?;
    text.extend_from_slice(b"\n")
}

/// Returns a number in decimal digits.
pub(crate) fn number_text(alloc: Global, number: u64) -> Result<Vec<u8>, AllocError>
    ensures { IfOk result (λ text. text.items ≡ decimal number) }
{
    let mut digits = Buffer::new();
    Vec::from_slice(alloc, digits.format(number).as_bytes())
}

/// Returns the number of elements and their names, each on a line.
pub(crate) fn list_text(alloc: Global, elements: &[FlatElement]) -> Result<Vec<u8>, AllocError>
    ensures { IfOk result (λ text. text.items ≡ element_list elements.now) }
{
    let mut digits = Buffer::new();
    let mut text = Vec::new(alloc);
    push_line(&mut text, digits.format(elements.len()).as_bytes())?;
    for element in elements {
        push_line(&mut text, element.name.as_slice())?;
    }
    Ok(text)
}

/// Appends the names of the classes, each on a line.
fn push_classes(text: &mut Vec<u8>, classes: &[Class]) -> Result<(), AllocError>
    ensures { OnOk result (text.new.items ≡ text.old.items ++ lines_of name classes.now) }
{
    for class in classes {
        push_line(text, class.name())?;
    }
    Ok(())
}

/// Returns the names of the thirty classes, each on a line, and after them those of the gateway
/// package if one of the elements is of such a class.
pub(crate) fn classes_text(alloc: Global, elements: &[FlatElement]) -> Result<Vec<u8>, AllocError>
    ensures { IfOk result (λ text. text.items ≡ class_list elements.now) }
{
    let mut text = Vec::new(alloc);
    push_classes(&mut text, &CLASSES)?;
    if uses_gateway(elements) {
        push_classes(&mut text, &GATEWAY_CLASSES)?;
    }
    Ok(text)
}
