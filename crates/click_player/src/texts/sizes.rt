//! The sizes of a configuration: of its tree, and of its flat form.

use super::stop::Stop;
use click_expand::{ExpandFault, FaultKind as ExpandKind, flatten};
use click_text::parse;
use click_text::syntax::{FaultKind as TextKind, TextFault};
use std::alloc::Global;

/// Returns the numbers of statements and bodies of the tree, or the first fault with its span.
pub fn measure_tree(alloc: Global, text: &[u8]) -> Result<Vec<u8>, Stop> {
    match parse(alloc, text) {
        Ok(config) => {
            let statements = config.statements.len();
            let bodies = config.bodies.len();
            Ok(format!(in alloc; "{statements} statements, {bodies} bodies")?.into_bytes())
        }
        Err(fault) => name_text_fault(alloc, fault),
    }
}

/// Returns the numbers of elements and connections of the flat form, or the kind of the first
/// fault.
pub fn measure_flat_form(alloc: Global, text: &[u8]) -> Result<Vec<u8>, Stop> {
    let config = match parse(alloc, text) {
        Ok(config) => config,
        Err(fault) => return name_text_fault(alloc, fault),
    };
    match flatten(alloc, &config) {
        Ok(flat) => {
            let elements = flat.elements.len();
            let connections = flat.connections.len();
            Ok(format!(in alloc; "{elements} elements, {connections} connections")?.into_bytes())
        }
        Err(fault) => name_expand_fault(alloc, fault),
    }
}

/// Returns the kind of a fault and its span, as `BadByte 5..6`.
fn name_text_fault(alloc: Global, fault: TextFault) -> Result<Vec<u8>, Stop> {
    if fault.kind == TextKind::NoMemory {
        return Err(Stop::NoMemory);
    }
    let kind = fault.kind;
    let (start, end) = (fault.span.start, fault.span.end);
    Ok(format!(in alloc; "{kind:?} {start}..{end}")?.into_bytes())
}

/// Returns the kind of a fault, as `TooMany`.
fn name_expand_fault(alloc: Global, fault: ExpandFault) -> Result<Vec<u8>, Stop> {
    if fault.kind == ExpandKind::NoMemory {
        return Err(Stop::NoMemory);
    }
    let kind = fault.kind;
    Ok(format!(in alloc; "{kind:?}")?.into_bytes())
}
