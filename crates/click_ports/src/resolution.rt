//! The net of a flat form and the states of its elements.

ghost use Rattle.std.specs.Prelude.{◌≡◌, IfOk, IfErr, map, filter};
ghost use Rattle.click_ports.specs.Breaches.{IsFirstBreach, IsMemoryOr, no_memory};
ghost use Rattle.click_ports.specs.Lawful.{Lawful};
ghost use Rattle.click_ports.specs.Net.{AreStatesOf, IsLawfulNet, is_there, joined, net_of, shape_of};

use crate::breaches::{first_mixed, first_twice, first_unused};
use crate::counted::first_miscount;
use crate::ends::ends_of;
use crate::fault::PortFault;
use crate::kinds::kinds_of;
use crate::layout::Layout;
use crate::name_table::NameTable;
use crate::net::Net;
use crate::shape::Shape;
use click_classes::{State, counts};
use click_expand::{Connection, Flat};
use std::alloc::{AllocError, Global};

/// Returns the shapes of the states, or fails with out of memory.
fn shapes_of(alloc: Global, states: &[State]) -> Result<Vec<Shape>, AllocError>
    ensures { IfOk result (λ shapes. shapes.items ≡ map shape_of states.now) }
{
    let mut shapes = Vec::with_capacity(alloc, states.len())?;
    for state in states {
        shapes.push(Shape {
            class: state.class(),
            counts: counts(state),
        })?;
    }
    Ok(shapes)
}

/// The connections that join two of so many elements.
fn joined(
    alloc: Global,
    connections: &[Connection],
    elements: usize,
) -> Result<Vec<Connection>, AllocError>
    ensures { IfOk result (λ kept. kept.items ≡ filter (is_there elements) connections.now) }
{
    let mut kept = Vec::with_capacity(alloc, connections.len())?;
    for connection in connections {
        if connection.from < elements && connection.to < elements {
            kept.push(*connection)?;
        }
    }
    Ok(kept)
}

/// Returns the net of a flat form and one state for each element, or the first breach of the rules.
///
/// A connection with an end at no element of the flat form is left out. May fail with `NoMemory`.
pub fn resolve(alloc: Global, flat: &Flat, states: &[State]) -> Result<Net, PortFault>
    requires { AreStatesOf flat.now.elements states.now }
    // The net is that of the flat form and the states, and it is lawful.
    ensures net { IfOk result (λ net. net ≡ net_of flat.now states.now) }
    ensures sound { IfOk result IsLawfulNet }
    // If that net is lawful, the only error is out of memory.
    ensures only { Lawful (net_of flat.now states.now).shapes (net_of flat.now states.now).connections → IfErr result (λ f. f ≡ no_memory) }
    // The fault is out of memory, or the first breach.
    ensures err { IfErr result (λ f. IsMemoryOr f (IsFirstBreach (net_of flat.now states.now).shapes (net_of flat.now states.now).connections f)) }
{
    let elements = flat.elements.as_slice();
    let connections = joined(alloc, flat.connections.as_slice(), elements.len())?;
    let layout = Layout::of(alloc, shapes_of(alloc, states)?, connections)?;
    if let Some(fault) = first_miscount(&layout) {
        return Err(fault);
    }
    let ends = ends_of(alloc, &layout)?;
    if let Some(fault) = first_unused(&layout, ends.as_slice()) {
        return Err(fault);
    }
    let kinds = kinds_of(alloc, &layout, ends.as_slice())?;
    if let Some(fault) = first_mixed(&layout, &kinds) {
        return Err(fault);
    }
    if let Some(fault) = first_twice(&layout, ends.as_slice(), kinds.pulls.as_slice()) {
        return Err(fault);
    }
    let names = NameTable::gather(alloc, elements)?;
    Ok(Net::of(names, layout, kinds.pulls))
}
