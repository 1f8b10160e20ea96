//! The links between ports inside their element.

ghost use Rattle.std.specs.Prelude.{◌≡◌, ℕ, ◌<◌, ◌≤◌, length, true, IfOk};
ghost use Rattle.click_classes.specs.Ports as codes;
ghost use Rattle.click_ports.specs.Ports.{Has};
ghost use Rattle.click_ports.specs.kept.Passages as spec;
ghost use Rattle.click_ports.specs.kept.Passages.{IsRow, AreRows};

use crate::layout::Layout;
use crate::port::Port;
use crate::row::Row;
use click_base::Class;
use click_classes::{Side, passes};
use std::alloc::{AllocError, Global};

/// Returns the opposite side.
fn opposite(side: Side) -> Side
    ensures { result ≡ spec.opposite side }
{
    match side {
        Side::Input => Side::Output,
        Side::Output => Side::Input,
    }
}

/// Returns a range that contains all ports of the opposite side that may be linked.
///
/// The range is from the first number up to but not including the second.
fn candidates(class: Class, number: u16, count: u16) -> (u16, u16)
    ensures within { result.1 ≤ count }
    ensures onward { (n : ℕ) → n < count → codes.passes class number n ≡ true → (result.0 ≤ n) × (n < result.1) }
    ensures back { (n : ℕ) → n < count → codes.passes class n number ≡ true → (result.0 ≤ n) × (n < result.1) }
{
    match class {
        Class::Idle => (0, 0),
        Class::Suppressor if number < count => (number, number + 1),
        Class::Suppressor => (0, 0),
        _ => (0, count),
    }
}

/// Returns whether packets pass between a port of this side and one of the opposite side.
fn passes_between(class: Class, side: Side, number: u16, other: u16) -> bool
    ensures { result ≡ spec.passes_between class side number other }
{
    match side {
        Side::Input => passes(class, number, other),
        Side::Output => passes(class, other, number),
    }
}

/// Returns the numbers of the ports with which the port is linked inside its element.
fn internal_links(alloc: Global, layout: &Layout, port: Port) -> Result<Row, AllocError>
    requires there { Has layout.now.connections port }
    requires within { port.element < length layout.now.shapes }
    ensures { IfOk result (λ row. IsRow layout.now port row) }
{
    let mut row = Row::new();
    if !layout.is_agnostic(port) {
        return Ok(row);
    }
    let side = opposite(port.side);
    let class = layout.class(port.element);
    let (from, to) = candidates(class, port.number, layout.used(port.element, side));
    for number in from..to {
        let other = Port {
            element: port.element,
            side,
            number,
        };
        if layout.is_agnostic(other) && passes_between(class, port.side, port.number, number) {
            row.push(alloc, layout.number(other))?;
        }
    }
    Ok(row)
}

/// Returns for each port the numbers of the ports with which it is linked inside its element.
pub fn all_internal_links(alloc: Global, layout: &Layout) -> Result<Vec<Row>, AllocError>
    ensures { IfOk result (λ rows. AreRows layout.now rows.items) }
{
    let mut rows = Vec::with_capacity(alloc, layout.ports().len())?;
    for port in layout.ports() {
        rows.push(internal_links(alloc, layout, *port)?)?;
    }
    Ok(rows)
}
