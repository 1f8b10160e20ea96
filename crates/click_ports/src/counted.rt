//! The rule that each element has as many ports as its state allows.

ghost use Rattle.std.specs.Prelude.{◌≡◌, ◌↔◌, ◌≤◌, length, IsTrue, MatchOption};
ghost use Rattle.click_ports.specs.Lawful.{Within, IsCounted, AllCounted};
ghost use Rattle.click_ports.specs.Breaches.{IsMiscounted, IsFirstBreach};

use crate::fault::{FaultKind, PortFault};
use crate::layout::Layout;
use click_classes::{Counts, Side};

/// Returns whether a number is in a range. Both bounds are included.
fn is_within(range: (u16, u16), count: u16) -> bool
    ensures { IsTrue result ↔ Within range count }
{
    range.0 <= count && count <= range.1
}

/// Returns the side at which the number of ports is not allowed, if there is one.
fn miscounted(allowed: Counts, inputs: u16, outputs: u16) -> Option<Side>
    ensures { MatchOption result (IsCounted allowed inputs outputs) (IsMiscounted allowed inputs outputs) }
{
    if !is_within(allowed.inputs, inputs) {
        return Some(Side::Input);
    }
    if !is_within(allowed.outputs, outputs) {
        return Some(Side::Output);
    }
    if allowed.equal && inputs != outputs {
        return Some(Side::Input);
    }
    None
}

/// Returns the first element with more or fewer ports than its state allows, as a fault.
pub fn first_miscount(layout: &Layout) -> Option<PortFault>
    ensures { MatchOption result (AllCounted layout.now.shapes layout.now.connections) (IsFirstBreach layout.now.shapes layout.now.connections) }
{
    for (element, shape) in layout.shapes().iter().enumerate() {
        let inputs = layout.used(element, Side::Input);
        let outputs = layout.used(element, Side::Output);
        if let Some(side) = miscounted(shape.counts, inputs, outputs) {
            return Some(PortFault {
                kind: FaultKind::Count,
                element,
                side,
                number: layout.used(element, side),
            });
        }
    }
    None
}
