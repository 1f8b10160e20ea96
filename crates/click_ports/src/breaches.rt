//! The first port at which a rule is broken, for each rule.

ghost use Rattle.std.specs.Prelude.{◌≡◌, MatchOption};
ghost use Rattle.click_classes.specs.declared.ports.Code.TheVariants.{Push, Pull};
ghost use Rattle.click_ports.specs.kept.Ends.{AreFarEnds};
ghost use Rattle.click_ports.specs.kept.Marks.{AreMarks};
ghost use Rattle.click_ports.specs.Lawful.{AllCounted, AllConnected, NoneMixed, AllSingle};
ghost use Rattle.click_ports.specs.Breaches as spec;
ghost use Rattle.click_ports.specs.kept.Marks as table;
ghost use Rattle.click_ports.specs.Breaches.{IsFirstBreach};

use crate::fault::{FaultKind, PortFault};
use crate::kinds::Kinds;
use crate::layout::Layout;
use crate::port::Port;
use crate::row::Row;
use click_classes::Side;

/// Returns a fault of a kind at a port.
fn fault_at(kind: FaultKind, port: Port) -> PortFault
    ensures { result ≡ spec.fault_at kind port }
{
    PortFault {
        kind,
        element: port.element,
        side: port.side,
        number: port.number,
    }
}

/// Returns the first port without a connection, as a fault.
pub fn first_unused(layout: &Layout, ends: &[Row]) -> Option<PortFault>
    requires ends { AreFarEnds layout.now ends.now }
    requires counted { AllCounted layout.now.shapes layout.now.connections }
    ensures { MatchOption result (AllConnected layout.now.connections) (IsFirstBreach layout.now.shapes layout.now.connections) }
{
    for (number, port) in layout.ports().iter().enumerate() {
        if ends[number].len() == 0 {
            return Some(fault_at(FaultKind::Unused, *port));
        }
    }
    None
}

/// Returns the first port that reaches both a push port and a pull port, as a fault.
pub fn first_mixed(layout: &Layout, kinds: &Kinds) -> Option<PortFault>
    requires pushes { AreMarks layout.now Push kinds.now.pushes.items }
    requires pulls { AreMarks layout.now Pull kinds.now.pulls.items }
    requires counted { AllCounted layout.now.shapes layout.now.connections }
    requires connected { AllConnected layout.now.connections }
    ensures { MatchOption result (NoneMixed layout.now.shapes layout.now.connections) (IsFirstBreach layout.now.shapes layout.now.connections) }
{
    for (number, port) in layout.ports().iter().enumerate() {
        if kinds.pushes[number] && kinds.pulls[number] {
            return Some(fault_at(FaultKind::Mixed, *port));
        }
    }
    None
}

/// Returns whether a port must have exactly one connection: a push output or a pull input.
fn is_single(side: Side, pull: bool) -> bool
    ensures { result ≡ table.is_single side pull }
{
    match side {
        Side::Input => pull,
        Side::Output => !pull,
    }
}

/// Returns the first push output or pull input with more than one connection, as a fault.
pub fn first_twice(layout: &Layout, ends: &[Row], pulls: &[bool]) -> Option<PortFault>
    requires ends { AreFarEnds layout.now ends.now }
    requires pulls { AreMarks layout.now Pull pulls.now }
    requires counted { AllCounted layout.now.shapes layout.now.connections }
    requires connected { AllConnected layout.now.connections }
    requires unmixed { NoneMixed layout.now.shapes layout.now.connections }
    ensures { MatchOption result (AllSingle layout.now.shapes layout.now.connections) (IsFirstBreach layout.now.shapes layout.now.connections) }
{
    for (number, port) in layout.ports().iter().enumerate() {
        if is_single(port.side, pulls[number]) && ends[number].len() > 1 {
            return Some(fault_at(FaultKind::Twice, *port));
        }
    }
    None
}
