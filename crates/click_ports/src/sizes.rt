//! The numbers of ports of the elements.

ghost use Rattle.std.specs.Prelude.{◌≡◌, ℕ, ◌<◌, ◌≤◌, IfOk, slice_index};
ghost use Rattle.click_ports.specs.Ports as spec;
ghost use Rattle.click_ports.specs.kept.Used.{AreUsed};
ghost use Rattle.click_ports.specs.kept.Wiring.{AreWithin};

use crate::port::Port;
use click_classes::Side;
use click_expand::Connection;
use std::alloc::{AllocError, Global};

/// Returns the port of a connection at a side.
pub fn joined_port(side: Side, connection: Connection) -> Port
    ensures is { result ≡ spec.joined_port side connection }
    ensures small { result.number < 256 }
{
    match side {
        Side::Input => Port {
            element: connection.to,
            side,
            number: u16::from(connection.in_port),
        },
        Side::Output => Port {
            element: connection.from,
            side,
            number: u16::from(connection.out_port),
        },
    }
}

/// Returns the number of ports at a side for each element: one more than its highest connected
/// port.
pub fn used(
    alloc: Global,
    connections: &[Connection],
    elements: usize,
    side: Side,
) -> Result<Vec<u16>, AllocError>
    requires { AreWithin elements connections.now }
    ensures { IfOk result (λ counts. AreUsed connections.now elements side counts.items) }
{
    let mut counts = vec![in alloc; 0u16; elements]?;
    for connection in connections {
        let port = joined_port(side, *connection);
        let count = counts[port.element].max(port.number + 1);
        counts[port.element] = count;
    }
    Ok(counts)
}
