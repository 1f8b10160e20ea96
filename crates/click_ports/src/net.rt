//! A net: elements and connections that satisfy the port rules (`IsLawfulNet`), with each port
//! resolved to push or pull.

ghost use Rattle.std.specs.Prelude.{◌≡◌, ◌↔◌, ◌+◌, ◌<◌, ◌≤◌, [], length, IfSome, IsSome, IsTrue, slice_index_or};
ghost use Rattle.click_ports.specs.kept.Nets.{KeepsNet};
ghost use Rattle.click_ports.specs.Kinds.{IsPull};
ghost use Rattle.click_ports.specs.Net.{IsLawfulNet};
ghost use Rattle.click_ports.specs.Ports as spec;
ghost use Rattle.click_ports.specs.Ports.{Has};

use crate::layout::Layout;
use crate::name_table::NameTable;
use crate::port::Port;
use crate::shape::Shape;
use click_classes::Side;
use click_expand::Connection;
use std::marker::Model;

/// Elements and connections that satisfy the port rules, with each port resolved to push or pull.
#[derive(Drop)]
pub struct Net {
    element_names: NameTable,
    layout: Layout,
    pulling: Vec<bool>,
}

impl Model for Net {
    ghost use Rattle.click_ports.specs.Net.{Net as Seen};
    ghost use Rattle.click_ports.specs.kept.Nets.{KeepsNet};

    ghost Value = { Seen };

    ghost view = { λ n. record { names = n.element_names; shapes = n.layout.shapes; connections = n.layout.connections } };

    ghost invariant = { λ n. KeepsNet n.element_names n.layout n.pulling.items };
}

impl Net {
    /// Returns the net with these parts.
    ///
    /// `pulling` has one entry for each port number: true if the port is pull.
    pub(crate) fn of(element_names: NameTable, layout: Layout, pulling: Vec<bool>) -> Net
        requires { KeepsNet element_names layout pulling.items }
        ensures { result ≡ record { names = element_names; shapes = layout.shapes; connections = layout.connections } }
    {
        Net {
            element_names,
            layout,
            pulling,
        }
    }

    /// Returns the flat name of the element.
    pub fn name(&self, element: usize) -> &[u8]
        requires { element < length self.now.names }
        ensures value { result.now ≡ slice_index_or self.now.names element [] }
        ensures sound { IsLawfulNet self.now }
    {
        self.element_names.at(element)
    }

    /// Returns the shape of each element (its class and allowed port counts), in flat order.
    pub fn shapes(&self) -> &[Shape]
        ensures value { result.now ≡ self.now.shapes }
        ensures sound { IsLawfulNet self.now }
    {
        self.layout.shapes()
    }

    /// Returns the connections, each between two elements of the net.
    pub fn connections(&self) -> &[Connection]
        ensures value { result.now ≡ self.now.connections }
        ensures sound { IsLawfulNet self.now }
    {
        self.layout.connections()
    }

    /// Returns the number of ports of all elements.
    pub fn port_count(&self) -> usize
        ensures { result ≡ spec.first self.now.connections (length self.now.shapes) }
    {
        self.layout.ports().len()
    }

    /// Returns the number of the element's first port at this side. The ports of all elements are
    /// numbered element by element, inputs before outputs.
    #[inline(always)]
    pub fn first_port(&self, element: usize, side: Side) -> usize
        requires { element < length self.now.shapes }
        ensures value { result ≡ spec.port_index self.now.connections (record { element = element; side = side; number = 0 }) }
        ensures within { result + spec.used self.now.connections element side ≤ spec.first self.now.connections (length self.now.shapes) }
    {
        self.layout.first_number(element, side)
    }

    /// Returns one more than the highest connected port number of the element at this side, or 0.
    #[inline(always)]
    pub fn used(&self, element: usize, side: Side) -> u16
        requires { element < length self.now.shapes }
        ensures value { result ≡ spec.used self.now.connections element side }
        ensures small { result ≤ 256 }
    {
        self.layout.used(element, side)
    }

    /// Returns whether the port is pull; if not, it is push. Returns `None` if the port does not
    /// exist.
    pub fn pulls(&self, element: usize, side: Side, port: u16) -> Option<bool>
        ensures there { IsSome result ↔ Has self.now.connections (record { element = element; side = side; number = port }) }
        ensures pull { IfSome result (λ pull. IsTrue pull ↔ IsPull self.now.shapes self.now.connections (record { element = element; side = side; number = port })) }
    {
        if element >= self.shapes().len() || port >= self.used(element, side) {
            return None;
        }
        let number = self.layout.number(Port {
            element,
            side,
            number: port,
        });
        Some(self.pulling[number])
    }
}
