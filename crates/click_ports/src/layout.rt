//! A layout: elements and connections, with all ports numbered.

ghost use Rattle.std.specs.Prelude.{◌≡◌, ◌↔◌, ◌+◌, ◌<◌, ◌≤◌, length, IfOk, IsTrue};
ghost use Rattle.click_ports.specs.Ports as spec;
ghost use Rattle.click_ports.specs.Ports.{Has, first, port_index};
ghost use Rattle.click_ports.specs.Links as links;
ghost use Rattle.click_ports.specs.kept.Wiring.{AreWithin, InPlace};

use crate::numbering::{Block, numbered};
use crate::port::Port;
use crate::shape::Shape;
use click_base::Class;
use click_classes::{Code, Side, code};
use click_expand::Connection;
use std::alloc::{AllocError, Global};
use std::marker::Model;

/// The shapes of the elements, the connections between them, and the ports by their numbers.
#[derive(Drop)]
pub struct Layout {
    elements: Vec<Shape>,
    joined: Vec<Connection>,
    blocks: Vec<Block>,
    ports: Vec<Port>,
}

impl Model for Layout {
    ghost use Rattle.click_ports.specs.kept.Wiring.{Wiring};
    ghost use Rattle.click_ports.specs.kept.LaidOut.{IsLaidOut};

    ghost Value = { Wiring };

    ghost view = { λ l. record { shapes = l.elements.items; connections = l.joined.items } };

    ghost invariant = { λ l. IsLaidOut l.elements.items l.joined.items l.blocks.items l.ports.items };
}

impl Layout {
    /// Returns the layout of these elements and the connections between them.
    pub fn of(
        alloc: Global,
        elements: Vec<Shape>,
        joined: Vec<Connection>,
    ) -> Result<Layout, AllocError>
        requires { AreWithin (length elements.items) joined.items }
        ensures { IfOk result (λ l. l ≡ record { shapes = elements.items; connections = joined.items }) }
    {
        let (blocks, ports) = numbered(alloc, joined.as_slice(), elements.len())?;
        Ok(Layout {
            elements,
            joined,
            blocks,
            ports,
        })
    }

    /// Returns the shapes of the elements.
    pub fn shapes(&self) -> &[Shape]
        ensures { result.now ≡ self.now.shapes }
    {
        self.elements.as_slice()
    }

    /// Returns the connections.
    pub fn connections(&self) -> &[Connection]
        ensures value { result.now ≡ self.now.connections }
        ensures within { AreWithin (length self.now.shapes) self.now.connections }
    {
        self.joined.as_slice()
    }

    /// Returns all ports; the index of each is its number.
    pub fn ports(&self) -> &[Port]
        ensures all { length result.now ≡ first self.now.connections (length self.now.shapes) }
        ensures right { InPlace self.now.connections result.now }
        ensures within { AreWithin (length self.now.shapes) self.now.connections }
    {
        self.ports.as_slice()
    }

    /// Returns the number of ports of the element at the side.
    #[inline(always)]
    pub fn used(&self, element: usize, side: Side) -> u16
        requires { element < length self.now.shapes }
        ensures value { result ≡ spec.used self.now.connections element side }
        ensures small { result ≤ 256 }
    {
        self.blocks[element].count(side)
    }

    /// Returns the number of the element's first port at the side. The others at the side follow it.
    #[inline(always)]
    pub fn first_number(&self, element: usize, side: Side) -> usize
        requires { element < length self.now.shapes }
        ensures value { result ≡ port_index self.now.connections (record { element = element; side = side; number = 0 }) }
        ensures within { result + spec.used self.now.connections element side ≤ first self.now.connections (length self.now.shapes) }
    {
        let block = self.blocks[element];
        block.first + usize::from(block.ahead(side))
    }

    /// Returns the number of the port.
    pub fn number(&self, port: Port) -> usize
        requires { Has self.now.connections port }
        ensures value { result ≡ port_index self.now.connections port }
        ensures within { result < first self.now.connections (length self.now.shapes) }
    {
        let block = self.blocks[port.element];
        block.first + usize::from(block.ahead(port.side)) + usize::from(port.number)
    }

    /// Returns the class of the element.
    pub fn class(&self, element: usize) -> Class
        requires { element < length self.now.shapes }
        ensures { result ≡ links.class_at self.now.shapes element }
    {
        self.elements[element].class
    }

    /// Returns the code of a port by its class: push, pull or agnostic.
    pub fn code(&self, port: Port) -> Code
        requires { port.element < length self.now.shapes }
        ensures { result ≡ links.code_at self.now.shapes port }
    {
        code(self.class(port.element), port.side, port.number)
    }

    /// Returns whether a port is agnostic by its class.
    pub fn is_agnostic(&self, port: Port) -> bool
        requires { port.element < length self.now.shapes }
        ensures { IsTrue result ↔ links.IsAgnostic self.now.shapes port }
    {
        self.code(port) == Code::Agnostic
    }
}
