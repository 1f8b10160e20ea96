//! The numbers of ports: element by element, inputs before outputs.

ghost use Rattle.std.specs.Prelude.{◌≡◌, ◌+◌, ◌<◌, ◌≤◌, ◌++◌, IfOk, OnOk, vec_len};
ghost use Rattle.click_ports.specs.kept.Numbered.{side_ports};
ghost use Rattle.click_ports.specs.kept.Wiring.{AreWithin, AreNumbered};

use crate::port::Port;
use crate::sizes::used;
use click_classes::Side;
use click_expand::Connection;
use std::alloc::{AllocError, Global};

/// The number of an element's first port, and its numbers of inputs and outputs.
#[derive(Clone, Copy, Debug, PartialEq, Eq)]
pub struct Block {
    pub first: usize,
    pub inputs: u16,
    pub outputs: u16,
}

impl Block {
    ghost use Rattle.std.specs.Prelude.{◌≡◌};
    ghost use Rattle.click_ports.specs.kept.Wiring.{ahead_in, count_in};

    /// Returns the number of ports of the element that come before those of the side.
    #[inline(always)]
    pub fn ahead(self, side: Side) -> u16
        ensures { result ≡ ahead_in self side }
    {
        match side {
            Side::Input => 0,
            Side::Output => self.inputs,
        }
    }

    /// Returns the number of ports at the side.
    #[inline(always)]
    pub fn count(self, side: Side) -> u16
        ensures { result ≡ count_in self side }
    {
        match side {
            Side::Input => self.inputs,
            Side::Output => self.outputs,
        }
    }
}

/// Appends `count` ports of the element's side.
fn push_ports(
    ports: &mut Vec<Port>,
    element: usize,
    side: Side,
    count: u16,
) -> Result<(), AllocError>
    ensures { OnOk result (ports.new.items ≡ ports.old.items ++ side_ports element side count) }
{
    for number in 0..count {
        ports.push(Port {
            element,
            side,
            number,
        })?;
    }
    Ok(())
}

/// Returns the blocks of the first `elements` elements, and all their ports.
pub fn numbered(
    alloc: Global,
    connections: &[Connection],
    elements: usize,
) -> Result<(Vec<Block>, Vec<Port>), AllocError>
    requires { AreWithin elements connections.now }
    ensures { IfOk result (λ made. AreNumbered connections.now elements made.0.items made.1.items) }
{
    let inputs = used(alloc, connections, elements, Side::Input)?;
    let outputs = used(alloc, connections, elements, Side::Output)?;
    let mut blocks = Vec::with_capacity(alloc, elements)?;
    let mut ports = Vec::new(alloc);
    for element in 0..elements {
        let block = Block {
            first: ports.len(),
            inputs: inputs[element],
            outputs: outputs[element],
        };
        blocks.push(block)?;
        push_ports(&mut ports, element, Side::Input, block.inputs)?;
        push_ports(&mut ports, element, Side::Output, block.outputs)?;
    }
    Ok((blocks, ports))
}
