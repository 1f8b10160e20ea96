//! The look of each element: its name, class and marks.

ghost use Rattle.std.specs.Prelude.{◌≡◌, ◌<◌, ◌≤◌, length, IfOk};
ghost use Rattle.click_ports.specs.Ports.{Has, used};
ghost use Rattle.click_draw.specs.Measures.{element_width};
ghost use Rattle.click_draw.specs.Picture.{AreMarks, EachAt, IsLook, IsMark, port_at};

use crate::drawing::{Look, Mark};
use crate::measures::{box_width, port_offset};
use click_base::sequence::Sequence;
use click_classes::{Code, Side, code};
use click_ports::Net;
use std::alloc::{AllocError, Global};

/// Returns the width of the element's box.
#[tactic(auto, unfolding(crate::specs::Measures::element_width))]
pub fn element_width(net: &Net, element: usize) -> u64
    requires { element < length net.now.shapes }
    ensures value { result ≡ element_width net.now element }
    ensures small { result ≤ 32788 }
{
    let class = net.shapes()[element].class;
    let inputs = net.used(element, Side::Input);
    let outputs = net.used(element, Side::Output);
    box_width(net.name(element), class, inputs, outputs)
}

/// Returns the mark of a port.
fn mark_of(net: &Net, element: usize, side: Side, port: u16) -> Mark
    requires there { element < length net.now.shapes }
    requires has { Has net.now.connections (port_at element side port) }
    ensures { IsMark net.now element side port result }
{
    let class = net.shapes()[element].class;
    let width = element_width(net, element);
    Mark {
        pull: net.pulls(element, side, port) == Some(true),
        agnostic: code(class, side, port) == Code::Agnostic,
        at: port_offset(width, net.used(element, side), port),
    }
}

/// Returns the marks of the element's ports on one side, in order.
fn marks_of(
    alloc: Global,
    net: &Net,
    element: usize,
    side: Side,
) -> Result<Sequence<Mark>, AllocError>
    requires { element < length net.now.shapes }
    ensures { IfOk result (AreMarks net.now element side) }
{
    let mut marks = Sequence::new(alloc);
    for port in 0..net.used(element, side) {
        marks.push(mark_of(net, element, side, port))?;
    }
    Ok(marks)
}

/// Returns the look of the element.
pub fn look_of(alloc: Global, net: &Net, element: usize) -> Result<Look, AllocError>
    requires { element < length net.now.shapes }
    ensures { IfOk result (IsLook net.now element) }
{
    let class = net.shapes()[element].class;
    let name = net.name(element);
    Ok(Look {
        number: element,
        name: Sequence::copy_of(alloc, name)?,
        class,
        inputs: marks_of(alloc, net, element, Side::Input)?,
        outputs: marks_of(alloc, net, element, Side::Output)?,
    })
}
