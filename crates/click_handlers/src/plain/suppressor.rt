//! The handlers of a Suppressor's ports.

ghost use Rattle.std.specs.Prelude.{◌≡◌, ◌<◌, false};
ghost use Rattle.click_classes.specs.State.{class};
ghost use Rattle.click_base.specs.declared.class.Class.TheVariants as is;
ghost use Rattle.click_handlers.specs.Answers.{IsReadAnswer, IsWriteAnswer, IsWritten};
ghost use Rattle.click_handlers.specs.Names.{active_name, active_port};
ghost use Rattle.click_handlers.specs.Reads.{read_value};
ghost use Rattle.click_handlers.specs.Writes.{write_value};

use crate::fault::HandlerFault;
use crate::texts::{truth_text, written_flag};
use crate::written::{Written, done, refused};
use click_base::trimmed;
use click_classes::State;
use click_engine::Element;
use std::alloc::Global;

/// Returns whether packets pass at the port.
fn read_port(
    alloc: Global,
    element: &Element,
    text: &[u8],
    port: u16,
) -> Result<Vec<u8>, HandlerFault>
    requires class { class element.now.state ≡ is.Suppressor }
    requires port { port < 16 }
    ensures { (name : _) → active_port name ≡ port → IsReadAnswer (read_value name element.now text.now) result }
{
    if port >= element.inputs {
        return Err(HandlerFault::OutOfRange);
    }
    match &element.state {
        State::Suppressor { active } => truth_text(alloc, active[usize::from(port)]),
        _ => unreachable!(),
    }
}

/// Reads `active0` to `active15`: whether packets pass at the port. Refuses a port that the element
/// does not have.
pub fn read_active(
    alloc: Global,
    element: &Element,
    text: &[u8],
    port: u16,
) -> Result<Vec<u8>, HandlerFault>
    requires class { class element.now.state ≡ is.Suppressor }
    requires port { port < 16 }
    ensures { IsReadAnswer (read_value (active_name port) element.now text.now) result }
{
    read_port(alloc, element, text, port)
}

/// Sets whether packets pass at the port.
fn write_port(element: Element, text: &[u8], port: u16) -> Written
    requires class { class element.state ≡ is.Suppressor }
    requires port { port < 16 }
    ensures { (name : _) → active_port name ≡ port → IsWritten false element (write_value name element text.now) result }
{
    if port >= element.inputs {
        return refused(element, HandlerFault::OutOfRange);
    }
    let flag = match written_flag(trimmed(text)) {
        Ok(flag) => flag,
        Err(fault) => return refused(element, fault),
    };
    let mut element = element;
    match &mut element.state {
        State::Suppressor { active } => active[usize::from(port)] = flag,
        _ => unreachable!(),
    }
    done(element)
}

/// Writes `active0` to `active15`: a truth value. Refuses a port that the element does not have,
/// before it looks at the text.
pub fn write_active(element: Element, text: &[u8], port: u16) -> Written
    requires class { class element.state ≡ is.Suppressor }
    requires port { port < 16 }
    ensures { IsWriteAnswer (active_name port) element text.now result }
{
    write_port(element, text, port)
}
