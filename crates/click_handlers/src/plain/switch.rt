//! The handlers of Switch and PullSwitch.

ghost use Rattle.std.specs.Prelude.{◌≡◌, codes};
ghost use Rattle.click_classes.specs.State.{class};
ghost use Rattle.click_base.specs.declared.class.Class.TheVariants as is;
ghost use Rattle.click_handlers.specs.Answers.{IsReadAnswer, IsWriteAnswer};
ghost use Rattle.click_handlers.specs.Reads.{read_value};
ghost use Rattle.click_handlers.specs.Writes.{write_value};

use crate::fault::HandlerFault;
use crate::texts::{port_text, written_port};
use crate::written::{Written, done, refused};
use click_base::trimmed;
use click_classes::State;
use click_engine::Element;
use std::alloc::Global;

/// Reads `switch` of a Switch: the output that gets the packets, or -1 for none.
pub fn read_switch(alloc: Global, element: &Element, text: &[u8]) -> Result<Vec<u8>, HandlerFault>
    requires { class element.now.state ≡ is.Switch }
    ensures { IsReadAnswer (read_value (codes "switch") element.now text.now) result }
{
    match &element.state {
        State::Switch { output } => port_text(alloc, *output),
        _ => unreachable!(),
    }
}

/// Reads `switch` of a PullSwitch: the input that packets are pulled from, or -1 for none.
pub fn read_pull_switch(
    alloc: Global,
    element: &Element,
    text: &[u8],
) -> Result<Vec<u8>, HandlerFault>
    requires { class element.now.state ≡ is.PullSwitch }
    ensures { IsReadAnswer (read_value (codes "switch") element.now text.now) result }
{
    match &element.state {
        State::PullSwitch { input } => port_text(alloc, *input),
        _ => unreachable!(),
    }
}

/// Writes `switch` of a Switch: -1, or decimal digits below the number of outputs.
pub fn write_switch(element: Element, text: &[u8]) -> Written
    requires { class element.state ≡ is.Switch }
    ensures { IsWriteAnswer (codes "switch") element text.now result }
{
    let port = match written_port(trimmed(text), element.outputs) {
        Ok(port) => port,
        Err(fault) => return refused(element, fault),
    };
    let mut element = element;
    match &mut element.state {
        State::Switch { output } => *output = port,
        _ => unreachable!(),
    }
    done(element)
}

/// Writes `switch` of a PullSwitch: -1, or decimal digits below the number of inputs.
pub fn write_pull_switch(element: Element, text: &[u8]) -> Written
    requires { class element.state ≡ is.PullSwitch }
    ensures { IsWriteAnswer (codes "switch") element text.now result }
{
    let port = match written_port(trimmed(text), element.inputs) {
        Ok(port) => port,
        Err(fault) => return refused(element, fault),
    };
    let mut element = element;
    match &mut element.state {
        State::PullSwitch { input } => *input = port,
        _ => unreachable!(),
    }
    done(element)
}
