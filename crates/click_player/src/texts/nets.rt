//! The net of a configuration, and which of its ports are push and which are pull.

ghost use Rattle.std.specs.Prelude.{IfOk, OnOk, ◌≡◌, ◌++◌, ◌∷◌, []};
ghost use Rattle.click_ports.specs.Net.{AreStatesOf};

use super::stop::Stop;
use click_classes::{ArgFault, Side, State, make};
use click_expand::{FlatElement, flatten};
use click_ports::{Net, resolve};
use click_text::parse;
use std::alloc::{AllocError, Global};

/// Appends a state.
fn push(states: &mut Vec<State>, state: State) -> Result<(), AllocError>
    ensures { OnOk result (states.new.items ≡ states.old.items ++ state ∷ []) }
{
    states.push(state)?;
    Ok(())
}

/// Returns the first states of the elements.
fn states_of(alloc: Global, elements: &[FlatElement]) -> Result<Vec<State>, ArgFault>
    ensures { IfOk result (λ states. AreStatesOf elements.now states.items) }
{
    let mut states = Vec::new(alloc);
    for element in elements {
        let state = make(alloc, element.class, element.text.as_slice())?;
        if state.class() != element.class {
            return Err(ArgFault::BadText);
        }
        push(&mut states, state)?;
    }
    Ok(states)
}

/// Returns the net of a configuration.
pub fn net_of(alloc: Global, text: &[u8]) -> Result<Net, Stop> {
    let config = parse(alloc, text)?;
    let flat = flatten(alloc, &config)?;
    let states = states_of(alloc, flat.elements.as_slice())?;
    Ok(resolve(alloc, &flat, states.as_slice())?)
}

/// Appends the kinds of an element's ports of one side: `h` for a push port and `l` for a pull
/// port.
fn push_side(shown: &mut Vec<u8>, net: &Net, element: usize, side: Side) -> Result<(), AllocError> {
    for port in 0..256u16 {
        match net.pulls(element, side, port) {
            Some(true) => shown.push(b'l')?,
            Some(false) => shown.push(b'h')?,
            None => return Ok(()),
        }
    }
    Ok(())
}

/// Returns the kinds of each element's ports: of its inputs, a slash, of its outputs, and a comma.
pub fn list_kinds(alloc: Global, text: &[u8]) -> Result<Vec<u8>, Stop> {
    let net = net_of(alloc, text)?;
    let mut shown = Vec::new(alloc);
    for element in 0..net.shapes().len() {
        push_side(&mut shown, &net, element, Side::Input)?;
        shown.push(b'/')?;
        push_side(&mut shown, &net, element, Side::Output)?;
        shown.push(b',')?;
    }
    Ok(shown)
}
