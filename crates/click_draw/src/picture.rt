//! The picture of a configuration.

ghost use Rattle.std.specs.Prelude.{◌≡◌, ◌≤◌, ◌++◌, ◌∷◌, [], List, length, IfOk, IfErr, Ok, OnOk};
ghost use Rattle.click_classes.specs.declared.state.State.{State};
ghost use Rattle.click_router.specs.Opened.{AreFresh, IsBegun, IsFirstFault, IsMemoryOr};
ghost use Rattle.click_draw.specs.Drawn.{IsFormNet, IsLawfulForm, IsNetOf, IsPicture, IsPictureOf};

use crate::compounds::Compounds;
use crate::laying_out::layout;
use crate::svg_writing::svg;
use click_classes::{ArgFault, State, make};
use click_expand::{Flat, FlatElement};
use click_ports::{FaultKind as PortKind, Net, resolve};
use click_router::{ConfigFault, prepare};
use std::alloc::{AllocError, Global};

/// Returns the picture of the text's configuration, as SVG. Fails with the configuration's first
/// fault, or with out of memory.
pub fn picture_of(alloc: Global, text: &[u8]) -> Result<Vec<u8>, ConfigFault>
    ensures picture { IfOk result (λ picture. IsPicture text.now picture.items) }
    ensures fault { IfErr result (λ fault. IsMemoryOr fault (IsFirstFault text.now fault)) }
{
    let net = net_of(alloc, text)?;
    let compounds = Compounds::of(alloc, text)?;
    Ok(picture_in(alloc, &net, &compounds)?)
}

/// Returns the picture of a net with these compounds. It has no more elements than a flat form can
/// have.
fn picture_in(alloc: Global, net: &Net, compounds: &Compounds) -> Result<Vec<u8>, AllocError>
    requires { length net.now.shapes ≤ 4096 }
    ensures { IfOk result (λ picture. IsPictureOf net.now picture.items) }
{
    let drawing = layout(alloc, net, compounds)?;
    svg(alloc, &drawing)
}

/// Returns the net of the text's configuration. Fails with the configuration's first fault, or with
/// out of memory.
fn net_of(alloc: Global, text: &[u8]) -> Result<Net, ConfigFault>
    ensures net { IfOk result (IsNetOf text.now) }
    ensures few { IfOk result (λ net. length net.shapes ≤ 4096) }
    ensures fault { IfErr result (λ fault. IsMemoryOr fault (IsFirstFault text.now fault)) }
{
    let prepared = prepare(alloc, text)?;
    Ok(resolved(alloc, prepared.flat())?)
}

/// Returns the net of a flat form that satisfies the port rules.
pub fn resolved(alloc: Global, flat: &Flat) -> Result<Net, AllocError>
    requires { IsLawfulForm flat.now }
    ensures { IfOk result (IsFormNet flat.now) }
{
    let states = states_of(alloc, flat.elements.as_slice())?;
    match resolve(alloc, flat, states.as_slice()) {
        Ok(net) => Ok(net),
        Err(fault) if fault.kind == PortKind::NoMemory => Err(AllocError),
        // By the precondition the flat form satisfies the port rules.
        Err(_) => unreachable!(),
    }
}

/// Returns the first states of the elements. Each element must have one.
fn states_of(alloc: Global, elements: &[FlatElement]) -> Result<Vec<State>, AllocError>
    requires { (states : List State) × AreFresh elements.now states }
    ensures { IfOk result (λ states. AreFresh elements.now states.items) }
{
    let mut states = Vec::new(alloc);
    for element in elements {
        push(&mut states, state_of(alloc, element)?)?;
    }
    Ok(states)
}

/// Returns the first state of an element, which must have one.
fn state_of(alloc: Global, element: &FlatElement) -> Result<State, AllocError>
    requires { (state : State) × IsBegun element.now (Ok state) }
    ensures { IfOk result (λ state. IsBegun element.now (Ok state)) }
{
    match make(alloc, element.class, element.text.as_slice()) {
        Ok(state) => Ok(state),
        Err(fault) if fault == ArgFault::NoMemory => Err(AllocError),
        // By the precondition the element has a first state.
        Err(_) => unreachable!(),
    }
}

/// Appends a state.
fn push(states: &mut Vec<State>, state: State) -> Result<(), AllocError>
    ensures { OnOk result (states.new.items ≡ states.old.items ++ state ∷ []) }
{
    states.push(state)?;
    Ok(())
}
