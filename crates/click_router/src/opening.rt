//! Prepares a router from a text.

ghost use Rattle.std.specs.Prelude.{◌≡◌, ◌⊎◌, ◌<◌, ◌≤◌, ◌∷◌, [], ◌++◌, OnOk, length, IfOk, IfErr, Ok, Err};
ghost use Rattle.click_text.specs.Spelling.{longest_text};
ghost use Rattle.click_router.specs.State.{RouterState};
ghost use Rattle.click_text.specs.Spelling.{Spells};
ghost use Rattle.click_router.specs.Opened as spec;
ghost use Rattle.click_router.specs.Opened.{IsBegun, AreFresh, Begins, OpensAs, IsOpened, IsFirstFault, IsGiven, IsMemoryOr};
ghost use Rattle.click_router.specs.kept.Refused.{IsUnfit, IsUnlawful, IsConfigFault};

use crate::fault::{ConfigFault, FaultKind, FaultPlace};
use crate::running::RunningConfig;
use click_base::sequence::Sequence;
use click_classes::{ArgFault, State, make};
use click_engine::Plant;
use click_expand::{ExpandFault, FaultKind as ExpandKind, Flat, FlatElement, flatten};
use click_ports::{FaultKind as PortKind, PortFault, resolve};
use click_text::syntax::{Config, FaultKind as TextKind, Span, TextFault};
use click_text::{MAX_TEXT_BYTES, parse};
use std::alloc::{AllocError, Global};
use std::marker::Model;

/// A lawful configuration with its plant, ready to run.
///
/// perf: boxed, so that a router is cheap to move. A desk passes it from thread to thread.
#[derive(Drop)]
pub struct Prepared {
    pub(crate) running: Box<RunningConfig>,
}

impl Model for Prepared {
    ghost use Rattle.click_router.specs.State.{RouterState};

    ghost Value = { RouterState };

    ghost view = { λ p. p.running.value };
}

impl Prepared {
    ghost use Rattle.std.specs.Prelude.{◌≡◌};

    /// Returns the flat form.
    pub fn flat(&self) -> &Flat
        ensures { result.now ≡ self.now.flat }
    {
        self.running.flat()
    }
}

/// Returns the line of an offset: one more than the number of LF bytes before it.
fn line_at(text: &[u8], at: usize) -> usize
    requires { length text.now ≤ longest_text }
    ensures { result ≡ spec.line_at text.now at }
{
    let before = &text[..at.min(text.len())];
    before.iter().filter(|b| **b == b'\n').count() + 1
}

/// Returns the column of an offset, from 1: the number of bytes since the last LF before it, plus
/// one.
fn column_at(text: &[u8], at: usize) -> usize
    requires { length text.now ≤ longest_text }
    ensures { result ≡ spec.column_at text.now at }
{
    let before = &text[..at.min(text.len())];
    before.iter().rev().take_while(|b| **b != b'\n').count() + 1
}

/// Returns a fault without a position.
fn fault_nowhere(kind: FaultKind) -> ConfigFault
    ensures { result ≡ spec.fault_nowhere kind }
{
    ConfigFault {
        kind,
        place: FaultPlace::Nowhere,
    }
}

/// Returns a fault at the position where the span begins.
fn at(kind: FaultKind, text: &[u8], span: Span) -> ConfigFault
    requires { length text.now ≤ longest_text }
    ensures { result ≡ spec.fault_at kind text.now span }
{
    ConfigFault {
        kind,
        place: FaultPlace::At {
            line: line_at(text, span.start),
            column: column_at(text, span.start),
        },
    }
}

/// Returns the fault for an error of the text itself.
fn of_text_fault(text: &[u8], fault: TextFault) -> ConfigFault
    requires { length text.now ≤ longest_text }
    ensures { result ≡ spec.of_text_fault text.now fault }
{
    match fault.kind {
        TextKind::NoMemory => fault_nowhere(FaultKind::NoMemory),
        TextKind::TooLarge => fault_nowhere(FaultKind::Text(TextKind::TooLarge)),
        kind => at(FaultKind::Text(kind), text, fault.span),
    }
}

/// Returns the position where the span begins, or `Nowhere` if there is no span.
fn span_place(text: &[u8], span: Option<Span>) -> FaultPlace
    requires { length text.now ≤ longest_text }
    ensures { result ≡ spec.span_place text.now span }
{
    match span {
        None => FaultPlace::Nowhere,
        Some(span) => FaultPlace::At {
            line: line_at(text, span.start),
            column: column_at(text, span.start),
        },
    }
}

/// Returns the fault for an error of the flat form.
fn of_expand_fault(text: &[u8], fault: ExpandFault) -> ConfigFault
    requires { length text.now ≤ longest_text }
    ensures { result ≡ spec.of_expand_fault text.now fault }
{
    match fault.kind {
        ExpandKind::NoMemory => fault_nowhere(FaultKind::NoMemory),
        ExpandKind::TooMany => fault_nowhere(FaultKind::Expansion(ExpandKind::TooMany)),
        ExpandKind::BrokenText => ConfigFault {
            kind: FaultKind::Expansion(ExpandKind::BrokenText),
            place: FaultPlace::Element { name: fault.name },
        },
        kind => ConfigFault {
            kind: FaultKind::Expansion(kind),
            place: span_place(text, fault.span),
        },
    }
}

impl From<AllocError> for ConfigFault {
    ghost use Rattle.std.specs.Prelude.{◌≡◌};
    ghost use Rattle.click_router.specs.Opened.{fault_nowhere};
    ghost use Rattle.click_router.specs.declared.fault.FaultKind.TheVariants as kind;

    ghost from_gives = { λ _ f. f ≡ fault_nowhere kind.NoMemory };

    fn from(_error: AllocError) -> ConfigFault {
        fault_nowhere(FaultKind::NoMemory)
    }
}

/// Copies the name of the element at an index. The name is empty if there is no such element.
fn name_at(
    alloc: Global,
    elements: &[FlatElement],
    place: usize,
) -> Result<Sequence<u8>, AllocError>
    ensures { IfOk result (λ name. name ≡ spec.name_at elements.now place) }
{
    match elements.get(place) {
        None => Ok(Sequence::new(alloc)),
        Some(element) => Sequence::copy_of(alloc, element.name.as_slice()),
    }
}

/// Returns the fault for a breach of a port rule, at the element's name.
fn of_port_fault(
    alloc: Global,
    elements: &[FlatElement],
    fault: PortFault,
) -> Result<ConfigFault, AllocError>
    ensures { IfOk result (λ f. f ≡ spec.of_port_fault elements.now fault) }
{
    match fault.kind {
        PortKind::NoMemory => Ok(fault_nowhere(FaultKind::NoMemory)),
        PortKind::Count => of_port_count(alloc, elements, fault),
        kind => Ok(ConfigFault {
            kind: FaultKind::Port(kind),
            place: FaultPlace::Port {
                name: name_at(alloc, elements, fault.element)?,
                side: fault.side,
                port: fault.number,
            },
        }),
    }
}

/// Returns the fault for a wrong number of ports on a side of an element.
fn of_port_count(
    alloc: Global,
    elements: &[FlatElement],
    fault: PortFault,
) -> Result<ConfigFault, AllocError>
    ensures { IfOk result (λ f. f ≡ record { kind = FaultKind.Port PortKind.Count; place = FaultPlace.Used (spec.name_at elements.now fault.element) fault.side fault.number }) }
{
    Ok(ConfigFault {
        kind: FaultKind::Port(PortKind::Count),
        place: FaultPlace::Used {
            name: name_at(alloc, elements, fault.element)?,
            side: fault.side,
            used: fault.number,
        },
    })
}

/// Returns the kind of a fault of arguments.
fn argument_kind(fault: ArgFault) -> FaultKind
    ensures { result ≡ spec.argument_kind fault }
{
    match fault {
        ArgFault::NoMemory => FaultKind::NoMemory,
        fault => FaultKind::Argument(fault),
    }
}

/// Returns the fault of an element that refuses its arguments.
fn of_argument_fault(
    alloc: Global,
    element: &FlatElement,
    fault: ArgFault,
) -> Result<ConfigFault, AllocError>
    ensures { IfOk result (λ f. f ≡ spec.of_argument_fault element.now fault) }
{
    Ok(ConfigFault {
        kind: argument_kind(fault),
        place: FaultPlace::Element {
            name: Sequence::copy_of(alloc, element.name.as_slice())?,
        },
    })
}

/// Returns the first state of an element, or the fault of its arguments.
fn state_of(alloc: Global, element: &FlatElement) -> Result<State, ConfigFault>
    ensures fresh { IfOk result (λ state. IsBegun element.now (Ok state)) }
    ensures err { IfErr result (λ f. IsMemoryOr f ((fault : ArgFault) × IsBegun element.now (Err fault) × (f ≡ spec.of_argument_fault element.now fault))) }
{
    match make(alloc, element.class, element.text.as_slice()) {
        Ok(state) => Ok(state),
        Err(ArgFault::NoMemory) => Err(fault_nowhere(FaultKind::NoMemory)),
        Err(fault) => Err(of_argument_fault(alloc, element, fault)?),
    }
}

/// Returns the first states of the elements, or the first fault of an element's arguments.
fn states_of(alloc: Global, elements: &[FlatElement]) -> Result<Vec<State>, ConfigFault>
    ensures fresh { IfOk result (λ v. AreFresh elements.now v.items) }
    ensures err { IfErr result (λ f. IsMemoryOr f (IsUnfit elements.now f)) }
{
    let mut states = Vec::with_capacity(alloc, elements.len())?;
    for element in elements {
        push(&mut states, state_of(alloc, element)?)?;
    }
    Ok(states)
}

/// Appends a state.
fn push(states: &mut Vec<State>, state: State) -> Result<(), AllocError>
    ensures { OnOk result (states.new.items ≡ states.old.items ++ state ∷ []) }
{
    states.push(state)?;
    Ok(())
}

/// Puts a configuration into a box.
fn box_config(alloc: Global, running: RunningConfig) -> Result<Prepared, AllocError>
    ensures { IfOk result (λ p. p ≡ running) }
{
    Ok(Prepared {
        running: Box::new(alloc, running)?,
    })
}

/// Prepares the router of a flat form, or returns the first fault.
fn prepare_flat(alloc: Global, text: Sequence<u8>, flat: Flat) -> Result<Prepared, ConfigFault>
    ensures is { IfOk result (λ p. (p.text ≡ text) × (p.flat ≡ flat)) }
    ensures begins { IfOk result (λ p. Begins flat p.plant) }
    ensures err { IfErr result (λ f. IsMemoryOr f (IsUnfit flat.elements f ⊎ IsUnlawful flat f)) }
{
    let states = states_of(alloc, flat.elements.as_slice())?;
    match resolve(alloc, &flat, states.as_slice()) {
        Err(fault) => Err(of_port_fault(alloc, flat.elements.as_slice(), fault)?),
        Ok(net) => {
            let plant = Plant::new(alloc, net, states)?;
            Ok(box_config(alloc, RunningConfig { text, flat, plant })?)
        }
    }
}

/// Prepares the router of a configuration, or returns the first fault.
fn prepare_config(alloc: Global, config: Config) -> Result<Prepared, ConfigFault>
    requires within { length config.text ≤ longest_text }
    requires spelled { Spells config.text config }
    ensures opened { IfOk result (λ p. OpensAs config p.flat p.plant × (p.text ≡ config.text)) }
    ensures err { IfErr result (λ f. IsMemoryOr f (IsConfigFault config f)) }
{
    match flatten(alloc, &config) {
        Ok(flat) => prepare_flat(alloc, config.text, flat),
        Err(fault) => Err(of_expand_fault(config.text.as_slice(), fault)),
    }
}

/// Prepares the router of a text, or returns the first fault of the text. The fault is `NoMemory`
/// if a layer runs out of memory.
pub fn prepare(alloc: Global, text: &[u8]) -> Result<Prepared, ConfigFault>
    // The prepared state is the one that the text opens.
    ensures opened { IfOk result (λ prepared. IsOpened text.now prepared) }
    // If the text opens a state, that state is prepared, except when out of memory.
    ensures only { (state : RouterState) → IsOpened text.now state → IsGiven result state }
    // The fault is the first one of the text, except when out of memory.
    ensures err { IfErr result (λ fault. IsMemoryOr fault (IsFirstFault text.now fault)) }
    // A text over the limit is refused as `TooLarge`, never for another reason.
    ensures large { longest_text < length text.now → result ≡ Err (spec.fault_nowhere (FaultKind.Text TextKind.TooLarge)) }
{
    // Lines and columns are counted only in a text within the limit.
    if text.len() > MAX_TEXT_BYTES {
        return Err(fault_nowhere(FaultKind::Text(TextKind::TooLarge)));
    }
    match parse(alloc, text) {
        Ok(config) => prepare_config(alloc, config),
        Err(fault) => Err(of_text_fault(text, fault)),
    }
}
