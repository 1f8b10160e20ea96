//! From a configuration to its flat form.

ghost use Rattle.std.specs.Prelude.{◌≡◌, ◌≤◌, ℕ, List, map, length, slice_get, Some, IfOk, IfErr};
ghost use Rattle.click_text.specs.Spelling.{Spells};
ghost use Rattle.click_expand.specs.declared.flat.Flat.{Flat};
ghost use Rattle.click_scopes.specs.Faults.{IsFaultless};
ghost use Rattle.click_expand.specs.Flat.{IsFlat, IsFlatFault, IsMemoryOr, IsGiven, flat_element};
ghost use Rattle.click_expand.specs.Instances.{PrimitiveElement as Flattened};
ghost use Rattle.click_scopes.specs.kept.Nesting.{IsNested};
ghost use Rattle.click_scopes.specs.Analysis.{AreScopes};
ghost use Rattle.click_expand.specs.kept.Answered.{IsExpandedOr, IsRefused, IsRefusedOf, refusal_for, fault_for, head_in};
ghost use Rattle.click_expand.specs.kept.KnownInstances.{KnownInstance, AreInstances};

use crate::connections::wiring::connections_of;
use crate::fault::{ExpandFault, FaultKind};
use crate::final_checks::{first_broken, first_repeated};
use crate::flat::{Flat, FlatElement};
use crate::flat_writing::push_name;
use crate::instances::sizes::{MAX_ELEMENTS, MAX_PATHS, size_of};
use crate::instances::tree::{Instances, instances_of};
use crate::texts::elements::elements_of;
use click_base::sequence::Sequence;
use click_scopes::{ScopeFault, Scopes, WrongUse, analyze, first_token};
use click_text::syntax::{Config, Head, Span};
use std::alloc::{AllocError, Global};

/// The reason for which a configuration has no flat form.
#[derive(Drop)]
pub enum Refusal {
    NoMemory,
    /// A misuse at a token, or a repeated flat name.
    At(FaultKind, Span),
    /// A limit is passed.
    TooMany,
    /// The text of the element with this flat name is broken.
    Broken(Sequence<u8>),
}

impl From<AllocError> for Refusal {
    ghost use Rattle.std.specs.Prelude.{◌≡◌};
    ghost use Rattle.click_expand.specs.declared.flattening.Refusal.TheVariants as why;

    ghost from_gives = { λ _ r. r ≡ why.NoMemory };

    fn from(_error: AllocError) -> Refusal {
        Refusal::NoMemory
    }
}

/// Returns the elements and connections, or `None` if a limit is passed.
fn expanded(
    alloc: Global,
    config: &Config,
    scopes: &Scopes,
    instances: &Instances,
) -> Result<Option<Flat>, AllocError>
    requires nested { IsNested config.now }
    requires sound { IsFaultless config.now }
    requires scopes { AreScopes config.now scopes.now }
    requires used { (primitive_elements : List Flattened) × (known : List KnownInstance) × AreInstances config.now instances.now.instances.items instances.now.primitive_elements.items known primitive_elements }
    ensures { IfOk result (λ r. (primitive_elements : List Flattened) (known : List KnownInstance) (paths : ℕ) → AreInstances config.now instances.now.instances.items instances.now.primitive_elements.items known primitive_elements →
        length primitive_elements ≤ 4096 → paths ≤ 16384 → IsExpandedOr config.now primitive_elements paths r) }
{
    let Some(elements) = elements_of(alloc, config, scopes, instances)? else {
        return Ok(None);
    };
    let Some(connections) = connections_of(alloc, config, scopes, instances)? else {
        return Ok(None);
    };
    Ok(Some(Flat {
        elements: Sequence::of(elements),
        connections: Sequence::of(connections),
    }))
}

/// Returns the head of the flat element at an index.
fn head_at(scopes: &Scopes, instances: &Instances, place: usize) -> Option<Head>
    ensures { result ≡ head_in scopes.now.scopes.items instances.now.instances.items instances.now.primitive_elements.items place }
{
    let primitive_element = instances.primitive_elements.get(place)?;
    let one = instances.instances.get(primitive_element.within)?;
    scopes.head_at(one.scope, primitive_element.element)
}

/// Returns the first token of the flat element at an index.
fn token_of(config: &Config, scopes: &Scopes, instances: &Instances, place: usize) -> Span
    requires scopes { AreScopes config.now scopes.now }
    ensures { (primitive_elements : List Flattened) (known : List KnownInstance) (primitive_element : Flattened) → AreInstances config.now instances.now.instances.items instances.now.primitive_elements.items known primitive_elements →
        slice_get primitive_elements place ≡ Some primitive_element → result ≡ primitive_element.first }
{
    match head_at(scopes, instances, place) {
        Some(head) => first_token(config.bodies.as_slice(), head),
        None => Span { start: 0, end: 0 },
    }
}

/// Returns why the elements are refused: the first repeated name, or else the first broken text.
fn refused_of(
    alloc: Global,
    config: &Config,
    scopes: &Scopes,
    instances: &Instances,
    elements: &[FlatElement],
) -> Result<Option<Refusal>, AllocError>
    requires scopes { AreScopes config.now scopes.now }
    ensures { IfOk result (λ r. (primitive_elements : List Flattened) (known : List KnownInstance) → AreInstances config.now instances.now.instances.items instances.now.primitive_elements.items known primitive_elements →
        elements.now ≡ map flat_element primitive_elements → IsRefusedOf primitive_elements r) }
{
    if let Some(place) = first_repeated(alloc, elements)? {
        let token = token_of(config, scopes, instances, place);
        let kind = FaultKind::Use(WrongUse::DeclaredTwice);
        return Ok(Some(Refusal::At(kind, token)));
    }
    if let Some(place) = first_broken(alloc, elements)? {
        let mut name = Vec::new(alloc);
        push_name(&mut name, elements, place)?;
        return Ok(Some(Refusal::Broken(Sequence::of(name))));
    }
    Ok(None)
}

/// Returns the flat form of a configuration without a misuse, or the reason for which it has none.
fn sound_flat(alloc: Global, config: &Config, scopes: &Scopes) -> Result<Flat, Refusal>
    requires nested { IsNested config.now }
    requires sound { IsFaultless config.now }
    requires scopes { AreScopes config.now scopes.now }
    ensures flat { IfOk result (λ flat. IsFlat config.now flat) }
    ensures err { IfErr result (λ why. IsRefused config.now why) }
{
    let size = size_of(alloc, config, scopes)?;
    if size.elements > MAX_ELEMENTS || size.paths > MAX_PATHS {
        return Err(Refusal::TooMany);
    }
    let instances = instances_of(alloc, config, scopes, size.paths)?;
    let Some(flat) = expanded(alloc, config, scopes, &instances)? else {
        return Err(Refusal::TooMany);
    };
    match refused_of(alloc, config, scopes, &instances, flat.elements.as_slice())? {
        Some(why) => Err(why),
        None => Ok(flat),
    }
}

/// Returns the refusal for a fault of the scopes.
fn refusal_of(fault: ScopeFault) -> Refusal
    ensures { result ≡ refusal_for fault }
{
    match fault {
        ScopeFault::NoMemory => Refusal::NoMemory,
        ScopeFault::Wrong(wrong) => Refusal::At(FaultKind::Use(wrong.kind), wrong.span),
    }
}

/// Returns the flat form of a configuration, or the reason for which it has none.
fn flat_of(alloc: Global, config: &Config) -> Result<Flat, Refusal>
    requires nested { IsNested config.now }
    requires spelled { Spells config.now.text config.now }
    ensures flat { IfOk result (λ flat. IsFlat config.now flat) }
    ensures err { IfErr result (λ why. IsRefused config.now why) }
{
    match analyze(alloc, config) {
        Ok(scopes) => sound_flat(alloc, config, &scopes),
        Err(fault) => Err(refusal_of(fault)),
    }
}

/// Returns the fault that reports a refusal.
fn fault_of(alloc: Global, refused: Refusal) -> ExpandFault
    ensures { result ≡ fault_for refused }
{
    match refused {
        Refusal::NoMemory => ExpandFault {
            kind: FaultKind::NoMemory,
            span: None,
            name: Sequence::new(alloc),
        },
        Refusal::At(kind, span) => ExpandFault {
            kind,
            span: Some(span),
            name: Sequence::new(alloc),
        },
        Refusal::TooMany => ExpandFault {
            kind: FaultKind::TooMany,
            span: None,
            name: Sequence::new(alloc),
        },
        Refusal::Broken(name) => ExpandFault {
            kind: FaultKind::BrokenText,
            span: None,
            name,
        },
    }
}

/// Returns the flat form of a configuration that a text spells, or its first fault.
///
/// The flat form (Click manual, "Compound elements") has the elements under their flat names, in
/// flat order, with all parameters replaced. Its connections come without repetition, ordered by
/// from-element, from-port, to-element and to-port.
///
/// The first fault is the misuse of a name, class, parameter or port that comes first in the text.
/// Otherwise it is `TooMany`, if there are more than 4,096 elements, 16,384 connections, 16,384
/// paths to elements and compounds, or 1,048,576 bytes of configuration strings. Otherwise it is
/// the first element with the flat name of an earlier one, or else the first with a text that, in
/// parentheses, is no longer one token. May fail with `NoMemory`.
pub fn flatten(alloc: Global, config: &Config) -> Result<Flat, ExpandFault>
    requires { Spells config.now.text config.now }
    ensures flat { IfOk result (λ flat. IsFlat config.now flat) }
    ensures only { (flat : Flat) → IsFlat config.now flat → IsGiven result flat }
    ensures err { IfErr result (λ fault. IsMemoryOr fault (IsFlatFault config.now fault)) }
{
    match flat_of(alloc, config) {
        Ok(flat) => Ok(flat),
        Err(refused) => Err(fault_of(alloc, refused)),
    }
}
