//! Flat names: the local names on the way to an element, with `/` between them.

ghost use Rattle.std.specs.Prelude.{◌≡◌, ℕ, List, map, reverse, slice_get, Some, IfOk};
ghost use Rattle.click_text.specs.declared.syntax.Config.{Config};
ghost use Rattle.click_scopes.specs.declared.scopes.Scope.{Scope};
ghost use Rattle.click_expand.specs.declared.instances.tree.Place.{Place};
ghost use Rattle.click_expand.specs.Flat.{flat_name};
ghost use Rattle.click_expand.specs.Instances.{PrimitiveElement as Flattened};
ghost use Rattle.click_scopes.specs.kept.AllScopes.{AreAllScopes};
ghost use Rattle.click_expand.specs.kept.KnownInstances.{KnownInstance, AreInstances};
ghost use Rattle.click_expand.specs.kept.Ways.{name_of_place, enclosing_in};

use crate::instances::tree::{Instance, Place};
use click_scopes::Scopes;
use std::alloc::{AllocError, Global};

/// Returns the local name of the element at a place.
fn local_name<'a>(scopes: &'a Scopes, instances: &[Instance], place: Place) -> &'a [u8]
    ensures { result.now ≡ name_of_place scopes.now.scopes.items instances.now place }
{
    match instances.get(place.within) {
        None => &[],
        Some(one) => scopes.name_at(one.scope, place.element),
    }
}

/// Returns the place of an instance, if that is in an instance with a lower index.
fn enclosing(instances: &[Instance], at: usize) -> Option<Place>
    ensures { result ≡ enclosing_in instances.now at }
{
    match instances.get(at) {
        None => None,
        Some(one) => match one.enclosing {
            Some(place) if place.within < at => Some(place),
            _ => None,
        },
    }
}

/// Returns the places on the way from an instance outwards, of which the nearest comes first.
fn outward(alloc: Global, instances: &[Instance], within: usize) -> Result<Vec<Place>, AllocError>
    ensures { IfOk result (λ way. (c : Config) (scopes : List Scope) (places : List Place) (known : List KnownInstance) (primitive_elements : List Flattened) (x : KnownInstance) →
        AreAllScopes c scopes → AreInstances c instances.now places known primitive_elements → slice_get known within ≡ Some x → x.path ≡ reverse (map (name_of_place scopes instances.now) way.items)) }
{
    let mut way = Vec::new(alloc);
    let mut at = within;
    while let Some(place) = enclosing(instances, at) {
        way.push(place)?;
        at = place.within;
    }
    Ok(way)
}

/// Returns the flat name of the flat element at a place, or fails with out of memory.
pub fn name_of(
    alloc: Global,
    scopes: &Scopes,
    instances: &[Instance],
    place: Place,
) -> Result<Vec<u8>, AllocError>
    ensures { IfOk result (λ name. (c : Config) (places : List Place) (known : List KnownInstance) (primitive_elements : List Flattened) (n : ℕ) (primitive_element : Flattened) →
        AreAllScopes c scopes.now.scopes.items → AreInstances c instances.now places known primitive_elements → slice_get places n ≡ Some place → slice_get primitive_elements n ≡ Some primitive_element → name.items ≡ flat_name primitive_element.path) }
{
    let local = local_name(scopes, instances, place);
    // perf: usually this is the whole flat name, because most elements are in no compound.
    let mut name = Vec::with_capacity(alloc, local.len())?;
    let mut way = outward(alloc, instances, place.within)?;
    while let Some(step) = way.pop() {
        name.extend_from_slice(local_name(scopes, instances, step))?;
        name.push(b'/')?;
    }
    name.extend_from_slice(local)?;
    Ok(name)
}
