//! The elements of a flat configuration.

ghost use Rattle.std.specs.Prelude.{◌≡◌, ◌<◌, ◌≤◌, ◌++◌, ◌∷◌, [], List, map, IfOk, OnOk, MatchOption};
ghost use Rattle.click_scopes.specs.Analysis.{AreScopes};
ghost use Rattle.click_scopes.specs.kept.Nesting.{IsNested};
ghost use Rattle.click_expand.specs.Instances.{PrimitiveElement as Flattened};
ghost use Rattle.click_expand.specs.kept.KnownInstances.{KnownInstance, AreInstances};
ghost use Rattle.click_expand.specs.Flat.{flat_element, text_size, most_text};

use crate::flat::FlatElement;
use crate::instances::tree::Instances;
use crate::texts::flat_elements::element_at;
use crate::texts::text_buffer::TextBuffer;
use click_scopes::Scopes;
use click_text::syntax::Config;
use std::alloc::{AllocError, Global};

/// Appends an element.
fn push_flat(elements: &mut Vec<FlatElement>, element: FlatElement) -> Result<(), AllocError>
    ensures { OnOk result (elements.new.items ≡ elements.old.items ++ element ∷ []) }
{
    elements.push(element)?;
    Ok(())
}

/// Returns the flat elements, or `None` if their texts are longer than the limit.
pub fn elements_of(
    alloc: Global,
    config: &Config,
    scopes: &Scopes,
    instances: &Instances,
) -> Result<Option<Vec<FlatElement>>, AllocError>
    requires nested { IsNested config.now }
    requires scopes { AreScopes config.now scopes.now }
    requires used { (primitive_elements : List Flattened) × (known : List KnownInstance) × AreInstances config.now instances.now.instances.items instances.now.primitive_elements.items known primitive_elements }
    ensures { IfOk result (λ r. (primitive_elements : List Flattened) (known : List KnownInstance) → AreInstances config.now instances.now.instances.items instances.now.primitive_elements.items known primitive_elements →
        MatchOption r (most_text < text_size primitive_elements) (λ elements. (elements.items ≡ map flat_element primitive_elements) × (text_size primitive_elements ≤ most_text))) }
{
    let mut buffer = TextBuffer::new(alloc);
    let mut elements = Vec::with_capacity(alloc, instances.primitive_elements.len())?;
    for place in instances.primitive_elements.as_slice() {
        let Some(element) = element_at(
            alloc,
            config,
            scopes,
            instances.instances.as_slice(),
            &mut buffer,
            *place,
        )?
        else {
            return Ok(None);
        };
        push_flat(&mut elements, element)?;
    }
    Ok(Some(elements))
}
