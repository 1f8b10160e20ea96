//! Makes the flat element at a place of the configuration.

ghost use Rattle.std.specs.Prelude.{◌≡◌, ◌<◌, ◌+◌, ℕ, List, length, slice_get, Some, IfOk, MatchOption};
ghost use Rattle.click_scopes.specs.Analysis.{AreScopes};
ghost use Rattle.click_expand.specs.kept.Buffered.{AreKept};
ghost use Rattle.click_expand.specs.Instances.{PrimitiveElement as Flattened};
ghost use Rattle.click_expand.specs.kept.KnownInstances.{KnownInstance, AreInstances};
ghost use Rattle.click_expand.specs.Flat.{flat_element};
ghost use Rattle.click_expand.specs.declared.instances.tree.Place.{Place};

use crate::flat::FlatElement;
use crate::instances::flat_names::name_of;
use crate::instances::tree::{Instance, Place};
use crate::texts::parameter_values::UnreadText;
use crate::texts::text_buffer::TextBuffer;
use crate::texts::writing::write_text;
use click_base::sequence::Sequence;
use click_scopes::Scopes;
use click_text::syntax::Config;
use std::alloc::{AllocError, Global};

/// Returns the flat element at a place, or `None` if its configuration string does not fit.
///
/// Each parameter in the configuration string is replaced by its value. The result is appended to
/// the buffer if the buffer has room for it.
pub fn element_at(
    alloc: Global,
    config: &Config,
    scopes: &Scopes,
    instances: &[Instance],
    buffer: &mut TextBuffer,
    place: Place,
) -> Result<Option<FlatElement>, AllocError>
    requires scopes { AreScopes config.now scopes.now }
    requires within { place.within < length instances.now }
    requires found { (places : List Place) × (known : List KnownInstance) × (primitive_elements : List Flattened) × (n : ℕ) × AreInstances config.now instances.now places known primitive_elements × (slice_get places n ≡ Some place) }
    requires kept { AreKept config.now instances.now buffer.old }
    ensures kept { IfOk result (λ _. AreKept config.now instances.now buffer.new) }
    ensures made { IfOk result (λ r. (places : List Place) (known : List KnownInstance) (primitive_elements : List Flattened) (n : ℕ) (primitive_element : Flattened) → AreInstances config.now instances.now places known primitive_elements →
        slice_get places n ≡ Some place → slice_get primitive_elements n ≡ Some primitive_element →
        MatchOption r (buffer.old.room < length primitive_element.text) (λ e. (e ≡ flat_element primitive_element) × (buffer.new.room + length primitive_element.text ≡ buffer.old.room))) }
{
    let text = config.text.as_slice();
    let one = &instances[place.within];
    let Some(class) = scopes.class_at(one.scope, place.element) else {
        unreachable!()
    };
    let name = name_of(alloc, scopes, instances, place)?;
    let first = UnreadText {
        within: place.within,
        rest: scopes.string_at(text, one.scope, place.element),
    };
    let start = buffer.text.len();
    if !write_text(alloc, config, scopes, instances, buffer, first)? {
        return Ok(None);
    }
    let replaced = Vec::from_slice(alloc, buffer.behind(start))?;
    Ok(Some(FlatElement {
        name: Sequence::of(name),
        class,
        text: Sequence::of(replaced),
    }))
}
