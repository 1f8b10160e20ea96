//! Configurations and their flat forms.

use super::stop::Stop;
use click_expand::{Flat, FlatElement, flat_text, flatten};
use click_text::parse;
use std::alloc::Global;

/// Returns the flat form of a configuration as text, which has to have the same flat form.
pub fn show_flat_form(alloc: Global, text: &[u8]) -> Result<Vec<u8>, Stop> {
    let config = parse(alloc, text)?;
    let flat = flatten(alloc, &config)?;
    let written = flat_text(alloc, &flat)?;
    if is_flat_form(alloc, written.as_slice(), &flat)? {
        Ok(written)
    } else {
        Ok(Vec::from_slice(alloc, b"a flat form that is read as another")?)
    }
}

/// Returns whether a text has exactly this flat form.
fn is_flat_form(alloc: Global, text: &[u8], flat: &Flat) -> Result<bool, Stop> {
    let config = parse(alloc, text)?;
    let again = flatten(alloc, &config)?;
    Ok(
        again.connections.as_slice() == flat.connections.as_slice()
            && are_same(again.elements.as_slice(), flat.elements.as_slice()),
    )
}

fn are_same(elements: &[FlatElement], others: &[FlatElement]) -> bool {
    for (element, other) in elements.iter().zip(others) {
        if element.name.as_slice() != other.name.as_slice()
            || element.class != other.class
            || element.text.as_slice() != other.text.as_slice()
        {
            return false;
        }
    }
    elements.len() == others.len()
}
