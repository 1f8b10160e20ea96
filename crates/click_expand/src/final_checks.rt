//! The final checks: repeated flat names, and texts that are no longer one configuration string.

ghost use Rattle.std.specs.Prelude.{◌≡◌, map, true, All, IfOk, MatchOption};
ghost use Rattle.click_expand.specs.declared.flat.FlatElement.{FlatElement};
ghost use Rattle.click_expand.specs.Flat as spec;
ghost use Rattle.click_expand.specs.Flat.{AreDistinct};
ghost use Rattle.click_expand.specs.kept.FinalChecks.{IsRepeated, IsBroken};

use crate::flat::FlatElement;
use click_text::string_len;
use indexmap::IndexSet;
use std::alloc::{AllocError, Global};

/// Returns the index of the first element with the name of an earlier one.
pub fn first_repeated(alloc: Global, elements: &[FlatElement]) -> Result<Option<usize>, AllocError>
    ensures { IfOk result (λ found. MatchOption found (AreDistinct (map (λ (e : FlatElement). e.name) elements.now)) (λ i. IsRepeated elements.now i)) }
{
    let mut names = IndexSet::with_capacity(alloc, elements.len())?;
    for (place, element) in elements.iter().enumerate() {
        let added = names.insert(element.name.as_slice())?;
        if !added {
            return Ok(Some(place));
        }
    }
    Ok(None)
}

/// Returns whether the text, in parentheses, is one token.
///
/// perf: `closed` is a buffer, which is allocated once for many texts.
fn is_whole(closed: &mut Vec<u8>, text: &[u8]) -> Result<bool, AllocError>
    ensures { IfOk result (λ whole. whole ≡ spec.is_whole text.now) }
{
    // perf: most elements have no text, which is always one token.
    if text.is_empty() {
        return Ok(true);
    }
    closed.clear();
    closed.extend_from_slice(text)?;
    closed.push(b')')?;
    match string_len(closed.as_slice()) {
        Some(len) => Ok(len == closed.len()),
        None => Ok(false),
    }
}

/// Returns the index of the first element with a broken text.
pub fn first_broken(alloc: Global, elements: &[FlatElement]) -> Result<Option<usize>, AllocError>
    ensures { IfOk result (λ found. MatchOption found (All (λ (e : FlatElement). spec.is_whole e.text ≡ true) elements.now) (λ i. IsBroken elements.now i)) }
{
    let mut closed = Vec::new(alloc);
    for (place, element) in elements.iter().enumerate() {
        if !is_whole(&mut closed, element.text.as_slice())? {
            return Ok(Some(place));
        }
    }
    Ok(None)
}
