//! Configuration strings: their arguments, the words of an argument, and the bytes that it stands
//! for.

use super::stop::Stop;
use click_text::{arguments, unquote, words};
use std::alloc::Global;

/// Returns the span of each argument, as `0..1|3..9|`.
pub fn list_places(alloc: Global, text: &[u8]) -> Result<Vec<u8>, Stop> {
    let mut shown = Vec::new(alloc);
    for span in arguments(alloc, text)? {
        let place = format!(in alloc; "{}..{}|", span.start, span.end)?;
        shown.extend_from_slice(place.as_bytes())?;
    }
    Ok(shown)
}

/// Returns the bytes of each argument, with a bar after each.
pub fn list_arguments(alloc: Global, text: &[u8]) -> Result<Vec<u8>, Stop> {
    let mut shown = Vec::new(alloc);
    for span in arguments(alloc, text)? {
        shown.extend_from_slice(span.of(text))?;
        shown.push(b'|')?;
    }
    Ok(shown)
}

/// Returns the words of an argument, with a bar after each.
pub fn list_words(alloc: Global, argument: &[u8]) -> Result<Vec<u8>, Stop> {
    let mut shown = Vec::new(alloc);
    for word in words(alloc, argument)? {
        shown.extend_from_slice(word.as_slice())?;
        shown.push(b'|')?;
    }
    Ok(shown)
}

/// Returns the bytes that an argument stands for, or `!` if its quoting is faulty.
pub fn unquote_argument(alloc: Global, argument: &[u8]) -> Result<Vec<u8>, Stop> {
    match unquote(alloc, argument)? {
        Some(bytes) => Ok(bytes),
        None => Ok(Vec::from_slice(alloc, b"!")?),
    }
}
