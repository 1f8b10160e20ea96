//! Making an element from a configuration string.

use super::stop::Stop;
use crate::script::cut;
use click_base::class_of;
use click_classes::make;
use std::alloc::Global;

/// Returns `made` if the class accepts the configuration string.
///
/// The words are the class and the string.
pub fn make_element(alloc: Global, words: &[u8]) -> Result<Vec<u8>, Stop> {
    let (name, text) = cut(words, b' ');
    let class = class_of(name).ok_or(Stop::Malformed)?;
    let _state = make(alloc, class, text)?;
    Ok(Vec::from_slice(alloc, b"made")?)
}
