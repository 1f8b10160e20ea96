//! Preparing a router from a configuration.

use super::stop::Stop;
use click_router::{FaultKind, prepare};
use std::alloc::Global;

/// Returns the number of elements of a configuration, or the line of its first fault.
pub fn count_elements(alloc: Global, text: &[u8]) -> Result<Vec<u8>, Stop> {
    match prepare(alloc, text) {
        Ok(prepared) => number_text(alloc, prepared.flat().elements.len()),
        Err(fault) => {
            if fault.kind == FaultKind::NoMemory {
                return Err(Stop::NoMemory);
            }
            Ok(fault.text(alloc)?)
        }
    }
}

/// Returns the number of proper prefixes of a text.
///
/// Each of them has to be prepared, or to have a fault other than out of memory.
pub fn count_prefixes(alloc: Global, text: &[u8]) -> Result<Vec<u8>, Stop> {
    for end in 0..text.len() {
        if let Err(fault) = prepare(alloc, &text[..end]) {
            if fault.kind == FaultKind::NoMemory {
                return Err(Stop::NoMemory);
            }
        }
    }
    number_text(alloc, text.len())
}

fn number_text(alloc: Global, number: usize) -> Result<Vec<u8>, Stop> {
    Ok(format!(in alloc; "{number}")?.into_bytes())
}
