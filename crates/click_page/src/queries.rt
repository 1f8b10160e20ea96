//! The handlers that a query names.

ghost use Rattle.std.specs.Prelude.{◌≡◌, ◌<◌, ◌^◌, length, map, Some, None, if◌then◌else◌, IfOk};
ghost use Rattle.form_urlencoded.specs.Form.{decode, plus_to_space, raw_pairs};
ghost use Rattle.click_page.specs.Asking.{are_handlers, handlers_in, read_of, write_of};

use crate::page_request::{PageRequest, RequestRefusal};
use click_base::sequence::Sequence;
use form_urlencoded::raw_pairs;
use percent_encoding::percent_decode;
use std::alloc::{AllocError, Global};

/// The maximum number of handlers that a request reads.
const MAX_HANDLERS: usize = 256;

/// Returns what a query asks to read.
pub(crate) fn read_of(alloc: Global, query: &[u8]) -> Result<PageRequest, AllocError>
    ensures { IfOk result (λ w. w ≡ read_of (raw_pairs query.now)) }
{
    match handler_count(query) {
        Some(1..=MAX_HANDLERS) => Ok(PageRequest::Read {
            handlers: Sequence::of(handlers_in(alloc, query)?),
        }),
        _ => Ok(PageRequest::Refused(RequestRefusal::WrongQuery)),
    }
}

/// Returns what a query asks to write, with this text.
pub(crate) fn write_of(alloc: Global, query: &[u8], text: &[u8]) -> Result<PageRequest, AllocError>
    ensures { IfOk result (λ w. w ≡ write_of (raw_pairs query.now) text.now) }
{
    let Some(1) = handler_count(query) else {
        return Ok(PageRequest::Refused(RequestRefusal::WrongQuery));
    };
    match handlers_in(alloc, query)?.pop() {
        Some(handler) => Ok(PageRequest::Write {
            handler,
            text: Sequence::copy_of(alloc, text)?,
        }),
        None => unreachable!(),
    }
}

/// Returns the number of handlers of a query, or `None` if it has a parameter of another name or
/// without a value.
fn handler_count(query: &[u8]) -> Option<usize>
    ensures { result ≡ (if are_handlers (raw_pairs query.now) then Some (length (raw_pairs query.now)) else None) }
{
    let mut count = 0;
    for (name, value) in raw_pairs(query) {
        if name != b"handler".as_slice() || value.is_empty() {
            return None;
        }
        count += 1;
    }
    Some(count)
}

/// Returns the handlers that the values of a query name.
fn handlers_in(alloc: Global, query: &[u8]) -> Result<Vec<Sequence<u8>>, AllocError>
    ensures { IfOk result (λ handlers. handlers.items ≡ handlers_in (raw_pairs query.now)) }
{
    let mut handlers = Vec::new(alloc);
    for (_, value) in raw_pairs(query) {
        handlers.push(decoded(alloc, value)?)?;
    }
    Ok(handlers)
}

/// Returns a copy of the bytes with a space for each `+`.
fn with_spaces(alloc: Global, value: &[u8]) -> Result<Vec<u8>, AllocError>
    ensures { IfOk result (λ text. text.items ≡ map plus_to_space value.now) }
{
    let mut text = Vec::new(alloc);
    for byte in value {
        text.push(if *byte == b'+' { b' ' } else { *byte })?;
    }
    Ok(text)
}

/// Decodes a value. Its bytes need not be UTF-8.
fn decoded(alloc: Global, value: &[u8]) -> Result<Sequence<u8>, AllocError>
    ensures { IfOk result (λ text. text ≡ decode value.now) }
{
    let encoded = with_spaces(alloc, value)?;
    let mut text = Vec::new(alloc);
    percent_decode(encoded.as_slice()).append_to(&mut text)?;
    Ok(Sequence::of(text))
}
