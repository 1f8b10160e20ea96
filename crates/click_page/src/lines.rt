//! The lines of metrics in Prometheus' text format 0.0.4.

ghost use Rattle.std.specs.Prelude.{◌≡◌, ◌++◌, OnOk};
ghost use Rattle.click_page.specs.Lines as spec;

use crate::sample::Sample;
use std::alloc::AllocError;

/// Returns whether the values of read handlers of this name may fall.
pub(crate) fn is_level(handler: &[u8]) -> bool
    ensures { result ≡ spec.is_listed spec.levels handler.now }
{
    handler == b"length".as_slice()
        || handler == b"highwater_length".as_slice()
        || handler == b"capacity".as_slice()
        || handler == b"switch".as_slice()
}

/// Returns whether the values of read handlers of this name only grow until they are reset.
pub(crate) fn is_total(handler: &[u8]) -> bool
    ensures { result ≡ spec.is_listed spec.totals handler.now }
{
    handler == b"count".as_slice()
        || handler == b"byte_count".as_slice()
        || handler == b"drops".as_slice()
}

/// Returns whether there are bytes, and all of them are decimal digits.
fn are_digits(bytes: &[u8]) -> bool
    ensures { result ≡ spec.are_digits bytes.now }
{
    if bytes.is_empty() {
        return false;
    }
    for byte in bytes {
        if !byte.is_ascii_digit() {
            return false;
        }
    }
    true
}

/// Returns whether the bytes are a decimal number, which may have a sign.
pub(crate) fn is_number(bytes: &[u8]) -> bool
    ensures { result ≡ spec.is_number bytes.now }
{
    match bytes {
        [b'-', digits @ ..] => are_digits(digits),
        _ => are_digits(bytes),
    }
}

/// Appends a byte of a label's value, escaped if it has a meaning there.
fn push_escaped_byte(text: &mut Vec<u8>, byte: u8) -> Result<(), AllocError>
    ensures { OnOk result (text.new.items ≡ text.old.items ++ spec.escaped_byte byte) }
{
    match byte {
        b'\\' => text.extend_from_slice(b"\\\\")?,
        b'"' => text.extend_from_slice(b"\\\"")?,
        b'\n' => text.extend_from_slice(b"\\n")?,
        _ => text.push(byte)?,
    }
    Ok(())
}

/// Appends the value of a label, escaped. Fails with out of memory.
pub fn push_escaped(text: &mut Vec<u8>, bytes: &[u8]) -> Result<(), AllocError>
    ensures { OnOk result (text.new.items ≡ text.old.items ++ spec.escaped bytes.now) }
{
    for byte in bytes {
        push_escaped_byte(text, *byte)?;
    }
    Ok(())
}

/// Appends the line of a metric for a sample with this value.
pub(crate) fn push_value_line(
    text: &mut Vec<u8>,
    metric: &[u8],
    sample: &Sample,
    value: &[u8],
) -> Result<(), AllocError>
    ensures { OnOk result (text.new.items ≡ text.old.items ++ spec.value_line metric.now sample.now value.now) }
{
    text.extend_from_slice(metric)?;
    text.extend_from_slice(b"{element=\"")?;
    push_escaped(text, sample.element.as_slice())?;
    text.extend_from_slice(b"\",class=\"")?;
    push_escaped(text, sample.class.name())?;
    text.extend_from_slice(b"\",handler=\"")?;
    push_escaped(text, sample.handler.as_slice())?;
    text.extend_from_slice(b"\"} ")?;
    text.extend_from_slice(value)?;
    text.extend_from_slice(b"\n")?;
    Ok(())
}
