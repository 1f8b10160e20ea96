//! Unquoting: the bytes that an argument stands for.

ghost use Rattle.std.specs.Prelude.{◌≡◌, IfOk, IfErr, IfSome};
ghost use Rattle.click_text.specs.Faults.{no_memory};
ghost use Rattle.click_text.specs.Spans.{without_ends};
ghost use Rattle.click_text.specs.Unquote.{escaped, to, stepped, is_clear, unescaped, plain_item, IsPlain};
ghost use Rattle.click_text.specs.kept.Unescaping.{fits_digit, IsExtendedBy};

use crate::items::{ItemKind, first_item};
use crate::syntax::TextFault;
use click_base::hex_digit_value;
use std::alloc::{AllocError, Global};

/// The state of unescaping after some bytes: what is open.
#[derive(Clone, Copy, Debug, PartialEq, Eq)]
pub enum Escape {
    /// Neither `\` nor `\<..>`.
    Clear,
    /// A `\`.
    Backslash,
    /// `\<..>`, after an even number of digits.
    Digits,
    /// `\<..>`, after an odd number of digits. The field is the value of the last one.
    Half(u8),
}

/// The state after a byte, and the byte that it adds to the result.
#[derive(Clone, Copy, Debug, PartialEq, Eq)]
struct Step {
    state: Escape,
    adds: Option<u8>,
}

impl Step {
    fn to(state: Escape, adds: Option<u8>) -> Step
        ensures { result ≡ to state adds }
    {
        Step { state, adds }
    }
}

/// Returns the byte that `\` followed by this byte stands for.
fn escaped(byte: u8) -> u8
    ensures { result ≡ escaped byte }
{
    match byte {
        b'n' => b'\n',
        b'r' => b'\r',
        b't' => b'\t',
        _ => byte,
    }
}

impl Escape {
    /// Returns the step that a byte makes, or `None` for bad quoting.
    fn after(self, byte: u8) -> Option<Step>
        requires { fits_digit self }
        ensures step { result ≡ stepped self byte }
        ensures fits { IfSome result (λ step. fits_digit step.state) }
    {
        match self {
            Escape::Clear if byte == b'\\' => Some(Step::to(Escape::Backslash, None)),
            Escape::Clear => Some(Step::to(Escape::Clear, Some(byte))),
            Escape::Backslash if byte == b'<' => Some(Step::to(Escape::Digits, None)),
            Escape::Backslash => Some(Step::to(Escape::Clear, Some(escaped(byte)))),
            Escape::Digits if byte == b'>' => Some(Step::to(Escape::Clear, None)),
            Escape::Digits if byte == b' ' => Some(Step::to(Escape::Digits, None)),
            Escape::Digits => Some(Step::to(Escape::Half(hex_digit_value(byte)?), None)),
            Escape::Half(high) if byte == b' ' => Some(Step::to(Escape::Half(high), None)),
            Escape::Half(high) => Some(Step::to(
                Escape::Digits,
                Some(16 * high + hex_digit_value(byte)?),
            )),
        }
    }

    /// Returns whether nothing is open.
    fn is_clear(self) -> bool
        ensures { result ≡ is_clear self }
    {
        match self {
            Escape::Clear => true,
            _ => false,
        }
    }
}

/// Appends the bytes that `bytes`, with escapes in them, stand for.
///
/// Returns false for bad quoting; `to` may have grown then.
fn push_unescaped(to: &mut Vec<u8>, bytes: &[u8]) -> Result<bool, AllocError>
    ensures { IfOk result (λ good. IsExtendedBy good (unescaped Escape.Clear bytes.now) to.old.items to.new.items) }
{
    let mut escape = Escape::Clear;
    for byte in bytes {
        let Some(step) = escape.after(*byte) else {
            return Ok(false);
        };
        if let Some(added) = step.adds {
            to.push(added)?;
        }
        escape = step.state;
    }
    Ok(escape.is_clear())
}

/// Returns the bytes without the first and the last one.
fn without_ends(bytes: &[u8]) -> &[u8]
    ensures { result.now ≡ without_ends bytes.now }
{
    match bytes {
        [_, inside @ .., _] => inside,
        _ => &[],
    }
}

/// Appends the bytes that an item stands for.
///
/// Returns false for bad quoting; `to` may have grown then.
fn push_plain(to: &mut Vec<u8>, kind: ItemKind, bytes: &[u8]) -> Result<bool, AllocError>
    ensures { IfOk result (λ good. IsExtendedBy good (plain_item kind bytes.now) to.old.items to.new.items) }
{
    match kind {
        ItemKind::Double => return push_unescaped(to, without_ends(bytes)),
        ItemKind::Hexadecimal => return push_unescaped(to, bytes),
        ItemKind::Single => to.extend_from_slice(without_ends(bytes))?,
        ItemKind::Comment => to.push(b' ')?,
        ItemKind::White | ItemKind::Byte(_) => to.extend_from_slice(bytes)?,
    }
    Ok(true)
}

/// Does what `unquote` does, with `AllocError` as its error.
fn plain_of(alloc: Global, argument: &[u8]) -> Result<Option<Vec<u8>>, AllocError>
    ensures { IfOk result (λ bytes. IsPlain argument.now bytes) }
{
    let mut bytes = Vec::new(alloc);
    let mut at = 0;
    'items: while at < argument.len() {
        let rest = &argument[at..];
        let (kind, len) = first_item(rest);
        if !push_plain(&mut bytes, kind, &rest[..len])? {
            return Ok(None);
        }
        at += len;
    }
    Ok(Some(bytes))
}

/// Returns the bytes that an argument stands for, or `None` for bad quoting.
///
/// The rules are those of the Click manual, "Configuration strings". Outside quotes a byte stands
/// for itself, and a comment stands for one space. A quote `'..'` stands for the bytes in it. A
/// quote `\<..>` stands for the bytes that its hexadecimal digits spell; spaces in it are skipped.
/// In `".."`, the escapes `\n`, `\r` and `\t` stand for LF, CR and tab, and `\<..>` is read as
/// outside. A `\` before any other byte stands for that byte.
pub fn unquote(alloc: Global, argument: &[u8]) -> Result<Option<Vec<u8>>, TextFault>
    ensures ok { IfOk result (λ bytes. IsPlain argument.now bytes) }
    // The only error is out of memory.
    ensures err { IfErr result (λ f. f ≡ no_memory) }
{
    Ok(plain_of(alloc, argument)?)
}
